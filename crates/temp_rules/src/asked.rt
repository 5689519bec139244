//! The temperatures that a command asks for, by Marlin's `M104`, `M109`, `M140` and `M190`.
ghost use Rattle.std.specs.Prelude.{◌≡◌, ◌≤◌, [], length};
ghost use Rattle.std.specs.Bool.{OnFalse};
ghost use Rattle.gcode_words.specs.Words.{words_of};
ghost use Rattle.temp_rules.specs.Asked.{whole_part, first_code, asking_code, value_asked, asking_of, asked_of, degrees_up};
ghost use Rattle.temp_rules.specs.declared.heater.Heater.TheVariants.{Tool, Bed};

use super::heater::{Asking, Heater};
use gcode_words::{CodeWord, words};

// Millionths in one degree.
pub(crate) const MILLION: u64 = 1_000_000;

// Whether a command may ask a heater, as its first byte shows: most commands begin with another letter than `M`.
#[tactic(auto, unfolding(crate::specs::Asked::asked_of, crate::specs::Asked::asking_of))]
pub(crate) fn may_ask(text: &[u8]) -> bool
    ensures tool { OnFalse result (asked_of Tool text.now ≡ []) }
    ensures bed { OnFalse result (asked_of Bed text.now ≡ []) }
{
    match text {
        [first, ..] => !first.is_ascii_alphabetic() || first.to_ascii_uppercase() == b'M',
        [] => false,
    }
}

// How a command asks a heater, None if it does not.
#[tactic(auto, unfolding(crate::specs::Asked::asking_of))]
pub(crate) fn read_asking(text: &[u8], heater: Heater) -> Option<Asking>
    ensures { result ≡ asking_of heater text.now }
{
    find_asking(heater, read_code(text))
}

// The whole part of the number of the `M` that a text begins with.
fn read_code(text: &[u8]) -> Option<u64>
    ensures { result ≡ first_code (words_of text.now) }
{
    match words(text).next() {
        Some(
            CodeWord {
                letter: b'M',
                micro,
            },
        ) => whole_degrees(micro),
        _ => None,
    }
}

fn whole_degrees(micro: Option<i64>) -> Option<u64>
    ensures { result ≡ whole_part micro }
{
    match micro {
        Some(micro) if micro >= 0 => Some(micro as u64 / MILLION),
        _ => None,
    }
}

fn find_asking(heater: Heater, code: Option<u64>) -> Option<Asking>
    ensures { result ≡ asking_code heater code }
{
    match (heater, code) {
        (Heater::Tool, Some(104)) | (Heater::Bed, Some(140)) => Some(Asking::Set),
        (Heater::Tool, Some(109)) | (Heater::Bed, Some(190)) => Some(Asking::Wait),
        _ => None,
    }
}

impl Asking {
    // The value that a word asks for, in millionths of a degree.
    pub(crate) fn value(self, word: CodeWord) -> Option<i64>
        ensures { result ≡ value_asked self word }
    {
        match (self, word.letter) {
            (_, b'S') | (Asking::Wait, b'R') => word.micro,
            _ => None,
        }
    }
}

// Whole degrees, rounded up, 0 for what is not above 0.
pub(crate) fn round_up(micro: i64) -> u64
    ensures { result ≡ degrees_up micro }
{
    if micro <= 0 {
        return 0;
    }
    (micro as u64 + (MILLION - 1)) / MILLION
}
