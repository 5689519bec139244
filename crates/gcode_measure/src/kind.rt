//! What a command is, by the code that it begins with.
ghost use Rattle.std.specs.Prelude.{◌≡◌};
ghost use Rattle.gcode_words.specs.Words.{words_of};
ghost use Rattle.gcode_measure.specs.Kind.{whole_number, g_kind, m_kind, kind_by, kind_of};

use gcode_words::{CodeWord, words};

// Millionths in one.
const MILLION: u64 = 1_000_000;

// How the values of moves are read.
#[derive(Clone, Copy, Debug, PartialEq, Eq)]
pub(crate) enum Mode {
    // A value is where the axis ends.
    Absolute,
    // A value is how far the axis goes.
    Relative,
}

// What a command does with modes and positions. Source: Marlin's G-code.
#[derive(Clone, Copy, Debug, PartialEq, Eq)]
pub(crate) enum Kind {
    // `G0` to `G3`: a move to an end point.
    Move,
    // `G20`: inches from here on.
    Inches,
    // `G28`: axes go to their end, which is 0.
    Home,
    // `G90`: all axes absolute.
    AllAbsolute,
    // `G91`: all axes relative.
    AllRelative,
    // `G92`: axes are set to these values.
    SetPosition,
    // `M82`: the extruder absolute.
    AbsoluteExtruder,
    // `M83`: the extruder relative.
    RelativeExtruder,
    // Any other command, which changes nothing here.
    Other,
}

// The number of a code in whole, None for any other value.
fn whole_number(micro: Option<i64>) -> Option<u64>
    ensures { result ≡ whole_number micro }
{
    match micro {
        Some(micro) if micro >= 0 && micro as u64 % MILLION == 0 => Some(micro as u64 / MILLION),
        _ => None,
    }
}

// What a `G` of this number is.
fn g_kind(number: Option<u64>) -> Kind
    ensures { result ≡ g_kind number }
{
    match number {
        Some(0..=3) => Kind::Move,
        Some(20) => Kind::Inches,
        Some(28) => Kind::Home,
        Some(90) => Kind::AllAbsolute,
        Some(91) => Kind::AllRelative,
        Some(92) => Kind::SetPosition,
        _ => Kind::Other,
    }
}

// What an `M` of this number is.
fn m_kind(number: Option<u64>) -> Kind
    ensures { result ≡ m_kind number }
{
    match number {
        Some(82) => Kind::AbsoluteExtruder,
        Some(83) => Kind::RelativeExtruder,
        _ => Kind::Other,
    }
}

// What a command is.
#[tactic(auto, unfolding(crate::specs::Kind::kind_of))]
pub(crate) fn read_kind(text: &[u8]) -> Kind
    ensures { result ≡ kind_of text.now }
{
    match words(text).next() {
        Some(
            CodeWord {
                letter: b'G',
                micro,
            },
        ) => g_kind(whole_number(micro)),
        Some(
            CodeWord {
                letter: b'M',
                micro,
            },
        ) => m_kind(whole_number(micro)),
        _ => Kind::Other,
    }
}
