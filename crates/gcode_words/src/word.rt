//! A word of a G-code line, and the words of a text.
ghost use Rattle.std.specs.Iterator.{YieldsFirst, item_count};
ghost use Rattle.std.specs.Prelude.{◌≡◌};
ghost use Rattle.gcode_words.specs.Words.{value_at, words_of};

use super::read_number;

/// A letter in upper case and the number that follows it at once, in millionths; None if no number follows.
#[derive(Clone, Copy, Debug, PartialEq, Eq)]
pub struct CodeWord {
    pub letter: u8,
    pub micro: Option<i64>,
}

/// The words that are left of a text, from the first on.
#[derive(Clone, Copy, Debug)]
pub struct Words<'a> {
    pub(crate) rest: &'a [u8],
}

impl<'a> Iterator for Words<'a> {
    ghost use Rattle.gcode_words.specs.Left.{words_left};

    type Item = CodeWord;

    ghost next_gives = { YieldsFirst words_left };

    ghost remaining = { item_count words_left };

    fn next(&mut self) -> Option<CodeWord> {
        while let [first, after @ ..] = self.rest {
            self.rest = after;
            if first.is_ascii_alphabetic() {
                return Some(CodeWord {
                    letter: first.to_ascii_uppercase(),
                    micro: read_value(after),
                });
            }
        }
        None
    }
}

// The number that follows at once, in millionths.
#[tactic(auto, unfolding(crate::specs::Words::value_at))]
fn read_value(text: &[u8]) -> Option<i64>
    ensures { result ≡ value_at text.now }
{
    let number = read_number(text)?;
    Some(number.micro)
}
