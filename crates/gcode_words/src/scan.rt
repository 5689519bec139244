//! Where the words of a text come from.
ghost use Rattle.std.specs.Prelude.{◌≡◌};
ghost use Rattle.gcode_words.specs.Words.{words_of};
ghost use Rattle.gcode_words.specs.Left.{words_left};

use super::Words;

/// The words of a text: each letter, in upper case, with the number that follows it at once.
/// Bytes that begin no word are passed over; `E` is a letter like the others, never an exponent.
pub fn words(text: &[u8]) -> Words<'_>
    ensures { words_left result ≡ words_of text.now }
{
    Words { rest: text }
}
