//! Readings of bytes that several crates share: the checksum, numbers with their ceiling, marks in a line, characters and
//! parts; and the names and bounded texts that all crates share.
#![tactic(auto)]

mod chars;
mod laws;
mod marks;
mod name;
mod numbers;
mod parts;
mod texts;

ghost use Rattle.std.specs.Prelude.{◌≡◌};
ghost use Rattle.byte_text.specs.Xor.{xor_of};

pub use chars::{is_space, same_text, spaces_in_front};
pub use laws::{byte_law, m110_law, number_law, xor_law};
pub use marks::{has_byte, has_m110, split_at_last};
pub use name::{LongName, MOST_NAME_BYTES, Name};
pub use numbers::{are_digits, digits_in_front, leading_digits, number, number_in, whole_number};
pub use parts::after;
pub use texts::{
    Line, MOST_LINE_BYTES, MOST_TEXT_BYTES, ReplyLine, Text, append, append_decimal, append_number,
    bounded_text,
};

/// The exclusive or of all bytes, which Marlin's serial protocol takes as a line's checksum.
#[tactic(auto, unfolding(crate::specs::Xor::xor_of))]
pub fn xor(bytes: &[u8]) -> u8
    ensures { result ≡ xor_of bytes.now }
{
    let mut sum = 0;
    for byte in bytes {
        sum ^= *byte;
    }
    sum
}
