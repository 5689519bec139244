//! One line by itself, as a user types it.
ghost use Rattle.std.specs.Prelude.{◌≡◌, IfOk, MatchResult, Ok, Err};
ghost use Rattle.byte_text.specs.Sendable.{IsSendable};
ghost use Rattle.gcode_lines.specs.Single.{single_of};

use crate::fault::NotOne;
use crate::text::{command_text, has_control, is_too_long};
use byte_text::{Text, bounded_text, has_byte, has_m110};

/// The one command of a line, read as a line of a file is, or the first rule of `NotOne` that the line breaks. It takes no memory.
#[tactic(auto, unfolding(crate::specs::Single::single_of), using(crate::proofs::Sendable::sendable_text))]
pub fn one_command(line: &[u8]) -> Result<Text, NotOne>
    ensures exact { MatchResult result (λ text. single_of line.now ≡ Ok text.items)
        (λ fault. single_of line.now ≡ Err fault) }
    ensures sendable { IfOk result (λ text. IsSendable text.items) }
{
    if has_byte(line, b'\n') {
        return Err(NotOne::LineEnd);
    }
    let text = command_text(line);
    if text.is_empty() {
        return Err(NotOne::Empty);
    }
    if has_m110(text) {
        return Err(NotOne::HasM110);
    }
    if is_too_long(text) {
        return Err(NotOne::TooLong);
    }
    if has_control(text) {
        return Err(NotOne::ControlByte);
    }
    Ok(bounded_text(text))
}
