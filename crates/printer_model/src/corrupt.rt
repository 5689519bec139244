//! A line that was changed on its way.
ghost use Rattle.std.specs.Prelude.{◌≡◌};
ghost use Rattle.printer_model.specs.Corrupt.{next_digit, corrupted};

use byte_text::{Line, bounded_text};

// The next digit, with 0 after 9; another byte stays.
#[tactic(auto, unfolding(crate::specs::Corrupt::next_digit))]
fn next_digit(byte: u8) -> u8
    ensures { result ≡ next_digit byte }
{
    if byte.is_ascii_digit() {
        b'0' + (byte - b'0' + 1) % 10
    } else {
        byte
    }
}

/// The line whose last byte became the next digit.
#[tactic(auto, unfolding(crate::specs::Corrupt::corrupted))]
pub fn corrupted(line: &Line) -> Line
    ensures { result.items ≡ corrupted line.now.items }
{
    let mut copy = bounded_text(line.as_slice());
    if let Some(last) = copy.as_mut_slice().last_mut() {
        *last = next_digit(*last);
    }
    copy
}
