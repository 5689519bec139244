//! The parts of a numbered line. Each reading is total: on a line that isn't numbered it returns what its definition
//! says there, so callers ask `begins_with_n` first.
ghost use Rattle.std.specs.Prelude.{◌≡◌, ◌≤◌, ◌==◌, length};
ghost use Rattle.std.specs.List.{position_or_len, after_first, before_last, after_last};
ghost use Rattle.marlin_frame.specs.Frame.{letter_n, star, begins_with_n, has_checksum, checksum_matches, fails, n_parameter_of, has_second_n, line_number_of, after_first_digits, after_space, text_of};

use byte_text::{after, has_byte, has_m110, leading_digits, number, split_at_last, xor};

/// Whether the line is numbered: it begins with `N`.
pub fn begins_with_n(line: &[u8]) -> bool
    ensures { result ≡ begins_with_n line.now }
{
    line.starts_with(b"N")
}

/// Whether the line has a checksum: it holds a `*`.
#[tactic(auto, unfolding(crate::specs::Frame::has_checksum))]
pub fn has_checksum(line: &[u8]) -> bool
    ensures { result ≡ has_checksum line.now }
{
    has_byte(line, b'*')
}

// What is before and after the last `*`; if there is none, nothing before it and all after it.
fn around_last_star(line: &[u8]) -> (&[u8], &[u8])
    ensures before { result.0.now ≡ before_last (λ byte. byte == star) line.now }
    ensures after { result.1.now ≡ after_last (λ byte. byte == star) line.now }
{
    match split_at_last(line, b'*') {
        Some(parts) => parts,
        None => (&[], line),
    }
}

/// Whether the number after the last `*` is the exclusive or of all bytes before it.
#[tactic(auto, unfolding(crate::specs::Frame::checksum_matches, crate::specs::Frame::checked_part))]
pub fn checksum_matches(line: &[u8]) -> bool
    ensures { result ≡ checksum_matches line.now }
{
    let (checked, sum) = around_last_star(line);
    number(sum) == u32::from(xor(checked))
}

/// Whether the line is numbered and has no checksum or a wrong one.
#[tactic(auto, unfolding(crate::specs::Frame::fails))]
pub fn fails(line: &[u8]) -> bool
    ensures { result ≡ fails line.now }
{
    begins_with_n(line) && !(has_checksum(line) && checksum_matches(line))
}

// How many bytes are before the first `N`, all if there is none.
fn length_before_n(bytes: &[u8]) -> usize
    ensures { result ≡ position_or_len (λ byte. byte == letter_n) bytes.now }
{
    bytes.iter().take_while(|byte| **byte != b'N').count()
}

// What follows the first `N`, nothing if there is none.
fn after_first_n(bytes: &[u8]) -> &[u8]
    ensures { result.now ≡ after_first (λ byte. byte == letter_n) bytes.now }
{
    after(after(bytes, length_before_n(bytes)), 1)
}

/// The number after the `N` that the line begins with: 0 for no digits, 4,294,967,295 for everything above it.
#[tactic(auto, unfolding(crate::specs::Frame::n_parameter_of))]
pub fn n_parameter(line: &[u8]) -> u32
    ensures { result ≡ n_parameter_of line.now }
{
    number(after(line, 1))
}

/// Whether the line holds `M110` and an `N` at its fifth byte or later, after which its number is.
#[tactic(auto, unfolding(crate::specs::Frame::has_second_n))]
pub fn has_second_n(line: &[u8]) -> bool
    ensures { result ≡ has_second_n line.now }
{
    has_m110(line) && has_byte(after(line, 4), b'N')
}

/// The number that the line counts by: its N parameter, or in a line with `M110` the number after the first `N` at the
/// fifth byte or later, if there is one.
#[tactic(auto, unfolding(crate::specs::Frame::line_number_of))]
pub fn line_number(line: &[u8]) -> u32
    ensures { result ≡ line_number_of line.now }
{
    if has_second_n(line) {
        number(after_first_n(after(line, 4)))
    } else {
        n_parameter(line)
    }
}

// What follows the digits at the front.
#[tactic(auto, unfolding(crate::specs::Frame::after_first_digits))]
fn after_first_digits(bytes: &[u8]) -> &[u8]
    ensures { result.now ≡ after_first_digits bytes.now }
{
    after(bytes, leading_digits(bytes).len())
}

// The bytes without one space at the front, if there is one.
fn after_space(bytes: &[u8]) -> &[u8]
    ensures { result.now ≡ after_space bytes.now }
{
    if bytes.starts_with(b" ") {
        after(bytes, 1)
    } else {
        bytes
    }
}

/// The command of the line: after the `N`, its digits and one space, up to the last `*`.
#[tactic(auto, unfolding(crate::specs::Frame::text_of, crate::specs::Frame::checked_part))]
pub fn text(line: &[u8]) -> &[u8]
    ensures value { result.now ≡ text_of line.now }
    ensures within { length result.now ≤ length line.now }
{
    let (checked, _) = around_last_star(line);
    after_space(after_first_digits(after(checked, 1)))
}
