//! Marks in a line: a byte, the code that sets the line number, and the last place of a byte.
ghost use Rattle.std.specs.Prelude.{◌≡◌, ◌==◌, true, false, MatchOption};
ghost use Rattle.std.specs.List.{before_last, after_last};
ghost use Rattle.byte_text.specs.Marks.{has_byte, has_m110};

/// Whether the byte is in the bytes.
#[tactic(auto, unfolding(crate::specs::Marks::has_byte))]
pub fn has_byte(bytes: &[u8], byte: u8) -> bool
    ensures { result ≡ has_byte byte bytes.now }
{
    bytes.contains(&byte)
}

/// Whether the bytes hold `M110`, Marlin's code that sets the number of the last line.
#[tactic(auto, using(crate::proofs::MarkLaws::m110_steps))]
pub fn has_m110(bytes: &[u8]) -> bool
    ensures { result ≡ has_m110 bytes.now }
{
    for start in 0..bytes.len() {
        if bytes[start..].starts_with(b"M110") {
            return true;
        }
    }
    false
}

/// What is before and after the last place of the byte, or `None` if it is nowhere.
pub fn split_at_last(bytes: &[u8], byte: u8) -> Option<(&[u8], &[u8])>
    ensures none { MatchOption result
        (has_byte byte bytes.now ≡ false)
        (λ _. has_byte byte bytes.now ≡ true) }
    ensures before { MatchOption result
        (Unit {0})
        (λ parts. parts.0.now ≡ before_last (λ b. b == byte) bytes.now) }
    ensures after { MatchOption result
        (Unit {0})
        (λ parts. parts.1.now ≡ after_last (λ b. b == byte) bytes.now) }
{
    let mut end = bytes.len();
    while end > 0 {
        if bytes[end - 1] == byte {
            return Some((&bytes[..end - 1], &bytes[end..]));
        }
        end -= 1;
    }
    None
}
