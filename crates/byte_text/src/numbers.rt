//! A number at the front of bytes.
ghost use Rattle.std.specs.Prelude.{◌≡◌, ◌≤◌, length};
ghost use Rattle.std.specs.Char.{is_ascii_digit};
ghost use Rattle.std.specs.List.{list_all, prefix_len};
ghost use Rattle.byte_text.specs.Number.{leading_digits, number_of, whole_number, number_in};

/// How many decimal digits are at the front.
pub fn digits_in_front(bytes: &[u8]) -> usize
    ensures value { result ≡ prefix_len is_ascii_digit bytes.now }
    ensures fits { result ≤ length bytes.now }
{
    bytes
        .iter()
        .take_while(|byte| byte.is_ascii_digit())
        .count()
}

/// The decimal digits at the front, none if the bytes begin with no digit.
#[tactic(auto, unfolding(crate::specs::Number::leading_digits))]
pub fn leading_digits(bytes: &[u8]) -> &[u8]
    ensures { result.now ≡ leading_digits bytes.now }
{
    &bytes[..digits_in_front(bytes)]
}

/// The number that the digits at the front write: 0 for none, and 4,294,967,295 for everything above it.
pub fn number(bytes: &[u8]) -> u32
    ensures { result ≡ number_of bytes.now }
{
    let mut value: u32 = 0;
    for byte in bytes {
        if !byte.is_ascii_digit() {
            return value;
        }
        let digit = u32::from(*byte - b'0');
        value = value.saturating_mul(10).saturating_add(digit);
    }
    value
}

/// Whether all bytes are decimal digits.
pub fn are_digits(bytes: &[u8]) -> bool
    ensures { result ≡ list_all is_ascii_digit bytes.now }
{
    bytes.iter().all(|byte| byte.is_ascii_digit())
}

/// The number that a text of 1 to `most` decimal digits writes, none for any other text.
pub fn whole_number(text: &str, most: usize) -> Option<u64>
    requires { most ≤ 19 }
    ensures { result ≡ whole_number text.now most }
{
    if text.is_empty() || text.len() > most || !are_digits(text.as_bytes()) {
        return None;
    }
    text.parse().ok()
}

/// The number that a text is: 1 to 10 digits, at most 4,294,967,295.
pub fn number_in(text: &str) -> Option<u32>
    ensures { result ≡ number_in text.now }
{
    match whole_number(text, 10) {
        Some(number) if number <= 4_294_967_295 => Some(number as u32),
        _ => None,
    }
}
