//! Keys, and texts of ASCII.
ghost use Rattle.std.specs.Prelude.{◌≡◌, true, false, MatchOption};
ghost use Rattle.std.specs.Char.{is_ascii_alphanumeric};
ghost use Rattle.std.specs.List.{list_all};
ghost use Rattle.octo_api_routes.specs.Ascii.{is_key, is_ascii_byte};

use std::str;

// The fewest bytes of a key.
const FEWEST_KEY: usize = 16;

// The most bytes of a key.
const MOST_KEY: usize = 64;

// Whether all bytes are ASCII letters and digits.
fn are_letters_or_digits(bytes: &[u8]) -> bool
    ensures { result ≡ list_all is_ascii_alphanumeric bytes.now }
{
    bytes.iter().all(|byte| byte.is_ascii_alphanumeric())
}

/// Whether a text is a caller's key: 16 to 64 letters and digits.
pub fn is_key(text: &str) -> bool
    ensures { result ≡ is_key text.now }
{
    text.len() >= FEWEST_KEY && text.len() <= MOST_KEY && are_letters_or_digits(text.as_bytes())
}

// Whether all bytes are ASCII.
fn is_ascii(bytes: &[u8]) -> bool
    ensures { result ≡ list_all is_ascii_byte bytes.now }
{
    bytes.iter().all(|byte| *byte < 128)
}

/// The bytes as a text if all of them are ASCII.
pub fn ascii_text(bytes: &[u8]) -> Option<&str>
    ensures { MatchOption result (list_all is_ascii_byte bytes.now ≡ false)
        (λ text. (text.now ≡ bytes.now) × (list_all is_ascii_byte bytes.now ≡ true)) }
{
    if !is_ascii(bytes) {
        return None;
    }
    match str::from_utf8(bytes) {
        Ok(text) => Some(text),
        Err(_) => unreachable!(),
    }
}
