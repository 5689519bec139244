//! The members of JSON bodies, one function for each kind. A missing member may have a default; a null isn't missing.
ghost use Rattle.std.specs.Prelude.{◌≡◌, ◌≤◌, IfSome, option_map};
ghost use Rattle.serde_json.specs.View.{view};
ghost use Rattle.octo_api_commands.specs.Members.{text_at, is_text_at, whole_float, as_whole, as_whole_in, flag_at};

use serde_json::Value;
use std::num::saturating_f64_to_u32;

/// A text.
pub fn text_at<'a>(body: &'a Value, key: &str) -> Option<&'a str>
    ensures { option_map (λ text. text.now) result ≡ text_at key.now (view body.now) }
{
    body.get(key).and_then(Value::as_str)
}

/// Whether a field is this text.
pub fn is_text_at(body: &Value, key: &str, text: &str) -> bool
    ensures { result ≡ is_text_at key.now text.now (view body.now) }
{
    match text_at(body, key) {
        Some(found) => found == text,
        None => false,
    }
}

// The whole number of 32 bits whose value a float has.
fn whole_float(x: f64) -> Option<u64>
    ensures { result ≡ whole_float x }
{
    let number = saturating_f64_to_u32(x);
    if f64::from(number) == x {
        return Some(u64::from(number));
    }
    None
}

// A whole number, by its value.
fn as_whole(found: &Value) -> Option<u64>
    ensures { result ≡ as_whole (view found.now) }
{
    match found.as_u64() {
        Some(number) => Some(number),
        None => whole_float(found.as_f64()?),
    }
}

/// A whole number in a range. One that is written with a point or an exponent, as `60.0`, counts by its value.
pub fn as_whole_in(found: &Value, least: u64, most: u64) -> Option<u64>
    ensures value { result ≡ as_whole_in least most (view found.now) }
    ensures most { IfSome result (λ number. number ≤ most) }
{
    let number = as_whole(found)?;
    if least <= number && number <= most {
        return Some(number);
    }
    None
}

/// A truth value, with a default.
pub fn flag_at(body: &Value, key: &str, default: bool) -> Option<bool>
    ensures { result ≡ flag_at key.now default (view body.now) }
{
    match body.get(key) {
        Some(found) => found.as_bool(),
        None => Some(default),
    }
}
