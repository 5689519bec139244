//! Decimal numbers, in whole millionths.
ghost use Rattle.std.specs.Prelude.{◌≡◌, ◌-◌, ◌^◌, ◌<◌, ◌≤◌, length, min, slice_index_or, IfSome, MatchOption, None, Some};
ghost use Rattle.byte_text.specs.Number.{decimal_value, leading_digits};
ghost use Rattle.gcode_words.specs.Value.{millionths, micro_of, after_digits, decimals_at, after_decimals, magnitude_at, is_negative, after_sign, number_at};

use byte_text::leading_digits;

// The greatest whole part that is read; what is above it reads as this number with no fraction.
const GREATEST_WHOLE: u64 = 9_000_000_000_000;

// Millionths in one.
const MILLION: u64 = 1_000_000;

/// A number that was read at the front of a text, in millionths, and what follows it.
#[derive(Clone, Copy, Debug)]
pub struct Number<'a> {
    pub micro: i64,
    pub rest: &'a [u8],
}

// A number without its sign, in millionths, and what follows it.
#[derive(Clone, Copy)]
struct Magnitude<'a> {
    micro: u64,
    rest: &'a [u8],
}

/// Reads the number at the front: a sign or none, digits, and after a point digits again, with one digit at least.
/// Decimals after the sixth are dropped. `None` if the bytes begin with no number.
#[tactic(auto, unfolding(crate::specs::Value::number_at))]
pub fn read_number(bytes: &[u8]) -> Option<Number<'_>>
    ensures { MatchOption result
        (number_at bytes.now ≡ None)
        (λ n. number_at bytes.now ≡ Some (record { micro = n.micro; rest = n.rest.now })) }
{
    let (negative, unsigned) = split_sign(bytes);
    let Magnitude { micro, rest } = read_magnitude(unsigned)?;
    let micro = if negative {
        -(micro as i64)
    } else {
        micro as i64
    };
    Some(Number { micro, rest })
}

// Whether `-` is at the front, and what follows a sign.
fn split_sign(bytes: &[u8]) -> (bool, &[u8])
    ensures negative { result.0 ≡ is_negative bytes.now }
    ensures rest { result.1.now ≡ after_sign bytes.now }
{
    match bytes {
        [b'-', unsigned @ ..] => (true, unsigned),
        [b'+', unsigned @ ..] => (false, unsigned),
        _ => (false, bytes),
    }
}

// Reads a number without a sign.
#[tactic(auto, unfolding(crate::specs::Value::magnitude_at))]
fn read_magnitude(bytes: &[u8]) -> Option<Magnitude<'_>>
    ensures value { MatchOption result
        (magnitude_at bytes.now ≡ None)
        (λ n. magnitude_at bytes.now ≡ Some (record { micro = n.micro; rest = n.rest.now })) }
    ensures bound { IfSome result (λ n. n.micro ≤ 9000001000000000000) }
{
    let (whole, after) = split_digits(bytes);
    let (decimals, rest) = split_decimals(after);
    if whole.is_empty() && decimals.is_empty() {
        return None;
    }
    Some(Magnitude {
        micro: micro(whole, decimals),
        rest,
    })
}

// The digits at the front, and what follows them.
#[tactic(auto, using(crate::proofs::Digits::digits_fit), unfolding(crate::specs::Value::after_digits))]
fn split_digits(bytes: &[u8]) -> (&[u8], &[u8])
    ensures digits { result.0.now ≡ leading_digits bytes.now }
    ensures rest { result.1.now ≡ after_digits bytes.now }
{
    let digits = leading_digits(bytes);
    (digits, &bytes[digits.len()..])
}

// The digits after a point at the front, and what follows them.
#[tactic(auto, unfolding(crate::specs::Value::decimals_at, crate::specs::Value::after_decimals))]
fn split_decimals(bytes: &[u8]) -> (&[u8], &[u8])
    ensures digits { result.0.now ≡ decimals_at bytes.now }
    ensures rest { result.1.now ≡ after_decimals bytes.now }
{
    match bytes {
        [b'.', fraction @ ..] => split_digits(fraction),
        _ => (&[], bytes),
    }
}

// The number in millionths that has these digits before and after its point.
#[tactic(auto, unfolding(crate::specs::Value::micro_of))]
fn micro(whole: &[u8], decimals: &[u8]) -> u64
    ensures value { result ≡ micro_of whole.now decimals.now }
    ensures bound { result ≤ 9000001000000000000 }
{
    let units = decimal_up_to(whole, GREATEST_WHOLE + 1);
    if units > GREATEST_WHOLE {
        return GREATEST_WHOLE * MILLION;
    }
    units * MILLION + first_decimals(decimals)
}

/// The number that digits write, and `most` if they write more.
pub fn decimal_up_to(digits: &[u8], most: u64) -> u64
    requires { most < 2 ^ 60 }
    ensures { result ≡ min (decimal_value digits.now) most }
{
    let mut value = 0;
    for digit in digits {
        value = (value * 10 + u64::from(digit.saturating_sub(b'0'))).min(most);
    }
    value
}

// The first six decimals in millionths.
#[tactic(auto, unfolding(crate::specs::Value::millionths))]
fn first_decimals(decimals: &[u8]) -> u64
    ensures value { result ≡ millionths decimals.now }
    ensures bound { result ≤ 1000000000 }
{
    let mut value = 0;
    for place in 0..6 {
        value = value * 10 + digit_at(decimals, place);
    }
    value
}

// The digit at a place, 0 past the end.
fn digit_at(digits: &[u8], place: usize) -> u64
    ensures value { result ≡ slice_index_or digits.now place 48 - 48 }
    ensures bound { result ≤ 207 }
{
    let digit = digits.get(place).copied().unwrap_or(b'0');
    u64::from(digit.saturating_sub(b'0'))
}
