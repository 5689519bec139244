//! Numbers of at most three digits after the point, from JSON to text.
ghost use Rattle.std.specs.Prelude.{◌≡◌, ◌++◌, decimal, OnOk};
ghost use Rattle.serde_json.specs.View.{view};
ghost use Rattle.octo_api_commands.specs.Decimals.{nearest_thousandths, checked_thousandths, thousandths_of, decimal_of, as_decimal, fraction_text, sign_text, decimal_text};

use itoa::Buffer;
use octo_outside::Blob;
use serde_json::Value;
use std::alloc::AllocError;
use std::num::saturating_f64_to_u32;

// Where numbers below zero begin.
const ZERO: f64 = 0.0;

// What is added before a fraction is dropped, so that it is rounded.
const HALF: f64 = 0.5;

// The thousandths of 1.
const THOUSAND: f64 = 1000.0;

// The most thousandths of a number: 99999.999.
const MOST_THOUSANDTHS: u32 = 99_999_999;

/// A number of at most three digits after the point: its sign and its thousandths, at most 99,999,999.
#[derive(Clone, Copy, Debug, PartialEq, Eq)]
pub struct Decimal {
    pub minus: bool,
    pub thousandths: u32,
}

// The thousandths that a float is nearest to.
fn nearest_thousandths(x: f64) -> u32
    ensures { result ≡ nearest_thousandths x }
{
    saturating_f64_to_u32(x * THOUSAND + HALF)
}

// This number of thousandths, if the float is the one nearest to it.
fn checked_thousandths(x: f64, thousandths: u32) -> Option<u32>
    ensures { result ≡ checked_thousandths x thousandths }
{
    if f64::from(thousandths) / THOUSAND == x && thousandths <= MOST_THOUSANDTHS {
        return Some(thousandths);
    }
    None
}

// The thousandths of a float that isn't below zero.
pub(crate) fn thousandths_of(x: f64) -> Option<u32>
    ensures { result ≡ thousandths_of x }
{
    checked_thousandths(x, nearest_thousandths(x))
}

// A float as such a number.
fn decimal_of(x: f64) -> Option<Decimal>
    ensures { result ≡ decimal_of x }
{
    if x < ZERO {
        let thousandths = thousandths_of(-x)?;
        return Some(Decimal {
            minus: true,
            thousandths,
        });
    }
    let thousandths = thousandths_of(x)?;
    Some(Decimal {
        minus: false,
        thousandths,
    })
}

/// A JSON number as a number of at most three digits after the point, up to 99999.999; `None` if it is another.
pub fn as_decimal(found: &Value) -> Option<Decimal>
    ensures { result ≡ as_decimal (view found.now) }
{
    decimal_of(found.as_f64()?)
}

// Adds the digits of a number.
pub(crate) fn add_number(line: &mut Blob, number: u32) -> Result<(), AllocError>
    ensures { OnOk result (line.new ≡ line.old ++ decimal number) }
{
    let mut buffer = Buffer::new();
    line.append(buffer.format(number).as_bytes())
}

// Adds the digits after the point, of a number of thousandths below 1000.
fn add_fraction(line: &mut Blob, fraction: u32) -> Result<(), AllocError>
    ensures { OnOk result (line.new ≡ line.old ++ fraction_text fraction) }
{
    if fraction == 0 {
        return Ok(());
    }
    line.append(b".")?;
    add_number(line, fraction / 100)?;
    if fraction % 100 == 0 {
        return Ok(());
    }
    add_number(line, fraction / 10 % 10)?;
    if fraction % 10 == 0 {
        return Ok(());
    }
    add_number(line, fraction % 10)
}

// Adds a sign.
fn add_sign(line: &mut Blob, minus: bool) -> Result<(), AllocError>
    ensures { OnOk result (line.new ≡ line.old ++ sign_text minus) }
{
    if minus {
        return line.append(b"-");
    }
    Ok(())
}

// Adds the text of a number.
pub(crate) fn add_decimal(line: &mut Blob, number: Decimal) -> Result<(), AllocError>
    ensures { OnOk result (line.new ≡ line.old ++ decimal_text number) }
{
    add_sign(line, number.minus)?;
    add_number(line, number.thousandths / 1000)?;
    add_fraction(line, number.thousandths % 1000)
}
