//! Percentages of speed and flow, extrusion, and the selection of a tool, as lines. Source: OctoPrint's REST API, printer
//! operations.
ghost use Rattle.std.specs.Prelude.{◌≡◌, ◌≤◌, IfOk, IfSome};
ghost use Rattle.serde_json.specs.View.{view};
ghost use Rattle.octo_api_commands.specs.Members.{Gives};
ghost use Rattle.octo_api_commands.specs.Moves.{as_percent, factor_at, factor_texts, feedrate_lines, flowrate_lines, amount_at, extrude_texts, extrude_lines, select_lines};

use crate::decimals::{Decimal, add_decimal, add_number, as_decimal, thousandths_of};
use crate::members::is_text_at;
use crate::moves::{one_line, relative, speed_at};
use crate::unread::Unread;
use octo_asks::BlobList;
use octo_outside::Blob;
use serde_json::Value;
use std::alloc::{AllocError, Global};

// The speed of an extrusion whose body names none, in millimetres a minute.
const EXTRUSION_SPEED: u32 = 300;

// A percentage: a whole number, or a part of 1 with a point.
fn as_percent(found: &Value) -> Option<u64>
    ensures { result ≡ as_percent (view found.now) }
{
    match found.as_u64() {
        Some(percent) => Some(percent),
        None => {
            let thousandths = thousandths_of(found.as_f64()?)?;
            Some(u64::from(thousandths / 10))
        }
    }
}

// A percentage in a range, of at most three digits.
fn factor_at(body: &Value, least: u64, most: u64) -> Option<u32>
    requires { most ≤ 999 }
    ensures { result ≡ factor_at least most (view body.now) }
{
    let percent = as_percent(body.get("factor")?)?;
    if least <= percent && percent <= most {
        return Some(percent as u32);
    }
    None
}

// A line of a percentage.
fn factor_texts(alloc: Global, code: &[u8], percent: u32) -> Result<BlobList, AllocError>
    ensures { IfOk result (λ texts. texts ≡ factor_texts code.now percent) }
{
    let mut line = Blob::from_slice(alloc, code)?;
    add_number(&mut line, percent)?;
    one_line(alloc, line)
}

/// The line that sets the speed of all moves, to 50 to 200 percent. Fails if out of memory, too.
pub fn feedrate_lines(alloc: Global, body: &Value) -> Result<BlobList, Unread>
    ensures { Gives (feedrate_lines (view body.now)) result }
{
    let Some(percent) = factor_at(body, 50, 200) else {
        return Err(Unread::Wrong);
    };
    Ok(factor_texts(alloc, b"M220 S", percent)?)
}

/// The line that sets the flow of the tool, to 75 to 125 percent. Fails if out of memory, too.
pub fn flowrate_lines(alloc: Global, body: &Value) -> Result<BlobList, Unread>
    ensures { Gives (flowrate_lines (view body.now)) result }
{
    let Some(percent) = factor_at(body, 75, 125) else {
        return Err(Unread::Wrong);
    };
    Ok(factor_texts(alloc, b"M221 S", percent)?)
}

/// The amount that is to be extruded, in millimetres of filament.
pub fn amount_at(body: &Value) -> Option<Decimal>
    ensures { result ≡ amount_at (view body.now) }
{
    as_decimal(body.get("amount")?)
}

// The lines of an extrusion.
fn extrude_texts(alloc: Global, amount: Decimal, speed: u32) -> Result<BlobList, AllocError>
    ensures { IfOk result (λ texts. texts ≡ extrude_texts amount speed) }
{
    let mut line = Blob::from_slice(alloc, b"G1 E")?;
    add_decimal(&mut line, amount)?;
    line.append(b" F")?;
    add_number(&mut line, speed)?;
    relative(alloc, line)
}

/// The lines of an extrusion. Fails if out of memory, too.
pub fn extrude_lines(alloc: Global, body: &Value) -> Result<BlobList, Unread>
    ensures { Gives (extrude_lines (view body.now)) result }
{
    let Some(amount) = amount_at(body) else {
        return Err(Unread::Wrong);
    };
    let Some(speed) = speed_at(body, EXTRUSION_SPEED) else {
        return Err(Unread::Wrong);
    };
    Ok(extrude_texts(alloc, amount, speed)?)
}

/// The line that selects the one tool. Fails if out of memory, too.
pub fn select_lines(alloc: Global, body: &Value) -> Result<BlobList, Unread>
    ensures { Gives (select_lines (view body.now)) result }
{
    if !is_text_at(body, "tool", "tool0") {
        return Err(Unread::Wrong);
    }
    let line = Blob::from_slice(alloc, b"T0")?;
    Ok(one_line(alloc, line)?)
}
