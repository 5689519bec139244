//! Moves by hand, as lines. Source: OctoPrint's REST API, printer operations.
ghost use Rattle.std.specs.Prelude.{◌≡◌, ◌++◌, ◌∷◌, [], Some, codes, option_map, option_and_then, OnOk, IfOk};
ghost use Rattle.serde_json.specs.Find.{as_str};
ghost use Rattle.serde_json.specs.View.{view, items_view};
ghost use Rattle.octo_api_commands.specs.Members.{Gives, whole_at};
ghost use Rattle.octo_api_commands.specs.Moves.{axis_at, usual_speed, jog_in, axis_text, jog_line, relative, jog_texts, jog_lines, axis_word, axes_text, as_axes, home_lines};

use crate::decimals::{Decimal, add_decimal, add_number, as_decimal};
use crate::lists::items_in;
use crate::members::{as_whole_in, flag_at};
use crate::unread::Unread;
use octo_asks::BlobList;
use octo_outside::Blob;
use serde_json::Value;
use std::alloc::{AllocError, Global};

// The speed of a move whose body names none, in millimetres a minute, and that of one that moves Z.
const USUAL_SPEED: u32 = 6000;

const USUAL_SPEED_OF_Z: u32 = 200;

// The most of a speed, in millimetres a minute.
const MOST_SPEED: u64 = 65535;

// A move by hand: how far or where to each axis moves, in millimetres, and the speed in millimetres a minute.
#[derive(Clone, Copy)]
pub(crate) struct Jog {
    pub x: Option<Decimal>,
    pub y: Option<Decimal>,
    pub z: Option<Decimal>,
    pub absolute: bool,
    pub speed: u32,
}

/// How far an axis is to move, `Some(None)` if the body doesn't name the axis.
pub fn axis_at(body: &Value, key: &str) -> Option<Option<Decimal>>
    ensures { result ≡ axis_at key.now (view body.now) }
{
    match body.get(key) {
        Some(found) => {
            let number = as_decimal(found)?;
            Some(Some(number))
        }
        None => Some(None),
    }
}

// The speed of a move whose body names none.
fn usual_speed(z: Option<Decimal>) -> u32
    ensures { result ≡ usual_speed z }
{
    if z.is_some() {
        return USUAL_SPEED_OF_Z;
    }
    USUAL_SPEED
}

/// A speed in millimetres a minute, with a default.
pub fn speed_at(body: &Value, default: u32) -> Option<u32>
    ensures { result ≡ whole_at (codes "speed") 1 65535 (Some default) (view body.now) }
{
    match body.get("speed") {
        Some(found) => {
            let number = as_whole_in(found, 1, MOST_SPEED)?;
            Some(number as u32)
        }
        None => Some(default),
    }
}

// What a body asks of the axes.
fn jog_in(body: &Value) -> Option<Jog>
    ensures { result ≡ jog_in (view body.now) }
{
    let x = axis_at(body, "x")?;
    let y = axis_at(body, "y")?;
    let z = axis_at(body, "z")?;
    let absolute = flag_at(body, "absolute", false)?;
    let speed = speed_at(body, usual_speed(z))?;
    if x.is_none() && y.is_none() && z.is_none() {
        return None;
    }
    Some(Jog {
        x,
        y,
        z,
        absolute,
        speed,
    })
}

// Adds an axis to a line, if it is to move.
fn add_axis(line: &mut Blob, letter: &[u8], number: Option<Decimal>) -> Result<(), AllocError>
    ensures { OnOk result (line.new ≡ line.old ++ axis_text letter.now number) }
{
    match number {
        Some(number) => {
            line.append(letter)?;
            add_decimal(line, number)
        }
        None => Ok(()),
    }
}

// The line of a move.
fn jog_line(alloc: Global, jog: &Jog) -> Result<Blob, AllocError>
    ensures { IfOk result (λ line. line ≡ jog_line jog.now) }
{
    let mut line = Blob::from_slice(alloc, b"G1")?;
    add_axis(&mut line, b" X", jog.x)?;
    add_axis(&mut line, b" Y", jog.y)?;
    add_axis(&mut line, b" Z", jog.z)?;
    line.append(b" F")?;
    add_number(&mut line, jog.speed)?;
    Ok(line)
}

// A list of one line.
pub(crate) fn one_line(alloc: Global, line: Blob) -> Result<BlobList, AllocError>
    ensures { IfOk result (λ texts. texts ≡ line ∷ []) }
{
    let mut texts = BlobList::new(alloc);
    texts.push(line)?;
    Ok(texts)
}

// A line after which positions are relative, and absolute again.
pub(crate) fn relative(alloc: Global, line: Blob) -> Result<BlobList, AllocError>
    ensures { IfOk result (λ texts. texts ≡ relative line) }
{
    let mut texts = one_line(alloc, Blob::from_slice(alloc, b"G91")?)?;
    texts.push(line)?;
    texts.push(Blob::from_slice(alloc, b"G90")?)?;
    Ok(texts)
}

// The lines of a move.
fn jog_texts(alloc: Global, jog: &Jog) -> Result<BlobList, AllocError>
    ensures { IfOk result (λ texts. texts ≡ jog_texts jog.now) }
{
    let line = jog_line(alloc, jog)?;
    if !jog.absolute {
        return relative(alloc, line);
    }
    let mut texts = one_line(alloc, Blob::from_slice(alloc, b"G90")?)?;
    texts.push(line)?;
    Ok(texts)
}

/// The lines of a move by hand. Fails if out of memory, too.
pub fn jog_lines(alloc: Global, body: &Value) -> Result<BlobList, Unread>
    ensures { Gives (jog_lines (view body.now)) result }
{
    let Some(jog) = jog_in(body) else {
        return Err(Unread::Wrong);
    };
    Ok(jog_texts(alloc, &jog)?)
}

// An axis as it stands in a line, after a space.
fn axis_word(found: &Value) -> Option<&'static [u8]>
    ensures { option_map (λ word. word.now) result
        ≡ option_and_then axis_word (as_str (view found.now)) }
{
    match found.as_str()? {
        "x" => Some(b" X"),
        "y" => Some(b" Y"),
        "z" => Some(b" Z"),
        _ => None,
    }
}

// The axes of a list, as they stand in a line.
fn axes_text(alloc: Global, values: &[Value]) -> Result<Blob, Unread>
    ensures { Gives (axes_text (items_view values.now)) result }
{
    let mut text = Blob::new(alloc);
    for value in values {
        let Some(word) = axis_word(value) else {
            return Err(Unread::Wrong);
        };
        text.append(word)?;
    }
    Ok(text)
}

// 1 to 3 axes.
fn as_axes(alloc: Global, found: &Value) -> Result<Blob, Unread>
    ensures { Gives (as_axes (view found.now)) result }
{
    match items_in(found, 1, 3) {
        Some(values) => axes_text(alloc, values),
        None => Err(Unread::Wrong),
    }
}

/// The line that homes 1 to 3 axes. Fails if out of memory, too.
pub fn home_lines(alloc: Global, body: &Value) -> Result<BlobList, Unread>
    ensures { Gives (home_lines (view body.now)) result }
{
    let Some(found) = body.get("axes") else {
        return Err(Unread::Wrong);
    };
    let axes = as_axes(alloc, found)?;
    let mut line = Blob::from_slice(alloc, b"G28")?;
    line.append(axes.as_slice())?;
    Ok(one_line(alloc, line)?)
}
