//! Commands of JSON bodies, with parameters in the place of their names.
ghost use Rattle.std.specs.Prelude.{◌≡◌, ℕ, List, option_map};
ghost use Rattle.std.specs.List.{list_all};
ghost use Rattle.serde_json.specs.Data.{Data};
ghost use Rattle.serde_json.specs.View.{view};
ghost use Rattle.octo_api_commands.specs.Members.{Gives};
ghost use Rattle.octo_api_commands.specs.Commands.{as_command};
ghost use Rattle.octo_api_commands.specs.Filled.{is_plain_byte, is_plain, value_text, text_of_name, after_byte, at_end, filled, IsAfterByte, AddsText};

use crate::unread::Unread;
use itoa::Buffer;
use octo_api_routes::ascii_text;
use octo_outside::Blob;
use serde_json::Value;
use std::alloc::Global;

// Where in braces the next byte of a command is.
#[derive(Clone, Copy, Debug, PartialEq, Eq)]
pub(crate) enum Brace {
    // In none.
    Outside,
    // After `{`.
    Opened,
    // After `}`.
    Closed,
    // In the name after `{`.
    Named,
}

// Whether a word may have this byte.
fn is_plain_byte(byte: u8) -> bool
    ensures { result ≡ is_plain_byte byte }
{
    byte.is_ascii_alphanumeric() || b".-+_".contains(&byte)
}

// Whether a word may have all these bytes.
fn are_plain_bytes(text: &[u8]) -> bool
    ensures { result ≡ list_all is_plain_byte text.now }
{
    text.iter().all(|byte| is_plain_byte(*byte))
}

// Whether a text is a plain word: one or more such bytes.
fn is_plain(text: &[u8]) -> bool
    ensures { result ≡ is_plain text.now }
{
    text.len() >= 1 && are_plain_bytes(text)
}

// Adds the text of a parameter: a plain word, or a whole number.
fn add_value(written: &mut Blob, found: &Value) -> Result<(), Unread>
    ensures { AddsText (value_text (view found.now)) written.old written.new result }
{
    if let Some(text) = found.as_str() {
        if !is_plain(text.as_bytes()) {
            return Err(Unread::Wrong);
        }
        written.append(text.as_bytes())?;
        return Ok(());
    }
    let Some(number) = found.as_i64() else {
        return Err(Unread::Wrong);
    };
    let mut buffer = Buffer::new();
    written.append(buffer.format(number).as_bytes())?;
    Ok(())
}

// Adds the text of the parameter of this name.
fn add_parameter(written: &mut Blob, parameters: &Value, name: &[u8]) -> Result<(), Unread>
    ensures { AddsText (text_of_name (view parameters.now) name.now)
        written.old written.new result }
{
    let Some(text) = ascii_text(name) else {
        return Err(Unread::Wrong);
    };
    match parameters.get(text) {
        Some(found) => add_value(written, found),
        None => Err(Unread::Wrong),
    }
}

// A byte outside braces.
fn after_outside(written: &mut Blob, byte: u8) -> Result<Brace, Unread>
    ensures { (parameters : Data) (name : List ℕ) → IsAfterByte
        (after_byte parameters written.old name Brace.Outside byte) written.new name result }
{
    if byte == b'{' {
        return Ok(Brace::Opened);
    }
    if byte == b'}' {
        return Ok(Brace::Closed);
    }
    written.append(&[byte])?;
    Ok(Brace::Outside)
}

// A byte after `{`: another one is a brace, any other byte the first one of a name.
fn after_opened(written: &mut Blob, name: &mut Blob, byte: u8) -> Result<Brace, Unread>
    ensures { (parameters : Data) → IsAfterByte
        (after_byte parameters written.old name.old Brace.Opened byte)
        written.new name.new result }
{
    if byte == b'{' {
        written.append(&[byte])?;
        return Ok(Brace::Outside);
    }
    if byte == b'}' {
        return Err(Unread::Wrong);
    }
    name.clear();
    name.append(&[byte])?;
    Ok(Brace::Named)
}

// A byte after `}`, which has to be another one.
fn after_closed(written: &mut Blob, byte: u8) -> Result<Brace, Unread>
    ensures { (parameters : Data) (name : List ℕ) → IsAfterByte
        (after_byte parameters written.old name Brace.Closed byte) written.new name result }
{
    if byte != b'}' {
        return Err(Unread::Wrong);
    }
    written.append(&[byte])?;
    Ok(Brace::Outside)
}

// A byte in a name, or the `}` after it.
fn after_named(
    parameters: &Value,
    written: &mut Blob,
    name: &mut Blob,
    byte: u8,
) -> Result<Brace, Unread>
    ensures { IsAfterByte
        (after_byte (view parameters.now) written.old name.old Brace.Named byte)
        written.new name.new result }
{
    if byte == b'{' {
        return Err(Unread::Wrong);
    }
    if byte == b'}' {
        add_parameter(written, parameters, name.as_slice())?;
        return Ok(Brace::Outside);
    }
    name.append(&[byte])?;
    Ok(Brace::Named)
}

// What one more byte makes of a command.
fn after_byte(
    parameters: &Value,
    written: &mut Blob,
    name: &mut Blob,
    brace: Brace,
    byte: u8,
) -> Result<Brace, Unread>
    ensures { IsAfterByte (after_byte (view parameters.now) written.old name.old brace byte)
        written.new name.new result }
{
    match brace {
        Brace::Outside => after_outside(written, byte),
        Brace::Opened => after_opened(written, name, byte),
        Brace::Closed => after_closed(written, byte),
        Brace::Named => after_named(parameters, written, name, byte),
    }
}

// A command that has ended: outside braces.
fn at_end(written: Blob, brace: Brace) -> Result<Blob, Unread>
    ensures { Gives (at_end written brace) result }
{
    match brace {
        Brace::Outside => Ok(written),
        _ => Err(Unread::Wrong),
    }
}

// A command with the parameters in the place of their names.
#[tactic(auto, using(crate::proofs::Filling::fill_steps))]
fn filled(alloc: Global, parameters: &Value, text: &[u8]) -> Result<Blob, Unread>
    ensures { Gives (filled (view parameters.now) text.now) result }
{
    let mut written = Blob::new(alloc);
    let mut name = Blob::new(alloc);
    let mut brace = Brace::Outside;
    for byte in text {
        brace = after_byte(parameters, &mut written, &mut name, brace, *byte)?;
    }
    at_end(written, brace)
}

/// A command as it is sent: with the parameters, if there are some, in the place of their names. Fails if out
/// of memory, too.
pub fn command_of(alloc: Global, parameters: Option<&Value>, found: &Value) -> Result<Blob, Unread>
    ensures { Gives (as_command (option_map (λ given. view given.now) parameters.entry)
        (view found.now)) result }
{
    let Some(text) = found.as_str() else {
        return Err(Unread::Wrong);
    };
    match parameters {
        Some(given) => filled(alloc, given, text.as_bytes()),
        None => Ok(Blob::from_slice(alloc, text.as_bytes())?),
    }
}
