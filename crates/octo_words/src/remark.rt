//! What is said of arguments that are no command: the help or the version that they ask for, or what is wrong with them.
ghost use Rattle.std.specs.Prelude.{◌≡◌, ◌↔◌, false, map, IfOk, OnOk, IsTrue};
ghost use Rattle.byte_text.specs.Marks.{has_byte};
ghost use Rattle.clap.specs.Values.{kind_of};
ghost use Rattle.clap.specs.declared.error.kind.ErrorKind.TheVariants as kind;
ghost use Rattle.octo_words.specs.Remarks.{AsksForText, IsLine, IsLineOn, IsRemarkOn, IsSaidOf};

use crate::apps::helped_app;
use crate::fields::{MOST_TURNS, name_of, number_of, text_in};
use crate::parse::texts_of;
use crate::read::{MOST_COMMANDS, MOST_PLACE, MOST_SEED};
use clap::error::ErrorKind;
use clap::{ArgMatches, Error};
use octo_outside::{Blob, WordList};
use std::alloc::{AllocError, Global};

// How many bytes of an argument, or of what `clap` says of it, a line shows.
const MOST_SHOWN: usize = 200;

/// What is said of arguments that are no command.
#[derive(Drop)]
pub enum Remark {
    /// They ask for help or for the version: its text.
    Asked(Blob),
    /// An argument is unknown, missing or given twice, or a value may not be: a line that says which, with its line feed.
    Wrong(Blob),
}

// An argument whose value may not be.
#[derive(Clone, Copy)]
struct WrongValue<'a> {
    argument: &'a str,
    // What it has to be.
    need: &'a str,
    value: &'a str,
}

// Adds a byte, unless it is a control byte.
fn append_shown(line: &mut Blob, byte: u8) -> Result<(), AllocError>
    requires { has_byte 10 line.old ≡ false }
    ensures { OnOk result (has_byte 10 line.new ≡ false) }
{
    if byte < 32 || byte == 127 {
        return Ok(());
    }
    line.append(&[byte])
}

// Adds the first 200 bytes of a text, without control bytes.
fn append_plain(line: &mut Blob, text: &[u8]) -> Result<(), AllocError>
    requires { has_byte 10 line.old ≡ false }
    ensures { OnOk result (has_byte 10 line.new ≡ false) }
{
    for byte in text.iter().take(MOST_SHOWN) {
        append_shown(line, *byte)?;
    }
    Ok(())
}

// A line of the program of these parts.
fn line_of(alloc: Global, parts: &[&str]) -> Result<Blob, AllocError>
    ensures { IfOk result IsLine }
{
    let mut line = Blob::new(alloc);
    for part in parts {
        append_plain(&mut line, part.as_bytes())?;
    }
    line.append(b"\n")?;
    Ok(line)
}

// What `clap` says first.
fn first_said(text: &str) -> &str {
    let said = text.strip_prefix("error: ").unwrap_or(text);
    said.split_once("\n\n").map_or(said, |(first, _)| first)
}

// Whether a fault asks for help or for the version.
fn asks_for_text(error: &Error) -> bool
    ensures { IsTrue result ↔ AsksForText (kind_of error.now) }
{
    matches!(
        error.kind(),
        ErrorKind::DisplayHelp | ErrorKind::DisplayVersion
    )
}

// What is said of a fault that `clap` found.
fn remark_on_fault(alloc: Global, error: &Error) -> Result<Remark, AllocError>
    ensures { IfOk result (λ remark. (kind_of error.now ≡ kind.OutOfMemory → ⊥)
        × IsSaidOf (kind_of error.now) remark) }
{
    if error.kind() == ErrorKind::OutOfMemory {
        return Err(AllocError);
    }
    let text = format!(in alloc; "{error}")?;
    if asks_for_text(error) {
        return Ok(Remark::Asked(Blob::from_slice(alloc, text.as_bytes())?));
    }
    let line = line_of(alloc, &["octo: ", first_said(text.as_str())])?;
    Ok(Remark::Wrong(line))
}

// The value of an argument, if it is no name.
fn wrong_name<'a>(found: &ArgMatches<'a>, argument: &'a str) -> Option<WrongValue<'a>> {
    let value = text_in(found, argument)?;
    if name_of(value).is_some() {
        return None;
    }
    Some(WrongValue {
        argument,
        need: "a text of 1 to 100 bytes",
        value,
    })
}

// The value of an argument, if it is no number of that range, which `need` says.
fn wrong_number<'a>(
    found: &ArgMatches<'a>,
    argument: &'a str,
    least: u64,
    most: u64,
    need: &'a str,
) -> Option<WrongValue<'a>> {
    let value = text_in(found, argument)?;
    if number_of(least, most, value).is_some() {
        return None;
    }
    Some(WrongValue {
        argument,
        need,
        value,
    })
}

// The turns of a command, if they are no such number.
fn wrong_turns<'a>(found: &ArgMatches<'a>) -> Option<WrongValue<'a>> {
    wrong_number(
        found,
        "turns",
        1,
        MOST_TURNS,
        "a number from 1 to 4000000000000",
    )
}

// The value of an argument that lists replies. It is the last one of its command, so it isn't tested again.
fn listed_value<'a>(found: &ArgMatches<'a>, argument: &'a str) -> Option<WrongValue<'a>> {
    let value = text_in(found, argument)?;
    Some(WrongValue {
        argument,
        need: "numbers that rise, with commas between, or -",
        value,
    })
}

// The first value of a command that may not be.
fn wrong_value<'a>(command: &str, found: &ArgMatches<'a>) -> Option<WrongValue<'a>> {
    match command {
        "print" | "sure" => wrong_name(found, "port").or(wrong_turns(found)),
        "demo" => wrong_number(found, "seed", 0, MOST_SEED, "a number from 0 to 2147483647")
            .or(wrong_number(
                found,
                "commands",
                0,
                MOST_COMMANDS,
                "a number from 0 to 200000",
            ))
            .or(listed_value(found, "lost-replies")),
        "rest" => wrong_number(
            found,
            "command",
            0,
            MOST_PLACE,
            "a number of at most 13 digits",
        ),
        "serve" => wrong_name(found, "address")
            .or(wrong_name(found, "folder"))
            .or(wrong_name(found, "database")),
        "floor" => wrong_name(found, "folder")
            .or(wrong_name(found, "database"))
            .or(wrong_turns(found)),
        _ => None,
    }
}

// The line on a value.
fn line_of_value(alloc: Global, wrong: WrongValue<'_>) -> Result<Blob, AllocError>
    ensures { IfOk result IsLine }
{
    line_of(
        alloc,
        &[
            "octo: ",
            wrong.argument,
            " has to be ",
            wrong.need,
            ", not: ",
            wrong.value,
        ],
    )
}

// What is said of arguments that name what the program has.
fn remark_on_values(alloc: Global, found: &ArgMatches<'_>) -> Result<Remark, AllocError>
    ensures { IfOk result IsLineOn }
{
    if let Some((name, values)) = found.subcommand()
        && let Some(wrong) = wrong_value(name, values)
    {
        return Ok(Remark::Wrong(line_of_value(alloc, wrong)?));
    }
    Ok(Remark::Wrong(line_of(alloc, &["octo: the arguments are no command"])?))
}

// What is said of these texts.
fn remark_on_texts<'a>(alloc: Global, texts: &'a [&'a str]) -> Result<Remark, AllocError>
    ensures { IfOk result (IsRemarkOn (map (λ w. w.now) texts.entry.now)) }
{
    match helped_app(alloc)?.try_get_matches_from(texts) {
        Ok(found) => remark_on_values(alloc, &found),
        Err(error) => remark_on_fault(alloc, &error),
    }
}

/// What is said of arguments that are no command, without the program's name.
///
/// `--help`, `-h`, `help`, `help COMMAND` and `COMMAND --help` ask for help, `--version` and `-V` for the version. Otherwise one
/// line says which argument is wrong, without control bytes. Fails if out of memory.
///
/// Source: the command lines that the Rust crate `clap` reads, and its messages.
pub fn remark_on(alloc: Global, words: &WordList) -> Result<Remark, AllocError>
    ensures { IfOk result (IsRemarkOn words.now) }
{
    let texts = texts_of(alloc, words)?;
    remark_on_texts(alloc, texts.as_slice())
}
