//! The command that the arguments are.
ghost use Rattle.std.specs.Prelude.{◌≡◌, codes, map, IfOk};
ghost use Rattle.std.specs.Str.{bytes_eq};
ghost use Rattle.clap.specs.Words.{found_of, rows_of};
ghost use Rattle.octo_words.specs.Words.{IsInRange, Reads, has_progress, progress_of, print_of, check_of, demo_of, measure_of, rest_of, serve_of, floor_of, command_named, command_of};

use crate::command::{Command, WordsFault};
use crate::fields::{file_in, name_in, number_in, optional_file_in, text_in, turns_in};
use crate::parse::{parse, texts_of};
use crate::replies::lost_in;
use clap::ArgMatches;
use octo_outside::WordList;
use std::alloc::Global;

pub(crate) const MOST_SEED: u64 = 2_147_483_647;

pub(crate) const MOST_COMMANDS: u64 = 200_000;

pub(crate) const MOST_PLACE: u64 = 9_999_999_999_999;

// The command `print`, or `sure`.
fn read_print(alloc: Global, found: &ArgMatches<'_>, sure: bool) -> Result<Command, WordsFault>
    ensures read { Reads (print_of sure (rows_of (found_of found.now))) result }
    ensures range { IfOk result IsInRange }
{
    let port = name_in(found, "port")?;
    let file = file_in(alloc, found, "file")?;
    let turns = turns_in(found, "turns")?;
    let settings = optional_file_in(alloc, found, "settings")?;
    Ok(Command::Print {
        port,
        file,
        turns,
        settings,
        sure,
    })
}

fn read_check(alloc: Global, found: &ArgMatches<'_>) -> Result<Command, WordsFault>
    ensures read { Reads (check_of (rows_of (found_of found.now))) result }
    ensures range { IfOk result IsInRange }
{
    let file = file_in(alloc, found, "file")?;
    let settings = optional_file_in(alloc, found, "settings")?;
    Ok(Command::Check { file, settings })
}

fn read_demo(alloc: Global, found: &ArgMatches<'_>) -> Result<Command, WordsFault>
    ensures read { Reads (demo_of (rows_of (found_of found.now))) result }
    ensures range { IfOk result IsInRange }
{
    let seed = number_in(found, "seed", 0, MOST_SEED)?;
    let commands = number_in(found, "commands", 0, MOST_COMMANDS)?;
    let lost = lost_in(alloc, found, "lost-replies")?;
    Ok(Command::Demo {
        seed: seed as u32,
        commands: commands as u32,
        lost,
    })
}

fn read_measure(alloc: Global, found: &ArgMatches<'_>) -> Result<Command, WordsFault>
    ensures read { Reads (measure_of (rows_of (found_of found.now))) result }
    ensures range { IfOk result IsInRange }
{
    let file = file_in(alloc, found, "file")?;
    Ok(Command::Measure { file })
}

fn read_rest(alloc: Global, found: &ArgMatches<'_>) -> Result<Command, WordsFault>
    ensures read { Reads (rest_of (rows_of (found_of found.now))) result }
    ensures range { IfOk result IsInRange }
{
    let file = file_in(alloc, found, "file")?;
    let command = number_in(found, "command", 0, MOST_PLACE)?;
    Ok(Command::Rest { file, command })
}

fn read_serve(alloc: Global, found: &ArgMatches<'_>) -> Result<Command, WordsFault>
    ensures read { Reads (serve_of (rows_of (found_of found.now))) result }
    ensures range { IfOk result IsInRange }
{
    let address = name_in(found, "address")?;
    let folder = name_in(found, "folder")?;
    let database = name_in(found, "database")?;
    let settings = file_in(alloc, found, "settings")?;
    Ok(Command::Serve {
        address,
        folder,
        database,
        settings,
    })
}

fn read_floor(alloc: Global, found: &ArgMatches<'_>) -> Result<Command, WordsFault>
    ensures read { Reads (floor_of (rows_of (found_of found.now))) result }
    ensures range { IfOk result IsInRange }
{
    let folder = name_in(found, "folder")?;
    let database = name_in(found, "database")?;
    let settings = file_in(alloc, found, "settings")?;
    let turns = turns_in(found, "turns")?;
    Ok(Command::Floor {
        folder,
        database,
        settings,
        turns,
    })
}

// The command of that name.
fn read_named(alloc: Global, name: &str, found: &ArgMatches<'_>) -> Result<Command, WordsFault>
    ensures read { Reads (command_named name.now (rows_of (found_of found.now))) result }
    ensures range { IfOk result IsInRange }
{
    match name {
        "print" => read_print(alloc, found, false),
        "sure" => read_print(alloc, found, true),
        "check" => read_check(alloc, found),
        "demo" => read_demo(alloc, found),
        "measure" => read_measure(alloc, found),
        "rest" => read_rest(alloc, found),
        "serve" => read_serve(alloc, found),
        "floor" => read_floor(alloc, found),
        _ => Err(WordsFault::BadWords),
    }
}

// The command that these texts are.
#[tactic(auto, unfolding(crate::specs::Words::command_of))]
fn read_texts<'a>(alloc: Global, texts: &'a [&'a str]) -> Result<Command, WordsFault>
    ensures read { Reads (command_of (map (λ w. w.now) texts.entry.now)) result }
    ensures range { IfOk result IsInRange }
{
    match parse(alloc, texts)?.subcommand() {
        Some((name, found)) => read_named(alloc, name, found),
        None => Err(WordsFault::BadWords),
    }
}

// Whether a text is the value of an option that is given.
fn is_true(text: &str) -> bool
    ensures { result ≡ bytes_eq text.now (codes "true") }
{
    text == "true"
}

// Whether a command's arguments have `--progress`.
fn has_progress(found: &ArgMatches<'_>) -> bool
    ensures { result ≡ has_progress (rows_of (found_of found.now)) }
{
    match text_in(found, "progress") {
        Some(text) => is_true(text),
        None => false,
    }
}

// Whether these texts, which are a command, ask for a print's progress.
#[tactic(auto, unfolding(crate::specs::Words::progress_of))]
fn texts_ask_progress<'a>(alloc: Global, texts: &'a [&'a str]) -> Result<bool, WordsFault>
    ensures { Reads (progress_of (map (λ w. w.now) texts.entry.now)) result }
{
    match parse(alloc, texts)?.subcommand() {
        Some((_, found)) => Ok(has_progress(found)),
        None => Err(WordsFault::BadWords),
    }
}

/// Whether the arguments, which are a command, have the option `--progress` of `print`. It changes nothing of the command that they are.
///
/// # Errors
///
/// `BadWords` only if the arguments have none of the forms of `Command`, and `NoMemory`.
pub fn asks_progress(alloc: Global, words: &WordList) -> Result<bool, WordsFault>
    ensures { Reads (progress_of words.now) result }
{
    let texts = texts_of(alloc, words)?;
    texts_ask_progress(alloc, texts.as_slice())
}

/// The command that the arguments are, without the program's name: one of those of `Command`.
///
/// Options may come anywhere after the command's name, also as `--x=v`, each at most once; `--` ends them. A value that
/// begins with `-`, other than `-` alone, follows `--` or `=`. A number has 1 to 13 digits.
///
/// # Errors
///
/// `BadWords` exactly if the arguments are no command, and `NoMemory`.
///
/// Source: the command lines that the Rust crate `clap` reads.
pub fn read_words(alloc: Global, words: &WordList) -> Result<Command, WordsFault>
    ensures read { Reads (command_of words.now) result }
    ensures range { IfOk result IsInRange }
{
    let texts = texts_of(alloc, words)?;
    read_texts(alloc, texts.as_slice())
}
