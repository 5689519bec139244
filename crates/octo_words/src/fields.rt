//! The operands and options of a command.
ghost use Rattle.std.specs.Prelude.{◌≡◌, ◌≤◌, option_map, option_and_then, codes, IfOk};
ghost use Rattle.clap.specs.Words.{first_of, found_of, rows_of};
ghost use Rattle.byte_text.specs.Number.{in_range};
ghost use Rattle.octo_words.specs.Words.{Reads, is_name, name_of, number_of, turns_of};

use crate::command::{FilePath, WordsFault};
use byte_text::{Name, whole_number};
use clap::ArgMatches;
use std::alloc::{AllocError, Global};

// The turns of a print that names none: about eleven days if nothing is heard.
const TURNS: u64 = 1_000_000_000;

pub(crate) const MOST_TURNS: u64 = 4_000_000_000_000;

const MOST_DIGITS: usize = 13;

// The text of an argument.
pub(crate) fn text_in<'a>(found: &ArgMatches<'a>, id: &str) -> Option<&'a str>
    ensures { option_map (λ s. s.now) result ≡ first_of id.now (rows_of (found_of found.now)) }
{
    found.get_str(id)
}

// The path of a file that must be given.
pub(crate) fn file_in(
    alloc: Global,
    found: &ArgMatches<'_>,
    id: &str,
) -> Result<FilePath, WordsFault>
    ensures { Reads (first_of id.now (rows_of (found_of found.now))) result }
{
    match text_in(found, id) {
        Some(text) => Ok(FilePath::from_text(alloc, text)?),
        None => Err(WordsFault::BadWords),
    }
}

// The path of a file that may be left out.
pub(crate) fn optional_file_in(
    alloc: Global,
    found: &ArgMatches<'_>,
    id: &str,
) -> Result<Option<FilePath>, AllocError>
    ensures { IfOk result (λ path. path ≡ first_of id.now (rows_of (found_of found.now))) }
{
    match text_in(found, id) {
        Some(text) => Ok(Some(FilePath::from_text(alloc, text)?)),
        None => Ok(None),
    }
}

// A text as a name.
pub(crate) fn name_of(text: &str) -> Option<Name>
    ensures { result ≡ name_of text.now }
{
    if text.is_empty() {
        return None;
    }
    Name::from_text(text)
}

// A name that must be given.
pub(crate) fn name_in(found: &ArgMatches<'_>, id: &str) -> Result<Name, WordsFault>
    ensures { Reads
        (option_and_then name_of (first_of id.now (rows_of (found_of found.now)))) result }
{
    match text_in(found, id) {
        Some(text) => name_of(text).ok_or(WordsFault::BadWords),
        None => Err(WordsFault::BadWords),
    }
}

// A number from `least` to `most`.
fn in_range(least: u64, most: u64, number: u64) -> Option<u64>
    ensures { result ≡ in_range least most number }
{
    if number >= least && number <= most {
        return Some(number);
    }
    None
}

// A text of 1 to 13 digits as a number from `least` to `most`.
pub(crate) fn number_of(least: u64, most: u64, text: &str) -> Option<u64>
    ensures { result ≡ number_of least most text.now }
{
    match whole_number(text, MOST_DIGITS) {
        Some(number) => in_range(least, most, number),
        None => None,
    }
}

// A number that must be given.
pub(crate) fn number_in(
    found: &ArgMatches<'_>,
    id: &str,
    least: u64,
    most: u64,
) -> Result<u64, WordsFault>
    ensures value { Reads
        (option_and_then (number_of least most)
        (first_of id.now (rows_of (found_of found.now)))) result }
    ensures within { IfOk result (λ number. number ≤ most) }
{
    match text_in(found, id) {
        Some(text) => number_of(least, most, text).ok_or(WordsFault::BadWords),
        None => Err(WordsFault::BadWords),
    }
}

// The turns of a print.
pub(crate) fn turns_in(found: &ArgMatches<'_>, id: &str) -> Result<u64, WordsFault>
    ensures { Reads (turns_of (first_of id.now (rows_of (found_of found.now)))) result }
{
    match text_in(found, id) {
        Some(text) => number_of(1, MOST_TURNS, text).ok_or(WordsFault::BadWords),
        None => Ok(TURNS),
    }
}
