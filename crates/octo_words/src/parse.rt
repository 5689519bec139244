//! The matches of the arguments.
ghost use Rattle.std.specs.Prelude.{◌≡◌, List, ℕ, map, take, length, IfOk};
ghost use Rattle.clap.specs.Words.{subcommand_rows_of};
ghost use Rattle.octo_words.specs.Words.{Matches, rows_named};

use crate::apps::octo_app;
use crate::command::WordsFault;
use clap::ArgMatches;
use clap::error::ErrorKind;
use octo_outside::WordList;
use std::alloc::{AllocError, Global};

// What the arguments match of the program's commands.
pub(crate) fn parse<'a>(alloc: Global, words: &'a [&'a str]) -> Result<ArgMatches<'a>, WordsFault>
    ensures { Matches (rows_named (map (λ w. w.now) words.entry.now)) result }
{
    match octo_app(alloc)?.try_get_matches_from(words) {
        Ok(matches) => Ok(matches),
        Err(error) => {
            if error.kind() == ErrorKind::OutOfMemory {
                return Err(WordsFault::NoMemory);
            }
            Err(WordsFault::BadWords)
        }
    }
}

// The arguments as a slice needs them.
pub(crate) fn texts_of(alloc: Global, words: &WordList) -> Result<Vec<&str>, AllocError>
    ensures { IfOk result (λ texts. map (λ w. w.now) texts.items ≡ words.now) }
{
    let mut texts = Vec::new(alloc);
    for i in 0..words.count() {
        texts.push(words.get(i))?;
    }
    Ok(texts)
}
