//! The replies that a demo loses.
ghost use Rattle.std.specs.Prelude.{◌≡◌, map, Some, IfOk};
ghost use Rattle.std.specs.List.{slice_split};
ghost use Rattle.clap.specs.Words.{first_of, found_of, rows_of};
ghost use Rattle.octo_words.specs.Words.{Reads, is_comma, lost_of, replies_above, replies_in, reply_above};

use crate::command::{ReplyList, WordsFault};
use crate::fields::text_in;
use byte_text::number_in;
use clap::ArgMatches;
use std::alloc::{AllocError, Global};

// The number of a reply that a text is, if it is above this one.
fn reply_above(least: u32, text: &str) -> Option<u32>
    ensures { result ≡ reply_above least text.now }
{
    match number_in(text) {
        Some(number) if number > least => Some(number),
        _ => None,
    }
}

// The numbers that texts are, each above the one before.
fn listed_replies(alloc: Global, pieces: &[&str]) -> Result<Option<ReplyList>, AllocError>
    ensures { IfOk result (λ replies. replies ≡ replies_above 0 (map (λ p. p.now) pieces.now)) }
{
    let mut replies = ReplyList::new(alloc);
    let mut least = 0;
    for piece in pieces {
        let Some(number) = reply_above(least, piece) else {
            return Ok(None);
        };
        replies.push(u64::from(number))?;
        least = number;
    }
    Ok(Some(replies))
}

// What is between the commas of a text.
fn pieces_of(alloc: Global, text: &str) -> Result<Vec<&str>, AllocError>
    ensures { IfOk result (λ pieces. map (λ p. p.now) pieces.items
        ≡ slice_split is_comma text.now) }
{
    text.split(',').collect(alloc)
}

// The replies that a text lists: none for a dash.
pub(crate) fn replies_in(alloc: Global, text: &str) -> Result<Option<ReplyList>, AllocError>
    ensures { IfOk result (λ replies. replies ≡ replies_in text.now) }
{
    if text == "-" {
        return Ok(Some(ReplyList::new(alloc)));
    }
    let pieces = pieces_of(alloc, text)?;
    listed_replies(alloc, pieces.as_slice())
}

// The replies that a text has to list.
fn needed_replies(alloc: Global, text: &str) -> Result<Option<ReplyList>, WordsFault>
    ensures { Reads (lost_of (Some text.now)) result }
{
    match replies_in(alloc, text)? {
        Some(replies) => Ok(Some(replies)),
        None => Err(WordsFault::BadWords),
    }
}

// The replies that are lost, if an option lists them.
pub(crate) fn lost_in(
    alloc: Global,
    found: &ArgMatches<'_>,
    id: &str,
) -> Result<Option<ReplyList>, WordsFault>
    ensures { Reads (lost_of (first_of id.now (rows_of (found_of found.now)))) result }
{
    match text_in(found, id) {
        Some(text) => needed_replies(alloc, text),
        None => Ok(None),
    }
}
