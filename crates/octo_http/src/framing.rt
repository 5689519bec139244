//! How long the body of a message is.
ghost use Rattle.std.specs.Prelude.{◌≡◌, ◌==◌, ◌&&◌, if◌then◌else◌, length, codes, bytes_eq, Some, None, option_map};
ghost use Rattle.std.specs.List.{list_all};
ghost use Rattle.std.specs.Str.{str_eq_ignore_ascii_case};
ghost use Rattle.byte_text.specs.Number.{whole_number};
ghost use Rattle.octo_http.specs.Fields.{values};
ghost use Rattle.octo_http.specs.Framing.{framing_of};

use crate::fields::FieldSpans;
use byte_text::{same_text, whole_number};
use std::str;

/// How long the body is. Source: RFC 9112, section 6.
#[derive(Clone, Copy, Debug, PartialEq, Eq)]
pub enum Framing {
    /// Neither a length nor chunks were given.
    NoBody,
    /// This number of bytes.
    Length(u64),
    /// Chunks, up to one that is empty.
    Chunked,
}

// The number that a Content-Length of 1 to 18 digits writes.
fn length_of(text: &[u8]) -> Option<u64>
    ensures { result ≡ whole_number text.now 18 }
{
    match str::from_utf8(text) {
        Ok(text) => whole_number(text, 18),
        Err(_) => None,
    }
}

// A body of the length that the fields say, if they agree on one.
fn by_length(fields: &FieldSpans, text: &[u8]) -> Option<Framing>
    ensures { result
        ≡ (if list_all (λ v. bytes_eq v text.now) (values (codes "Content-Length") fields.now)
        then option_map Framing.Length (whole_number text.now 18) else None) }
{
    if !fields.all_are(b"Content-Length", text) {
        return None;
    }
    match length_of(text) {
        Some(length) => Some(Framing::Length(length)),
        None => None,
    }
}

// A body in chunks, if that is its one coding.
fn by_coding(fields: &FieldSpans, coding: &[u8]) -> Option<Framing>
    ensures { result
        ≡ (if length (values (codes "Transfer-Encoding") fields.now) == 1
        && str_eq_ignore_ascii_case coding.now (codes "chunked")
        then Some Framing.Chunked else None) }
{
    if fields.count(b"Transfer-Encoding") == 1 && same_text(coding, b"chunked") {
        Some(Framing::Chunked)
    } else {
        None
    }
}

// How long the body is by the fields of a head; none if they contradict each other or aren't understood.
pub(crate) fn framing_of(fields: &FieldSpans) -> Option<Framing>
    ensures { result ≡ framing_of fields.now }
{
    match fields.first(b"Content-Length") {
        Some(text) => match fields.first(b"Transfer-Encoding") {
            Some(_) => None,
            None => by_length(fields, text),
        },
        None => match fields.first(b"Transfer-Encoding") {
            Some(coding) => by_coding(fields, coding),
            None => Some(Framing::NoBody),
        },
    }
}
