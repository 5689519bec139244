//! The parts round the bytes of a chunked body.
ghost use Rattle.std.specs.Prelude.{◌≡◌, ◌≤◌, ◌↔◌, length, IfOk, IfErr, IfSome, IfNone, IsTrue};
ghost use Rattle.memchr.specs.Find.{OccursAt};
ghost use Rattle.octo_http.specs.Part.{most_chunk_line, most_trailers, crlf, ending_of, most_of, IsFoundPart, IsPartial, IsNoPart};

use crate::MessageFault;
use httparse::{Status, parse_chunk_size};
use memchr::memmem;

/// A part of a chunked body that isn't its bytes. Source: RFC 9112, section 7.1.
#[derive(Clone, Copy, Debug, PartialEq, Eq)]
pub enum Part {
    /// A chunk's size, its extensions and CR LF.
    Line,
    /// CR LF after a chunk's bytes.
    LineEnd,
    /// Fields after the last chunk, up to an empty line.
    Trailers,
}

// How bytes begin if CR LF is due.
#[derive(Clone, Copy, Debug, PartialEq, Eq)]
pub(crate) enum Ending {
    Whole,
    // They are too few for either.
    Cut,
    Other,
}

impl Part {
    ghost use Rattle.std.specs.Prelude.{◌≡◌};
    ghost use Rattle.octo_http.specs.Part.{most_of};

    /// How many bytes a part may have.
    pub fn most(&self) -> usize
        ensures { result ≡ most_of self.now }
    {
        match self {
            Part::Line => 1024,
            Part::LineEnd => 2,
            Part::Trailers => 16384,
        }
    }

    /// The bytes that end the part, after which it's worth a look.
    pub fn mark(&self) -> &'static [u8] {
        match self {
            Part::Line | Part::LineEnd => b"\r\n",
            Part::Trailers => b"\r\n\r\n",
        }
    }
}

// How bytes begin if CR LF is due.
fn ending_of(bytes: &[u8]) -> Ending
    ensures { result ≡ ending_of bytes.now }
{
    match bytes {
        [] => Ending::Cut,
        [first] => {
            if *first == b'\r' {
                Ending::Cut
            } else {
                Ending::Other
            }
        }
        [first, second, ..] => {
            if *first == b'\r' && *second == b'\n' {
                Ending::Whole
            } else {
                Ending::Other
            }
        }
    }
}

// Looks for a chunk's line.
fn look_line(bytes: &[u8]) -> Result<Option<(u64, usize)>, MessageFault>
    requires { length bytes.now ≤ most_chunk_line }
    ensures found { IfOk result (λ found. IfSome found (IsFoundPart Part.Line bytes.now)) }
    ensures partial { IfOk result (λ found. IfNone found (IsPartial Part.Line bytes.now)) }
    ensures bad { IfErr result (λ f. (f ≡ MessageFault.BadChunk) × IsNoPart Part.Line bytes.now) }
{
    match parse_chunk_size(bytes) {
        Ok(Status::Complete((length, size))) => Ok(Some((size, length))),
        Ok(Status::Partial) => Ok(None),
        Err(_) => Err(MessageFault::BadChunk),
    }
}

// Looks for CR LF.
fn look_end(bytes: &[u8]) -> Result<Option<(u64, usize)>, MessageFault>
    ensures found { IfOk result (λ found. IfSome found (IsFoundPart Part.LineEnd bytes.now)) }
    ensures partial { IfOk result (λ found. IfNone found (IsPartial Part.LineEnd bytes.now)) }
    ensures bad { IfErr result
        (λ f. (f ≡ MessageFault.BadChunk) × IsNoPart Part.LineEnd bytes.now) }
{
    match ending_of(bytes) {
        Ending::Whole => Ok(Some((0, 2))),
        Ending::Cut => Ok(None),
        Ending::Other => Err(MessageFault::BadChunk),
    }
}

// Whether the bytes begin with an empty line.
fn begins_with_end(bytes: &[u8]) -> bool
    ensures { IsTrue result ↔ OccursAt bytes.now crlf 0 }
{
    memmem::find(bytes, b"\r\n") == Some(0)
}

// Looks for the end of the trailers.
fn look_trailers(bytes: &[u8]) -> Option<(u64, usize)>
    requires { length bytes.now ≤ most_trailers }
    ensures found { IfSome result (IsFoundPart Part.Trailers bytes.now) }
    ensures partial { IfNone result (IsPartial Part.Trailers bytes.now) }
{
    if begins_with_end(bytes) {
        return Some((0, 2));
    }
    match memmem::find(bytes, b"\r\n\r\n") {
        Some(place) => Some((0, place + 4)),
        None => None,
    }
}

/// Looks for a part at the front of bytes: its number, and its length. `None` if more bytes may make one. Fails as
/// `BadChunk` alone.
pub fn look_part(part: Part, bytes: &[u8]) -> Result<Option<(u64, usize)>, MessageFault>
    requires { length bytes.now ≤ most_of part }
    ensures found { IfOk result (λ found. IfSome found (IsFoundPart part bytes.now)) }
    ensures partial { IfOk result (λ found. IfNone found (IsPartial part bytes.now)) }
    ensures bad { IfErr result (λ f. (f ≡ MessageFault.BadChunk) × IsNoPart part bytes.now) }
{
    match part {
        Part::Line => look_line(bytes),
        Part::LineEnd => look_end(bytes),
        Part::Trailers => Ok(look_trailers(bytes)),
    }
}
