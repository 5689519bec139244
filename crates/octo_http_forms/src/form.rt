//! All parts of a body, and what they say.
ghost use Rattle.std.specs.Prelude.{◌≡◌, ◌≤◌, ◌∷◌, ◌++◌, [], ℕ, List, length, drop, None, OnOk, IfSome, IfOk, IfNone};
ghost use Rattle.octo_http_forms.specs.Texts.{IsWithin};
ghost use Rattle.octo_http_forms.specs.Delimiters.{Reaches, IsUnclosed};
ghost use Rattle.octo_http_forms.specs.Parts.{AddsField, BodyReadsAs, IsFieldIn, IsSeen, ArePartsIn, FormReadsAs, SeenReadsAs, is_named, is_file, is_yes, is_true};
ghost use Rattle.octo_http_forms.specs.declared.types.Span.{Span};

use crate::delimiters::{first_delimiter, next_delimiter};
use crate::parameters::boundary;
use crate::part::{Field, field_of};
use crate::{PartFault, Parts, Span};
use arrayvec::ArrayVec;
use byte_text::append;
use memchr::memmem::Finder;

// A line end, `--` and the longest boundary.
const LONGEST_LINE: usize = 74;

// What the parts so far say, and the place of the first one that is no field.
#[derive(Clone, Copy)]
pub(crate) struct Seen {
    bad: Option<usize>,
    parts: Parts,
}

// Whether a field has this name.
fn is_named(body: &[u8], field: Field, name: &[u8]) -> bool
    requires { IsFieldIn field body.now }
    ensures { result ≡ is_named body.now name.now field }
{
    &body[field.name.from..field.name.to] == name
}

// Whether a field is a file: named `file`, with a filename.
fn is_file(body: &[u8], field: Field) -> bool
    requires { IsFieldIn field body.now }
    ensures { result ≡ is_file body.now field }
{
    is_named(body, field, b"file") && field.filename.is_some()
}

// Whether a text is one of the words by which a flag is true, in any case of its letters. Source: OctoPrint's REST API, whose
// true values these are, and `on`, which a browser sends for a ticked box.
fn is_yes(text: &[u8]) -> bool
    ensures { result ≡ is_yes text.now }
{
    text.eq_ignore_ascii_case(b"true")
        || text.eq_ignore_ascii_case(b"1")
        || text.eq_ignore_ascii_case(b"yes")
        || text.eq_ignore_ascii_case(b"y")
        || text.eq_ignore_ascii_case(b"on")
}

// Whether a field's content is one of these words.
fn is_true(body: &[u8], field: Field) -> bool
    requires { IsFieldIn field body.now }
    ensures { result ≡ is_true body.now field }
{
    is_yes(&body[field.content.from..field.content.to])
}

// What the parts say after one more field.
fn with_field(body: &[u8], parts: Parts, field: Field) -> Parts
    requires { IsFieldIn field body.now }
    ensures adds { AddsField body.now field parts result }
    ensures within { ArePartsIn parts body.now → ArePartsIn result body.now }
{
    let is_file = is_file(body, field);
    let is_true = is_true(body, field);
    Parts {
        name: if is_file { field.filename } else { parts.name },
        file: if is_file {
            Some(field.content)
        } else {
            parts.file
        },
        folder: if is_named(body, field, b"path") {
            Some(field.content)
        } else {
            parts.folder
        },
        select: if is_named(body, field, b"select") {
            is_true
        } else {
            parts.select
        },
        print: if is_named(body, field, b"print") {
            is_true
        } else {
            parts.print
        },
    }
}

impl Seen {
    // No part yet.
    fn new() -> Self
        ensures seen { (body : List ℕ) → IsSeen body [] result }
        ensures within { (body : List ℕ) → ArePartsIn result.parts body }
    {
        Seen {
            bad: None,
            parts: Parts {
                name: None,
                file: None,
                folder: None,
                select: false,
                print: false,
            },
        }
    }

    // One more part.
    fn note(&mut self, body: &[u8], part: Span)
        requires after { 2 ≤ part.from }
        requires within { IsWithin part body.now }
        ensures seen { (parts : List Span) → IsSeen body.now parts self.old
            → IsSeen body.now (parts ++ part ∷ []) self.new }
        ensures within { ArePartsIn self.old.parts body.now → ArePartsIn self.new.parts body.now }
    {
        match field_of(body, part) {
            Some(field) => self.parts = with_field(body, self.parts, field),
            None => self.bad = self.bad.or(Some(part.from)),
        }
    }

    // What all parts of a body say.
    fn result(self) -> Result<Parts, PartFault>
        ensures says { SeenReadsAs self result }
        ensures ok { OnOk result (self.bad ≡ None) }
    {
        match self.bad {
            Some(at) => Err(PartFault::BadPart { at }),
            None => Ok(self.parts),
        }
    }
}

// Reads the parts up to the closing delimiter, `None` if there is none.
fn read_parts(finder: &Finder<'_>, body: &[u8]) -> Option<Seen>
    requires { finder.now ≡ 13 ∷ 10 ∷ drop 2 finder.now }
    ensures unclosed { IfNone result (IsUnclosed body.now (drop 2 finder.now)) }
    ensures seen { IfSome result (λ seen. (parts : List Span)
        × Reaches body.now (drop 2 finder.now) parts None × IsSeen body.now parts seen) }
    ensures within { IfSome result (λ seen. ArePartsIn seen.parts body.now) }
{
    let mut seen = Seen::new();
    let mut from = match first_delimiter(finder, body)?.part {
        Some(from) => from,
        None => return Some(seen),
    };
    loop {
        let delimiter = next_delimiter(finder, body, from)?;
        seen.note(
            body,
            Span {
                from,
                to: delimiter.at,
            },
        );
        match delimiter.part {
            Some(next) => from = next,
            None => return Some(seen),
        }
    }
}

// What a delimiter within a body begins with.
fn line_of(boundary: &[u8]) -> ArrayVec<u8, LONGEST_LINE>
    requires { length boundary.now ≤ 70 }
    ensures { result.items ≡ 13 ∷ 10 ∷ 45 ∷ 45 ∷ boundary.now }
{
    let mut line = ArrayVec::new();
    append(&mut line, b"\r\n--");
    append(&mut line, boundary);
    line
}

// Reads the parts of a body of this boundary.
fn read_body(body: &[u8], boundary: &[u8]) -> Result<Parts, PartFault>
    requires { length boundary.now ≤ 70 }
    ensures says { BodyReadsAs body.now (45 ∷ 45 ∷ boundary.now) result }
    ensures within { IfOk result (λ parts. ArePartsIn parts body.now) }
{
    let line = line_of(boundary);
    let finder = Finder::new(line.as_slice());
    match read_parts(&finder, body) {
        Some(seen) => seen.result(),
        None => Err(PartFault::NoClose),
    }
}

/// Reads the parts of a `multipart/form-data` body in one pass; takes no memory. The spans are places in the body.
///
/// A missing boundary is returned before a missing end, and a missing end before the first bad part.
///
/// Source: RFC 7578, and RFC 2046, section 5.1.
pub fn multipart(body: &[u8], kind: &[u8]) -> Result<Parts, PartFault>
    ensures says { FormReadsAs body.now kind.now result }
    ensures within { IfOk result (λ parts. ArePartsIn parts body.now) }
{
    match boundary(kind) {
        Some(boundary) => read_body(body, boundary),
        None => Err(PartFault::NoBoundary),
    }
}
