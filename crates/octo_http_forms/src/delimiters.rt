//! The delimiters that cut a body into parts.
ghost use Rattle.std.specs.Prelude.{◌≡◌, ◌≤◌, ◌<◌, ◌+◌, ◌∷◌, length, drop, IfSome};
ghost use Rattle.octo_http_forms.specs.Delimiters.{delimiter_at, delimiter_of, opening, IsNextDelimiter, IsFirstDelimiter};

use byte_text::spaces_in_front;
use memchr::memmem::Finder;

// A delimiter: a line end (but at the body's start), `--`, the boundary, and then `--`, or blanks and a line end.
#[derive(Clone, Copy, Debug, PartialEq, Eq)]
pub(crate) struct Delimiter {
    // The place of its first byte.
    pub at: usize,
    // Where the part after it begins, `None` after the closing one.
    pub part: Option<usize>,
}

// The delimiter whose boundary ends at this place, `None` if something else follows the boundary.
fn delimiter_at(body: &[u8], at: usize, end: usize) -> Option<Delimiter>
    requires { end ≤ length body.now }
    ensures value { result ≡ delimiter_at at end (drop end body.now) }
    ensures within { IfSome result (λ delimiter. IfSome delimiter.part (λ part.
        (end + 2 ≤ part) × (part ≤ length body.now))) }
    ensures at { IfSome result (λ delimiter. delimiter.at ≡ at) }
{
    let tail = &body[end..];
    if tail.starts_with(b"--") {
        return Some(Delimiter { at, part: None });
    }
    let blanks = spaces_in_front(tail);
    if tail[blanks..].starts_with(b"\r\n") {
        return Some(Delimiter {
            at,
            part: Some(end + blanks + 2),
        });
    }
    None
}

// The delimiter at a place at which the finder's needle is.
fn delimiter_of(finder: &Finder<'_>, body: &[u8], at: usize) -> Option<Delimiter>
    requires { at + length finder.now ≤ length body.now }
    ensures value { result ≡ delimiter_of body.now finder.now at }
    ensures part { IfSome result (λ delimiter. IfSome delimiter.part (λ part.
        (at + 2 ≤ part) × (part ≤ length body.now))) }
    ensures at { IfSome result (λ delimiter. delimiter.at ≡ at) }
{
    delimiter_at(body, at, at + finder.needle().len())
}

// The first delimiter from a place on. The finder looks for a line end, `--` and the boundary.
//
// Source: RFC 2046, section 5.1.1.
pub(crate) fn next_delimiter(finder: &Finder<'_>, body: &[u8], from: usize) -> Option<Delimiter>
    requires some { 0 < length finder.now }
    requires within { from ≤ length body.now }
    ensures next { IsNextDelimiter body.now finder.now from result }
    ensures within { IfSome result (λ delimiter.
        (from ≤ delimiter.at) × (delimiter.at ≤ length body.now)) }
    ensures part { IfSome result (λ delimiter. IfSome delimiter.part (λ part.
        (delimiter.at + 2 ≤ part) × (part ≤ length body.now))) }
{
    let mut at = from;
    while let Some(found) = finder.find(&body[at..]) {
        let place = at + found;
        match delimiter_of(finder, body, place) {
            Some(delimiter) => return Some(delimiter),
            None => at = place + 1,
        }
    }
    None
}

// The delimiter at the body's start, if no line end comes before it.
fn opening(body: &[u8], dashes: &[u8]) -> Option<Delimiter>
    ensures value { result ≡ opening body.now dashes.now }
    ensures part { IfSome result (λ delimiter. IfSome delimiter.part (λ part.
        (2 ≤ part) × (part ≤ length body.now))) }
{
    if body.starts_with(dashes) {
        return delimiter_at(body, 0, dashes.len());
    }
    None
}

// The first delimiter of a body.
pub(crate) fn first_delimiter(finder: &Finder<'_>, body: &[u8]) -> Option<Delimiter>
    requires { finder.now ≡ 13 ∷ 10 ∷ drop 2 finder.now }
    ensures first { IsFirstDelimiter body.now (drop 2 finder.now) result }
    ensures part { IfSome result (λ delimiter. IfSome delimiter.part (λ part.
        (2 ≤ part) × (part ≤ length body.now))) }
{
    if let Some(delimiter) = opening(body, &finder.needle()[2..]) {
        return Some(delimiter);
    }
    next_delimiter(finder, body, 0)
}
