//! The type and the parameters in the value of a header field.
ghost use Rattle.std.specs.Prelude.{◌≡◌, ◌≤◌, ◌<◌, ◌+◌, length, slice_index, slice_range, IfSome};
ghost use Rattle.std.specs.List.{prefix_len};
ghost use Rattle.std.specs.Option.{option_copied};
ghost use Rattle.octo_http_forms.specs.Texts.{IsWithin, text_at};
ghost use Rattle.octo_http_forms.specs.Values.{has_type, begins_parameter, after_blanks, is_type, ends_word, key_end, value_here, value_place, is_bare, content_span, parameter, boundary_of, bare_end};
ghost use Rattle.octo_http_forms.specs.declared.quotes.Quoting.TheVariants as quoting;

use crate::Span;
use crate::quotes::{Quoting, quoted_end};
use crate::text::begins_any_case;
use byte_text::{is_space, spaces_in_front};

// How many bytes a boundary may have. Source: RFC 2046, section 5.1.1.
const LONGEST_BOUNDARY: usize = 70;

// Whether a word has ended before these bytes: nothing, a blank or a semicolon comes next.
fn ends_word(bytes: &[u8]) -> bool
    ensures { result ≡ ends_word bytes.now }
{
    match bytes {
        [] => true,
        [byte, ..] => is_space(*byte) || *byte == b';',
    }
}

/// Whether a value is of this type, in any case of its letters.
pub fn has_type(value: &[u8], name: &[u8]) -> bool
    ensures { result ≡ has_type name.now value.now }
{
    let word = &value[spaces_in_front(value)..];
    begins_any_case(word, name) && ends_word(&word[name.len()..])
}

// Whether nothing comes next, or the semicolon in front of a parameter.
fn begins_parameter(bytes: &[u8]) -> bool
    ensures { result ≡ begins_parameter bytes.now }
{
    match bytes {
        [] => true,
        [byte, ..] => *byte == b';',
    }
}

// What is after blanks.
fn after_blanks(bytes: &[u8]) -> &[u8]
    ensures { result.now ≡ after_blanks bytes.now }
{
    &bytes[spaces_in_front(bytes)..]
}

/// Whether a value is this type, in any case of its letters, and only parameters come after it: `has_type` takes anything after
/// a blank. Source: RFC 9110, section 8.3.1.
pub fn is_type(value: &[u8], name: &[u8]) -> bool
    ensures { result ≡ is_type name.now value.now }
{
    let word = after_blanks(value);
    begins_any_case(word, name) && begins_parameter(after_blanks(&word[name.len()..]))
}

// How many bytes blanks, the key and its `=` take up in front, `None` if something else comes there.
fn key_end(bytes: &[u8], key: &[u8]) -> Option<usize>
    ensures value { result ≡ key_end key.now bytes.now }
    ensures within { IfSome result (λ count. count ≤ length bytes.now) }
{
    let blanks = spaces_in_front(bytes);
    if begins_any_case(&bytes[blanks..], key) {
        return Some(blanks + key.len());
    }
    None
}

// Where the value of a parameter of this key begins, if its semicolon is the span's first byte and isn't in quotes.
fn value_here(bytes: &[u8], span: Span, quoting: Quoting, key: &[u8]) -> Option<usize>
    requires some { span.from < span.to }
    requires within { IsWithin span bytes.now }
    ensures value { result ≡ value_here key.now quoting span.from
        (slice_index bytes.now span.from) (slice_range bytes.now (span.from + 1) span.to) }
    ensures within { IfSome result (λ place. (span.from ≤ place) × (place ≤ span.to)) }
{
    let next = span.from + 1;
    if quoting.is_outside() && bytes[span.from] == b';' {
        let count = key_end(&bytes[next..span.to], key)?;
        return Some(next + count);
    }
    None
}

// Where the value of the first parameter of this key begins: after a semicolon that isn't in quotes, blanks, the
// key and its `=`.
#[tactic(auto, using(crate::proofs::Scans::value_steps))]
fn value_place(bytes: &[u8], span: Span, key: &[u8]) -> Option<usize>
    requires { IsWithin span bytes.now }
    ensures value { result ≡ value_place key.now quoting.Outside span.from
        (text_at bytes.now span) }
    ensures within { IfSome result (λ place. (span.from ≤ place) × (place ≤ span.to)) }
{
    let mut quoting = Quoting::Outside;
    for from in span.from..span.to {
        let here = value_here(bytes, Span { from, to: span.to }, quoting, key);
        if here.is_some() {
            return here;
        }
        quoting = quoting.after(bytes[from]);
    }
    None
}

// Whether a byte belongs to a value without quotes.
fn is_bare(byte: u8) -> bool
    ensures { result ≡ is_bare byte }
{
    !is_space(byte) && byte != b';'
}

// How many bytes of a value without quotes are in front.
fn bare_count(bytes: &[u8]) -> usize
    ensures value { result ≡ prefix_len is_bare bytes.now }
    ensures most { result ≤ length bytes.now }
{
    bytes.iter().take_while(|byte| is_bare(**byte)).count()
}

// Where a value without quotes ends: before a blank or a semicolon.
fn bare_end(bytes: &[u8], span: Span) -> usize
    requires { IsWithin span bytes.now }
    ensures value { result ≡ bare_end span.from (text_at bytes.now span) }
    ensures within { (span.from ≤ result) × (result ≤ span.to) }
{
    span.from + bare_count(&bytes[span.from..span.to])
}

// The content of a parameter whose value begins at the span's first place.
fn content_span(bytes: &[u8], span: Span) -> Option<Span>
    requires { IsWithin span bytes.now }
    ensures value { result ≡ content_span bytes.now span }
    ensures within { IfSome result (λ content. IsWithin content bytes.now) }
{
    if !bytes[span.from..span.to].starts_with(b"\"") {
        return Some(Span {
            from: span.from,
            to: bare_end(bytes, span),
        });
    }
    let from = span.from + 1;
    let to = quoted_end(bytes, Span { from, to: span.to })?;
    Some(Span { from, to })
}

// The content of the first parameter of this key, which is written with its `=`: what is between its quotes, or
// what comes before a blank or a semicolon.
//
// Source: RFC 9110, section 5.6.6.
pub(crate) fn parameter(bytes: &[u8], span: Span, key: &[u8]) -> Option<Span>
    requires { IsWithin span bytes.now }
    ensures value { result ≡ parameter key.now bytes.now span }
    ensures within { IfSome result (λ content. IsWithin content bytes.now) }
{
    let from = value_place(bytes, span, key)?;
    content_span(bytes, Span { from, to: span.to })
}

// The boundary that a `multipart/form-data` type names.
//
// Source: RFC 2046, section 5.1.1.
pub(crate) fn boundary(kind: &[u8]) -> Option<&[u8]>
    ensures value { option_copied result ≡ boundary_of kind.now }
    ensures short { IfSome result (λ text. length text.now ≤ 70) }
{
    if !has_type(kind, b"multipart/form-data") {
        return None;
    }
    let whole = Span {
        from: 0,
        to: kind.len(),
    };
    let span = parameter(kind, whole, b"boundary=")?;
    let boundary = &kind[span.from..span.to];
    if boundary.is_empty() || boundary.len() > LONGEST_BOUNDARY {
        return None;
    }
    Some(boundary)
}
