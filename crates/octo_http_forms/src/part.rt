//! One part of a form: its head and its content.
ghost use Rattle.std.specs.Prelude.{◌≡◌, ◌≤◌, ◌<◌, ◌+◌, length, IfSome};
ghost use Rattle.memchr.specs.Find.{first_of, matches};
ghost use Rattle.octo_http_forms.specs.Texts.{IsWithin};
ghost use Rattle.octo_http_forms.specs.Parts.{IsFieldIn, empty_line, disposition, named_field, field_of};

use crate::Span;
use crate::parameters::{has_type, parameter};
use crate::text::place_any_case;
use memchr::memmem;

// A part with a Content-Disposition `form-data` and a name.
#[derive(Clone, Copy, Debug, PartialEq, Eq)]
pub(crate) struct Field {
    pub name: Span,
    pub filename: Option<Span>,
    pub content: Span,
}

// The first place of a needle.
fn first_place(bytes: &[u8], needle: &[u8]) -> Option<usize>
    ensures value { result ≡ first_of (matches bytes.now needle.now 0) }
    ensures within { IfSome result (λ place. place + length needle.now ≤ length bytes.now) }
{
    memmem::find(bytes, needle)
}

// The place of the first two line ends that follow each other.
fn empty_line(body: &[u8], lines: Span) -> Option<usize>
    requires { IsWithin lines body.now }
    ensures value { result ≡ empty_line body.now lines }
    ensures within { IfSome result (λ end. (lines.from ≤ end) × (end + 4 ≤ lines.to)) }
{
    let place = first_place(&body[lines.from..lines.to], b"\r\n\r\n")?;
    Some(lines.from + place)
}

// The value of the first Content-Disposition of a head, each line of which has a line end before it.
fn disposition(body: &[u8], head: Span) -> Option<Span>
    requires { IsWithin head body.now }
    ensures value { result ≡ disposition body.now head }
    ensures within { IfSome result (λ value. IsWithin value body.now) }
{
    let name = b"\r\nContent-Disposition:";
    let place = place_any_case(body, head, name)?;
    let from = place + name.len();
    let to = place_any_case(body, Span { from, to: head.to }, b"\r\n").unwrap_or(head.to);
    Some(Span { from, to })
}

// The field that a Content-Disposition makes of a part's content.
fn named_field(body: &[u8], content: Span, value: Span) -> Option<Field>
    requires content { IsWithin content body.now }
    requires value { IsWithin value body.now }
    ensures value { result ≡ named_field body.now content value }
    ensures within { IfSome result (λ field. IsFieldIn field body.now) }
{
    if !has_type(&body[value.from..value.to], b"form-data") {
        return None;
    }
    let name = parameter(body, value, b"name=")?;
    let filename = parameter(body, value, b"filename=");
    Some(Field {
        name,
        filename,
        content,
    })
}

// The field that a part is: header lines, an empty line, and the content. The part has the delimiter's line end
// before it.
//
// Source: RFC 7578, section 4.2.
pub(crate) fn field_of(body: &[u8], part: Span) -> Option<Field>
    requires after { 2 ≤ part.from }
    requires within { IsWithin part body.now }
    ensures value { result ≡ field_of body.now part }
    ensures within { IfSome result (λ field. IsFieldIn field body.now) }
{
    let lines = Span {
        from: part.from - 2,
        to: part.to,
    };
    let end = empty_line(body, lines)?;
    let head = Span {
        from: lines.from,
        to: end + 2,
    };
    let value = disposition(body, head)?;
    let content = Span {
        from: end + 4,
        to: part.to,
    };
    named_field(body, content, value)
}
