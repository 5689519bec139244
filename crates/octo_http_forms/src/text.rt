//! Texts in front of bytes and within them, in any case of their letters.
ghost use Rattle.std.specs.Prelude.{◌≡◌, ◌≤◌, ◌+◌, length, true, IfSome};
ghost use Rattle.octo_http_forms.specs.Texts.{IsWithin, text_at, begins_any_case, place_any_case};

use crate::Span;

// Whether the text is in front of the bytes, in any case of its letters.
pub(crate) fn begins_any_case(bytes: &[u8], text: &[u8]) -> bool
    ensures value { result ≡ begins_any_case text.now bytes.now }
    ensures bound { result ≡ true → length text.now ≤ length bytes.now }
{
    text.len() <= bytes.len() && bytes[..text.len()].eq_ignore_ascii_case(text)
}

// The first place within the span at which the text is, in any case of its letters, up to the span's end.
#[tactic(auto, using(crate::proofs::Scans::place_steps))]
pub(crate) fn place_any_case(bytes: &[u8], span: Span, text: &[u8]) -> Option<usize>
    requires { IsWithin span bytes.now }
    ensures value { result ≡ place_any_case text.now span.from (text_at bytes.now span) }
    ensures within { IfSome result (λ place.
        (span.from ≤ place) × (place + length text.now ≤ span.to)) }
{
    for place in span.from..span.to {
        if begins_any_case(&bytes[place..span.to], text) {
            return Some(place);
        }
    }
    None
}
