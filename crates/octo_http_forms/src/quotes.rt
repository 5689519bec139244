//! Quotes in the value of a header field.
ghost use Rattle.std.specs.Prelude.{◌≡◌, ◌≤◌, ◌<◌, IfSome};
ghost use Rattle.octo_http_forms.specs.Texts.{IsWithin, text_at};
ghost use Rattle.octo_http_forms.specs.Values.{next_quoting, quoted_end, is_outside};
ghost use Rattle.octo_http_forms.specs.declared.quotes.Quoting.TheVariants as quoting;

use crate::Span;

// Whether the next byte of a value is in quotes, and whether a backslash takes its meaning from it.
#[derive(Clone, Copy, Debug, PartialEq, Eq)]
pub(crate) enum Quoting {
    Outside,
    Inside,
    Escaped,
}

impl Quoting {
    // The state after a byte.
    pub(crate) fn after(self, byte: u8) -> Quoting
        ensures { result ≡ next_quoting self byte }
    {
        match self {
            Quoting::Outside => {
                if byte == b'"' {
                    Quoting::Inside
                } else {
                    Quoting::Outside
                }
            }
            Quoting::Inside => {
                if byte == b'"' {
                    Quoting::Outside
                } else if byte == b'\\' {
                    Quoting::Escaped
                } else {
                    Quoting::Inside
                }
            }
            Quoting::Escaped => Quoting::Inside,
        }
    }

    // Whether the next byte isn't in quotes.
    pub(crate) fn is_outside(self) -> bool
        ensures { result ≡ is_outside self }
    {
        matches!(self, Quoting::Outside)
    }
}

// The place of the quote that ends a quoted text, which begins at the span's first place.
#[tactic(auto, using(crate::proofs::Scans::quoted_steps))]
pub(crate) fn quoted_end(bytes: &[u8], span: Span) -> Option<usize>
    requires { IsWithin span bytes.now }
    ensures value { result ≡ quoted_end quoting.Inside span.from (text_at bytes.now span) }
    ensures within { IfSome result (λ place. (span.from ≤ place) × (place < span.to)) }
{
    let mut quoting = Quoting::Inside;
    for place in span.from..span.to {
        quoting = quoting.after(bytes[place]);
        if quoting.is_outside() {
            return Some(place);
        }
    }
    None
}
