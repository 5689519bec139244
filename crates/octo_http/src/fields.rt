//! The fields of a head.
use byte_text::same_text;
use httparse::spans::HeaderSpan;
use std::marker::Model;

// The fields of a head, by their places in its bytes.
#[derive(Drop)]
pub(crate) struct FieldSpans<'a> {
    head: &'a [u8],
    spans: &'a [HeaderSpan],
}

impl<'a> Model for FieldSpans<'a> {
    ghost use Rattle.std.specs.Prelude.{map, length, All};
    ghost use Rattle.httparse.specs.Spans.{header_bytes, IsHeaderWithin};
    ghost use Rattle.octo_http.specs.Fields.{FieldList};

    ghost Value = { FieldList };

    ghost view = { λ f. map (header_bytes f.head.now) f.spans.now };

    ghost invariant = { λ f. All (IsHeaderWithin (length f.head.now)) f.spans.now };
}

impl<'a> FieldSpans<'a> {
    ghost use Rattle.std.specs.Prelude.{◌≡◌, length, map, All, option_copied, bytes_eq};
    ghost use Rattle.std.specs.List.{list_all, list_any};
    ghost use Rattle.httparse.specs.Spans.{header_bytes, IsHeaderWithin};
    ghost use Rattle.octo_http.specs.Fields.{values, first_of, one_is, one_is_not};

    // The fields at these places of the head.
    pub(crate) fn new(head: &'a [u8], spans: &'a [HeaderSpan]) -> Self
        requires { All (IsHeaderWithin (length head.now)) spans.now }
        ensures { result ≡ map (header_bytes head.now) spans.now }
    {
        FieldSpans { head, spans }
    }

    // The value of the first field of a name.
    pub(crate) fn first(&self, name: &[u8]) -> Option<&'a [u8]>
        ensures { option_copied result ≡ first_of (values name.now self.now) }
    {
        for span in self.spans {
            if same_text(span.name.of(self.head), name) {
                return Some(span.value.of(self.head));
            }
        }
        None
    }

    // Whether all values of the fields of a name are this one.
    pub(crate) fn all_are(&self, name: &[u8], value: &[u8]) -> bool
        ensures { result ≡ list_all (λ v. bytes_eq v value.now) (values name.now self.now) }
    {
        for span in self.spans {
            if same_text(span.name.of(self.head), name) && span.value.of(self.head) != value {
                return false;
            }
        }
        true
    }

    // How many fields have a name.
    pub(crate) fn count(&self, name: &[u8]) -> usize
        ensures { result ≡ length (values name.now self.now) }
    {
        let mut count = 0;
        for span in self.spans {
            if same_text(span.name.of(self.head), name) {
                count += 1;
            }
        }
        count
    }

    // Whether a field of a name has this text as its value, in any case.
    pub(crate) fn one_is(&self, name: &[u8], text: &[u8]) -> bool
        ensures { result ≡ one_is text.now (values name.now self.now) }
    {
        for span in self.spans {
            if same_text(span.name.of(self.head), name)
                && same_text(span.value.of(self.head), text)
            {
                return true;
            }
        }
        false
    }

    // Whether a field of a name has another text as its value.
    pub(crate) fn one_is_not(&self, name: &[u8], text: &[u8]) -> bool
        ensures { result ≡ one_is_not text.now (values name.now self.now) }
    {
        for span in self.spans {
            if same_text(span.name.of(self.head), name)
                && !same_text(span.value.of(self.head), text)
            {
                return true;
            }
        }
        false
    }
}
