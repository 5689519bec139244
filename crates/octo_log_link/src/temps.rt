//! The temperatures that a printer reported last.
ghost use Rattle.std.specs.Prelude.{◌≡◌, take};
ghost use Rattle.octo_log_link.specs.Progress.{has_temps, temps_after, without_ok};

use arrayvec::ArrayVec;
use byte_text::{after, bounded_text};
use marlin_reply::Reply;

/// How many bytes of the printer's words are kept.
pub const MOST_TEMPS_BYTES: usize = 60;

/// The last temperatures, as the printer wrote them.
pub type TempsText = ArrayVec<u8, MOST_TEMPS_BYTES>;

// Whether a reply has temperatures.
fn has_temps(reply: &Reply) -> bool
    ensures { result ≡ has_temps reply.now }
{
    match reply {
        Reply::Ok { temps, .. } => temps.is_some(),
        Reply::Temps(_) => true,
        _ => false,
    }
}

// A reply without its `ok`.
fn without_ok(text: &[u8]) -> &[u8]
    ensures { result.now ≡ without_ok text.now }
{
    if text.starts_with(b"ok ") {
        after(text, 3)
    } else {
        text
    }
}

// The first bytes of some, as many as a list of that many may hold.
fn first_bytes<const N: usize>(bytes: &[u8]) -> ArrayVec<u8, N>
    ensures { result.items ≡ take N bytes.now }
{
    bounded_text(&bytes[..N.min(bytes.len())])
}

// Keeps the temperatures of a reply, if it has any.
pub(crate) fn keep_temps(temps: &mut TempsText, text: &[u8], reply: &Reply)
    ensures { temps.new.items ≡ temps_after temps.old.items text.now reply.now }
{
    if has_temps(reply) {
        *temps = first_bytes(without_ok(text));
    }
}
