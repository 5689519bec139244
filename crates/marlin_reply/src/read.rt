//! Which reply a line is.
ghost use Rattle.std.specs.Prelude.{◌≡◌, ◌||◌, bytes_eq, codes};
ghost use Rattle.marlin_reply.specs.Pieces.{begins};
ghost use Rattle.marlin_reply.specs.Kind.{ok_of, resend_of, other_reply_of, kind_of_text, kind_of};

use super::Reply;
use super::pieces::{find_field, read_small, skip_only_spaces, trim_line};
use super::temperatures::read_temps;
use byte_text::leading_digits;

/// The reply that a line from the printer is, by Marlin's serial protocol.
#[tactic(auto, unfolding(crate::specs::Kind::kind_of))]
pub fn read_reply(line: &[u8]) -> Reply
    ensures { result ≡ kind_of line.now }
{
    read_text(trim_line(line))
}

#[tactic(auto, unfolding(crate::specs::Kind::kind_of_text))]
fn read_text(text: &[u8]) -> Reply
    ensures { result ≡ kind_of_text text.now }
{
    if is_ok(text) {
        read_ok(text)
    } else if let Some(after) = text.strip_prefix(b"Resend:") {
        read_resend(leading_digits(skip_only_spaces(after)))
    } else if is_start(text) {
        Reply::Start
    } else {
        read_other_reply(text)
    }
}

// The reply that a text is which is neither `ok` nor a request nor `start`.
#[tactic(auto, unfolding(crate::specs::Kind::other_reply_of))]
fn read_other_reply(text: &[u8]) -> Reply
    ensures { result ≡ other_reply_of text.now }
{
    if text.starts_with(b"echo:busy:") || text.starts_with(b"busy:") {
        Reply::Busy
    } else if text.starts_with(b"T:") || text.starts_with(b"B:") {
        read_temps(text).map_or(Reply::Other, Reply::Temps)
    } else if text.starts_with(b"Error:") {
        Reply::Error
    } else {
        Reply::Other
    }
}

// Whether a text is `ok`, alone or before a space.
fn is_ok(text: &[u8]) -> bool
    ensures { result ≡ (bytes_eq text.now (codes "ok") || begins text.now (codes "ok ")) }
{
    text == b"ok".as_slice() || text.starts_with(b"ok ")
}

fn is_start(text: &[u8]) -> bool
    ensures { result ≡ bytes_eq text.now (codes "start") }
{
    text == b"start".as_slice()
}

#[tactic(auto, unfolding(crate::specs::Kind::ok_of))]
fn read_ok(text: &[u8]) -> Reply
    ensures { result ≡ ok_of text.now }
{
    Reply::Ok {
        number: find_field(text, b'N'),
        planner: find_field(text, b'P'),
        block: find_field(text, b'B'),
        temps: read_temps(text),
    }
}

#[tactic(auto, unfolding(crate::specs::Kind::resend_of))]
fn read_resend(digits: &[u8]) -> Reply
    ensures { result ≡ resend_of digits.now }
{
    if digits.is_empty() || digits.len() > 10 {
        return Reply::Other;
    }
    match read_small(digits) {
        Some(number) => Reply::Resend { number },
        None => Reply::Other,
    }
}
