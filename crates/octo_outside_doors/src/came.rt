//! How much of a message has come to a door.
use byte_text::whole_number;
use httparse::{EMPTY_HEADER, Header, Request, Status};
use memchr::memmem;
use std::str;

/// Up to how many bytes of a message are read at the door.
pub(crate) const MOST_AHEAD: usize = 8_192;

// How many fields of a head are looked at. One with more is refused as soon as a worker reads it.
const MOST_FIELDS: usize = 64;

// How many digits the length of a body has at most that is waited for.
const MOST_DIGITS: usize = 10;

// What the path of a file's content has in it.
const CONTENT: &[u8] = b"/downloads/";

/// How much of a message has come.
#[derive(Clone, Copy, PartialEq, Eq)]
pub(crate) enum Came {
    /// Nothing, or a part of its head.
    Part,
    /// So much that a worker can begin. It may have to wait for its peer, which has more to send, or reads the content of a file.
    Head,
    /// The whole message, to which the reply is short.
    Whole,
}

// How many bytes a head has, up to the end of its empty line, if it has one.
fn head_len(bytes: &[u8]) -> Option<usize> {
    let mut is_empty = false;
    for (place, byte) in bytes.iter().enumerate() {
        match *byte {
            b'\n' if is_empty => return Some(place.saturating_add(1)),
            b'\n' => is_empty = true,
            b'\r' => {}
            _ => is_empty = false,
        }
    }
    None
}

// The number of bytes that a field `Content-Length` tells.
fn length_in(value: &[u8]) -> Option<u64> {
    whole_number(str::from_utf8(value).ok()?, MOST_DIGITS)
}

// How many bytes follow these fields; `None` if they come in chunks, if the peer waits for a word before it sends them, or if
// that can't be told.
fn body_len(fields: &[Header<'_>]) -> Option<u64> {
    let mut length = 0;
    for field in fields {
        if field.name.eq_ignore_ascii_case("transfer-encoding")
            || field.name.eq_ignore_ascii_case("expect")
        {
            return None;
        }
        if field.name.eq_ignore_ascii_case("content-length") {
            length = length_in(field.value)?;
        }
    }
    Some(length)
}

// How many bytes follow a whole head; `None` if that can't be told, or if it asks for the content of a file. Nothing can be told of a
// head that will be refused.
fn rest_len(bytes: &[u8]) -> Option<u64> {
    let mut fields = [EMPTY_HEADER; MOST_FIELDS];
    let mut request = Request::new(&mut fields);
    let Ok(Status::Complete(_)) = request.parse(bytes) else {
        return None;
    };
    if memmem::find(request.path?.as_bytes(), CONTENT).is_some() {
        return None;
    }
    body_len(request.headers)
}

impl Came {
    /// How much of a message these bytes are.
    pub(crate) fn of(bytes: &[u8]) -> Self {
        let Some(head) = head_len(bytes) else {
            return if bytes.len() < MOST_AHEAD {
                Came::Part
            } else {
                Came::Head
            };
        };
        let rest = bytes.len().saturating_sub(head) as u64;
        match rest_len(bytes) {
            Some(length) if length <= rest => Came::Whole,
            _ => Came::Head,
        }
    }
}
