//! The reply to a message.
ghost use Rattle.std.specs.Prelude.{◌≡◌, ◌≤◌, ◌<◌, ◌+◌, ◌++◌, length, codes, decimal, OnOk, OnErr, IsErr};
ghost use Rattle.arrayvec.specs.ArrayVec.{array_vec_len};
ghost use Rattle.octo_outside.specs.Recorded.{Adds, AddsPrefix, Counts};
ghost use Rattle.octo_http.specs.Part.{crlf};
ghost use Rattle.octo_http.specs.Reply.{reason_of, phrase_of, first_lines, type_line, head_bytes, sent_body, with_fields, reply_head, reply_bytes};

use arrayvec::ArrayVec;
use byte_text::{after, append, append_decimal};
use http::StatusCode;
use octo_outside::{Blob, Conn, Failed, send_all};

/// What a reply has as its body.
#[derive(Clone, Copy, Debug, PartialEq, Eq)]
pub enum ReplyKind {
    /// Nothing.
    Empty,
    /// JSON.
    Json,
    /// A file's bytes.
    Bytes,
}

/// A reply, after which the connection is closed. An empty one sends no body, and neither does one of status 204.
#[derive(Drop)]
pub struct HttpReply {
    pub status: u16,
    pub kind: ReplyKind,
    /// Further fields, each a line with its line end.
    pub fields: FieldLines,
    pub body: Blob,
}

/// Fields of a reply, each a line with its line end: at most 320 bytes. Source: RFC 9112, section 5.
pub type FieldLines = ArrayVec<u8, 320>;

/// The status of a reply without a body, a length or a type. Source: RFC 9110, section 15.3.5.
pub const NO_CONTENT: u16 = 204;

// The lines and fields before a body.
type ReplyHead = ArrayVec<u8, 832>;

// How many bytes of a body are sent at once with what is before it.
const FRONT: usize = 4096;

// The lines and fields before a body, and the first bytes of it.
type ReplyFront = ArrayVec<u8, 4928>;

// The phrase of a status code, empty if it has none.
fn reason_of(code: &StatusCode) -> &'static str
    ensures value { result.now ≡ reason_of code.now }
    ensures short { length result.now ≤ 31 }
{
    match code.canonical_reason() {
        Some(phrase) => phrase,
        None => "",
    }
}

// The phrase of a status, empty if it has none.
fn phrase_of(status: u16) -> &'static str
    ensures value { result.now ≡ phrase_of status }
    ensures short { length result.now ≤ 31 }
{
    match StatusCode::from_u16(status) {
        Ok(code) => reason_of(&code),
        Err(_) => "",
    }
}

// Adds a number in decimal.
fn put_number(head: &mut ReplyHead, number: u64)
    requires { array_vec_len head.old ≤ 160 }
    ensures items { head.new.items ≡ head.old.items ++ decimal number }
    ensures few { array_vec_len head.new ≤ array_vec_len head.old + 20 }
{
    append_decimal(head, number);
}

// The status line, and that the connection is closed.
fn first_lines(status: u16) -> ReplyHead
    ensures items { result.items ≡ first_lines status }
    ensures few { array_vec_len result ≤ 82 }
{
    let mut head = ArrayVec::new();
    append(&mut head, b"HTTP/1.1 ");
    put_number(&mut head, u64::from(status));
    append(&mut head, b" ");
    append(&mut head, phrase_of(status).as_bytes());
    append(&mut head, b"\r\nConnection: close\r\n");
    head
}

// The line of a body's type.
fn type_line(kind: ReplyKind) -> &'static [u8]
    ensures value { result.now ≡ type_line kind }
    ensures short { length result.now ≤ 40 }
{
    match kind {
        ReplyKind::Empty => b"",
        ReplyKind::Json => b"Content-Type: application/json\r\n",
        ReplyKind::Bytes => b"Content-Type: application/octet-stream\r\n",
    }
}

// Adds the body's length and type.
fn put_content(head: &mut ReplyHead, kind: ReplyKind, count: usize)
    requires { array_vec_len head.old ≤ 82 }
    ensures items { head.new.items
        ≡ head.old.items ++ codes "Content-Length: " ++ decimal count ++ crlf ++ type_line kind }
    ensures few { array_vec_len head.new ≤ 160 }
{
    append(head, b"Content-Length: ");
    put_number(head, count as u64);
    append(head, b"\r\n");
    append(head, type_line(kind));
}

// Adds more fields, the reply's own, and the line end after them.
fn put_end(head: &mut ReplyHead, more: &FieldLines, fields: &FieldLines)
    requires { array_vec_len head.old ≤ 160 }
    ensures { head.new.items ≡ head.old.items ++ (more.now.items ++ fields.now.items) ++ crlf }
{
    append(head, more.as_slice());
    append(head, fields.as_slice());
    append(head, b"\r\n");
}

// All that is before a body of this length.
fn head_of(reply: &HttpReply, count: usize, more: &FieldLines) -> ReplyHead
    ensures { result.items ≡ head_bytes reply.now.status reply.now.kind count
        (more.now.items ++ reply.now.fields.items) }
{
    let mut head = first_lines(reply.status);
    if reply.status == NO_CONTENT {
        put_end(&mut head, more, &reply.fields);
        return head;
    }
    put_content(&mut head, reply.kind, count);
    put_end(&mut head, more, &reply.fields);
    head
}

fn sent_body(reply: &HttpReply) -> &[u8]
    ensures { result.now ≡ sent_body reply.now.status reply.now.kind reply.now.body }
{
    if reply.status == NO_CONTENT || reply.kind == ReplyKind::Empty {
        return b"";
    }
    reply.body.as_slice()
}

// The lines and fields before a body, and these bytes of it.
fn front_of(head: &ReplyHead, body: &[u8]) -> ReplyFront
    requires { length body.now ≤ 4096 }
    ensures { result.items ≡ head.now.items ++ body.now }
{
    let mut front = ArrayVec::new();
    append(&mut front, head.as_slice());
    append(&mut front, body);
    front
}

/// Writes the bytes of a reply with more fields before its own, a short one at once; after a failed call a prefix of them was written.
/// Source: RFC 9112, section 4.
pub fn write_reply<C: Conn>(
    conn: &mut C,
    reply: &HttpReply,
    more: &FieldLines,
) -> Result<(), Failed>
    ensures ok { OnOk result (Adds (C.state conn.old).written (C.state conn.new).written
        (reply_bytes (with_fields more.now.items reply.now))) }
    ensures err { OnErr result (AddsPrefix (C.state conn.old).written (C.state conn.new).written
        (reply_bytes (with_fields more.now.items reply.now))) }
    ensures left { (C.state conn.new).left ≡ (C.state conn.old).left }
    ensures quiets { (C.state conn.new).quiets ≡ (C.state conn.old).quiets }
    ensures counts { Counts (IsErr result) (C.state conn.old).faults (C.state conn.new).faults }
{
    let body = sent_body(reply);
    let head = head_of(reply, body.len(), more);
    let count = body.len().min(FRONT);
    let front = front_of(&head, &body[..count]);
    send_all(conn, front.as_slice())?;
    send_all(conn, after(body, count))?;
    Ok(())
}

/// Writes a reply with more fields and without its body, as it is sent to `HEAD`: the length is that of the body. After a
/// failed call a prefix was written. Source: RFC 9110, section 9.3.2.
pub fn write_head<C: Conn>(conn: &mut C, reply: &HttpReply, more: &FieldLines) -> Result<(), Failed>
    ensures ok { OnOk result (Adds (C.state conn.old).written (C.state conn.new).written
        (reply_head (with_fields more.now.items reply.now))) }
    ensures err { OnErr result (AddsPrefix (C.state conn.old).written (C.state conn.new).written
        (reply_head (with_fields more.now.items reply.now))) }
    ensures left { (C.state conn.new).left ≡ (C.state conn.old).left }
    ensures quiets { (C.state conn.new).quiets ≡ (C.state conn.old).quiets }
    ensures counts { Counts (IsErr result) (C.state conn.old).faults (C.state conn.new).faults }
{
    let count = sent_body(reply).len();
    let lines = head_of(reply, count, more);
    send_all(conn, lines.as_slice())
}
