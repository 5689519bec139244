//! A connection that keeps the beginning of what is asked and replied.
ghost use Rattle.std.specs.Prelude.{◌≡◌, [], drop, take};
ghost use Rattle.octo_log.specs.Refused.{asked_after, begins_object, begins_reply, cause_after, status_after};

use arrayvec::ArrayVec;
use byte_text::{append, bounded_text};
use octo_outside::{Conn, Failed, Got};

/// How many bytes of a message are kept.
pub const MOST_ASKED_BYTES: usize = 100;

/// How many bytes of a reply's body are kept.
pub const MOST_CAUSE_BYTES: usize = 200;

/// The beginning of a message.
pub type Asked = ArrayVec<u8, MOST_ASKED_BYTES>;

/// The three digits of a reply's status.
pub type Status = ArrayVec<u8, 3>;

/// The beginning of a reply's body.
pub type Cause = ArrayVec<u8, MOST_CAUSE_BYTES>;

/// A connection that keeps the first bytes of its message, and of the last reply that was written its status and the first bytes of
/// its body, if that is an object of JSON.
#[derive(Drop)]
pub struct LoggedConn<C: Conn + Drop> {
    pub(crate) conn: C,
    pub(crate) asked: Asked,
    pub(crate) status: Status,
    pub(crate) cause: Cause,
}

impl<C: Conn + Drop> LoggedConn<C> {
    /// A connection at which nothing was read or written yet.
    pub(crate) fn new(conn: C) -> Self
        ensures conn { result.conn ≡ conn }
        ensures asked { result.asked.items ≡ [] }
        ensures status { result.status.items ≡ [] }
        ensures cause { result.cause.items ≡ [] }
    {
        LoggedConn {
            conn,
            asked: Asked::new(),
            status: Status::new(),
            cause: Cause::new(),
        }
    }
}

// Keeps bytes that were read, as far as there is room.
fn keep_asked(asked: &mut Asked, bytes: &[u8])
    ensures { asked.new.items ≡ asked_after asked.old.items bytes.now }
{
    let room = MOST_ASKED_BYTES - asked.len();
    append(asked, &bytes[..room.min(bytes.len())]);
}

// Whether bytes begin a reply.
fn begins_reply(bytes: &[u8]) -> bool
    ensures { result ≡ begins_reply bytes.now }
{
    bytes.starts_with(b"HTTP/1.1 ")
}

// Whether bytes begin an object of JSON.
fn begins_object(bytes: &[u8]) -> bool
    ensures { result ≡ begins_object bytes.now }
{
    bytes.starts_with(b"{")
}

// The first bytes of some, as many as a list of that many may hold.
fn first_bytes<const N: usize>(bytes: &[u8]) -> ArrayVec<u8, N>
    ensures { result.items ≡ take N bytes.now }
{
    bounded_text(&bytes[..N.min(bytes.len())])
}

// The bytes after these first ones.
fn after_first(bytes: &[u8], count: usize) -> &[u8]
    ensures { result.now ≡ drop count bytes.now }
{
    &bytes[count.min(bytes.len())..]
}

// Keeps the status of a reply, if these bytes begin one.
fn keep_status(status: &mut Status, bytes: &[u8])
    ensures { status.new.items ≡ status_after status.old.items bytes.now }
{
    if begins_reply(bytes) {
        *status = first_bytes(after_first(bytes, 9));
    }
}

// Keeps the beginning of a reply's body, if these bytes begin one.
fn keep_cause(cause: &mut Cause, bytes: &[u8])
    ensures { cause.new.items ≡ cause_after cause.old.items bytes.now }
{
    if begins_reply(bytes) {
        *cause = Cause::new();
    } else if begins_object(bytes) {
        *cause = first_bytes(bytes);
    }
}

impl<C: Conn + Drop> Conn for LoggedConn<C> {
    ghost use Rattle.std.specs.Prelude.{◌≡◌, ◌<◌, length};
    ghost use Rattle.octo_outside.specs.Conns.{Reads, Writes};
    ghost use Rattle.octo_log.specs.Refused.{asked_by, cause_after, status_after};

    ghost state = { λ c. C.state c.conn };

    fn read(&mut self, into: &mut [u8]) -> Result<Got, Failed>
        requires { 0 < length into.old }
        ensures reads { Reads (C.state self.old.conn) result into.new (C.state self.new.conn) }

        // What is kept.
        ensures asked { self.new.asked.items ≡ asked_by self.old.asked.items result into.new }
        ensures status { self.new.status ≡ self.old.status }
        ensures cause { self.new.cause ≡ self.old.cause }
    {
        let got = self.conn.read(into);
        match got {
            Ok(Got::Bytes(count)) => keep_asked(&mut self.asked, &into[..count]),
            Ok(Got::Quiet | Got::Ended) | Err(Failed) => {}
        }
        got
    }

    fn write(&mut self, bytes: &[u8]) -> Result<usize, Failed>
        requires { 0 < length bytes.now }
        ensures writes { Writes (C.state self.old.conn) bytes.now result (C.state self.new.conn) }

        // What is kept.
        ensures asked { self.new.asked ≡ self.old.asked }
        ensures status { self.new.status.items
            ≡ status_after self.old.status.items bytes.now }
        ensures cause { self.new.cause.items ≡ cause_after self.old.cause.items bytes.now }
    {
        keep_status(&mut self.status, bytes);
        keep_cause(&mut self.cause, bytes);
        self.conn.write(bytes)
    }
}
