//! Lines on their way to a stream.
ghost use Rattle.std.specs.Prelude.{◌≡◌, ◌≢◌, ◌+◌, ◌<◌, ◌≤◌, ◌++◌, ◌∷◌, ◌↔◌, ℕ, List, [], length, min, take, drop, IfErr, IfOk, IfSome, IsOk, IsTrue, OnErr, OnOk};
ghost use Rattle.std.specs.Io.KnownBytes.{Appends, Keeps};

use crate::dial::WriteNow;
use arrayvec::ArrayVec;
use byte_text::{Line, append, bounded_text};
use octo_outside_sockets::may_come_later;
use printer_link_cause::{Cause, cause_of};
use std::marker::Model;

// Room for sixteen of the longest lines, each with its line feed.
const ROOM: usize = 1552;

/// Lines that were sent and aren't written yet, each with its line feed. Of the first one a part may be written.
#[derive(Drop)]
pub struct Unsent {
    bytes: ArrayVec<u8, ROOM>,
}

impl Model for Unsent {
    ghost Value = { List ℕ };

    ghost view = { λ u. u.bytes.items };
}

// Writes as many of the bytes, a prefix, as the stream takes now. Otherwise it says why the stream failed.
fn write_some<S: WriteNow>(stream: &mut S, bytes: &[u8]) -> Result<usize, Cause>
    ensures bound { IfOk result (λ n. n ≤ length bytes.now) }
    ensures written { IfOk result
        (λ n. Appends (S.contents stream.old) (S.contents stream.new) (take n bytes.now)) }
    ensures fits { IfSome (S.room stream.old)
        (λ room. IfOk result (λ n. n ≡ min room (length bytes.now))) }
    ensures sure { IfSome (S.room stream.old)
        (λ room. 0 < length bytes.now → length bytes.now ≤ room → IsOk result) }
    ensures none { OnErr result (Keeps (S.contents stream.old) (S.contents stream.new)) }
    ensures cause { IfErr result (λ cause. cause ≢ Cause.ReadsNothing) }
{
    match stream.write_now(bytes) {
        Ok(0) => Err(Cause::TakesNothing),
        Ok(n) => Ok(n),
        Err(error) => {
            if may_come_later(&error) {
                return Ok(0);
            }
            Err(cause_of(&error))
        }
    }
}

impl Unsent {
    /// No line is unsent.
    pub fn new() -> Self
        ensures { result ≡ [] }
    {
        Unsent {
            bytes: ArrayVec::new(),
        }
    }

    /// Whether nothing is unsent.
    pub fn is_empty(&self) -> bool
        ensures { IsTrue result ↔ (self.now ≡ []) }
    {
        self.bytes.is_empty()
    }

    /// Whether there is room for this line.
    pub fn has_room(&self, line: &Line) -> bool
        ensures { IsTrue result ↔ (length self.now + length line.now.items + 1 ≤ ROOM) }
    {
        line.len() < self.bytes.remaining_capacity()
    }

    /// Adds a line and its line feed.
    pub fn add(&mut self, line: &Line)
        requires { length self.old + length line.now.items + 1 ≤ ROOM }
        ensures { self.new ≡ self.old ++ line.now.items ++ 10 ∷ [] }
    {
        append(&mut self.bytes, line.as_slice());
        self.bytes.push(b'\n');
    }

    // Forgets the first n bytes.
    fn forget(&mut self, n: usize)
        requires { n ≤ length self.old }
        ensures { self.new ≡ drop n self.old }
    {
        self.bytes = bounded_text(&self.bytes.as_slice()[n..]);
    }

    /// Writes as much as the stream takes now, and forgets that. Returns how many bytes that is, or why the stream failed.
    pub fn write<S: WriteNow>(&mut self, stream: &mut S) -> Result<usize, Cause>
        ensures written { IfOk result
            (λ n. Appends (S.contents stream.old) (S.contents stream.new) (take n self.old)) }
        ensures fits { IfSome (S.room stream.old)
            (λ room. IfOk result (λ n. n ≡ min room (length self.old))) }
        ensures left { IfOk result (λ n. self.new ≡ drop n self.old) }

        // It fails only if it takes no more, or for an error; what was unsent stays.
        ensures sure { IfSome (S.room stream.old)
            (λ room. length self.old ≤ room → IsOk result) }
        ensures kept { OnErr result (self.new ≡ self.old) }
        ensures none { OnErr result (Keeps (S.contents stream.old) (S.contents stream.new)) }
        ensures cause { IfErr result (λ cause. cause ≢ Cause.ReadsNothing) }
    {
        if self.bytes.is_empty() {
            return Ok(0);
        }
        match write_some(stream, self.bytes.as_slice()) {
            Ok(n) => {
                self.forget(n);
                Ok(n)
            }
            Err(cause) => Err(cause),
        }
    }
}
