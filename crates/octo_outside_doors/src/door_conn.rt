//! A connection of a door over TCP.
ghost use Rattle.std.specs.Prelude.{◌≡◌, ◌<◌, ◌≤◌, None, IfSome, length, ⊤};
ghost use Rattle.octo_outside.specs.Memory.{one_more};
ghost use Rattle.octo_outside.specs.Recorded.{Counts};

use crate::arrivals::Arrival;
use crate::pace::Pace;
use libc::net::{POLLIN, POLLOUT, poll};
use libc::types::pollfd;
use octo_outside::{Conn, Failed, Got};
use octo_outside_sockets::{linger, may_come_later, write_some};
use std::io::Read;
use std::net::{Shutdown, TcpStream};
use std::os::fd::AsRawFd;
use std::time::{Clock, Instant};

// How long one call waits for its peer, in milliseconds.
const WAIT: i32 = 10;

// How many such waits a write takes at most. The pace of its peer ends it before.
const WAITS: u32 = 1_100;

// After how many bytes, read and written, a connection rests: for a millisecond, and for one more for each further piece that was
// begun by then. A caller that reads or sends much without a pause would else take the processor that the printer's thread needs.
const PIECE: usize = 65_536;

// For how many milliseconds it rests at most.
const MOST_REST: usize = 10;

// A write of more than a piece is no part of a file, but a reply that was made for its caller, such as a list of a thousand files. It took
// the house's time too, so it counts as four pieces.
const MADE_REPLY: usize = 262_144;

// How long the end of a connection whose whole message wasn't read at the door waits for the peer's close, or for input that has to be
// dropped, in milliseconds. A peer that does neither has sent all as a rule.
const LAST_WAIT: i32 = 2;

// As those two, for input that is dropped at the end. Its sender may be back at once, as often as it is refused.
const DROPPED_PIECE: usize = 8_192;

const MOST_LAST_REST: usize = 200;

/// A connection of a door over TCP. It records neither what is left nor what was written.
///
/// A read waits for 10 milliseconds by the clock, and a write for 10 seconds at most. A peer may not be slow for long: for each
/// direction there are 10 seconds for which it may keep the connection waiting in all, and each 12,800 bytes that it sends or
/// takes add a second, up to those 10. Once they are used up, each read is quiet at once, or each write fails.
///
/// Once it has read and written 65,536 bytes or more since its last rest, it rests for a millisecond for each 65,536 bytes or part of
/// them, and for 10 at most, so that the processors are free for others. A write of more than 65,536 bytes counts as 262,144.
#[derive(Drop)]
pub struct DoorConn<R: Drop> {
    rt: R,
    stream: TcpStream,
    // Its whole message was read at the door.
    is_whole: bool,
    // What was read at the door, and how many bytes of it were returned.
    ahead: Vec<u8>,
    returned: usize,
    reads: Pace,
    writes: Pace,
    // How many bytes were read and written since the last rest.
    moved: usize,
    faults: u64,
    quiets: u64,
}

// Leaves the processors to others for a time.
fn rest(milliseconds: i32) {
    poll(&mut [], milliseconds);
}

// Whether a stream is ready for these events, or becomes so within a time. If the poll fails, the call of the stream that follows
// waits by its own limit.
fn is_ready(stream: &TcpStream, events: i16, milliseconds: i32) -> bool {
    let mut asked = [pollfd {
        fd: stream.as_raw_fd(),
        events,
        revents: 0,
    }];
    poll(&mut asked, milliseconds) != 0
}

// The same within 10 milliseconds, and for how many nanoseconds it waited: 0 if the clock fails.
fn wait_until_ready<R: Clock>(rt: &R, stream: &TcpStream, events: i16) -> (bool, u64) {
    let Ok(start) = Instant::now(rt) else {
        return (is_ready(stream, events, WAIT), 0);
    };
    let ready = is_ready(stream, events, WAIT);
    match start.elapsed(rt) {
        Ok(waited) => (ready, waited.as_nanos().min(u64::MAX as u128) as u64),
        Err(_) => (ready, 0),
    }
}

impl<R: Drop> DoorConn<R> {
    // The connection of an arrival, which first returns what was read of it. Of one that is late nothing more is read.
    pub(crate) fn new(rt: R, arrival: Arrival) -> Self
        ensures { (result.faults ≡ 0) × (result.quiets ≡ 0) }
    {
        DoorConn {
            rt,
            is_whole: arrival.is_whole(),
            stream: arrival.stream,
            ahead: arrival.ahead,
            returned: 0,
            reads: if arrival.is_late {
                Pace::used_up()
            } else {
                Pace::new()
            },
            writes: Pace::new(),
            moved: 0,
            faults: 0,
            quiets: 0,
        }
    }

    // Copies the next bytes of what was read at the door, and says how many; `None` if all were returned.
    fn take_ahead(&mut self, into: &mut [u8]) -> Option<usize>
        requires { 0 < length into.old }
        ensures taken { IfSome result (λ n. (0 < n) × (n ≤ length into.new)) }
        ensures faults { self.new.faults ≡ self.old.faults }
        ensures quiets { self.new.quiets ≡ self.old.quiets }
    {
        if self.returned >= self.ahead.len() {
            return None;
        }
        let rest = &self.ahead.as_slice()[self.returned..];
        let n = into.len().min(rest.len());
        into[..n].copy_from_slice(&rest[..n]);
        self.returned = self.returned.saturating_add(n);
        Some(n)
    }

    fn fail(&mut self) -> Failed
        ensures faults { self.new.faults ≡ one_more self.old.faults }
        ensures quiets { self.new.quiets ≡ self.old.quiets }
        ensures counts { Counts ⊤ self.old.faults self.new.faults }
    {
        self.faults = self.faults.saturating_add(1);
        Failed
    }

    // These bytes were read or written. After a piece or more it rests.
    fn count_moved(&mut self, bytes: usize)
        ensures faults { self.new.faults ≡ self.old.faults }
        ensures quiets { self.new.quiets ≡ self.old.quiets }
    {
        self.moved = self.moved.saturating_add(bytes);
        if self.moved >= PIECE {
            rest(self.moved.div_ceil(PIECE).min(MOST_REST) as i32);
            self.moved = 0;
        }
    }

    // A read found nothing yet.
    fn count_quiet(&mut self)
        ensures counts { self.new.quiets ≡ one_more self.old.quiets }
        ensures counted { self.old.quiets ≤ self.new.quiets }
        ensures faults { self.new.faults ≡ self.old.faults }
    {
        self.quiets = self.quiets.saturating_add(1);
    }
}

impl<R: Clock + Drop> DoorConn<R> {
    // Waits until the stream has something to read, for 10 milliseconds at most, and not at all once the peer was too slow.
    fn may_read(&mut self) -> bool
        ensures faults { self.new.faults ≡ self.old.faults }
        ensures quiets { self.new.quiets ≡ self.old.quiets }
    {
        if self.reads.is_used_up() {
            return false;
        }
        let (ready, waited) = wait_until_ready(&self.rt, &self.stream, POLLIN);
        self.reads.wait(waited);
        ready
    }

    // Waits until the stream has room to write, unless the peer is too slow.
    fn may_write(&mut self) -> bool
        ensures faults { self.new.faults ≡ self.old.faults }
        ensures quiets { self.new.quiets ≡ self.old.quiets }
    {
        for _ in 0..WAITS {
            if self.writes.is_used_up() {
                return false;
            }
            let (ready, waited) = wait_until_ready(&self.rt, &self.stream, POLLOUT);
            self.writes.wait(waited);
            if ready {
                return true;
            }
        }
        false
    }

    /// Gives the connection back. The peer can still read what was written: if input comes within 2 milliseconds, or has come
    /// where the whole message was read at the door, it is dropped until the peer closes, for about 50 milliseconds at most.
    /// Then this rests for a millisecond for each 8,192 bytes of that input or part of them, and for 200 at most.
    pub fn finish(mut self) {
        let _ = self.stream.shutdown(Shutdown::Write);
        let wait = if self.is_whole { 0 } else { LAST_WAIT };
        if is_ready(&self.stream, POLLIN, wait) {
            let dropped = linger(&self.rt, &mut self.stream);
            rest(dropped.div_ceil(DROPPED_PIECE).min(MOST_LAST_REST) as i32);
        }
    }
}

impl<R: Clock + Drop> Conn for DoorConn<R> {
    ghost state = { λ c. record {
      left = None;
      written = None;
      faults = c.faults;
      quiets = c.quiets;
    } };

    fn read(&mut self, into: &mut [u8]) -> Result<Got, Failed> {
        if let Some(n) = self.take_ahead(into) {
            return Ok(Got::Bytes(n));
        }
        if !self.may_read() {
            self.count_quiet();
            return Ok(Got::Quiet);
        }
        match self.stream.read(into) {
            Ok(0) => Ok(Got::Ended),
            Ok(n) => {
                self.reads.earn(n);
                self.count_moved(n);
                Ok(Got::Bytes(n))
            }
            Err(error) => {
                if may_come_later(&error) {
                    self.count_quiet();
                    return Ok(Got::Quiet);
                }
                Err(self.fail())
            }
        }
    }

    fn write(&mut self, bytes: &[u8]) -> Result<usize, Failed> {
        if !self.may_write() {
            return Err(self.fail());
        }
        match write_some(&mut self.stream, bytes) {
            Some(n) => {
                self.writes.earn(n);
                self.count_moved(if bytes.len() > PIECE { MADE_REPLY } else { n });
                Ok(n)
            }
            None => Err(self.fail()),
        }
    }
}
