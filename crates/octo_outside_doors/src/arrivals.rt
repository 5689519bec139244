//! Connections that wait for the rest of their heads, or for a worker.
ghost use Rattle.std.specs.Prelude.{◌≡◌, ◌≤◌, length};

use crate::came::{Came, MOST_AHEAD};
use crate::passing::may_pass;
use libc::net::{POLLIN, poll};
use libc::types::pollfd;
use octo_outside_sockets::{may_come_later, prepare};
use std::alloc::{AllocError, Global};
use std::io::Read;
use std::net::{SocketAddr, TcpListener, TcpStream};
use std::os::fd::AsRawFd;
use std::sync::{Mutex, Wait};
use std::time::{Clock, Duration, Instant};
use std::{io, thread};

// How many connections wait at most. If one more comes, the oldest is closed.
const MOST: usize = 64;

// How many descriptors are polled: theirs, and the listener's as the last.
const POLLED: usize = 65;

// How many bytes a read may bring.
const CHUNK: usize = 4_096;

// For how long a connection waits at most, in seconds.
const LONGEST: u64 = 60;

// How long one call waits for input while a worker has a connection, and rests if the system has no room for one, in milliseconds.
const WAIT: i32 = 10;

// How long it waits for input if none has: then no worker has one to give back, and an idle host seldom wakes.
const IDLE_WAIT: i32 = 50;

// How many of the four workers may serve connections at once that may keep them waiting. The last one serves whole messages.
const MOST_BUSY: u8 = 3;

// For how long a worker leaves the list to the others if a connection waits for one of them, in microseconds.
const TURN: u64 = 250;

/// A connection that has come, with the bytes that were read of it.
#[derive(Drop)]
pub(crate) struct Arrival {
    pub stream: TcpStream,
    pub ahead: Vec<u8>,
    // It has begun a head and not ended it in a minute.
    pub is_late: bool,
    came: Came,
    // The peer sends no more.
    has_ended: bool,
    since: Instant,
}

impl Arrival {
    // One that has come now, if the clock can be read.
    fn new<R: Clock>(rt: &R, alloc: Global, stream: TcpStream) -> Option<Self> {
        Some(Arrival {
            stream,
            ahead: Vec::new(alloc),
            is_late: false,
            came: Came::Part,
            has_ended: false,
            since: Instant::now(rt).ok()?,
        })
    }

    /// Whether its whole message was read, so that its peer has nothing more to send.
    pub(crate) fn is_whole(&self) -> bool {
        self.came == Came::Whole
    }

    // Whether more of it is read at the door.
    fn goes_on(&self) -> bool {
        self.came != Came::Whole && !self.has_ended && self.ahead.len() < MOST_AHEAD
    }

    // Reads what came. Returns whether the connection has closed without a byte, or failed.
    fn read_ahead(&mut self) -> bool {
        let mut chunk = [0; CHUNK];
        match self.stream.read(&mut chunk) {
            Ok(0) => {
                self.has_ended = true;
                self.came = Came::Head;
                self.ahead.is_empty()
            }
            Ok(n) => self.add(&chunk[..n]),
            Err(error) => !may_come_later(&error),
        }
    }

    // Adds what came. Returns whether there was no memory for it, so that the connection is given up.
    fn add(&mut self, bytes: &[u8]) -> bool {
        if self.ahead.extend_from_slice(bytes).is_err() {
            return true;
        }
        self.came = Came::of(self.ahead.as_slice());
        false
    }

    // Whether a worker may have it: one that is the last may have a whole message alone.
    fn is_ready(&self, is_last: bool) -> bool {
        match self.came {
            Came::Part => false,
            Came::Head => !is_last,
            Came::Whole => true,
        }
    }

    // Whether it has waited for a minute.
    fn is_old<R: Clock>(&self, rt: &R) -> bool {
        match self.since.elapsed(rt) {
            Ok(age) => age >= Duration::from_secs(LONGEST),
            Err(_) => false,
        }
    }
}

/// A listener, and the connections of it that no worker has yet, the oldest first. It never has more than 64 of them.
///
/// One that has sent its head, 8 KiB, or some bytes and then its end, is handed on. If three workers have a connection, the
/// fourth is handed whole messages alone, to which the reply is short: so callers that send or read slowly leave it to the
/// others. After a minute a connection that has sent nothing is closed, since browsers open connections before they need
/// them, and one that has sent less than a head is handed on as late.
#[derive(Drop)]
pub(crate) struct Arrivals {
    alloc: Global,
    listener: TcpListener,
    begun: Vec<Arrival>,
    // How many workers have a connection.
    busy: u8,
}

impl Arrivals {
    /// Those of this listener, whose calls wait for a bounded time. None has come yet. Fails if out of memory.
    pub(crate) fn new(alloc: Global, listener: TcpListener) -> Result<Self, AllocError> {
        Ok(Arrivals {
            alloc,
            listener,
            begun: Vec::with_capacity(alloc, MOST)?,
            busy: 0,
        })
    }

    // For each connection that goes on whether it has input, and at the end whether the listener has a connection. Waits until one
    // of them has: for about 10 milliseconds, or for 50 if no worker has a connection.
    fn poll_all(&self) -> [pollfd; POLLED] {
        let none = pollfd {
            fd: -1,
            events: POLLIN,
            revents: 0,
        };
        let mut asked = [none; POLLED];
        for place in 0..MOST {
            if let Some(arrival) = self.begun.as_slice().get(place)
                && arrival.goes_on()
            {
                asked[place].fd = arrival.stream.as_raw_fd();
            }
        }
        asked[MOST].fd = self.listener.as_raw_fd();
        poll(&mut asked, if self.busy == 0 { IDLE_WAIT } else { WAIT });
        asked
    }

    // Takes the connection at this place out.
    fn remove(&mut self, place: usize) -> Option<Arrival> {
        if place < self.begun.len() {
            return Some(self.begun.remove(place));
        }
        None
    }

    // The place of the oldest connection that has sent less than a head.
    fn oldest_part(&self) -> Option<usize> {
        let begun = self.begun.as_slice();
        begun.iter().position(|it| it.came == Came::Part)
    }

    // Takes the oldest connection out that a worker may have now.
    fn take_ready(&mut self) -> Option<Arrival> {
        let is_last = self.busy >= MOST_BUSY;
        let begun = self.begun.as_slice();
        let place = begun.iter().position(|it| it.is_ready(is_last))?;
        self.remove(place)
    }

    // Whether a connection waits for one of the workers that have one.
    fn has_waiting(&self) -> bool {
        let begun = self.begun.as_slice();
        begun.iter().any(|it| it.came == Came::Head)
    }

    // Reads what came at the connection at this place, and drops it if it is gone.
    fn look(&mut self, place: usize) {
        if let Some(arrival) = self.begun.get_mut(place)
            && arrival.read_ahead()
        {
            let _ = self.remove(place);
        }
    }

    // Reads what came at the connections that have input. The last is looked at first, since one that is dropped moves those
    // behind it.
    fn look_at_all(&mut self, asked: &[pollfd; POLLED]) {
        for before in 0..MOST {
            let place = MOST - 1 - before;
            if asked[place].revents != 0 {
                self.look(place);
            }
        }
    }

    // Keeps a connection that has come. One that can't be readied, or for which there is no memory, is closed.
    fn keep<R: Clock>(&mut self, rt: &R, stream: TcpStream) {
        if prepare(&stream).is_err() {
            return;
        }
        let Some(arrival) = Arrival::new(rt, self.alloc, stream) else {
            return;
        };
        if self.begun.len() >= MOST {
            self.drop_oldest();
        }
        let _ = self.begun.push(arrival);
    }

    // Closes the oldest connection: one that has sent less than a head, if there is one.
    fn drop_oldest(&mut self) {
        let place = self.oldest_part().unwrap_or(0);
        let _ = self.remove(place);
    }

    // Takes in a connection, and returns whether it did. Fails if the listener failed. If the system has no room, the oldest
    // connection is closed.
    fn admit<R: Clock>(&mut self, rt: &R) -> io::Result<bool> {
        let error = match self.listener.accept() {
            Ok((stream, _)) => {
                self.keep(rt, stream);
                return Ok(true);
            }
            Err(error) => error,
        };
        if may_come_later(&error) {
            return Ok(false);
        }
        if !may_pass(&error) {
            return Err(error);
        }
        self.drop_oldest();
        thread::sleep(rt, Duration::from_millis(WAIT as u64));
        Ok(false)
    }

    // Whether the listener has a connection now.
    fn has_caller(&self) -> bool {
        let mut asked = [pollfd {
            fd: self.listener.as_raw_fd(),
            events: POLLIN,
            revents: 0,
        }];
        poll(&mut asked, 0) > 0
    }

    // Takes in the connections that have come while there is room: the first of them in any case. Fails if the listener failed.
    fn admit_all<R: Clock>(&mut self, rt: &R) -> io::Result<()> {
        for _ in 0..MOST {
            if !self.admit(rt)? || self.begun.len() >= MOST || !self.has_caller() {
                break;
            }
        }
        Ok(())
    }

    // Takes the oldest connection out that has sent less than a head, if it has waited for a minute. One that has sent nothing
    // is closed.
    fn take_old<R: Clock>(&mut self, rt: &R) -> Option<Arrival> {
        let place = self.oldest_part()?;
        if !self.begun.as_slice().get(place)?.is_old(rt) {
            return None;
        }
        let mut oldest = self.remove(place)?;
        if oldest.ahead.is_empty() {
            return None;
        }
        oldest.is_late = true;
        Some(oldest)
    }

    // The next connection that is handed on, if there is one within that time. Fails if the listener failed.
    fn next<R: Clock>(&mut self, rt: &R) -> io::Result<Option<Arrival>> {
        if let Some(arrival) = self.take_ready() {
            return Ok(Some(arrival));
        }
        let asked = self.poll_all();
        self.look_at_all(&asked);
        if asked[MOST].revents != 0 {
            self.admit_all(rt)?;
        }
        match self.take_ready() {
            Some(arrival) => Ok(Some(arrival)),
            None => Ok(self.take_old(rt)),
        }
    }

    // The same for a worker, which gives a connection back if it had one.
    fn next_for<R: Clock>(&mut self, rt: &R, had_one: bool) -> io::Result<Option<Arrival>> {
        if had_one {
            self.busy = self.busy.saturating_sub(1);
        }
        let arrival = self.next(rt)?;
        if arrival.is_some() {
            self.busy = self.busy.saturating_add(1);
        }
        Ok(arrival)
    }
}

/// The address of the listener.
pub(crate) fn address_of<R: Wait>(rt: &R, arrivals: &Mutex<Arrivals>) -> Option<SocketAddr> {
    let arrivals = arrivals.lock(rt);
    arrivals.listener.local_addr().ok()
}

// The next connection that is handed on to a worker, and whether one is left to the others.
fn next_in_turn<R: Clock + Wait>(
    rt: &R,
    arrivals: &Mutex<Arrivals>,
    had_one: bool,
) -> io::Result<(Option<Arrival>, bool)> {
    let mut arrivals = arrivals.lock(rt);
    let arrival = arrivals.next_for(rt, had_one)?;
    let is_left = arrival.is_none() && arrivals.has_waiting();
    Ok((arrival, is_left))
}

/// The next connection that is handed on to a worker, which gives one back if it had one. Waits for the others that ask, and
/// for about 10 milliseconds more, or for 50 if no worker has a connection.
pub(crate) fn next_of<R: Clock + Wait>(
    rt: &R,
    arrivals: &Mutex<Arrivals>,
    had_one: bool,
) -> io::Result<Option<Arrival>> {
    let (arrival, is_left) = next_in_turn(rt, arrivals, had_one)?;
    if is_left {
        thread::sleep(rt, Duration::from_micros(TURN));
    }
    Ok(arrival)
}
