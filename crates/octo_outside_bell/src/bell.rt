//! A bell and its ear.
ghost use Rattle.std.specs.Prelude.{◌≡◌, None, IsNone, IsTrue, negsuc, ◌↔◌};

use libc::net::{POLLIN, poll};
use libc::types::pollfd;
use std::alloc::{AllocError, Global};
use std::io;
use std::io::{Read, Write};
use std::net::Net;
use std::os::fd::{AsRawFd, RawFd};
use std::os::unix::net::UnixStream;
use std::sync::Arc;
use std::sync::atomic::{AtomicBool, Ordering};

/// Ends waits of its ears. Each ring ends one wait: the present one, or else the next.
#[derive(Drop)]
pub struct Bell {
    stream: Option<UnixStream>,
}

// What an ear hears rings by, and whether one of its copies has waited beside another descriptor since the last wait for a ring alone.
#[derive(Drop)]
struct Hearing {
    stream: UnixStream,
    has_waited: Arc<AtomicBool>,
}

/// Hears a bell, as long as the bell exists.
#[derive(Drop)]
pub struct Ear {
    hearing: Option<Hearing>,
}

// Two ends of a socket none of whose calls waits.
fn ends<R: Net>(rt: &R) -> io::Result<(UnixStream, UnixStream)> {
    let (rings, hears) = UnixStream::pair(rt)?;
    rings.set_nonblocking(true)?;
    hears.set_nonblocking(true)?;
    Ok((rings, hears))
}

/// A bell and its ear. Without a socket for them they are a silent bell and a deaf ear. Fails if out of memory.
pub fn bell_and_ear<R: Net>(rt: &R, alloc: Global) -> Result<(Bell, Ear), AllocError> {
    let Ok((rings, hears)) = ends(rt) else {
        return Ok((Bell::silent(), Ear::deaf()));
    };
    let has_waited = Arc::new(alloc, AtomicBool::new(false))?;
    let bell = Bell {
        stream: Some(rings),
    };
    let ear = Ear {
        hearing: Some(Hearing {
            stream: hears,
            has_waited,
        }),
    };
    Ok((bell, ear))
}

impl Bell {
    /// A bell that nobody hears.
    pub fn silent() -> Self
        ensures { result.stream ≡ None }
    {
        Bell { stream: None }
    }

    /// Another bell of the same ears; a silent one if the system has no descriptor left.
    pub fn copy(&self) -> Self
        ensures { self.now.stream ≡ None → result.stream ≡ None }
    {
        match &self.stream {
            Some(stream) => Bell {
                stream: stream.try_clone().ok(),
            },
            None => Bell::silent(),
        }
    }

    /// Rings. It never waits: a ring is lost only if more than a hundred before it have ended no wait yet.
    pub fn ring(&mut self) {
        if let Some(stream) = &mut self.stream {
            let _ = stream.write(b"!");
        }
    }
}

impl Hearing {
    // Another that shares the rings. There is none if the system has no descriptor left.
    fn copy(&self) -> Option<Hearing> {
        let stream = self.stream.try_clone().ok()?;
        let has_waited = Arc::try_clone(&self.has_waited).ok()?;
        Some(Hearing { stream, has_waited })
    }
}

// What a poll asks of a descriptor: whether it has input.
fn input_of(fd: RawFd) -> pollfd {
    pollfd {
        fd,
        events: POLLIN,
        revents: 0,
    }
}

impl Ear {
    /// An ear that hears nothing.
    pub fn deaf() -> Self
        ensures { result.hearing ≡ None }
    {
        Ear { hearing: None }
    }

    /// Whether it hears nothing.
    pub fn is_deaf(&self) -> bool
        ensures { IsTrue result ↔ IsNone self.now.hearing }
    {
        self.hearing.is_none()
    }

    /// Another ear of the same bell, which shares the rings: a ring ends one wait of one of them. It is deaf if this one is, or if the
    /// system has no descriptor left.
    pub fn copy(&self) -> Self
        ensures { self.now.hearing ≡ None → result.hearing ≡ None }
    {
        match &self.hearing {
            Some(hearing) => Ear {
                hearing: hearing.copy(),
            },
            None => Ear::deaf(),
        }
    }

    // The descriptor that has input after a ring; -1, which a poll passes over, for a deaf ear.
    fn descriptor(&self) -> RawFd
        ensures { self.now.hearing ≡ None → result ≡ negsuc 0 }
    {
        match &self.hearing {
            Some(hearing) => hearing.stream.as_raw_fd(),
            None => -1,
        }
    }

    /// Whether this descriptor has input, or has failed, within that many milliseconds. A ring ends the wait and isn't taken.
    /// If the system can't say, the answer is `true`.
    pub fn wait_beside(&self, fd: RawFd, millis: u16) -> bool {
        let mut asked = [input_of(fd), input_of(self.descriptor())];
        let found = poll(&mut asked, millis as i32);
        if let Some(hearing) = &self.hearing {
            hearing.has_waited.store(true, Ordering::SeqCst);
        }
        found < 0 || asked[0].revents != 0
    }

    /// Waits for a ring, for that many milliseconds at most, and takes it. It doesn't wait if it, or a copy of it, has waited beside a
    /// descriptor since the last call.
    pub fn wait(&mut self, millis: u16) {
        if self.forget_wait() {
            self.take_ring();
            return;
        }
        let mut asked = [input_of(self.descriptor())];
        if poll(&mut asked, millis as i32) > 0 {
            self.take_ring();
        }
    }

    // Whether it, or a copy of it, has waited beside a descriptor since the last call.
    fn forget_wait(&self) -> bool {
        match &self.hearing {
            Some(hearing) => hearing.has_waited.swap(false, Ordering::SeqCst),
            None => false,
        }
    }

    // Takes one ring, if there is one.
    fn take_ring(&mut self) {
        if let Some(hearing) = &mut self.hearing {
            let mut ring = [0; 1];
            let _ = hearing.stream.read(&mut ring);
        }
    }
}
