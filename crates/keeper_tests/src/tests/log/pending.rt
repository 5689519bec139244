//! A link whose peer accepts it, or doesn't, only after some calls, and what a log says of it.
ghost use Rattle.std.specs.Prelude.{◌≡◌, None, false, true};

use super::new_log;
use byte_text::{ReplyLine, bounded_text};
use octo_log_link::LoggedLink;
use octo_outside::MemorySink;
use printer_link::{Heard, Link};
use printer_link_cause::{Cause, WatchedLink};
use printer_link_socket::{Dial, Opened, PortLink, WriteNow};
use std::alloc::Global;
use std::io;
use std::io::{ErrorKind, Read, Write};
use std::os::fd::{AsRawFd, RawFd};
use std::process::Abort;

// No file of the process has this number, so a poll returns at once.
const NO_FILE: RawFd = 1_000_000;

// A printer that says nothing, and takes all that is written.
#[derive(Drop)]
struct Silence;

impl Read for Silence {
    ghost remaining = { λ _. None };

    fn read(&mut self, _into: &mut [u8]) -> io::Result<usize> {
        Err(io::Error::from(ErrorKind::WouldBlock))
    }
}

impl Write for Silence {
    ghost contents = { λ _. None };

    fn write(&mut self, bytes: &[u8]) -> io::Result<usize> {
        Ok(bytes.len())
    }

    fn flush(&mut self) -> io::Result<()> {
        Ok(())
    }
}

impl WriteNow for Silence {
    ghost room = { λ _. None };

    fn write_now(&mut self, bytes: &[u8]) -> io::Result<usize> {
        self.write(bytes)
    }
}

impl AsRawFd for Silence {
    fn as_raw_fd(&self) -> RawFd {
        NO_FILE
    }
}

// Ports whose peer accepts after this number of calls, or else can't be reached.
#[derive(Drop)]
struct SlowPorts {
    calls: u32,
    accepts: bool,
}

impl Dial for SlowPorts {
    type Stream = Silence;

    fn open(&mut self, _name: &str) -> Result<Opened<Silence>, Cause> {
        Ok(Opened::Pending(Silence))
    }

    fn go_on(&mut self, stream: Silence) -> Result<Opened<Silence>, Cause> {
        if self.calls > 0 {
            self.calls -= 1;
            return Ok(Opened::Pending(stream));
        }
        if self.accepts {
            Ok(Opened::Ready(stream))
        } else {
            Err(Cause::System(113))
        }
    }

    fn refuse(&mut self, _name: &str) {}

    fn reads_wait(&self, _stream: &Silence) -> bool {
        false
    }

    fn close(&mut self, stream: Silence) {
        drop(stream);
    }

    fn now(&mut self) -> u64 {
        0
    }
}

type TestLink = LoggedLink<PortLink<SlowPorts>, MemorySink>;

// A link over such ports, which accept after two calls or don't.
fn slow_link(alloc: Global, accepts: bool) -> TestLink
    ensures { result.link.up ≡ false }
{
    let ports = SlowPorts { calls: 2, accepts };
    LoggedLink::new(PortLink::new(ports, None), new_log(alloc))
}

// Two calls while the peer may accept yet: they find nothing, and the log says nothing.
fn wait_twice(rt: &impl Abort, link: &mut TestLink)
    requires { link.old.link.up ≡ false }
    ensures { link.new.link.up ≡ true }
{
    assert!(rt; link.dial("printer:7100").is_ok());
    assert!(rt; link.send(&bounded_text(b"N0 M110 N1*124")).is_ok());
    assert!(rt; link.recv(&mut ReplyLine::new()) == Ok(Heard::Nothing));
    assert!(rt; link.recv(&mut ReplyLine::new()) == Ok(Heard::Nothing));
    assert!(rt; link.is_pending());
    assert!(rt; link.log().written() == Some(b""));
}

// The peer accepts.
#[test]
fn accepted(rt: HostRuntime) {
    let mut link = slow_link(rt.alloc(), true);
    wait_twice(&rt, &mut link);
    assert!(rt; link.recv(&mut ReplyLine::new()) == Ok(Heard::Nothing));
    assert!(rt; !link.is_pending());
    link.hang_up();
    let wanted: &[u8] = b"printer: connected to printer:7100\nprinter: disconnected\n";
    assert!(rt; link.log().written() == Some(wanted));
}

// The peer can't be reached.
#[test]
fn unreached(rt: HostRuntime) {
    let mut link = slow_link(rt.alloc(), false);
    wait_twice(&rt, &mut link);
    assert!(rt; link.recv(&mut ReplyLine::new()).is_err());
    let wanted: &[u8] = b"printer: no link to printer:7100: no route to host\n";
    assert!(rt; link.log().written() == Some(wanted));
}

// Someone disconnects meanwhile.
#[test]
fn given_up(rt: HostRuntime) {
    let mut link = slow_link(rt.alloc(), true);
    wait_twice(&rt, &mut link);
    link.hang_up();
    assert!(rt; link.log().written() == Some(b""));
}
