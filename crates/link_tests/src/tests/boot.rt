//! The wait for a printer that may restart when its line is opened, against a printer in memory.
ghost use Rattle.std.specs.Prelude.{None};

use byte_text::{Line, ReplyLine};
use printer_link::{Heard, Link, LinkFault};
use printer_link_cause::{Cause, WatchedLink};
use printer_link_socket::{Dial, Opened, PortLink, WriteNow};
use std::io;
use std::io::{ErrorKind, Read, Write};
use std::os::fd::{AsRawFd, RawFd};
use std::process::Abort;

// No file of the process has this number, so a poll returns at once.
const NO_FILE: RawFd = 1_000_000;

// What a printer says, a piece for each read, "" for none; nothing more comes then. A write fails before all pieces were read, and if it
// isn't this text.
#[derive(Clone, Copy)]
struct Script {
    pieces: &'static [&'static str],
    written: &'static str,
}

#[derive(Drop)]
struct Printer {
    script: Script,
    reads: usize,
}

impl Read for Printer {
    ghost remaining = { λ _. None };

    fn read(&mut self, into: &mut [u8]) -> io::Result<usize> {
        if self.reads >= self.script.pieces.len() {
            return Err(io::Error::from(ErrorKind::WouldBlock));
        }
        let piece = self.script.pieces[self.reads].as_bytes();
        self.reads += 1;
        let count = piece.len().min(into.len());
        if count == 0 {
            return Err(io::Error::from(ErrorKind::WouldBlock));
        }
        into[..count].copy_from_slice(&piece[..count]);
        Ok(count)
    }
}

impl Write for Printer {
    ghost contents = { λ _. None };

    fn write(&mut self, bytes: &[u8]) -> io::Result<usize> {
        let is_early = self.reads < self.script.pieces.len();
        if is_early || bytes != self.script.written.as_bytes() {
            return Err(io::Error::from(ErrorKind::InvalidData));
        }
        Ok(bytes.len())
    }

    fn flush(&mut self) -> io::Result<()> {
        Ok(())
    }
}

impl WriteNow for Printer {
    ghost room = { λ _. None };

    fn write_now(&mut self, bytes: &[u8]) -> io::Result<usize> {
        self.write(bytes)
    }
}

impl AsRawFd for Printer {
    fn as_raw_fd(&self) -> RawFd {
        NO_FILE
    }
}

// Ports to such a printer, and a clock that goes on by a second whenever it is read.
#[derive(Drop)]
struct Ports {
    script: Script,
    moment: u64,
}

impl Dial for Ports {
    type Stream = Printer;

    fn open(&mut self, _name: &str) -> Result<Opened<Printer>, Cause> {
        Ok(Opened::Ready(Printer {
            script: self.script,
            reads: 0,
        }))
    }

    fn go_on(&mut self, stream: Printer) -> Result<Opened<Printer>, Cause> {
        Ok(Opened::Ready(stream))
    }

    fn refuse(&mut self, _name: &str) {}

    fn reads_wait(&self, _stream: &Printer) -> bool {
        false
    }

    fn close(&mut self, stream: Printer) {
        drop(stream);
    }

    fn now(&mut self) -> u64 {
        self.moment = self.moment.saturating_add(1000);
        self.moment
    }
}

const HELLO: &str = "N0 M110 N1*124";

const WRITTEN: &str = "N0 M110 N1*124\n";

// A link to a printer at that port, to which the host has sent its first line.
fn link_to(
    rt: &impl Abort,
    name: &str,
    boot_ms: Option<u16>,
    pieces: &'static [&'static str],
) -> PortLink<Ports> {
    let script = Script {
        pieces,
        written: WRITTEN,
    };
    let mut link = PortLink::new(Ports { script, moment: 0 }, boot_ms);
    assert!(rt; !link.is_up());
    assert!(rt; link.dial(name) == Ok(()));
    let mut line = Line::new();
    line.try_extend_from_slice(HELLO.as_bytes())
        .expect(rt, "a short line");
    assert!(rt; link.is_up() && line.len() <= 95);
    assert!(rt; link.send(&line) == Ok(()));
    link
}

// What that number of calls finds: nothing.
fn find_nothing(rt: &impl Abort, link: &mut PortLink<Ports>, calls: usize) {
    let mut reply = ReplyLine::new();
    for call in 0..calls {
        assert!(rt; link.is_up());
        assert!(rt;
            link.recv(&mut reply) == Ok(Heard::Nothing),
            "at call {call}"
        );
    }
}

fn find_line(rt: &impl Abort, link: &mut PortLink<Ports>, text: &str) {
    let mut reply = ReplyLine::new();
    assert!(rt; link.is_up());
    assert!(rt; link.recv(&mut reply) == Ok(Heard::Line));
    assert_eq!(rt; reply.as_slice(), text.as_bytes());
}

// A reply to a former host is dropped, and so is all up to `start`; what came after it is received, and then the first line is written.
#[test]
fn restart(rt: HostRuntime) {
    let pieces = &["ok\n", "st", "art\necho: hello\n"];
    let mut link = link_to(&rt, "tty:/dev/ttyUSB0:115200", None, pieces);
    find_nothing(&rt, &mut link, 5);
    find_line(&rt, &mut link, "echo: hello");
    find_nothing(&rt, &mut link, 1);
    link.hang_up();
}

// A printer that doesn't restart is used once it had its boot time and was silent for 2.5 seconds. Each call is one second later.
#[test]
fn no_restart(rt: HostRuntime) {
    let pieces = &["", "ok\n", "", "", "o"];
    let mut link = link_to(&rt, "tty:/dev/ttyUSB0", None, pieces);
    // The sixth call reads "o", and after three more of silence that is dropped.
    find_nothing(&rt, &mut link, 6 + 3);
    find_nothing(&rt, &mut link, 1);
    link.hang_up();
}

// A printer that goes on speaking for a minute more than its boot time owes no one knows what.
#[test]
fn endless_speech(rt: HostRuntime) {
    let pieces = &["T:20\n"; 100];
    let mut link = link_to(&rt, "tty:/dev/ttyUSB0", Some(10_000), pieces);
    // A call reads a line, and the next one drops it: both look at the clock.
    let mut reply = ReplyLine::new();
    let mut last = None;
    for call in 0..200 {
        if !link.is_up() {
            break;
        }
        match link.recv(&mut reply) {
            Ok(Heard::Nothing) => last = Some(call),
            Ok(Heard::Line) => assert!(rt; false),
            Err(fault) => assert!(rt; fault == LinkFault::Failed),
        }
    }
    assert!(rt; !link.is_up());
    assert!(rt; last == Some(68));
    assert!(rt; link.cause() == Some(Cause::NeverSilent));
}

// Over a socket the first line is written at once, unless a boot time is given.
#[test]
fn sockets(rt: HostRuntime) {
    let mut link = link_to(&rt, "printer:7100", None, &[]);
    find_nothing(&rt, &mut link, 1);
    link.hang_up();
    let mut link = link_to(&rt, "printer:7100", Some(1), &["ok\n", "start\nok\n"]);
    find_nothing(&rt, &mut link, 4);
    find_line(&rt, &mut link, "ok");
    link.hang_up();
}
