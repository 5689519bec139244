//! The link to a printer that doesn't read: it waits, and none of its calls does.
use byte_text::{Line, ReplyLine, bounded_text};
use printer_link::{Heard, Link, LinkFault};
use printer_link_cause::{Cause, WatchedLink};
use printer_link_ports::SystemPorts;
use printer_link_socket::{Dial, Opened, PortLink, WriteNow};
use std::alloc::Global;
use std::io::Read;
use std::net::{TcpListener, TcpStream};
use std::process::Abort;
use std::test::Fail;
use std::time::{Clock, Duration, Instant};

type Ports = SystemPorts<HostRuntime>;

type Stream = <Ports as Dial>::Stream;

// Ports that fill each stream with bytes `x` before a link has it, and whose clock runs four times as fast.
#[derive(Drop)]
struct FullPorts {
    ports: Ports,
}

// Writes until the stream has taken nothing at thirty tries in a row: the system may make its buffers larger at first.
fn fill(stream: &mut Stream) {
    let filler = [b'x'; 4096];
    let mut refused: u32 = 0;
    for _ in 0..100_000 {
        if stream.write_now(&filler).is_ok() {
            refused = 0;
        } else {
            refused = refused.saturating_add(1);
        }
        if refused == 30 {
            return;
        }
    }
}

impl Dial for FullPorts {
    type Stream = Stream;

    fn open(&mut self, name: &str) -> Result<Opened<Stream>, Cause> {
        match self.ports.open(name) {
            Ok(Opened::Ready(stream)) => {
                let mut stream = stream;
                fill(&mut stream);
                Ok(Opened::Ready(stream))
            }
            other => other,
        }
    }

    fn go_on(&mut self, stream: Stream) -> Result<Opened<Stream>, Cause> {
        self.ports.go_on(stream)
    }

    fn refuse(&mut self, name: &str) {
        self.ports.refuse(name);
    }

    fn reads_wait(&self, stream: &Stream) -> bool {
        self.ports.reads_wait(stream)
    }

    fn close(&mut self, stream: Stream) {
        self.ports.close(stream);
    }

    fn now(&mut self) -> u64 {
        self.ports.now().saturating_mul(4)
    }
}

type FullLink = PortLink<FullPorts>;

fn full_link(rt: HostRuntime) -> FullLink {
    let ports = SystemPorts::new(rt, rt.alloc());
    PortLink::new(FullPorts { ports }, None)
}

// Dials the address of a listener, and returns the peer, which has read nothing.
fn dial(
    rt: &impl Abort,
    alloc: Global,
    link: &mut FullLink,
    listener: &TcpListener,
) -> Result<TcpStream, Fail> {
    let name = format!(in alloc; "{}", listener.local_addr()?)?;
    assert!(rt; !link.is_up());
    assert!(rt; link.dial(name.as_str()) == Ok(()));
    let (peer, _) = listener.accept()?;
    peer.set_read_timeout(Some(Duration::from_millis(10)))?;
    Ok(peer)
}

fn send(rt: &impl Abort, link: &mut FullLink, text: &[u8]) {
    assert!(rt; text.len() <= 95);
    let line: Line = bounded_text(text);
    assert!(rt; link.is_up());
    assert!(rt; link.send(&line) == Ok(()));
}

// A call of the link that finds nothing. Returns whether it took more than 50 milliseconds.
fn finds_nothing_late<R: Abort + Clock>(rt: &R, link: &mut FullLink) -> Result<bool, Fail> {
    assert!(rt; link.is_up());
    let start = Instant::now(rt)?;
    assert!(rt; link.recv(&mut ReplyLine::new()) == Ok(Heard::Nothing));
    Ok(start.elapsed(rt)? > Duration::from_millis(50))
}

// Calls of the link that find nothing, of which on a busy machine a quarter may take more than 50 milliseconds.
fn find_nothing<R: Abort + Clock>(rt: &R, link: &mut FullLink, calls: u32) -> Result<(), Fail> {
    let mut late: u32 = 0;
    for _ in 0..calls {
        if finds_nothing_late(rt, link)? {
            late = late.saturating_add(1);
        }
    }
    assert!(rt; late <= calls / 4);
    Ok(())
}

// Reads what has come, and keeps what isn't filler.
fn read_some(peer: &mut TcpStream, came: &mut ReplyLine) {
    let mut chunk = [0; 65_536];
    let count = peer.read(&mut chunk).unwrap_or(0).min(chunk.len());
    for byte in &chunk[..count] {
        if *byte != b'x' {
            let _ = came.try_push(*byte);
        }
    }
}

const TEXTS: [&str; 4] = ["N1 G28", "N2 G1 X10", "N3 G1 X20", "N4 M400"];

const WANTED: &str = "N1 G28\nN2 G1 X10\nN3 G1 X20\nN4 M400\n";

// The lines wait while the buffer is full, and come once and in order when the peer reads again.
#[test]
fn full_buffer(rt: HostRuntime) -> Result<(), Fail> {
    let listener = TcpListener::bind(&rt, "127.0.0.1:0")?;
    let mut link = full_link(rt);
    let mut peer = dial(&rt, rt.alloc(), &mut link, &listener)?;
    for text in TEXTS {
        send(&rt, &mut link, text.as_bytes());
        find_nothing(&rt, &mut link, 10)?;
    }
    let mut came = ReplyLine::new();
    for _ in 0..200 {
        read_some(&mut peer, &mut came);
        assert!(rt; link.is_up());
        assert!(rt; link.recv(&mut ReplyLine::new()) == Ok(Heard::Nothing));
    }
    assert_eq!(rt; came.as_slice(), WANTED.as_bytes());
    Ok(())
}

// The link fails once the buffer was full for 16 seconds by its clock, which are four seconds.
#[test]
fn given_up(rt: HostRuntime) -> Result<(), Fail> {
    let listener = TcpListener::bind(&rt, "127.0.0.1:0")?;
    let mut link = full_link(rt);
    let peer = dial(&rt, rt.alloc(), &mut link, &listener)?;
    send(&rt, &mut link, b"N1 G28");
    let start = Instant::now(&rt)?;
    let mut reply = ReplyLine::new();
    for _ in 0..10_000 {
        if !link.is_up() {
            break;
        }
        let _ = link.recv(&mut reply);
    }
    assert!(rt; !link.is_up());
    let gone = start.elapsed(&rt)?;
    assert!(rt; gone >= Duration::from_millis(3990) && gone < Duration::from_secs(20));
    assert!(rt; link.cause() == Some(Cause::ReadsNothing));
    drop(peer);
    Ok(())
}

// A link whose buffer is full hangs up soon.
#[test]
fn hung_up(rt: HostRuntime) -> Result<(), Fail> {
    let listener = TcpListener::bind(&rt, "127.0.0.1:0")?;
    let mut link = full_link(rt);
    let peer = dial(&rt, rt.alloc(), &mut link, &listener)?;
    let start = Instant::now(&rt)?;
    for _ in 0..16 {
        send(&rt, &mut link, &[b'G'; 95]);
    }
    link.hang_up();
    assert!(rt; start.elapsed(&rt)? < Duration::from_millis(300));
    drop(peer);
    Ok(())
}

// The seventeenth of the longest lines has no room.
#[test]
fn one_line_too_many(rt: HostRuntime) -> Result<(), Fail> {
    let listener = TcpListener::bind(&rt, "127.0.0.1:0")?;
    let mut link = full_link(rt);
    let peer = dial(&rt, rt.alloc(), &mut link, &listener)?;
    for _ in 0..16 {
        send(&rt, &mut link, &[b'G'; 95]);
    }
    assert!(rt; link.is_up());
    assert!(rt; link.send(&bounded_text(&[b'G'; 95])) == Err(LinkFault::Failed));
    assert!(rt; link.cause() == Some(Cause::ReadsNothing));
    drop(peer);
    Ok(())
}
