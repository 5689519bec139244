//! The link to ports where its room and its time end: more lines than wait at once, silence after a fault, and how long silence takes.
use byte_text::{Line, ReplyLine};
use printer_link::{Heard, Link, LinkFault};
use printer_link_ports::SystemPorts;
use printer_link_socket::PortLink;
use std::alloc::Global;
use std::io::Read;
use std::net::{TcpListener, TcpStream};
use std::process::Abort;
use std::test::Fail;
use std::time::{Duration, Instant};

type SystemLink = PortLink<SystemPorts<HostRuntime>>;

// Dials the address of a listener, and returns the peer.
fn dial(
    rt: &impl Abort,
    alloc: Global,
    link: &mut SystemLink,
    listener: &TcpListener,
) -> Result<TcpStream, Fail> {
    let name = format!(in alloc; "{}", listener.local_addr()?)?;
    assert!(rt; !link.is_up());
    assert!(rt; link.dial(name.as_str()) == Ok(()));
    let (peer, _) = listener.accept()?;
    Ok(peer)
}

fn send(rt: &impl Abort, link: &mut SystemLink, line: &Line) {
    assert!(rt; link.is_up() && line.len() <= 95);
    assert!(rt; link.send(line) == Ok(()));
}

fn find_nothing(rt: &impl Abort, link: &mut SystemLink) {
    assert!(rt; link.is_up());
    assert!(rt; link.recv(&mut ReplyLine::new()) == Ok(Heard::Nothing));
}

// Whether a receiving fails, after some that find nothing.
fn fails_soon(rt: &impl Abort, link: &mut SystemLink) -> bool {
    for _ in 0..100 {
        assert!(rt; link.is_up());
        match link.recv(&mut ReplyLine::new()) {
            Ok(Heard::Nothing) => {}
            other => return other == Err(LinkFault::Failed),
        }
    }
    false
}

// The bytes of a line.
const BYTES: [u8; 89] = [b'G'; 89];

// Forty lines of 89 bytes are sent without a receiving in between, of which seventeen have room. None is lost.
#[test]
fn more_lines_than_wait(rt: HostRuntime) -> Result<(), Fail> {
    let listener = TcpListener::bind(&rt, "127.0.0.1:0")?;
    let mut link = PortLink::new(SystemPorts::new(rt, rt.alloc()), None);
    let mut peer = dial(&rt, rt.alloc(), &mut link, &listener)?;
    peer.set_read_timeout(Some(Duration::from_secs(10)))?;
    let line = Line::try_from(BYTES.as_slice()).expect(&rt, "a short line");
    for _ in 0..40 {
        send(&rt, &mut link, &line);
    }
    link.hang_up();
    let mut sent = [b'G'; 90];
    sent[89] = b'\n';
    for _ in 0..40 {
        let mut read = [0; 90];
        peer.read_exact(&mut read)?;
        assert!(rt; read == sent);
    }
    Ok(())
}

// A connection that broke leaves the next one whole: it finds nothing while its peer is silent.
#[test]
fn silence_after_a_fault(rt: HostRuntime) -> Result<(), Fail> {
    let listener = TcpListener::bind(&rt, "127.0.0.1:0")?;
    let mut link = PortLink::new(SystemPorts::new(rt, rt.alloc()), None);
    drop(dial(&rt, rt.alloc(), &mut link, &listener)?);
    assert!(rt; fails_soon(&rt, &mut link));
    let peer = dial(&rt, rt.alloc(), &mut link, &listener)?;
    find_nothing(&rt, &mut link);
    find_nothing(&rt, &mut link);
    drop(peer);
    Ok(())
}

// A receiving waits for about 10 milliseconds.
#[test]
fn short_silence(rt: HostRuntime) -> Result<(), Fail> {
    let listener = TcpListener::bind(&rt, "127.0.0.1:0")?;
    let mut link = PortLink::new(SystemPorts::new(rt, rt.alloc()), None);
    let peer = dial(&rt, rt.alloc(), &mut link, &listener)?;
    let start = Instant::now(&rt)?;
    for _ in 0..20 {
        find_nothing(&rt, &mut link);
    }
    assert!(rt; start.elapsed(&rt)? < Duration::from_secs(2));
    drop(peer);
    Ok(())
}
