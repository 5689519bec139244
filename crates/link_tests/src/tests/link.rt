//! The link to ports against peers on this machine, and the names that it lists.
use byte_text::{Line, ReplyLine};
use printer_link::{Heard, Link, LinkFault};
use printer_link_ports::SystemPorts;
use printer_link_socket::{PortLink, names_address, names_port};
use std::io::{Read, Write};
use std::net::{Shutdown, TcpListener, TcpStream};
use std::os::unix::net::UnixListener;
use std::process::Abort;
use std::test::Fail;
use std::time::Duration;
use std::{fs, process};

type SystemLink = PortLink<SystemPorts<HostRuntime>>;

fn system_link(rt: HostRuntime) -> SystemLink {
    PortLink::new(SystemPorts::new(rt, rt.alloc()), None)
}

// Names of addresses, and others.
#[test]
fn addresses(rt: HostRuntime) {
    for (name, want) in [
        ("127.0.0.1:7100", true),
        ("printer:0", true),
        ("printer:65535", true),
        ("printer:00080", true),
        ("a:b:7100", true),
        ("[::1]:7100", true),
        ("printer:65536", false),
        ("printer:99999", false),
        ("printer:000080", false),
        ("printer:", false),
        ("printer:+80", false),
        ("printer:80a", false),
        ("printer:80 ", false),
        ("printer", false),
        (":7100", false),
        (":", false),
        ("", false),
        ("unix:/run/printer", false),
        ("unix:/run/printer:7100", false),
        ("unix:80", false),
        ("tty:/dev/ttyUSB0:9600", false),
        ("tty:80", false),
    ] {
        assert_eq!(rt; names_address(name), want, "at {name}");
    }
}

// Names of ports, and others.
#[test]
fn ports(rt: HostRuntime) {
    for (name, want) in [
        ("127.0.0.1:7100", true),
        ("unix:/run/printer", true),
        ("unix:/run/printer:7100", true),
        ("unix:80", true),
        ("unix:", false),
        ("unix", false),
        ("Unix:/run/printer", false),
        ("printer", false),
        ("tty:/dev/ttyUSB0", true),
        ("tty:/dev/ttyUSB0:115200", true),
        ("tty:/dev/ttyUSB0:9999999", true),
        (
            "tty:/dev/serial/by-path/pci-0000:00:14.0-usb-0:1:1.0-port0",
            true,
        ),
        ("tty:/dev/ttyUSB0:fast", true),
        ("tty:/dev/ttyUSB0:", true),
        ("tty:/dev/ttyUSB0:0", false),
        ("tty:/dev/ttyUSB0:000", false),
        ("tty:/dev/ttyUSB0:10000000", false),
        ("tty:", false),
        ("tty::9600", false),
        ("tty", false),
        ("TTY:/dev/ttyUSB0", false),
    ] {
        assert_eq!(rt; names_port(name), want, "at {name}");
    }
}

// What the peer or the link does, and with which result.
#[derive(Clone, Copy)]
enum Step {
    // The peer writes this; writes this number of bytes without a line end; closes its writing side.
    Writes(&'static str),
    WritesMany(usize),
    Closes,
    // The link sends a line; the peer reads these bytes.
    Send(&'static str),
    Reads(&'static str),
    // The link receives this line; a line cut to 256 bytes; nothing; fails and is down.
    Hear(&'static str),
    HearCut,
    Quiet,
    Fails,
}

fn send(rt: &impl Abort, link: &mut SystemLink, text: &str) {
    let mut line = Line::new();
    line.try_extend_from_slice(text.as_bytes())
        .expect(rt, "a short line");
    assert!(rt; link.is_up() && line.len() <= 95);
    assert!(rt; link.send(&line) == Ok(()));
}

// Receives until a line has ended or the link has failed, at most a thousand times.
fn hear(rt: &impl Abort, link: &mut SystemLink, into: &mut ReplyLine) -> Result<Heard, LinkFault> {
    for _ in 0..1000 {
        assert!(rt; link.is_up());
        match link.recv(into) {
            Ok(Heard::Nothing) => {}
            other => return other,
        }
    }
    Ok(Heard::Nothing)
}

fn check_line(rt: &impl Abort, link: &mut SystemLink, want: &[u8]) {
    let mut reply = ReplyLine::new();
    assert!(rt; hear(rt, link, &mut reply) == Ok(Heard::Line));
    assert_eq!(rt; reply.as_slice(), want);
}

fn check_read<S: Read>(rt: &impl Abort, peer: &mut S, want: &[u8]) {
    let mut read = [0; 64];
    assert!(rt; want.len() <= 64);
    peer.read_exact(&mut read[..want.len()])
        .expect(rt, "what the link sent");
    assert_eq!(rt; &read[..want.len()], want);
}

fn take_step(rt: &impl Abort, link: &mut SystemLink, peer: &mut TcpStream, step: Step) {
    let mut reply = ReplyLine::new();
    match step {
        Step::Writes(text) => peer.write_all(text.as_bytes()).expect(rt, "written"),
        Step::WritesMany(count) => {
            for _ in 0..count {
                peer.write_all(b"x").expect(rt, "written");
            }
        }
        Step::Closes => peer.shutdown(Shutdown::Write).expect(rt, "shut"),
        Step::Send(text) => send(rt, link, text),
        Step::Reads(text) => check_read(rt, peer, text.as_bytes()),
        Step::Hear(text) => check_line(rt, link, text.as_bytes()),
        Step::HearCut => check_line(rt, link, &[b'x'; 256]),
        Step::Quiet => {
            assert!(rt; link.is_up());
            assert!(rt; link.recv(&mut reply) == Ok(Heard::Nothing));
        }
        Step::Fails => {
            assert!(rt; hear(rt, link, &mut reply) == Err(LinkFault::Failed));
            assert!(rt; !link.is_up());
        }
    }
}

const STEPS: [Step; 17] = [
    Step::Quiet,
    Step::Send("N0 M110 N1*124"),
    Step::Send("N2 G28*17"),
    Step::Quiet,
    Step::Reads("N0 M110 N1*124\nN2 G28*17\n"),
    // A carriage return belongs to the line, and lines that came together are received one by one.
    Step::Writes("ok\nok T:20 /0\r\n\nstar"),
    Step::Hear("ok"),
    Step::Hear("ok T:20 /0\r"),
    Step::Hear(""),
    Step::Quiet,
    Step::Writes("t\n"),
    Step::Hear("start"),
    // A line that is cut, and the line after it.
    Step::WritesMany(5000),
    Step::Writes("\nok\n"),
    Step::HearCut,
    Step::Hear("ok"),
    Step::Writes("not a whole li"),
];

#[test]
fn socket_link(rt: HostRuntime) -> Result<(), Fail> {
    let listener = TcpListener::bind(&rt, "127.0.0.1:0")?;
    let name = format!(in rt.alloc(); "{}", listener.local_addr()?)?;
    let mut link = system_link(rt);
    assert!(rt; !link.is_up());
    assert!(rt; link.dial("printer") == Err(LinkFault::NoPort));
    assert!(rt; !link.is_up());
    assert!(rt; link.dial(name.as_str()) == Ok(()));
    let (mut peer, _) = listener.accept()?;
    peer.set_read_timeout(Some(Duration::from_secs(10)))?;
    for step in STEPS {
        take_step(&rt, &mut link, &mut peer, step);
    }
    take_step(&rt, &mut link, &mut peer, Step::Closes);
    take_step(&rt, &mut link, &mut peer, Step::Fails);
    Ok(())
}

// What was sent before the host hangs up is written, and a dial fails if no peer listens.
#[test]
fn socket_link_ends(rt: HostRuntime) -> Result<(), Fail> {
    let listener = TcpListener::bind(&rt, "127.0.0.1:0")?;
    let name = format!(in rt.alloc(); "{}", listener.local_addr()?)?;
    let mut link = system_link(rt);
    assert!(rt; !link.is_up());
    assert!(rt; link.dial(name.as_str()) == Ok(()));
    let (mut peer, _) = listener.accept()?;
    peer.set_read_timeout(Some(Duration::from_secs(10)))?;
    take_step(&rt, &mut link, &mut peer, Step::Writes("ok\n"));
    take_step(&rt, &mut link, &mut peer, Step::Send("M104 S0"));
    link.hang_up();
    assert!(rt; !link.is_up());
    take_step(&rt, &mut link, &mut peer, Step::Reads("M104 S0\n"));
    drop(listener);
    assert!(rt; !link.is_up());
    assert!(rt; link.dial(name.as_str()) == Err(LinkFault::Failed));
    Ok(())
}

// A Unix socket: lines go both ways, and a dial fails once no peer listens.
#[test]
fn unix_socket(rt: HostRuntime) -> Result<(), Fail> {
    let path = format!(in rt.alloc(); "/tmp/socket_link_{}", process::id(rt.process()))?;
    let name = format!(in rt.alloc(); "unix:{}", path)?;
    let listener = UnixListener::bind(&rt, path.as_str())?;
    let mut link = system_link(rt);
    assert!(rt; !link.is_up());
    assert!(rt; link.dial(name.as_str()) == Ok(()));
    let (mut peer, _) = listener.accept()?;
    peer.set_read_timeout(Some(Duration::from_secs(10)))?;
    peer.write_all(b"start\n")?;
    check_line(&rt, &mut link, b"start");
    send(&rt, &mut link, "M104 S0");
    link.hang_up();
    check_read(&rt, &mut peer, b"M104 S0\n");
    fs::remove_file(&rt, path.as_str())?;
    assert!(rt; !link.is_up());
    assert!(rt; link.dial(name.as_str()) == Err(LinkFault::Failed));
    Ok(())
}
