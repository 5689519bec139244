//! Why a link failed, against peers on this machine, and what a log says of it.
ghost use Rattle.std.specs.Prelude.{◌≡◌, false};

use super::new_log;
use byte_text::{ReplyLine, bounded_text};
use octo_log_link::LoggedLink;
use octo_outside::MemorySink;
use printer_link::{Heard, Link, LinkFault};
use printer_link_cause::{Cause, WatchedLink, cause_words};
use printer_link_ports::SystemPorts;
use printer_link_socket::PortLink;
use std::alloc::Global;
use std::net::TcpListener;
use std::process::Abort;
use std::test::Fail;

type SystemLink = PortLink<SystemPorts<HostRuntime>>;

fn system_link(rt: HostRuntime) -> SystemLink
    ensures { result.up ≡ false }
{
    PortLink::new(SystemPorts::new(rt, rt.alloc()), None)
}

// A peer that listens, and its name as a port's.
fn new_peer(rt: HostRuntime) -> Result<(TcpListener, String), Fail> {
    let listener = TcpListener::bind(&rt, "127.0.0.1:0")?;
    let name = format!(in rt.alloc(); "{}", listener.local_addr()?)?;
    Ok((listener, name))
}

// Receives until the link has failed, at most a thousand times, and returns why it did.
fn cause_of_end(rt: &impl Abort, link: &mut SystemLink) -> Option<Cause> {
    for _ in 0..1000 {
        if !link.is_up() {
            break;
        }
        let _ = link.recv(&mut ReplyLine::new());
    }
    assert!(rt; !link.is_up());
    link.cause()
}

// Ports to which no link can be made.
#[test]
fn no_link(rt: HostRuntime) -> Result<(), Fail> {
    let (listener, name) = new_peer(rt)?;
    drop(listener);
    for (port, wanted) in [
        (name.as_str(), Cause::System(111)),
        ("unix:/no/such/socket", Cause::System(2)),
        ("tty:/no/such/device", Cause::NoDevice(2)),
        ("tty:/dev/null", Cause::NoTerminal),
    ] {
        let mut link = system_link(rt);
        assert!(rt; link.cause().is_none());
        assert!(rt; link.dial(port) == Err(LinkFault::Failed), "at {port}");
        assert!(rt; link.cause() == Some(wanted), "at {port}");
    }
    Ok(())
}

// A peer that closes.
#[test]
fn closed(rt: HostRuntime) -> Result<(), Fail> {
    let (listener, name) = new_peer(rt)?;
    let mut link = system_link(rt);
    assert!(rt; link.dial(name.as_str()) == Ok(()));
    let (peer, _) = listener.accept()?;
    drop(peer);
    assert!(rt; cause_of_end(&rt, &mut link) == Some(Cause::Closed));
    Ok(())
}

// A peer that closes before it has read a line: the system resets the connection.
#[test]
fn reset(rt: HostRuntime) -> Result<(), Fail> {
    let (listener, name) = new_peer(rt)?;
    let mut link = system_link(rt);
    assert!(rt; link.dial(name.as_str()) == Ok(()));
    let (peer, _) = listener.accept()?;
    assert!(rt; link.send(&bounded_text(b"N0 M110 N1*124")) == Ok(()));
    assert!(rt; link.recv(&mut ReplyLine::new()) == Ok(Heard::Nothing));
    drop(peer);
    assert!(rt; cause_of_end(&rt, &mut link) == Some(Cause::System(104)));
    Ok(())
}

// The words of some causes.
#[test]
fn words(rt: HostRuntime) {
    for (cause, wanted) in [
        (Cause::Closed, "closed by the printer"),
        (Cause::System(104), "connection reset by peer"),
        (Cause::System(19), "no such device"),
        (Cause::System(71), "system error 71"),
        (
            Cause::NoDevice(13),
            "the device can't be opened: permission denied; docs/SERIAL.md says more",
        ),
    ] {
        assert_eq!(rt; cause_words(cause).as_slice(), wanted.as_bytes());
    }
}

type TestLink = LoggedLink<SystemLink, MemorySink>;

fn logged_link(rt: HostRuntime) -> TestLink
    ensures { result.link.up ≡ false }
{
    LoggedLink::new(system_link(rt), new_log(rt.alloc()))
}

fn check_log(rt: &impl Abort, alloc: Global, link: &TestLink, first: &str, port: &str, last: &str) {
    let wanted = format!(in alloc; "{first}{port}{last}").expect(rt, "no memory");
    assert!(rt; link.log().written() == Some(wanted.as_bytes()));
}

// A link that can't be made has one line, however often it is tried.
#[test]
fn logged_no_link(rt: HostRuntime) -> Result<(), Fail> {
    let (listener, name) = new_peer(rt)?;
    drop(listener);
    let mut link = logged_link(rt);
    assert!(rt; link.dial(name.as_str()).is_err());
    assert!(rt; link.dial(name.as_str()).is_err());
    let last = ": connection refused\n";
    check_log(&rt, rt.alloc(), &link, "printer: no link to ", &name, last);
    Ok(())
}

// What the log says of a peer that accepts and closes.
#[test]
fn logged_loss(rt: HostRuntime) -> Result<(), Fail> {
    let (listener, name) = new_peer(rt)?;
    let mut link = logged_link(rt);
    assert!(rt; link.dial(name.as_str()).is_ok());
    let (peer, _) = listener.accept()?;
    drop(peer);
    assert!(rt; link.recv(&mut ReplyLine::new()).is_err());
    let last = "\nprinter: the link failed: closed by the printer\n";
    check_log(
        &rt,
        rt.alloc(),
        &link,
        "printer: connected to ",
        &name,
        last,
    );
    Ok(())
}
