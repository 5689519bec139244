//! A door in memory through its schedule, and four doors over TCP.
ghost use Rattle.std.specs.Prelude.{IfOk};
ghost use Rattle.octo_outside_doors.specs.Memory.{IsUntouched};

use octo_outside::{CallList, Conn, Failed, MemoryConn, calls_of, send_all};
use octo_outside_bell::Bell;
use octo_outside_doors::{ConnList, Door, Knock, MemoryDoor, TcpDoor, may_pass};
use std::alloc::{AllocError, Global};
use std::io::{self, Read, Write};
use std::net::{SocketAddr, TcpStream};
use std::process::Abort;
use std::test::Fail;
use std::time::Duration;

fn new_conn(alloc: Global, input: &[u8]) -> Result<MemoryConn, AllocError>
    ensures { IfOk result IsUntouched }
{
    MemoryConn::new(alloc, input, CallList::new(alloc), CallList::new(alloc))
}

// Accepts once, answers a connection and gives it back: `c` for one, `q` for Quiet, `e` for Ended, `f` for Failed.
fn serve_once<D: Door>(door: &mut D) -> char {
    match door.accept() {
        Ok(Knock::Conn(mut conn)) => {
            let mut into = [0; 4];
            let _ = conn.read(&mut into);
            let _ = send_all(&mut conn, &into);
            door.finish(conn);
            'c'
        }
        Ok(Knock::Quiet) => 'q',
        Ok(Knock::Ended) => 'e',
        Err(Failed) => 'f',
    }
}

// What was written to the connections that were given back, in order.
fn bytes_written(alloc: Global, door: &MemoryDoor) -> Result<Vec<u8>, AllocError> {
    let mut texts = Vec::new(alloc);
    for conn in door.served().unwrap_or(&[]) {
        texts.extend_from_slice(conn.written().unwrap_or(b""))?;
    }
    Ok(texts)
}

// A door at which three connections come; its second call finds nothing yet, and its fourth fails.
fn scheduled_door(alloc: Global) -> Result<MemoryDoor, AllocError> {
    let mut conns = ConnList::new(alloc);
    conns.push(new_conn(alloc, b"one.")?)?;
    conns.push(new_conn(alloc, b"two.")?)?;
    conns.push(new_conn(alloc, b"lost")?)?;
    let quiet_at = calls_of(alloc, &[2, 5])?;
    Ok(MemoryDoor::new(alloc, conns, quiet_at, calls_of(alloc, &[4, 5])?))
}

// The calls after the fourth find the end, whatever is listed.
#[test]
fn scheduled_accepts(rt: HostRuntime) -> Result<(), Fail> {
    let alloc = rt.alloc();
    let mut door = scheduled_door(alloc)?;
    for want in ['c', 'q', 'c', 'f', 'e', 'e'] {
        assert_eq!(rt; serve_once(&mut door), want);
    }
    let written = bytes_written(alloc, &door)?;
    assert_eq!(rt; written.as_slice(), b"one.two.".as_slice());
    Ok(())
}

// A door at which no connection is to come; its first two calls are listed as quiet, and the second fails.
fn bare_door(alloc: Global) -> Result<MemoryDoor, AllocError> {
    let quiet_at = calls_of(alloc, &[1, 2])?;
    Ok(MemoryDoor::new(
        alloc,
        ConnList::new(alloc),
        quiet_at,
        calls_of(alloc, &[2])?,
    ))
}

// A door at which no connection is to come ends at once, unless its call is listed.
#[test]
fn no_connections(rt: HostRuntime) -> Result<(), Fail> {
    let mut door = bare_door(rt.alloc())?;
    for want in ['e', 'f', 'e'] {
        assert_eq!(rt; serve_once(&mut door), want);
    }
    Ok(())
}

// A door at which one connection comes, and none of whose calls is listed.
fn door_of(alloc: Global, input: &[u8]) -> Result<MemoryDoor, AllocError> {
    let mut conns = ConnList::new(alloc);
    conns.push(new_conn(alloc, input)?)?;
    Ok(MemoryDoor::new(alloc, conns, CallList::new(alloc), CallList::new(alloc)))
}

// The calls of a door in memory that take memory, each once: it keeps the connection that is given back.
#[test]
fn ample(rt: HostRuntime) -> Result<(), Fail> {
    let alloc = rt.alloc();
    let mut door = door_of(alloc, b"one.")?;
    assert_eq!(rt; serve_once(&mut door), 'c');
    assert!(rt; door.served().is_some());
    let written = bytes_written(alloc, &door)?;
    assert_eq!(rt; written.as_slice(), b"one.".as_slice());
    Ok(())
}

// Four doors share a listener.
#[test]
fn ample_doors(rt: HostRuntime) -> Result<(), Fail> {
    let doors = TcpDoor::four(&rt, rt.alloc(), "127.0.0.1:0", &Bell::silent())?;
    let address = doors.a.address();
    assert!(rt; address.is_some());
    let others = [doors.b.address(), doors.c.address(), doors.d.address()];
    assert!(rt; others == [address; 3]);
    Ok(())
}

// What the next call finds that isn't Quiet. One call admits a connection, and a later one returns it.
fn serve_soon<D: Door>(door: &mut D) -> char {
    for _ in 0..100 {
        match serve_once(door) {
            'q' => {}
            other => return other,
        }
    }
    'q'
}

// A peer that has sent the end of a head and more to this address.
fn peer_of(rt: &HostRuntime, address: SocketAddr) -> Result<TcpStream, Fail> {
    let mut peer = TcpStream::connect(rt, address)?;
    peer.set_read_timeout(Some(Duration::from_secs(10)))?;
    peer.write_all(b"four\r\n\r\nand more")?;
    Ok(peer)
}

// The peer reads this, and then the end.
fn reads_four(rt: &impl Abort, peer: TcpStream) -> Result<(), Fail> {
    let mut peer = peer;
    let mut read = [0; 8];
    assert_eq!(rt; peer.read(&mut read)?, 4);
    assert_eq!(rt; peer.read(&mut read)?, 0);
    assert_eq!(rt; &read[..4], b"four".as_slice());
    Ok(())
}

// The four doors share one listener: whichever asks first takes the next connection. The peer reads what was written
// although its own input wasn't read.
#[test]
fn tcp_doors(rt: HostRuntime) -> Result<(), Fail> {
    let mut doors = TcpDoor::four(&rt, rt.alloc(), "127.0.0.1:0", &Bell::silent())?;
    assert_eq!(rt; serve_once(&mut doors.a), 'q');
    let peer = peer_of(&rt, doors.c.address().ok_or("not bound")?)?;
    assert_eq!(rt; serve_soon(&mut doors.b), 'c');
    assert_eq!(rt; serve_once(&mut doors.d), 'q');
    reads_four(&rt, peer)
}

// A peer that has sent a part of a head isn't served until the rest has come, and one that has closed is never served.
#[test]
fn parts_of_heads(rt: HostRuntime) -> Result<(), Fail> {
    let mut doors = TcpDoor::four(&rt, rt.alloc(), "127.0.0.1:0", &Bell::silent())?;
    let address = doors.a.address().ok_or("not bound")?;
    let gone = TcpStream::connect(&rt, address)?;
    drop(gone);
    let mut peer = TcpStream::connect(&rt, address)?;
    peer.set_read_timeout(Some(Duration::from_secs(10)))?;
    peer.write_all(b"four\r\n")?;
    for _ in 0..5 {
        assert_eq!(rt; serve_once(&mut doors.a), 'q');
    }
    peer.write_all(b"\r\n")?;
    assert_eq!(rt; serve_soon(&mut doors.d), 'c');
    reads_four(&rt, peer)
}

// What isn't an address: the first call fails, and the door has ended then.
#[test]
fn absent_doors(rt: HostRuntime) -> Result<(), Fail> {
    let mut doors = TcpDoor::four(&rt, rt.alloc(), "7100", &Bell::silent())?;
    for want in ['f', 'e', 'e'] {
        assert_eq!(rt;
            (serve_once(&mut doors.a), serve_once(&mut doors.d)),
            (want, want)
        );
    }
    Ok(())
}

// Each error of Linux's accept(2) that passes, and some that don't.
#[test]
fn passing_errors(rt: HostRuntime) {
    for number in [
        // EPERM, ENOMEM, ENFILE, EMFILE, ENONET, EPROTO, ENOPROTOOPT.
        1, 12, 23, 24, 64, 71, 92,
        // EOPNOTSUPP, ENETDOWN, ENETUNREACH, ECONNABORTED, ENOBUFS, EHOSTDOWN, EHOSTUNREACH.
        95, 100, 101, 103, 105, 112, 113,
    ] {
        let error = io::Error::from_raw_os_error(number);
        assert!(rt; may_pass(&error), "at {number}");
    }
    // EBADF, EFAULT, EINVAL, ENOTSOCK.
    for number in [9, 14, 22, 88] {
        let error = io::Error::from_raw_os_error(number);
        assert!(rt; !may_pass(&error), "at {number}");
    }
}
