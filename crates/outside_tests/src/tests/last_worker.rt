//! If three workers have a connection, the fourth is handed whole messages alone.
use octo_outside::{Conn, Failed, send_all};
use octo_outside_bell::Bell;
use octo_outside_doors::{Door, Doors, Knock, TcpDoor};
use std::io::{Read, Write};
use std::net::{SocketAddr, TcpStream};
use std::process::Abort;
use std::test::Fail;
use std::time::Duration;

// A head whose body hasn't come.
const HEAD: &[u8] = b"POST /api/job HTTP/1.1\r\nContent-Length: 2\r\n\r\n";

// A peer that has sent this.
fn peer_of(rt: &HostRuntime, address: SocketAddr, bytes: &[u8]) -> Result<TcpStream, Fail> {
    let mut peer = TcpStream::connect(rt, address)?;
    peer.set_read_timeout(Some(Duration::from_secs(10)))?;
    peer.write_all(bytes)?;
    Ok(peer)
}

// Whether the door hands on a connection within this number of calls. It is served.
fn hands_on<D: Door>(door: &mut D, calls: usize) -> bool {
    for _ in 0..calls {
        match door.accept() {
            Ok(Knock::Conn(mut conn)) => {
                let mut into = [0; 4];
                let _ = conn.read(&mut into);
                let _ = send_all(&mut conn, &into);
                door.finish(conn);
                return true;
            }
            Ok(Knock::Quiet) => {}
            Ok(Knock::Ended) => return false,
            Err(Failed) => return false,
        }
    }
    false
}

// Hands each of the first three doors a connection, and says whether they took it. None of them asks again.
fn takes_three<D: Door + Drop>(
    rt: &HostRuntime,
    address: SocketAddr,
    doors: &mut Doors<D>,
) -> Result<bool, Fail> {
    let _first = peer_of(rt, address, HEAD)?;
    let has_first = hands_on(&mut doors.a, 100);
    let _second = peer_of(rt, address, HEAD)?;
    let has_second = hands_on(&mut doors.b, 100);
    let _third = peer_of(rt, address, HEAD)?;
    let has_third = hands_on(&mut doors.c, 100);
    Ok(has_first && has_second && has_third)
}

// A message whose body hasn't come waits until it has, or until one of the others asks again.
#[test]
fn the_last_serves_whole_messages(rt: HostRuntime) -> Result<(), Fail> {
    let mut doors = TcpDoor::four(&rt, rt.alloc(), "127.0.0.1:0", &Bell::silent())?;
    let address = doors.a.address().ok_or("not bound")?;
    assert!(rt; takes_three(&rt, address, &mut doors)?);
    let mut part = peer_of(&rt, address, HEAD)?;
    assert!(rt; !hands_on(&mut doors.d, 5));
    let mut whole = peer_of(&rt, address, b"GET /api/job HTTP/1.1\r\n\r\n")?;
    assert!(rt; hands_on(&mut doors.d, 100));
    let mut read = [0; 4];
    assert_eq!(rt; whole.read(&mut read)?, 4);
    assert_eq!(rt; &read, b"GET ");
    assert!(rt; !hands_on(&mut doors.d, 5));
    part.write_all(b"{}")?;
    assert!(rt; hands_on(&mut doors.d, 100));
    Ok(())
}

// Another worker that asks again gets the oldest that waits.
#[test]
fn the_others_serve_what_waits(rt: HostRuntime) -> Result<(), Fail> {
    let mut doors = TcpDoor::four(&rt, rt.alloc(), "127.0.0.1:0", &Bell::silent())?;
    let address = doors.a.address().ok_or("not bound")?;
    assert!(rt; takes_three(&rt, address, &mut doors)?);
    let _part = peer_of(&rt, address, HEAD)?;
    assert!(rt; !hands_on(&mut doors.d, 5));
    assert!(rt; hands_on(&mut doors.b, 1));
    Ok(())
}

// Which messages are whole and have a short reply: not a body that goes on or comes in chunks, one that its peer sends after
// a word of the host, or the content of a file. What is no message tells nothing of what its peer has still to send.
#[test]
fn whole_messages(rt: HostRuntime) -> Result<(), Fail> {
    let mut doors = TcpDoor::four(&rt, rt.alloc(), "127.0.0.1:0", &Bell::silent())?;
    let address = doors.a.address().ok_or("not bound")?;
    assert!(rt; takes_three(&rt, address, &mut doors)?);
    let rows: [(&[u8], bool); 9] = [
        (b"GET /api/job HTTP/1.1\r\nX-Api-Key: key\r\n\r\n", true),
        (
            b"GET /downloads/files/local/a.gcode HTTP/1.1\r\n\r\n",
            false,
        ),
        (
            b"POST /api/job HTTP/1.1\r\ncontent-length:2\r\n\r\n{}",
            true,
        ),
        (
            b"POST /api/job HTTP/1.1\r\nContent-Length: 3\r\n\r\n{}",
            false,
        ),
        (
            b"POST /api/job HTTP/1.1\r\nContent-Length: 99999999999\r\n\r\n{}",
            false,
        ),
        (
            b"POST /api/job HTTP/1.1\r\nTransfer-Encoding: chunked\r\n\r\n0\r\n\r\n",
            false,
        ),
        (
            b"POST /api/job HTTP/1.1\r\nContent-Length: 2\r\nExpect: 100-continue\r\n\r\n{}",
            false,
        ),
        (
            b"POST /api/job HTTP/1.1\r\nContent-Length: 2\r\n\r\n{}{}",
            true,
        ),
        (b"no message\r\n\r\n", false),
    ];
    for (bytes, is_whole) in rows {
        let _peer = peer_of(&rt, address, bytes)?;
        assert_eq!(rt; hands_on(&mut doors.d, 8), is_whole);
    }
    Ok(())
}
