//! A connection over the loopback address.
use octo_outside::{Conn, Failed, Got};
use octo_outside_sockets::TcpConn;
use std::io::{Read, Write};
use std::net::{Shutdown, TcpListener, TcpStream};
use std::test::Fail;
use std::time::Duration;

// The first answer that isn't Quiet, if one comes soon.
fn next(conn: &mut TcpConn<HostRuntime>, into: &mut [u8; 8]) -> Result<Got, Failed> {
    for _ in 0..100 {
        match conn.read(into) {
            Ok(Got::Quiet) => {}
            other => return other,
        }
    }
    Ok(Got::Quiet)
}

#[test]
fn tcp_connection(rt: HostRuntime) -> Result<(), Fail> {
    let listener = TcpListener::bind(&rt, "127.0.0.1:0")?;
    let mut peer = TcpStream::connect(&rt, listener.local_addr()?)?;
    peer.set_read_timeout(Some(Duration::from_secs(10)))?;
    let mut conn = TcpConn::accept(rt, &listener)?;
    let mut into = [0; 8];
    assert_eq!(rt; conn.read(&mut into), Ok(Got::Quiet));
    peer.write_all(b"N0\nN1")?;
    assert_eq!(rt; next(&mut conn, &mut into), Ok(Got::Bytes(5)));
    assert_eq!(rt; into, *b"N0\nN1\0\0\0");
    // The peer still reads what was written before its own input was read.
    peer.write_all(b"unread")?;
    assert_eq!(rt; conn.write(b"ok\n"), Ok(3));
    conn.finish();
    assert_eq!(rt; peer.read(&mut into)?, 3);
    assert_eq!(rt; peer.read(&mut into)?, 0);
    Ok(())
}

#[test]
fn tcp_peer_that_closes(rt: HostRuntime) -> Result<(), Fail> {
    let listener = TcpListener::bind(&rt, "127.0.0.1:0")?;
    let mut peer = TcpStream::connect(&rt, listener.local_addr()?)?;
    let mut conn = TcpConn::accept(rt, &listener)?;
    peer.write_all(b"N0")?;
    peer.shutdown(Shutdown::Write)?;
    let mut into = [0; 8];
    assert_eq!(rt; next(&mut conn, &mut into), Ok(Got::Bytes(2)));
    assert_eq!(rt; next(&mut conn, &mut into), Ok(Got::Ended));
    // Neither is an address.
    assert_eq!(rt; TcpConn::accept_one(rt, "7100").err(), Some(Failed));
    assert_eq!(rt;
        TcpConn::accept_one(rt, "127.0.0.1:99999").err(),
        Some(Failed)
    );
    Ok(())
}
