//! Connecting over TCP, which goes on over several calls.
ghost use Rattle.std.specs.Prelude.{◌≡◌};
ghost use Rattle.std.specs.IoError.{raw_os_error};
ghost use Rattle.printer_link_ports.specs.Ports.{unconnected};

use crate::room::wait_for_room;
use octo_outside_sockets::prepare;
use printer_link_cause::Cause;
use std::alloc::Global;
use std::io;
use std::net::{Net, OpenStream, SocketAddr, TcpStream, ToSocketAddrs};
use std::time::Duration;

// How many addresses of a host are tried.
const ADDRESSES: usize = 4;

// How long one look at a connection waits for its peer, in milliseconds.
const LOOK: u16 = 10;

// How long a read is to wait for input, and a write for room, in milliseconds. Many systems make it longer.
const CALL: u64 = 1;

// ETIMEDOUT.
const TIMED_OUT: u32 = 110;

/// How far a connection is.
#[derive(Drop)]
pub(crate) enum Progress {
    /// The peer has accepted it.
    Made(TcpStream),
    /// The peer may accept it yet.
    Pending(TcpStream),
    /// It can't be made, for this cause.
    Failed(Cause),
}

/// The cause that no peer has accepted.
pub(crate) fn unconnected(error: &io::Error) -> Cause
    ensures { result ≡ unconnected (raw_os_error error.now) }
{
    match error.raw_os_error() {
        Some(number) => Cause::System(number.unsigned_abs()),
        None => Cause::System(TIMED_OUT),
    }
}

/// The addresses that are tried, the last one first.
pub(crate) fn addresses_of<R: Net>(
    rt: &R,
    alloc: Global,
    name: &str,
) -> io::Result<Vec<SocketAddr>> {
    let mut addresses = Vec::new(alloc);
    for address in name.to_socket_addrs(rt)?.take(ADDRESSES) {
        addresses.push(address)?;
    }
    addresses.as_mut_slice().reverse();
    Ok(addresses)
}

/// Begins to connect to an address, and waits for about 10 milliseconds.
pub(crate) fn begin<R: Net>(rt: &R, address: SocketAddr) -> Progress {
    match mio::net::TcpStream::connect(rt, address) {
        Ok(stream) => look(TcpStream::from(stream)),
        Err(error) => Progress::Failed(unconnected(&error)),
    }
}

/// Waits for the peer of a stream for about 10 milliseconds.
pub(crate) fn look(stream: TcpStream) -> Progress {
    wait_for_room(&stream, LOOK);
    match stream.take_error() {
        Ok(None) => {}
        Ok(Some(error)) => return Progress::Failed(unconnected(&error)),
        Err(error) => return Progress::Failed(unconnected(&error)),
    }
    if stream.peer_addr().is_ok() {
        Progress::Made(stream)
    } else {
        Progress::Pending(stream)
    }
}

/// Readies a stream that is made. A read or a write of it waits for as short a time as the system can.
pub(crate) fn ready<S: OpenStream>(stream: &S) -> io::Result<()> {
    prepare(stream)?;
    let wait = Some(Duration::from_millis(CALL));
    stream.set_read_timeout(wait)?;
    stream.set_write_timeout(wait)
}
