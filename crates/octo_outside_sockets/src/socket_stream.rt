//! A stream of the system, over TCP or over a Unix socket.
ghost use Rattle.std.specs.Prelude.{◌≡◌, ◌++◌, false, codes, nat_eq, IfSome, IfNone};
ghost use Rattle.std.specs.List.{starts_with};
ghost use Rattle.octo_outside_sockets.specs.Streams.{of_stream};

use std::io;
use std::io::{Read, Write};
use std::net::{OpenStream, Shutdown};
use std::os::fd::{AsRawFd, RawFd};
use std::os::unix::net::UnixStream;
use std::time::Duration;

/// The path in a name `unix:PATH`, none in any other name.
pub fn unix_path(name: &str) -> Option<&str>
    ensures some { IfSome result (λ path. name.now ≡ codes "unix:" ++ path.now) }
    ensures none { IfNone result (starts_with nat_eq name.now (codes "unix:") ≡ false) }
{
    name.strip_prefix("unix:")
}

/// A stream over TCP, or over a Unix socket. What both have in common is the same on either.
#[derive(Drop)]
pub enum SocketStream<S: Drop> {
    Tcp(S),
    Unix(UnixStream),
}

impl<S: Read + Drop> Read for SocketStream<S> {
    ghost remaining = { of_stream S.remaining };

    fn read(&mut self, into: &mut [u8]) -> io::Result<usize> {
        match self {
            SocketStream::Tcp(stream) => stream.read(into),
            SocketStream::Unix(stream) => stream.read(into),
        }
    }
}

impl<S: Write + Drop> Write for SocketStream<S> {
    ghost contents = { of_stream S.contents };

    fn write(&mut self, bytes: &[u8]) -> io::Result<usize> {
        match self {
            SocketStream::Tcp(stream) => stream.write(bytes),
            SocketStream::Unix(stream) => stream.write(bytes),
        }
    }

    fn flush(&mut self) -> io::Result<()> {
        match self {
            SocketStream::Tcp(stream) => stream.flush(),
            SocketStream::Unix(stream) => stream.flush(),
        }
    }
}

impl<S: AsRawFd + Drop> AsRawFd for SocketStream<S> {
    fn as_raw_fd(&self) -> RawFd {
        match self {
            SocketStream::Tcp(stream) => stream.as_raw_fd(),
            SocketStream::Unix(stream) => stream.as_raw_fd(),
        }
    }
}

impl<S: OpenStream + Drop> OpenStream for SocketStream<S> {
    fn shutdown(&self, how: Shutdown) -> io::Result<()> {
        match self {
            SocketStream::Tcp(stream) => stream.shutdown(how),
            SocketStream::Unix(stream) => stream.shutdown(how),
        }
    }

    // A Unix socket sends at once.
    fn set_nodelay(&self, nodelay: bool) -> io::Result<()> {
        match self {
            SocketStream::Tcp(stream) => stream.set_nodelay(nodelay),
            SocketStream::Unix(_) => Ok(()),
        }
    }

    fn set_read_timeout(&self, limit: Option<Duration>) -> io::Result<()> {
        match self {
            SocketStream::Tcp(stream) => stream.set_read_timeout(limit),
            SocketStream::Unix(stream) => stream.set_read_timeout(limit),
        }
    }

    fn set_write_timeout(&self, limit: Option<Duration>) -> io::Result<()> {
        match self {
            SocketStream::Tcp(stream) => stream.set_write_timeout(limit),
            SocketStream::Unix(stream) => stream.set_write_timeout(limit),
        }
    }
}
