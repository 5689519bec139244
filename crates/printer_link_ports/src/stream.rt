//! Streams of the system to a printer.
ghost use Rattle.std.specs.Prelude.{None};
ghost use Rattle.printer_link_ports.specs.Ports.{of_port};

use printer_link_socket::WriteNow;
use std::io;
use std::io::{Read, Write};
use std::os::fd::{AsRawFd, RawFd};

/// A stream of the system to a printer: over a socket, or over a serial device.
#[derive(Drop)]
pub enum PortStream<S: Drop, T: Drop> {
    Socket(S),
    Tty(T),
}

impl<S: Read + Drop, T: Read + Drop> Read for PortStream<S, T> {
    ghost remaining = { of_port S.remaining T.remaining };

    fn read(&mut self, into: &mut [u8]) -> io::Result<usize> {
        match self {
            PortStream::Socket(stream) => stream.read(into),
            PortStream::Tty(stream) => stream.read(into),
        }
    }
}

impl<S: Write + Drop, T: Write + Drop> Write for PortStream<S, T> {
    ghost contents = { of_port S.contents T.contents };

    fn write(&mut self, bytes: &[u8]) -> io::Result<usize> {
        match self {
            PortStream::Socket(stream) => stream.write(bytes),
            PortStream::Tty(stream) => stream.write(bytes),
        }
    }

    fn flush(&mut self) -> io::Result<()> {
        match self {
            PortStream::Socket(stream) => stream.flush(),
            PortStream::Tty(stream) => stream.flush(),
        }
    }
}

impl<S: Write + Drop, T: Write + Drop> WriteNow for PortStream<S, T> {
    ghost room = { λ _. None };

    fn write_now(&mut self, bytes: &[u8]) -> io::Result<usize> {
        self.write(bytes)
    }
}

impl<S: AsRawFd + Drop, T: AsRawFd + Drop> AsRawFd for PortStream<S, T> {
    fn as_raw_fd(&self) -> RawFd {
        match self {
            PortStream::Socket(stream) => stream.as_raw_fd(),
            PortStream::Tty(stream) => stream.as_raw_fd(),
        }
    }
}
