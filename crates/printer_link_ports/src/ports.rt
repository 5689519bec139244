//! The ports of this machine's system.
use crate::connecting::{Progress, addresses_of, begin, look, ready};
use crate::stream::PortStream;
use crate::tty::TtyStream;
use octo_outside_sockets::{SocketStream, linger, unix_path};
use printer_link_cause::{Cause, cause_of};
use printer_link_socket::{Device, Dial, Opened, device_of};
use std::alloc::Global;
use std::fs::File;
use std::io::Eprint;
use std::net::{Net, OpenStream, SocketAddr, TcpStream};
use std::os::unix::net::UnixStream;
use std::process::Processes;
use std::rt::Files;
use std::time::Clock;

// How long the addresses of a host are tried, in milliseconds.
const CONNECT: u64 = 2000;

// ETIMEDOUT.
const TIMED_OUT: u32 = 110;

// How a device is named.
const DEVICE_NAMES: &str =
    "a device is named tty:PATH or tty:PATH:SPEED, with a speed of 1 to 7 digits that isn't 0";

// A stream of the system.
type SystemStream = PortStream<SocketStream<TcpStream>, TtyStream<File>>;

/// The ports of this machine: `HOST:PORT` over TCP, `unix:PATH` over a Unix socket, `tty:PATH:SPEED` and `tty:PATH` over a serial
/// device.
#[derive(Drop)]
pub struct SystemPorts<R: Drop> {
    rt: R,
    alloc: Global,
    // The addresses of a host that aren't tried yet, the next one last.
    addresses: Vec<SocketAddr>,
    // For how many milliseconds each is tried, and until when the present one is.
    part: u64,
    until: u64,
}

impl<R: Drop> SystemPorts<R> {
    /// The ports that this runtime opens.
    pub fn new(rt: R, alloc: Global) -> Self {
        SystemPorts {
            rt,
            alloc,
            addresses: Vec::new(alloc),
            part: 0,
            until: 0,
        }
    }
}

impl<R: Clock + Drop> SystemPorts<R> {
    // The moment in milliseconds.
    fn moment(&self) -> u64 {
        match self.rt.monotonic() {
            Ok(time) => u64::try_from(time.as_millis()).unwrap_or(u64::MAX),
            Err(_) => u64::MAX,
        }
    }
}

// A stream that is readied.
fn readied(stream: SocketStream<TcpStream>) -> Result<Opened<SystemStream>, Cause> {
    match ready(&stream) {
        Ok(()) => Ok(Opened::Ready(PortStream::Socket(stream))),
        Err(error) => Err(cause_of(&error)),
    }
}

// A connection over TCP that its peer has accepted.
fn made(stream: TcpStream) -> Result<Opened<SystemStream>, Cause> {
    match stream.set_nonblocking(false) {
        Ok(()) => readied(SocketStream::Tcp(stream)),
        Err(error) => Err(cause_of(&error)),
    }
}

// Connects to a Unix socket, which accepts at once or not at all.
fn open_unix<R: Net>(rt: &R, path: &str) -> Result<Opened<SystemStream>, Cause> {
    match UnixStream::connect(rt, path) {
        Ok(stream) => readied(SocketStream::Unix(stream)),
        Err(error) => Err(cause_of(&error)),
    }
}

// Opens a serial device.
fn open_device<R: Files<File = File> + Processes>(
    rt: &R,
    alloc: Global,
    device: &Device<'_>,
) -> Result<Opened<SystemStream>, Cause> {
    let stream = TtyStream::open(rt, alloc, device)?;
    Ok(Opened::Ready(PortStream::Tty(stream)))
}

impl<R: Net<Stream = TcpStream> + Clock + Drop> SystemPorts<R> {
    // Begins to connect to the next addresses, until one doesn't fail at once. If none is left, or all fail, the last cause is the error.
    fn try_addresses(&mut self, last: Cause) -> Result<Opened<SystemStream>, Cause> {
        let mut cause = last;
        for _ in 0..self.addresses.len() {
            let Some(address) = self.addresses.pop() else {
                return Err(cause);
            };
            self.until = self.moment().saturating_add(self.part);
            match begin(&self.rt, address) {
                Progress::Made(stream) => return made(stream),
                Progress::Pending(stream) => return Ok(pending(stream)),
                Progress::Failed(found) => cause = found,
            }
        }
        Err(cause)
    }

    // Begins to connect over TCP. Each address has an equal part of the time.
    fn open_tcp(&mut self, name: &str) -> Result<Opened<SystemStream>, Cause> {
        let Ok(addresses) = addresses_of(&self.rt, self.alloc, name) else {
            return Err(Cause::NoAddress);
        };
        self.part = CONNECT / addresses.len().max(1) as u64;
        self.addresses = addresses;
        self.try_addresses(Cause::NoAddress)
    }

    // Goes on with a connection over TCP that its peer may accept yet.
    fn go_on_tcp(&mut self, stream: TcpStream) -> Result<Opened<SystemStream>, Cause> {
        match look(stream) {
            Progress::Made(stream) => made(stream),
            Progress::Failed(cause) => self.try_addresses(cause),
            Progress::Pending(stream) => {
                if self.moment() < self.until {
                    return Ok(pending(stream));
                }
                self.try_addresses(Cause::System(TIMED_OUT))
            }
        }
    }
}

// A connection over TCP that its peer may accept yet.
fn pending(stream: TcpStream) -> Opened<SystemStream> {
    Opened::Pending(PortStream::Socket(SocketStream::Tcp(stream)))
}

impl<R: Net<Stream = TcpStream> + Files<File = File> + Processes + Clock + Eprint + Drop> Dial
    for SystemPorts<R> {
    type Stream = SystemStream;

    /// Begins to connect over a socket, or opens a serial device. At most 4 addresses of a host are tried, for about 2 seconds in all.
    fn open(&mut self, name: &str) -> Result<Opened<SystemStream>, Cause> {
        match device_of(name) {
            Some(device) => open_device(&self.rt, self.alloc, &device),
            None => match unix_path(name) {
                Some(path) => open_unix(&self.rt, path),
                None => self.open_tcp(name),
            },
        }
    }

    /// Waits for about 10 milliseconds, and goes on with the next address if this one had its time.
    fn go_on(&mut self, stream: SystemStream) -> Result<Opened<SystemStream>, Cause> {
        match stream {
            PortStream::Socket(SocketStream::Tcp(stream)) => self.go_on_tcp(stream),
            stream => Ok(Opened::Ready(stream)),
        }
    }

    /// Says on the standard error how a device is named, if the name begins as a device's.
    fn refuse(&mut self, name: &str) {
        if name.starts_with("tty:") {
            let _ = eprintln!(self.rt; "octo: {name}: {DEVICE_NAMES}; docs/SERIAL.md says more");
        }
    }

    fn reads_wait(&self, stream: &SystemStream) -> bool {
        matches!(stream, PortStream::Socket(_))
    }

    /// Closes a stream. Input that comes meanwhile over a socket is dropped, for about 50 milliseconds at most.
    fn close(&mut self, stream: SystemStream) {
        if let PortStream::Socket(mut stream) = stream {
            let _ = linger(&self.rt, &mut stream);
        }
    }

    fn now(&mut self) -> u64 {
        self.moment()
    }
}
