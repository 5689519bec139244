//! Connections over TCP, and over a Unix socket.
ghost use Rattle.std.specs.Prelude.{◌≡◌, ◌<◌, ◌≤◌, None, length, IfOk, IsErr, OnErr, OnOk, ⊤};
ghost use Rattle.octo_outside.specs.Memory.{one_more};
ghost use Rattle.octo_outside.specs.Recorded.{Counts};
ghost use Rattle.octo_outside.specs.Traits.{IsWithin, quiets_after};

use crate::socket_stream::{SocketStream, unix_path};
use crate::streams::{linger, may_come_later, prepare, write_some};
use octo_outside::{Conn, Failed, Got};
use std::fs;
use std::io::Read;
use std::net::{Net, OpenListener, TcpListener};
use std::os::unix::net::UnixListener;
use std::rt::Files;
use std::time::Clock;

/// A connection over TCP, or over a Unix socket. It records neither what is left nor what was written.
#[derive(Drop)]
pub struct TcpConn<R: Net + Drop> {
    rt: R,
    stream: SocketStream<R::Stream>,
    faults: u64,
    quiets: u64,
}

impl<R: Net + Files + Drop> TcpConn<R> {
    /// Listens at `HOST:PORT` or `unix:PATH`, waits for the first peer, and listens no longer. The socket's file is
    /// removed then.
    ///
    /// Fails if the address can't be bound, as one that is in use or isn't this machine's, or a path that exists.
    pub fn accept_one(rt: R, address: &str) -> Result<Self, Failed>
        ensures { IfOk result (λ c. (c.faults ≡ 0) × (c.quiets ≡ 0)) }
    {
        if let Some(path) = unix_path(address) {
            return TcpConn::accept_at_path(rt, path);
        }
        match TcpListener::bind(&rt, address) {
            Ok(listener) => TcpConn::accept(rt, &listener),
            Err(_) => Err(Failed),
        }
    }

    // Waits for the first peer of a Unix socket at this path.
    fn accept_at_path(rt: R, path: &str) -> Result<Self, Failed>
        ensures { IfOk result (λ c. (c.faults ≡ 0) × (c.quiets ≡ 0)) }
    {
        let Ok(listener) = UnixListener::bind(&rt, path) else {
            return Err(Failed);
        };
        let accepted = listener.accept();
        let _ = fs::remove_file(&rt, path);
        match accepted {
            Ok((stream, _)) => TcpConn::ready(rt, SocketStream::Unix(stream)),
            Err(_) => Err(Failed),
        }
    }
}

impl<R: Net + Drop> TcpConn<R> {
    /// Waits for the next peer of a listener. Fails if the listener fails, or the stream can't be readied.
    pub fn accept(rt: R, listener: &R::Listener) -> Result<Self, Failed>
        ensures { IfOk result (λ c. (c.faults ≡ 0) × (c.quiets ≡ 0)) }
    {
        match listener.accept() {
            Ok((stream, _)) => TcpConn::over(rt, stream),
            Err(_) => Err(Failed),
        }
    }

    /// The connection over a stream, whose calls wait for a bounded time from here on. Fails if the stream can't be readied.
    pub fn over(rt: R, stream: R::Stream) -> Result<Self, Failed>
        ensures { IfOk result (λ c. (c.faults ≡ 0) × (c.quiets ≡ 0)) }
    {
        TcpConn::ready(rt, SocketStream::Tcp(stream))
    }

    // The same, whichever kind of stream it is.
    fn ready(rt: R, stream: SocketStream<R::Stream>) -> Result<Self, Failed>
        ensures { IfOk result (λ c. (c.faults ≡ 0) × (c.quiets ≡ 0)) }
    {
        match prepare(&stream) {
            Ok(()) => Ok(TcpConn {
                rt,
                stream,
                faults: 0,
                quiets: 0,
            }),
            Err(_) => Err(Failed),
        }
    }

    fn fail(&mut self) -> Failed
        ensures faults { self.new.faults ≡ one_more self.old.faults }
        ensures quiets { self.new.quiets ≡ self.old.quiets }
        ensures counts { Counts ⊤ self.old.faults self.new.faults }
    {
        self.faults = self.faults.saturating_add(1);
        Failed
    }

    // A read found nothing yet.
    fn count_quiet(&mut self)
        ensures counts { self.new.quiets ≡ one_more self.old.quiets }
        ensures counted { self.old.quiets ≤ self.new.quiets }
        ensures faults { self.new.faults ≡ self.old.faults }
    {
        self.quiets = self.quiets.saturating_add(1);
    }
}

impl<R: Net + Clock + Drop> TcpConn<R> {
    /// Gives the connection back. The peer can still read what was written: input that it sends meanwhile is
    /// dropped until it closes, for about 50 milliseconds at most.
    pub fn finish(mut self) {
        let _ = linger(&self.rt, &mut self.stream);
    }
}

impl<R: Net + Drop> Conn for TcpConn<R> {
    ghost state = { λ c. record {
      left = None;
      written = None;
      faults = c.faults;
      quiets = c.quiets;
    } };

    fn read(&mut self, into: &mut [u8]) -> Result<Got, Failed>
        requires { 0 < length into.old }
        ensures bound { IfOk result (λ got. IsWithin got (length into.new)) }
        ensures quiet { IfOk result (λ got.
            self.new.quiets ≡ quiets_after self.old.quiets got) }
        ensures quiet_err { OnErr result (self.new.quiets ≡ self.old.quiets) }
        ensures quiets_counted { self.old.quiets ≤ self.new.quiets }
        ensures counts { Counts (IsErr result) self.old.faults self.new.faults }
        ensures one_fault { OnErr result (self.new.faults ≡ one_more self.old.faults) }
        ensures steady { OnOk result (self.new.faults ≡ self.old.faults) }
    {
        match self.stream.read(into) {
            Ok(0) => Ok(Got::Ended),
            Ok(n) => Ok(Got::Bytes(n)),
            Err(error) => {
                if may_come_later(&error) {
                    self.count_quiet();
                    return Ok(Got::Quiet);
                }
                Err(self.fail())
            }
        }
    }

    fn write(&mut self, bytes: &[u8]) -> Result<usize, Failed>
        requires { 0 < length bytes.now }
        ensures some { IfOk result (λ n. (0 < n) × (n ≤ length bytes.now)) }
        ensures quiets { self.new.quiets ≡ self.old.quiets }
        ensures counts { Counts (IsErr result) self.old.faults self.new.faults }
        ensures one_fault { OnErr result (self.new.faults ≡ one_more self.old.faults) }
        ensures steady { OnOk result (self.new.faults ≡ self.old.faults) }
    {
        match write_some(&mut self.stream, bytes) {
            Some(n) => Ok(n),
            None => Err(self.fail()),
        }
    }
}
