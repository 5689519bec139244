//! What opens streams to ports.
ghost use Rattle.std.specs.Prelude.{◌≡◌, ℕ, Option, length, min, IfSome, MatchResult};
ghost use Rattle.std.specs.Io.{WritesAtMost};
ghost use Rattle.std.specs.Io.KnownBytes.{WriteAppends};

use printer_link_cause::Cause;
use std::io;
use std::io::{Read, Write};
use std::os::fd::AsRawFd;

/// A stream that takes bytes without a long wait.
pub trait WriteNow: Write {
    /// How many bytes it has room for now, if that is known.
    ghost room: { Self → Option ℕ };

    /// Writes as many of the bytes, a prefix, as the stream has room for. If it has none, it waits for it as shortly as the system can,
    /// which is a millisecond or some more, and then fails as a write that may be tried again.
    fn write_now(&mut self, bytes: &[u8]) -> io::Result<usize>
        ensures bound { WritesAtMost result bytes.now }
        ensures bytes { WriteAppends (Self.contents self.old) (Self.contents self.new) result
            bytes.now }
        ensures fits { IfSome (room self.old)
            (λ n. MatchResult result (λ count. count ≡ min n (length bytes.now)) (λ _. n ≡ 0)) };
}

/// A stream that was opened.
#[derive(Drop)]
pub enum Opened<S: Drop> {
    /// It can be read and written.
    Ready(S),
    /// Its peer may accept it yet.
    Pending(S),
}

/// Opens streams to ports, closes them, and reads a clock.
pub trait Dial {
    /// A stream to a printer. A read of it waits for a bounded time.
    type Stream: Read + WriteNow + AsRawFd + Drop;

    /// Opens a stream to the port of that name, or says why it can't. It waits for a short time.
    fn open(&mut self, name: &str) -> Result<Opened<Self::Stream>, Cause>;

    /// Goes on with a stream whose peer may accept it yet, or with another one to the same port. It waits for a short time, and says so if
    /// there can be none.
    fn go_on(&mut self, stream: Self::Stream) -> Result<Opened<Self::Stream>, Cause>;

    /// Hears that a name is no port's, and may say why.
    fn refuse(&mut self, name: &str);

    /// Whether a read of that stream waits for input by itself, for a bounded time.
    fn reads_wait(&self, stream: &Self::Stream) -> bool;

    /// Closes a stream.
    fn close(&mut self, stream: Self::Stream);

    /// The moment in milliseconds, by a clock that doesn't go back; the greatest number if the clock fails.
    fn now(&mut self) -> u64;
}
