//! A connection to a peer.
ghost use Rattle.std.specs.Prelude.{◌≡◌, ◌<◌, ◌≤◌, ◌-◌, length, OnOk, OnErr, IsErr};
ghost use Rattle.octo_outside.specs.Conns.{ConnState, Reads, Writes};
ghost use Rattle.octo_outside.specs.Recorded.{Adds, AddsPrefix, Counts};

use crate::Failed;

/// What a read of a connection returned.
#[derive(Clone, Copy, Debug, PartialEq, Eq)]
pub enum Got {
    /// The number of bytes that were read, at least 1.
    Bytes(usize),
    /// Nothing has come yet.
    Quiet,
    /// Nothing is left and the peer has closed.
    Ended,
}

/// A stream of bytes to and from a peer.
pub trait Conn {
    /// What it says of itself: what is left to read and what was written, if recorded, how many calls failed, and how many reads
    /// found nothing yet, counted up to the last value of a u64.
    ghost state: { Self → ConnState };

    /// Reads the next bytes. `Ended` comes if nothing is left and the peer has closed. A failed read takes nothing.
    fn read(&mut self, into: &mut [u8]) -> Result<Got, Failed>
        requires { 0 < length into.old }
        ensures { Reads (state self.old) result into.new (state self.new) };

    /// Writes 1 to all of the bytes, a prefix. A failed call writes nothing.
    fn write(&mut self, bytes: &[u8]) -> Result<usize, Failed>
        requires { 0 < length bytes.now }
        ensures { Writes (state self.old) bytes.now result (state self.new) };
}

/// Writes all the bytes; after a failed call a prefix of them was written. What is left to read stays.
pub fn send_all<C: Conn>(conn: &mut C, bytes: &[u8]) -> Result<(), Failed>
    ensures ok { OnOk result (Adds (C.state conn.old).written (C.state conn.new).written bytes.now) }
    ensures err { OnErr result (AddsPrefix (C.state conn.old).written (C.state conn.new).written bytes.now) }
    ensures left { (C.state conn.new).left ≡ (C.state conn.old).left }
    ensures quiets { (C.state conn.new).quiets ≡ (C.state conn.old).quiets }
    ensures counts { Counts (IsErr result) (C.state conn.old).faults (C.state conn.new).faults }
{
    let mut done = 0;
    while done < bytes.len() {
        done += conn.write(&bytes[done..])?;
    }
    Ok(())
}
