//! One byte at a time.
ghost use Rattle.std.specs.Prelude.{◌≡◌};

use crate::{Conn, Failed, Got};

/// A connection of which each read returns one byte, as from a slow client. All else is as in the connection below it.
#[derive(Drop)]
pub struct ByteConn<C> {
    conn: C,
}

impl<C: Conn + Drop> ByteConn<C> {
    /// Returns the bytes of this connection one by one.
    pub fn new(conn: C) -> Self
        ensures { result.conn ≡ conn }
    {
        ByteConn { conn }
    }

    /// The connection below.
    pub fn inner(&self) -> &C
        ensures { result.now ≡ self.now.conn }
    {
        &self.conn
    }
}

impl<C: Conn + Drop> Conn for ByteConn<C> {
    ghost use Rattle.std.specs.Prelude.{◌≡◌, ◌<◌, ◌≤◌, length, IfOk, OnErr, IsErr, IfSome};
    ghost use Rattle.octo_outside.specs.Recorded.{Counts};
    ghost use Rattle.octo_outside.specs.Traits.{Receives, IsWithin, quiets_after};

    ghost state = { λ c. C.state c.conn };

    fn read(&mut self, into: &mut [u8]) -> Result<Got, Failed>
        requires { 0 < length into.old }
        // At most one byte, whatever the room.
        ensures one { IfOk result (λ got. IsWithin got 1) }

        // What the connection below reads.
        ensures ok { IfOk result (λ got. IfSome (C.state self.old.conn).left
            (λ before. Receives before got into.new (C.state self.new.conn).left)) }
        ensures bound { IfOk result (λ got. IsWithin got (length into.new)) }
        ensures err { OnErr result ((C.state self.new.conn).left ≡ (C.state self.old.conn).left) }
        ensures written { (C.state self.new.conn).written ≡ (C.state self.old.conn).written }

        // Counts.
        ensures quiet { IfOk result
            (λ got. (C.state self.new.conn).quiets ≡ quiets_after (C.state self.old.conn).quiets got) }
        ensures quiet_err { OnErr result ((C.state self.new.conn).quiets ≡ (C.state self.old.conn).quiets) }
        ensures quiets_counted { (C.state self.old.conn).quiets ≤ (C.state self.new.conn).quiets }
        ensures counts { Counts (IsErr result) (C.state self.old.conn).faults (C.state self.new.conn).faults }
    {
        self.conn.read(&mut into[..1])
    }

    fn write(&mut self, bytes: &[u8]) -> Result<usize, Failed> {
        self.conn.write(bytes)
    }
}
