//! A place at which connections come in.
ghost use Rattle.octo_outside_doors.specs.Doors.{DoorState, Accepts, Finishes};

use octo_outside::{Conn, Failed};
use octo_outside_bell::Bell;

/// What a door's call returned.
#[derive(Drop)]
pub enum Knock<C: Drop> {
    /// The next connection.
    Conn(C),
    /// No connection has come yet.
    Quiet,
    /// No connection will come any more.
    Ended,
}

/// Connections that come in one after the other, and are given back.
pub trait Door {
    /// A connection of this door.
    type Conn: Conn + Send + Drop;

    /// What it says of itself: the inputs of the connections to come, in order, `None` for a door of the system; what the connections
    /// that were given back say, in order, `None` if it doesn't keep it; how many calls failed; and whether one has failed.
    ghost state: { Self → DoorState };

    /// Takes the next connection. `Ended` comes if no more will come, and after a failed call.
    fn accept(&mut self) -> Result<Knock<Self::Conn>, Failed>
        ensures { Accepts Self.Conn.state (state self.old) result (state self.new) };

    /// Takes a connection back.
    fn finish(&mut self, conn: Self::Conn)
        ensures { Finishes (state self.old) (Self.Conn.state conn) (state self.new) };

    /// The bell of this door. Who serves its connections rings it after each ask of the host, whose thread may wait for the
    /// printer at that moment.
    fn bell(&self) -> Bell;
}

/// The doors of four workers.
#[derive(Drop)]
pub struct Doors<D: Drop> {
    pub a: D,
    pub b: D,
    pub c: D,
    pub d: D,
}
