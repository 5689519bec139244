//! What a command that doesn't serve has in place of a database and of an address: each call fails.
ghost use Rattle.std.specs.Prelude.{None, ⊤};
ghost use Rattle.octo_outside.specs.Recorded.{Counts};

use octo_keeper::{Change, Keeper, KeeperFault, Tables};
use octo_outside_doors::{Doors, TcpDoor};
use std::alloc::Global;
use std::net::{Net, TcpListener, TcpStream};

// A keeper without a database. Each call fails and counts.
#[derive(Drop)]
pub(crate) struct AbsentKeeper {
    faults: u64,
}

impl AbsentKeeper {
    pub(crate) fn new() -> Self {
        AbsentKeeper { faults: 0 }
    }

    // Counts a failed call.
    fn fail(&mut self)
        ensures counts { Counts ⊤ self.old.faults self.new.faults }
    {
        self.faults = self.faults.saturating_add(1);
    }
}

impl Keeper for AbsentKeeper {
    ghost state = { λ k. record { tables = None; saved = None; faults = k.faults } };

    fn load(&mut self, _alloc: Global) -> Result<Tables, KeeperFault> {
        self.fail();
        Err(KeeperFault::Failed)
    }

    fn commit(&mut self, _alloc: Global, _change: &Change) -> Result<(), KeeperFault> {
        self.fail();
        Err(KeeperFault::Failed)
    }

    fn backup(&mut self, _alloc: Global) -> Result<(), KeeperFault> {
        self.fail();
        Err(KeeperFault::Failed)
    }
}

// Four doors at which no connection comes: the first call of each fails.
pub(crate) fn absent_doors<R: Net<Listener = TcpListener, Stream = TcpStream> + Copy>(
    rt: &R,
) -> Doors<TcpDoor<R>> {
    Doors {
        a: TcpDoor::absent(rt),
        b: TcpDoor::absent(rt),
        c: TcpDoor::absent(rt),
        d: TcpDoor::absent(rt),
    }
}
