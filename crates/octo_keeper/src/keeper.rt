//! What keeps the tables.
use crate::{Change, Tables};
use std::alloc::{AllocError, AllocFailed, Global};
use thiserror::Error;

/// Why a keeper didn't do a call.
#[derive(Clone, Copy, Debug, PartialEq, Eq, Error)]
pub enum KeeperFault {
    /// It failed, and its count of faults rose.
    #[error("tables: the keeper failed")]
    Failed,
    /// Out of memory.
    #[error("out of memory")]
    NoMemory,
}

impl From<AllocError> for KeeperFault {
    ghost use Rattle.std.specs.Prelude.{◌≡◌};
    ghost use Rattle.octo_keeper.specs.declared.keeper.KeeperFault.TheVariants.{NoMemory};

    ghost from_gives = { λ _ e. e ≡ NoMemory };

    fn from(_: AllocError) -> Self {
        KeeperFault::NoMemory
    }
}

impl<T: Drop> From<AllocFailed<T>> for KeeperFault {
    ghost use Rattle.std.specs.Prelude.{◌≡◌};
    ghost use Rattle.octo_keeper.specs.declared.keeper.KeeperFault.TheVariants.{NoMemory};

    ghost from_gives = { λ _ e. e ≡ NoMemory };

    fn from(_: AllocFailed<T>) -> Self {
        KeeperFault::NoMemory
    }
}

/// What keeps the tables of a host.
pub trait Keeper {
    ghost use Rattle.octo_keeper.specs.Calls.{KeeperState, Loads, Commits, BacksUp};

    /// What it says of itself: its tables and those of its last backup, `None` for one over a real file, and how many calls failed.
    ghost state: { Self → KeeperState };

    /// The tables as they are kept. Kept rows that a host can't begin with are a fault.
    fn load(&mut self, alloc: Global) -> Result<Tables, KeeperFault>
        ensures { Loads (state self.old) result (state self.new) };

    /// Makes all of a change, or after a fault nothing of it. All rows that the change doesn't name stay.
    fn commit(&mut self, alloc: Global, change: &Change) -> Result<(), KeeperFault>
        ensures { Commits (state self.old) change.now result (state self.new) };

    /// Writes a copy of the tables as they are kept to the keeper's place for it. The tables stay. After a fault the place has the
    /// former copy or this one.
    fn backup(&mut self, alloc: Global) -> Result<(), KeeperFault>
        ensures { BacksUp (state self.old) result (state self.new) };
}
