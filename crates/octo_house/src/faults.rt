//! Why a host doesn't begin.
ghost use Rattle.std.specs.Prelude.{◌≡◌};
ghost use Rattle.octo_house.specs.Faults.{by_keeper, by_shelf};

use octo_keeper::{KeeperFault, ShelfFault};
use thiserror::Error;

/// Why a host doesn't begin.
#[derive(Clone, Copy, Debug, PartialEq, Eq, Error)]
pub enum BeginFault {
    /// The keeper failed, and its count of faults rose.
    #[error("tables: they can't be read")]
    KeeperFailed,
    /// The shelf failed, and its count of faults rose.
    #[error("files: they can't be listed")]
    ShelfFailed,
    /// Out of memory.
    #[error("out of memory")]
    NoMemory,
}

// The keeper's fault as the reason.
pub(crate) fn of_keeper(fault: KeeperFault) -> BeginFault
    ensures { result ≡ by_keeper fault }
{
    match fault {
        KeeperFault::Failed => BeginFault::KeeperFailed,
        KeeperFault::NoMemory => BeginFault::NoMemory,
    }
}

// The shelf's fault as the reason.
pub(crate) fn of_shelf(fault: ShelfFault) -> BeginFault
    ensures { result ≡ by_shelf fault }
{
    match fault {
        ShelfFault::Failed => BeginFault::ShelfFailed,
        ShelfFault::NoMemory => BeginFault::NoMemory,
    }
}
