//! The faults of a keeper as those of a floor.
ghost use Rattle.std.specs.Prelude.{◌≡◌};
ghost use Rattle.octo_floor_bay.specs.Faults.{of_keeper};

use crate::end::FloorFault;
use octo_keeper::KeeperFault;

// Why a floor's call of the keeper failed.
pub(crate) fn of_keeper(fault: KeeperFault) -> FloorFault
    ensures { result ≡ of_keeper fault }
{
    match fault {
        KeeperFault::Failed => FloorFault::KeeperFailed,
        KeeperFault::NoMemory => FloorFault::NoMemory,
    }
}
