//! Why a call of the database is a fault.
ghost use Rattle.std.specs.Prelude.{◌≡◌, ◌↔◌};
ghost use Rattle.octo_keeper.specs.declared.keeper.KeeperFault.TheVariants as fault;

use octo_keeper::KeeperFault;
use sqlite::{Error, ErrorCode};

/// The fault of a refused call: out of memory only if the database says so.
pub fn fault_of(error: Error) -> KeeperFault
    ensures { (result ≡ fault.NoMemory) ↔ (error ≡ Error.SqliteFailure ErrorCode.OutOfMemory) }
{
    match error {
        Error::SqliteFailure(ErrorCode::OutOfMemory) => KeeperFault::NoMemory,
        _ => KeeperFault::Failed,
    }
}
