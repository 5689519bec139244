//! The tables as the database keeps them.
ghost use Rattle.std.specs.Prelude.{◌≡◌, false, ◌⊎◌, IfOk, IsErrOf};
ghost use Rattle.std.specs.List.{All};
ghost use Rattle.sqlite.specs.Held.{state};
ghost use Rattle.sqlite.specs.State.{HasCleanDisk};
ghost use Rattle.octo_keeper.specs.Tables.{AreSound};
ghost use Rattle.octo_keeper.specs.declared.keeper.KeeperFault.TheVariants as fault;
ghost use Rattle.octo_keeper_sql.specs.Holds.{HasGroups};
ghost use Rattle.octo_keeper_sql.specs.Loads.{FailsToLoad, IsUnsound, LacksMemory, Loads};

use crate::entries::load_entries;
use crate::prints::load_prints;
use crate::users::load_users;
use octo_keeper::{KeeperFault, Tables, are_sound};
use sqlite::{Alter, Connection};
use std::alloc::Global;

// The tables as they are kept.
fn load_rows<S: Alter>(alloc: Global, connection: &mut Connection<S>) -> Result<Tables, KeeperFault>
    ensures rows { IfOk result (λ tables. HasCleanDisk (state S.Store connection.new)
        → Loads S.Store tables connection.old connection.new) }
    ensures groups { IfOk result (λ tables. All HasGroups tables.users) }
    ensures failed { IsErrOf result fault.Failed → HasCleanDisk (state S.Store connection.new)
        → FailsToLoad S.Store connection.old connection.new }
    ensures memory { IsErrOf result fault.NoMemory → HasCleanDisk (state S.Store connection.new)
        → LacksMemory S.Store connection.old connection.new }
    ensures clean { HasCleanDisk (state S.Store connection.new)
        → HasCleanDisk (state S.Store connection.old) }
    ensures ended { connection.old.in_transaction ≡ false → connection.new.in_transaction ≡ false }
{
    let users = load_users(alloc, connection)?;
    let queue = load_entries(alloc, connection)?;
    let prints = load_prints(alloc, connection)?;
    Ok(Tables {
        users,
        queue,
        prints,
    })
}

// The tables that are kept, if a host can begin with them.
pub(crate) fn load_tables<S: Alter>(
    alloc: Global,
    connection: &mut Connection<S>,
) -> Result<Tables, KeeperFault>
    ensures sound { IfOk result AreSound }
    ensures rows { IfOk result (λ tables. HasCleanDisk (state S.Store connection.new)
        → Loads S.Store tables connection.old connection.new) }
    ensures groups { IfOk result (λ tables. All HasGroups tables.users) }
    ensures failed { IsErrOf result fault.Failed → HasCleanDisk (state S.Store connection.new)
        → FailsToLoad S.Store connection.old connection.new
        ⊎ IsUnsound S.Store connection.old connection.new }
    ensures memory { IsErrOf result fault.NoMemory → HasCleanDisk (state S.Store connection.new)
        → LacksMemory S.Store connection.old connection.new }
    ensures clean { HasCleanDisk (state S.Store connection.new)
        → HasCleanDisk (state S.Store connection.old) }
    ensures ended { connection.old.in_transaction ≡ false → connection.new.in_transaction ≡ false }
{
    let tables = load_rows(alloc, connection)?;
    if !are_sound(alloc, &tables) {
        return Err(KeeperFault::Failed);
    }
    Ok(tables)
}
