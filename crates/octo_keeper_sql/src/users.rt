//! Users of the database.
ghost use Rattle.std.specs.Prelude.{◌≡◌, false, ◌∷◌, [], map, IfOk, IsErrOf, IfErr, OnOk};
ghost use Rattle.std.specs.List.{All};
ghost use Rattle.sqlite.specs.Held.{state};
ghost use Rattle.sqlite.specs.State.{HasCleanDisk};
ghost use Rattle.octo_keeper_sql.specs.Kept.{Kept};
ghost use Rattle.octo_keeper_sql.specs.Loads.{EndsEarly, FailsToFind, Finds};
ghost use Rattle.octo_keeper_sql.specs.Statements.{Refuses, Runs, user_put, user_set};
ghost use Rattle.octo_keeper_sql.specs.Holds.{HasGroups, HoldsUser};
ghost use Rattle.octo_keeper.specs.declared.keeper.KeeperFault.TheVariants as fault;
ghost use Rattle.octo_keeper_sql.specs.Rows.{user_row};

use crate::fault::fault_of;
use crate::schema::{INSERT_USER, SELECT_USERS, UPDATE_USER};
use crate::statement::run;
use crate::{text_of_groups, user_values, users_of};
use octo_access::{UserList, UserRow};
use octo_keeper::KeeperFault;
use sqlite::{Alter, Connection, Error, Transaction};
use std::alloc::Global;

// All users, by name.
pub(crate) fn load_users<S: Alter>(
    alloc: Global,
    connection: &mut Connection<S>,
) -> Result<UserList, KeeperFault>
    ensures rows { IfOk result
        (λ users. Finds S.Store SELECT_USERS.now (map user_row users)
        connection.old connection.new) }
    ensures groups { IfOk result (All HasGroups) }
    ensures failed { IsErrOf result fault.Failed
        → FailsToFind S.Store SELECT_USERS.now HoldsUser connection.old connection.new }
    ensures memory { IsErrOf result fault.NoMemory
        → EndsEarly S.Store SELECT_USERS.now connection.old connection.new }
    ensures clean { HasCleanDisk (state S.Store connection.new)
        → HasCleanDisk (state S.Store connection.old) }
    ensures ended { connection.old.in_transaction ≡ false → connection.new.in_transaction ≡ false }
{
    match connection.query_all(SELECT_USERS, &[]) {
        Ok(rows) => users_of(alloc, rows.as_slice()),
        Err(error) => Err(fault_of(error)),
    }
}

// Adds a user.
#[tactic(auto, using(crate::proofs::Kept::kept_then, crate::proofs::Kept::kept_same))]
pub(crate) fn put_user<S: Alter>(
    alloc: Global,
    transaction: &mut Transaction<'_, S>,
    user: &UserRow,
) -> Result<(), Error>
    ensures kept { Kept S.Store transaction.old.conn transaction.new.conn }
    ensures ran { OnOk result (Runs S.Store (user_put user.now ∷ [])
        transaction.old.conn.now transaction.new.conn.now) }
    ensures failed { IfErr result (Refuses S.Store (user_put user.now ∷ [])
        transaction.old.conn.now transaction.new.conn.now) }
{
    let groups = text_of_groups(alloc, user.groups.as_slice())?;
    run(
        transaction,
        INSERT_USER,
        &user_values(user, groups.as_str()),
    )
}

// Sets the row of a user's name.
#[tactic(auto, using(crate::proofs::Kept::kept_then, crate::proofs::Kept::kept_same))]
pub(crate) fn set_user<S: Alter>(
    alloc: Global,
    transaction: &mut Transaction<'_, S>,
    user: &UserRow,
) -> Result<(), Error>
    ensures kept { Kept S.Store transaction.old.conn transaction.new.conn }
    ensures ran { OnOk result (Runs S.Store (user_set user.now ∷ [])
        transaction.old.conn.now transaction.new.conn.now) }
    ensures failed { IfErr result (Refuses S.Store (user_set user.now ∷ [])
        transaction.old.conn.now transaction.new.conn.now) }
{
    let groups = text_of_groups(alloc, user.groups.as_slice())?;
    run(
        transaction,
        UPDATE_USER,
        &user_values(user, groups.as_str()),
    )
}
