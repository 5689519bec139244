//! Entries of the queue in the database.
ghost use Rattle.std.specs.Prelude.{false, ◌≡◌, ◌∷◌, [], Some, map, IfOk, IsErrOf, IfErr, OnOk};
ghost use Rattle.std.specs.List.{All};
ghost use Rattle.sqlite.specs.Held.{state};
ghost use Rattle.sqlite.specs.State.{HasCleanDisk};
ghost use Rattle.sqlite.specs.Values.{bound};
ghost use Rattle.octo_keeper_sql.specs.Kept.{Kept};
ghost use Rattle.octo_keeper_sql.specs.Loads.{EndsEarly, FailsToFind, Finds};
ghost use Rattle.octo_keeper_sql.specs.Statements.{Refuses, Runs, copy_taken, entry_dropped, entry_put, key_values};
ghost use Rattle.octo_keeper_sql.specs.Holds.{HoldsEntry};
ghost use Rattle.octo_keeper_sql.specs.Rows.{entry_row};
ghost use Rattle.octo_keeper.specs.declared.keeper.KeeperFault.TheVariants as fault;

use crate::fault::fault_of;
use crate::schema::{DELETE_ENTRY, DELETE_LAST_COPY, INSERT_ENTRY, LOWER_COPIES, SELECT_ENTRIES};
use crate::statement::run;
use crate::{entries_of, entry_values};
use byte_text::Name;
use octo_keeper::KeeperFault;
use print_queue::{EntryList, QueueEntry};
use sqlite::types::ValueRef;
use sqlite::{Alter, Connection, Error, Transaction};
use std::alloc::Global;

// The values of an entry's key.
fn key_values<'a>(user: &'a Name, name: &'a Name) -> [ValueRef<'a>; 2]
    ensures { bound result ≡ key_values user.now name.now }
{
    [
        ValueRef::Text(user.as_bytes()),
        ValueRef::Text(name.as_bytes()),
    ]
}

// All entries: greatest priority first, then least arrival.
pub(crate) fn load_entries<S: Alter>(
    alloc: Global,
    connection: &mut Connection<S>,
) -> Result<EntryList, KeeperFault>
    ensures rows { IfOk result (λ entries.
        Finds S.Store SELECT_ENTRIES.now (map entry_row entries) connection.old connection.new) }
    ensures failed { IsErrOf result fault.Failed
        → FailsToFind S.Store SELECT_ENTRIES.now HoldsEntry connection.old connection.new }
    ensures memory { IsErrOf result fault.NoMemory
        → EndsEarly S.Store SELECT_ENTRIES.now connection.old connection.new }
    ensures clean { HasCleanDisk (state S.Store connection.new)
        → HasCleanDisk (state S.Store connection.old) }
    ensures ended { connection.old.in_transaction ≡ false → connection.new.in_transaction ≡ false }
{
    match connection.query_all(SELECT_ENTRIES, &[]) {
        Ok(rows) => entries_of(alloc, rows.as_slice()),
        Err(error) => Err(fault_of(error)),
    }
}

// Adds an entry.
pub(crate) fn put_entry<S: Alter>(
    transaction: &mut Transaction<'_, S>,
    entry: &QueueEntry,
) -> Result<(), Error>
    ensures kept { Kept S.Store transaction.old.conn transaction.new.conn }
    ensures ran { OnOk result (Runs S.Store (entry_put entry.now ∷ [])
        transaction.old.conn.now transaction.new.conn.now) }
    ensures failed { IfErr result (Refuses S.Store (entry_put entry.now ∷ [])
        transaction.old.conn.now transaction.new.conn.now) }
{
    run(transaction, INSERT_ENTRY, &entry_values(entry))
}

// Takes a user's entry of a name out.
pub(crate) fn drop_entry<S: Alter>(
    transaction: &mut Transaction<'_, S>,
    user: &Name,
    name: &Name,
) -> Result<(), Error>
    ensures kept { Kept S.Store transaction.old.conn transaction.new.conn }
    ensures ran { OnOk result (Runs S.Store (entry_dropped user.now name.now ∷ [])
        transaction.old.conn.now transaction.new.conn.now) }
    ensures failed { IfErr result (Refuses S.Store (entry_dropped user.now name.now ∷ [])
        transaction.old.conn.now transaction.new.conn.now) }
{
    run(transaction, DELETE_ENTRY, &key_values(user, name))
}

// Starts one copy of an entry; after its last copy the entry is gone.
#[tactic(auto, using(crate::proofs::Kept::kept_then, crate::proofs::Kept::kept_same))]
fn take_copy<S: Alter>(
    transaction: &mut Transaction<'_, S>,
    taken: &QueueEntry,
) -> Result<(), Error>
    ensures kept { Kept S.Store transaction.old.conn transaction.new.conn }
    ensures ran { OnOk result (Runs S.Store (copy_taken (Some taken.now))
        transaction.old.conn.now transaction.new.conn.now) }
    ensures failed { IfErr result (Refuses S.Store (copy_taken (Some taken.now))
        transaction.old.conn.now transaction.new.conn.now) }
{
    run(
        transaction,
        DELETE_LAST_COPY,
        &key_values(&taken.user, &taken.name),
    )?;
    run(
        transaction,
        LOWER_COPIES,
        &key_values(&taken.user, &taken.name),
    )
}

// Starts one copy of the entry that was taken, if one was.
#[tactic(auto, using(crate::proofs::Kept::kept_same))]
pub(crate) fn take_entry<S: Alter>(
    transaction: &mut Transaction<'_, S>,
    taken: &Option<QueueEntry>,
) -> Result<(), Error>
    ensures kept { Kept S.Store transaction.old.conn transaction.new.conn }
    ensures ran { OnOk result (Runs S.Store (copy_taken taken.now)
        transaction.old.conn.now transaction.new.conn.now) }
    ensures failed { IfErr result (Refuses S.Store (copy_taken taken.now)
        transaction.old.conn.now transaction.new.conn.now) }
{
    match taken {
        Some(taken) => take_copy(transaction, taken),
        None => Ok(()),
    }
}
