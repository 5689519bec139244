//! A change as one transaction of the database.
ghost use Rattle.std.specs.Prelude.{◌∷◌, ◌++◌, IfErr, IsErrOf, OnOk, OnErr};
ghost use Rattle.sqlite.specs.Held.{state};
ghost use Rattle.sqlite.specs.State.{HasCleanDisk};
ghost use Rattle.octo_keeper.specs.declared.keeper.KeeperFault.TheVariants as fault;
ghost use Rattle.octo_keeper_sql.specs.Kept.{IsAtomic, IsUndone, Kept};
ghost use Rattle.octo_keeper_sql.specs.Statements.{Commits, FailsToWrite, RanInTurn, Refuses, Runs, copy_taken, due_end, print_put, statements};

use crate::entries::{drop_entry, put_entry, take_entry};
use crate::fault::fault_of;
use crate::prints::{end_due, end_print, put_print};
use crate::users::{put_user, set_user};
use octo_keeper::{Change, KeeperFault};
use print_queue::{Ending, PrintRow, QueueEntry};
use sqlite::{Alter, Connection, Error, Transaction};
use std::alloc::Global;

// Adds a print after the end of another one, if that is due, and starts the copy that was taken, if one was.
#[tactic(auto, using(crate::proofs::Kept::kept_then, crate::proofs::Kept::kept_same))]
fn begin_print<S: Alter>(
    transaction: &mut Transaction<'_, S>,
    ended: Option<Ending>,
    print: &PrintRow,
    taken: &Option<QueueEntry>,
) -> Result<(), Error>
    ensures kept { Kept S.Store transaction.old.conn transaction.new.conn }
    ensures ran { OnOk result
        (Runs S.Store (due_end ended ++ print_put print.now ∷ copy_taken taken.now)
        transaction.old.conn.now transaction.new.conn.now) }
    ensures failed { IfErr result
        (Refuses S.Store (due_end ended ++ print_put print.now ∷ copy_taken taken.now)
        transaction.old.conn.now transaction.new.conn.now) }
{
    end_due(transaction, ended)?;
    put_print(transaction, print)?;
    take_entry(transaction, taken)
}

// Writes a change within a transaction.
fn write_change<S: Alter>(
    alloc: Global,
    transaction: &mut Transaction<'_, S>,
    change: &Change,
) -> Result<(), Error>
    ensures kept { Kept S.Store transaction.old.conn transaction.new.conn }
    ensures ran { OnOk result (Runs S.Store (statements change.now)
        transaction.old.conn.now transaction.new.conn.now) }
    ensures failed { IfErr result (Refuses S.Store (statements change.now)
        transaction.old.conn.now transaction.new.conn.now) }
{
    match change {
        Change::PutUser(user) => put_user(alloc, transaction, user),
        Change::SetUser(user) => set_user(alloc, transaction, user),
        Change::PutEntry(entry) => put_entry(transaction, entry),
        Change::DropEntry { user, name } => drop_entry(transaction, user, name),
        Change::Begin {
            ended,
            print,
            taken,
        } => begin_print(transaction, *ended, print, taken),
        Change::End(ending) => end_print(transaction, *ending),
    }
}

// Writes a change in one transaction: all of its statements run, or nothing of it is kept.
pub(crate) fn commit_change<S: Alter>(
    alloc: Global,
    connection: &mut Connection<S>,
    change: &Change,
) -> Result<(), KeeperFault>
    ensures written { OnOk result (HasCleanDisk (state S.Store connection.new)
        → Commits S.Store (statements change.now) connection.old connection.new) }
    ensures failed { IsErrOf result fault.Failed → HasCleanDisk (state S.Store connection.new)
        → FailsToWrite S.Store (statements change.now) connection.old connection.new }
    ensures nothing { OnErr result
        (IsUndone (state S.Store connection.old) (state S.Store connection.new)) }
    ensures atomic { IsAtomic S.Store (RanInTurn S.Store (statements change.now))
        connection.old connection.new }
{
    if !connection.is_autocommit() {
        return Err(KeeperFault::Failed);
    }
    let mut transaction = connection.transaction();
    if let Err(error) = write_change(alloc, &mut transaction, change) {
        transaction.rollback();
        return Err(fault_of(error));
    }
    match transaction.commit() {
        Ok(()) => Ok(()),
        Err(error) => Err(fault_of(error)),
    }
}
