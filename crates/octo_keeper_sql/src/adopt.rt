//! A database as it is when its keeper begins.
ghost use Rattle.std.specs.Prelude.{◌≡◌, ◌∷◌, [], map, IfOk, IsErrOf, IsTrue, OnOk, OnErr};
ghost use Rattle.sqlite.specs.Held.{state};
ghost use Rattle.sqlite.specs.State.{HasCleanDisk};
ghost use Rattle.octo_keeper_sql.specs.Kept.{IsAtomic, IsUndone, KeepsLastCommit, Unstored};
ghost use Rattle.octo_keeper_sql.specs.Loads.{Finds, Misread, Unanswered};
ghost use Rattle.octo_keeper_sql.specs.Settled.{FailsToAdopt, FailsToSettle, FailsToUpgrade, FoundNumber, HasNoSchema, Settled, Settles, Upgraded, plain, queue_moved, tables_made};
ghost use Rattle.octo_keeper_sql.specs.Statements.{FailsInTurn, InTransaction, Runs, entry_put};
ghost use Rattle.octo_keeper.specs.declared.keeper.KeeperFault.TheVariants as fault;

use crate::entries::put_entry;
use crate::fault::fault_of;
use crate::schema::{
    CREATE_ENTRIES, CREATE_META, CREATE_PRINTS, CREATE_USERS, DROP_OLD_QUEUE, FORMER_SCHEMA_NUMBER,
    INSERT_SCHEMA, SCHEMA_NUMBER, SELECT_OLD_QUEUE, SELECT_SCHEMA, UPDATE_SCHEMA,
};
use crate::{number_at, old_entries_of, statement, upgrade};
use octo_keeper::KeeperFault;
use print_queue::QueueEntry;
use sqlite::{Alter, Connection, Error, Row, Transaction};
use std::alloc::Global;

// Runs a statement without parameters.
fn run<S: Alter>(transaction: &mut Transaction<'_, S>, sql: &str) -> Result<(), KeeperFault>
    ensures stores { Unstored S.Store transaction.old.conn transaction.new.conn }
    ensures kept { KeepsLastCommit S.Store transaction.old.conn.now transaction.new.conn.now }
    ensures ran { OnOk result (Runs S.Store (plain sql.now ∷ [])
        transaction.old.conn.now transaction.new.conn.now) }
    ensures failed { IsErrOf result fault.Failed → InTransaction S.Store
        (FailsInTurn S.Store (plain sql.now ∷ []))
        transaction.old.conn.now transaction.new.conn.now }
{
    match statement::run(transaction, sql, &[]) {
        Ok(()) => Ok(()),
        Err(error) => Err(fault_of(error)),
    }
}

// All rows of a query without parameters.
fn rows_of<S: Alter>(
    transaction: &mut Transaction<'_, S>,
    sql: &str,
) -> Result<Vec<Row>, KeeperFault>
    ensures stores { Unstored S.Store transaction.old.conn transaction.new.conn }
    ensures kept { IsTrue transaction.old.conn.now.in_transaction
        → KeepsLastCommit S.Store transaction.old.conn.now transaction.new.conn.now }
    ensures found { IfOk result (λ rows.
        Finds S.Store sql.now rows.items transaction.old.conn.now transaction.new.conn.now) }
    ensures failed { IsErrOf result fault.Failed → InTransaction S.Store
        (Unanswered S.Store sql.now)
        transaction.old.conn.now transaction.new.conn.now }
{
    match transaction.query_all(sql, &[]) {
        Ok(rows) => Ok(rows),
        Err(error) => Err(fault_of(error)),
    }
}

// The number of the schema, 0 if the database has none yet.
fn schema_of<S: Alter>(transaction: &mut Transaction<'_, S>) -> Result<i64, KeeperFault>
    ensures stores { Unstored S.Store transaction.old.conn transaction.new.conn }
    ensures kept { IsTrue transaction.old.conn.now.in_transaction
        → KeepsLastCommit S.Store transaction.old.conn.now transaction.new.conn.now }
    ensures number { IfOk result (λ number. HasCleanDisk (state S.Store transaction.new.conn.now)
        → FoundNumber S.Store number transaction.old.conn.now transaction.new.conn.now) }
    ensures failed { IsErrOf result fault.Failed → InTransaction S.Store
        (Misread S.Store SELECT_SCHEMA.now HasNoSchema)
        transaction.old.conn.now transaction.new.conn.now }
{
    let rows = rows_of(transaction, SELECT_SCHEMA)?;
    match rows.as_slice() {
        [] => Ok(0),
        [row] => number_at(row, 0).ok_or(KeeperFault::Failed),
        _ => Err(KeeperFault::Failed),
    }
}

// Makes the tables of the schema.
#[tactic(auto, using(crate::proofs::Kept::unstored_then, crate::proofs::Kept::unstored_same, crate::proofs::Kept::commit_then, crate::proofs::Kept::commit_same))]
fn make_tables<S: Alter>(transaction: &mut Transaction<'_, S>) -> Result<(), KeeperFault>
    ensures stores { Unstored S.Store transaction.old.conn transaction.new.conn }
    ensures kept { KeepsLastCommit S.Store transaction.old.conn.now transaction.new.conn.now }
    ensures ran { OnOk result (Runs S.Store tables_made
        transaction.old.conn.now transaction.new.conn.now) }
    ensures failed { IsErrOf result fault.Failed → InTransaction S.Store
        (FailsInTurn S.Store tables_made)
        transaction.old.conn.now transaction.new.conn.now }
{
    run(transaction, CREATE_USERS)?;
    run(transaction, CREATE_ENTRIES)?;
    run(transaction, CREATE_PRINTS)?;
    run(transaction, INSERT_SCHEMA)
}

// Adds entries.
#[tactic(auto, using(crate::proofs::Kept::unstored_then, crate::proofs::Kept::unstored_same, crate::proofs::Kept::commit_then, crate::proofs::Kept::commit_same))]
fn put_entries<S: Alter>(
    transaction: &mut Transaction<'_, S>,
    entries: &[QueueEntry],
) -> Result<(), KeeperFault>
    ensures stores { Unstored S.Store transaction.old.conn transaction.new.conn }
    ensures kept { KeepsLastCommit S.Store transaction.old.conn.now transaction.new.conn.now }
    ensures ran { OnOk result (Runs S.Store (map entry_put entries.now)
        transaction.old.conn.now transaction.new.conn.now) }
    ensures failed { IsErrOf result fault.Failed → InTransaction S.Store
        (FailsInTurn S.Store (map entry_put entries.now))
        transaction.old.conn.now transaction.new.conn.now }
{
    for entry in entries {
        if let Err(error) = put_entry(transaction, entry) {
            return Err(fault_of(error));
        }
    }
    Ok(())
}

// Brings these entries into the table that has the place of the queue of the schema before.
#[tactic(auto, using(crate::proofs::Kept::unstored_then, crate::proofs::Kept::unstored_same, crate::proofs::Kept::commit_then, crate::proofs::Kept::commit_same))]
fn move_queue<S: Alter>(
    transaction: &mut Transaction<'_, S>,
    entries: &[QueueEntry],
) -> Result<(), KeeperFault>
    ensures stores { Unstored S.Store transaction.old.conn transaction.new.conn }
    ensures kept { KeepsLastCommit S.Store transaction.old.conn.now transaction.new.conn.now }
    ensures ran { OnOk result (Runs S.Store (queue_moved entries.now)
        transaction.old.conn.now transaction.new.conn.now) }
    ensures failed { IsErrOf result fault.Failed → InTransaction S.Store
        (FailsInTurn S.Store (queue_moved entries.now))
        transaction.old.conn.now transaction.new.conn.now }
{
    run(transaction, CREATE_ENTRIES)?;
    put_entries(transaction, entries)?;
    run(transaction, DROP_OLD_QUEUE)?;
    run(transaction, UPDATE_SCHEMA)
}

// Brings the queue of the schema before into the table that has its place now.
#[tactic(auto, using(crate::proofs::Kept::unstored_then, crate::proofs::Kept::unstored_same, crate::proofs::Kept::commit_then, crate::proofs::Kept::commit_same))]
fn upgrade_tables<S: Alter>(
    alloc: Global,
    transaction: &mut Transaction<'_, S>,
) -> Result<(), KeeperFault>
    ensures stores { Unstored S.Store transaction.old.conn transaction.new.conn }
    ensures kept { IsTrue transaction.old.conn.now.in_transaction
        → KeepsLastCommit S.Store transaction.old.conn.now transaction.new.conn.now }
    ensures ran { OnOk result (HasCleanDisk (state S.Store transaction.new.conn.now)
        → Upgraded S.Store transaction.old.conn.now transaction.new.conn.now) }
    ensures failed { IsErrOf result fault.Failed → InTransaction S.Store
        (FailsToUpgrade S.Store)
        transaction.old.conn.now transaction.new.conn.now }
{
    let rows = rows_of(transaction, SELECT_OLD_QUEUE)?;
    let old = old_entries_of(alloc, rows.as_slice())?;
    let entries = upgrade(alloc, old.as_slice())?;
    move_queue(transaction, entries.as_slice())
}

// Brings the database to the schema that is kept.
#[tactic(auto, using(crate::proofs::Kept::unstored_then, crate::proofs::Kept::unstored_same, crate::proofs::Kept::commit_then, crate::proofs::Kept::commit_same))]
fn settle<S: Alter>(alloc: Global, transaction: &mut Transaction<'_, S>) -> Result<(), KeeperFault>
    ensures stores { Unstored S.Store transaction.old.conn transaction.new.conn }
    ensures kept { IsTrue transaction.old.conn.now.in_transaction
        → KeepsLastCommit S.Store transaction.old.conn.now transaction.new.conn.now }
    ensures settled { OnOk result (HasCleanDisk (state S.Store transaction.new.conn.now)
        → Settled S.Store transaction.old.conn.now transaction.new.conn.now) }
    ensures failed { IsErrOf result fault.Failed → InTransaction S.Store
        (FailsToSettle S.Store)
        transaction.old.conn.now transaction.new.conn.now }
{
    run(transaction, CREATE_META)?;
    match schema_of(transaction)? {
        0 => make_tables(transaction),
        FORMER_SCHEMA_NUMBER => upgrade_tables(alloc, transaction),
        SCHEMA_NUMBER => Ok(()),
        _ => Err(KeeperFault::Failed),
    }
}

// Brings the database to the schema that is kept, in one transaction; after a fault it is as it was.
pub(crate) fn settle_schema<S: Alter>(
    alloc: Global,
    connection: &mut Connection<S>,
) -> Result<(), KeeperFault>
    ensures settled { OnOk result (HasCleanDisk (state S.Store connection.new)
        → Settles S.Store connection.old connection.new) }
    ensures failed { IsErrOf result fault.Failed → HasCleanDisk (state S.Store connection.new)
        → FailsToAdopt S.Store connection.old connection.new }
    ensures undone { OnErr result
        (IsUndone (state S.Store connection.old) (state S.Store connection.new)) }
    ensures atomic { IsAtomic S.Store (Settled S.Store) connection.old connection.new }
{
    if !connection.is_autocommit() {
        return Err(KeeperFault::Failed);
    }
    let mut transaction = connection.transaction();
    if let Err(fault) = settle(alloc, &mut transaction) {
        transaction.rollback();
        return Err(fault);
    }
    match transaction.commit() {
        Ok(()) => Ok(()),
        Err(error) => Err(fault_of(error)),
    }
}
