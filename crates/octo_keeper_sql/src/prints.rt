//! Print records in the database.
ghost use Rattle.std.specs.Prelude.{false, ◌≡◌, ◌∷◌, [], map, IfOk, IsErrOf, IfErr, OnOk};
ghost use Rattle.std.specs.List.{All};
ghost use Rattle.sqlite.specs.Held.{state};
ghost use Rattle.sqlite.specs.State.{HasCleanDisk};
ghost use Rattle.sqlite.specs.Values.{bound};
ghost use Rattle.octo_keeper_sql.specs.Kept.{Kept};
ghost use Rattle.octo_keeper_sql.specs.Loads.{EndsEarly, FailsToFind, Finds};
ghost use Rattle.octo_keeper_sql.specs.Statements.{Refuses, Runs, due_end, print_ended, print_put};
ghost use Rattle.octo_keeper_sql.specs.Holds.{HoldsPrint};
ghost use Rattle.octo_keeper_sql.specs.Rows.{print_row};
ghost use Rattle.octo_keeper.specs.declared.keeper.KeeperFault.TheVariants as fault;

use crate::fault::fault_of;
use crate::schema::{END_PRINT, INSERT_PRINT, SELECT_PRINTS};
use crate::statement::run;
use crate::{number_of, print_values, prints_of};
use octo_keeper::KeeperFault;
use print_queue::{Ending, PrintList, PrintRow};
use sqlite::types::ValueRef;
use sqlite::{Alter, Connection, Error, Transaction};
use std::alloc::Global;

// All print records, by number.
pub(crate) fn load_prints<S: Alter>(
    alloc: Global,
    connection: &mut Connection<S>,
) -> Result<PrintList, KeeperFault>
    ensures rows { IfOk result (λ prints.
        Finds S.Store SELECT_PRINTS.now (map print_row prints) connection.old connection.new) }
    ensures failed { IsErrOf result fault.Failed
        → FailsToFind S.Store SELECT_PRINTS.now HoldsPrint connection.old connection.new }
    ensures memory { IsErrOf result fault.NoMemory
        → EndsEarly S.Store SELECT_PRINTS.now connection.old connection.new }
    ensures clean { HasCleanDisk (state S.Store connection.new)
        → HasCleanDisk (state S.Store connection.old) }
    ensures ended { connection.old.in_transaction ≡ false → connection.new.in_transaction ≡ false }
{
    match connection.query_all(SELECT_PRINTS, &[]) {
        Ok(rows) => prints_of(alloc, rows.as_slice()),
        Err(error) => Err(fault_of(error)),
    }
}

// Adds a print record.
pub(crate) fn put_print<S: Alter>(
    transaction: &mut Transaction<'_, S>,
    print: &PrintRow,
) -> Result<(), Error>
    ensures kept { Kept S.Store transaction.old.conn transaction.new.conn }
    ensures ran { OnOk result (Runs S.Store (print_put print.now ∷ [])
        transaction.old.conn.now transaction.new.conn.now) }
    ensures failed { IfErr result (Refuses S.Store (print_put print.now ∷ [])
        transaction.old.conn.now transaction.new.conn.now) }
{
    run(transaction, INSERT_PRINT, &print_values(print))
}

fn end_values<'a>(ending: Ending) -> [ValueRef<'a>; 2]
    ensures { bound result ≡ (print_ended ending).values }
{
    [
        ValueRef::Int(i64::from(ending.print)),
        ValueRef::Int(i64::from(number_of(ending.outcome))),
    ]
}

// Ends the print of a number.
pub(crate) fn end_print<S: Alter>(
    transaction: &mut Transaction<'_, S>,
    ending: Ending,
) -> Result<(), Error>
    ensures kept { Kept S.Store transaction.old.conn transaction.new.conn }
    ensures ran { OnOk result (Runs S.Store (print_ended ending ∷ [])
        transaction.old.conn.now transaction.new.conn.now) }
    ensures failed { IfErr result (Refuses S.Store (print_ended ending ∷ [])
        transaction.old.conn.now transaction.new.conn.now) }
{
    run(transaction, END_PRINT, &end_values(ending))
}

// Ends another print, if its end is due.
#[tactic(auto, using(crate::proofs::Kept::kept_same))]
pub(crate) fn end_due<S: Alter>(
    transaction: &mut Transaction<'_, S>,
    ended: Option<Ending>,
) -> Result<(), Error>
    ensures kept { Kept S.Store transaction.old.conn transaction.new.conn }
    ensures ran { OnOk result (Runs S.Store (due_end ended)
        transaction.old.conn.now transaction.new.conn.now) }
    ensures failed { IfErr result (Refuses S.Store (due_end ended)
        transaction.old.conn.now transaction.new.conn.now) }
{
    match ended {
        Some(ending) => end_print(transaction, ending),
        None => Ok(()),
    }
}
