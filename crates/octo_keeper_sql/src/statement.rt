//! Statements inside a transaction.
ghost use Rattle.std.specs.Prelude.{[], ◌∷◌, IfErr, OnOk};
ghost use Rattle.sqlite.specs.Values.{bound};
ghost use Rattle.octo_keeper_sql.specs.Kept.{Kept};
ghost use Rattle.octo_keeper_sql.specs.Statements.{Refuses, Runs, with_values};

use sqlite::types::ValueRef;
use sqlite::{Alter, Error, Transaction};

// Runs a statement with these parameters.
pub(crate) fn run<S: Alter>(
    transaction: &mut Transaction<'_, S>,
    sql: &str,
    values: &[ValueRef<'_>],
) -> Result<(), Error>
    ensures kept { Kept S.Store transaction.old.conn transaction.new.conn }
    ensures ran { OnOk result (Runs S.Store (with_values sql.now (bound values.now) ∷ [])
        transaction.old.conn.now transaction.new.conn.now) }
    ensures failed { IfErr result (Refuses S.Store (with_values sql.now (bound values.now) ∷ [])
        transaction.old.conn.now transaction.new.conn.now) }
{
    transaction.execute(sql, values)?;
    Ok(())
}
