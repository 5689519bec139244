//! Print records as rows of the database.
ghost use Rattle.std.specs.Prelude.{◌≡◌, pos, map, MatchOption, IfOk, IsErrOf};
ghost use Rattle.std.specs.List.{All};
ghost use Rattle.sqlite_value.specs.declared.value.Value.TheVariants.{Int};
ghost use Rattle.sqlite.specs.Values.{bound};
ghost use Rattle.octo_keeper.specs.declared.keeper.KeeperFault.TheVariants as fault;
ghost use Rattle.octo_keeper_sql.specs.Holds.{HoldsBelow, HoldsPrint};
ghost use Rattle.octo_keeper_sql.specs.Rows.{outcome_number, print_row};

use crate::reading::{name_at, number_at, u32_at};
use octo_keeper::KeeperFault;
use print_queue::{Outcome, PrintList, PrintRow};
use sqlite::Row;
use sqlite::types::ValueRef;
use std::alloc::Global;

/// The number of an outcome.
pub fn number_of(outcome: Outcome) -> u32
    ensures { result ≡ outcome_number outcome }
{
    match outcome {
        Outcome::Active => 0,
        Outcome::Done => 1,
        Outcome::Cancelled => 2,
        Outcome::Failed => 3,
    }
}

// The outcome of such a number.
fn outcome_of(number: i64) -> Option<Outcome>
    ensures { MatchOption result (¬ HoldsBelow 4 (Int number))
        (λ outcome. number ≡ pos (outcome_number outcome)) }
{
    match number {
        0 => Some(Outcome::Active),
        1 => Some(Outcome::Done),
        2 => Some(Outcome::Cancelled),
        3 => Some(Outcome::Failed),
        _ => None,
    }
}

/// The values of a print's row.
pub fn print_values<'a>(print: &'a PrintRow) -> [ValueRef<'a>; 5]
    ensures { bound result ≡ print_row print.now }
{
    [
        ValueRef::Int(i64::from(print.number)),
        ValueRef::Text(print.user.as_bytes()),
        ValueRef::Text(print.file.as_bytes()),
        ValueRef::Int(i64::from(print.commands)),
        ValueRef::Int(i64::from(number_of(print.outcome))),
    ]
}

// The print of a row.
#[tactic(auto, using(crate::proofs::Columns::five_columns))]
fn print_of(row: &Row) -> Option<PrintRow>
    ensures { MatchOption result (¬ HoldsPrint row.now) (λ print. row.now ≡ print_row print) }
{
    if row.column_count() != 5 {
        return None;
    }
    Some(PrintRow {
        number: u32_at(row, 0)?,
        user: name_at(row, 1)?,
        file: name_at(row, 2)?,
        commands: u32_at(row, 3)?,
        outcome: outcome_of(number_at(row, 4)?)?,
    })
}

/// The prints of rows; a row that holds none is a fault. Fails as well if out of memory.
pub fn prints_of(alloc: Global, rows: &[Row]) -> Result<PrintList, KeeperFault>
    ensures ok { IfOk result (λ prints. map print_row prints ≡ rows.now) }
    ensures failed { IsErrOf result fault.Failed → ¬ All HoldsPrint rows.now }
{
    let mut prints = PrintList::new(alloc);
    for row in rows {
        let Some(print) = print_of(row) else {
            return Err(KeeperFault::Failed);
        };
        prints.push(print)?;
    }
    Ok(prints)
}
