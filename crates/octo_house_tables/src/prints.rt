//! Records of prints.
ghost use Rattle.std.specs.Prelude.{◌≡◌, ◌<◌, ◌++◌, ◌∷◌, [], length, map, vec_len, Some, OnOk};
ghost use Rattle.std.specs.Vec.{vec_capacity};
ghost use Rattle.octo_house_rules.specs.Begins.{row_read};
ghost use Rattle.print_queue.specs.declared.ending.Outcome.TheVariants as outcome;

use byte_text::Name;
use print_queue::{Outcome, PrintRow};
use std::alloc::AllocError;

// A record as a new host reads it: a print that was still going on has failed.
fn read_row(row: &mut PrintRow)
    ensures { row.new ≡ row_read row.old }
{
    if row.outcome == Outcome::Active {
        row.outcome = Outcome::Failed;
    }
}

/// Reads records as a new host does: prints that were still going on have failed.
pub fn read_prints(rows: &mut [PrintRow])
    ensures { rows.new ≡ map row_read rows.old }
{
    for row in rows.iter_mut() {
        read_row(row);
    }
}

/// The record of a print that begins.
pub fn new_row(number: u32, user: &Name, file: &Name, commands: u32) -> PrintRow
    ensures { result ≡ record {
      number = number;
      user = user.now;
      file = file.now;
      commands = commands;
      outcome = outcome.Active;
    } }
{
    PrintRow {
        number,
        user: user.copy(),
        file: file.copy(),
        commands,
        outcome: Outcome::Active,
    }
}

/// Makes room for one more record. Fails if out of memory.
pub fn reserve_print(rows: &mut Vec<PrintRow>) -> Result<(), AllocError>
    ensures items { rows.new.items ≡ rows.old.items }
    ensures room { OnOk result (vec_len rows.new < vec_capacity rows.new) }
{
    rows.reserve(1)?;
    Ok(())
}

/// Adds a record; there has to be room for one more.
pub fn add_print(rows: &mut Vec<PrintRow>, row: PrintRow)
    requires { vec_len rows.old < vec_capacity rows.old }
    ensures { rows.new.items ≡ rows.old.items ++ row ∷ [] }
{
    match rows.push(row) {
        Ok(()) => {}
        Err(_) => unreachable!(),
    }
}
