//! The edits of the tables in memory.
ghost use Rattle.std.specs.Prelude.{◌≡◌, ◌++◌, ◌∷◌, [], map, filter, not, OnOk, OnErr};
ghost use Rattle.octo_access.specs.Rows.{with_row};
ghost use Rattle.print_queue.specs.Rows.{insert_row, without, without_copy};
ghost use Rattle.octo_keeper.specs.Tables.{ended_row, with_user, with_end, with_due_end, user_set, lowered};

use byte_text::Name;
use octo_access::{UserRow, place_for_name};
use print_queue::{Ending, PrintRow, QueueEntry, place_for};
use std::alloc::AllocError;

/// Adds a user in the place of its name. Fails if out of memory.
pub fn put_user(rows: &mut Vec<UserRow>, row: &UserRow) -> Result<(), AllocError>
    ensures ok { OnOk result (rows.new.items ≡ with_row row.now rows.old.items) }
    ensures err { OnErr result (rows.new.items ≡ rows.old.items) }
{
    let place = place_for_name(rows, &row.name);
    rows.insert(place, row.copy())?;
    Ok(())
}

// The row in the place of a held one of its name.
fn set_user(held: &mut UserRow, row: &UserRow)
    ensures { held.new ≡ user_set row.now held.old }
{
    if held.is_named(&row.name) {
        *held = row.copy();
    }
}

/// Sets each user of a name.
pub fn set_users(rows: &mut [UserRow], row: &UserRow)
    ensures { rows.new ≡ with_user row.now rows.old }
{
    for held in rows.iter_mut() {
        set_user(held, row);
    }
}

/// Adds an entry in its place in the order. Fails if out of memory.
pub fn put_entry(rows: &mut Vec<QueueEntry>, entry: &QueueEntry) -> Result<(), AllocError>
    ensures ok { OnOk result (rows.new.items ≡ insert_row entry.now rows.old.items) }
    ensures err { OnErr result (rows.new.items ≡ rows.old.items) }
{
    let place = place_for(rows, entry);
    rows.insert(place, entry.copy())?;
    Ok(())
}

/// Takes a user's entry of a name out.
pub fn drop_entry(rows: &mut Vec<QueueEntry>, user: &Name, name: &Name)
    ensures { rows.new.items ≡ without user.now name.now rows.old.items }
{
    rows.retain(|row| !row.is_key(user, name));
}

// Lowers what is left of an entry, if it is this user's of this name.
fn lower_row(row: &mut QueueEntry, user: &Name, name: &Name)
    ensures { row.new ≡ lowered user.now name.now row.old }
{
    if row.is_key(user, name) {
        row.left = row.left.saturating_sub(1);
    }
}

fn lower_rows(rows: &mut [QueueEntry], user: &Name, name: &Name)
    ensures { rows.new ≡ map (lowered user.now name.now) rows.old }
{
    for row in rows.iter_mut() {
        lower_row(row, user, name);
    }
}

/// Starts one copy of a user's entry of a name; after its last copy the entry is gone.
pub fn take_entry(rows: &mut Vec<QueueEntry>, user: &Name, name: &Name)
    ensures { rows.new.items ≡ without_copy user.now name.now rows.old.items }
{
    lower_rows(rows, user, name);
    rows.retain(|row| !(row.is_key(user, name) && row.left == 0));
}

// Ends a print if it has this number.
fn end_row(row: &mut PrintRow, ending: Ending)
    ensures { row.new ≡ ended_row ending row.old }
{
    if row.number == ending.print {
        row.outcome = ending.outcome;
    }
}

/// Ends the print of a number: its record has the outcome of the ending.
pub fn end_print(rows: &mut [PrintRow], ending: Ending)
    ensures { rows.new ≡ with_end ending rows.old }
{
    for row in rows.iter_mut() {
        end_row(row, ending);
    }
}

/// Adds a print after the end of another one, if that is due. Fails if out of memory.
pub fn begin_print(
    rows: &mut Vec<PrintRow>,
    ended: Option<Ending>,
    print: &PrintRow,
) -> Result<(), AllocError>
    ensures ok { OnOk result
        (rows.new.items ≡ with_due_end ended rows.old.items ++ print.now ∷ []) }
    ensures err { OnErr result (rows.new.items ≡ rows.old.items) }
{
    rows.reserve(1)?;
    if let Some(ending) = ended {
        end_print(rows, ending);
    }
    match rows.push(print.copy()) {
        Ok(()) => Ok(()),
        Err(_) => unreachable!(),
    }
}
