//! The lines of the tables.
ghost use Rattle.std.specs.Prelude.{◌≡◌, ◌++◌, length, flat_map, decimal, OnOk, IfOk};
ghost use Rattle.keeper_tool.specs.Lines.{word_after, number_after, active_text, user_line, entry_names, entry_numbers, entry_line, outcome_text, print_line, count_line, tables_text};

use byte_text::Name;
use itoa::Buffer;
use octo_access::UserRow;
use octo_keeper::Tables;
use octo_outside::Blob;
use print_queue::{Outcome, PrintRow, QueueEntry};
use std::alloc::{AllocError, Global};

fn put_name(text: &mut Blob, name: &Name) -> Result<(), AllocError>
    ensures { OnOk result (text.new ≡ text.old ++ word_after name.now) }
{
    text.append(b" ")?;
    text.append(name.as_bytes())
}

fn put_number(text: &mut Blob, name: &str, number: u64) -> Result<(), AllocError>
    ensures { OnOk result (text.new ≡ text.old ++ number_after name.now number) }
{
    text.append(name.as_bytes())?;
    let mut buffer = Buffer::new();
    text.append(buffer.format(number).as_bytes())
}

fn put_groups(text: &mut Blob, groups: &[Name]) -> Result<(), AllocError>
    ensures { OnOk result (text.new ≡ text.old ++ flat_map word_after groups.now) }
{
    for group in groups {
        put_name(text, group)?;
    }
    Ok(())
}

fn active_text(active: bool) -> &'static str
    ensures { result.now ≡ active_text active }
{
    if active { " active" } else { " inactive" }
}

fn put_user(text: &mut Blob, user: &UserRow) -> Result<(), AllocError>
    ensures { OnOk result (text.new ≡ text.old ++ user_line user.now) }
{
    text.append(b"user")?;
    put_name(text, &user.name)?;
    text.append(active_text(user.active).as_bytes())?;
    put_groups(text, user.groups.as_slice())?;
    text.append(b"\n")
}

fn put_entry_names(text: &mut Blob, entry: &QueueEntry) -> Result<(), AllocError>
    ensures { OnOk result (text.new ≡ text.old ++ entry_names entry.now) }
{
    text.append(b"entry")?;
    put_name(text, &entry.user)?;
    put_name(text, &entry.name)?;
    put_name(text, &entry.file)
}

fn put_entry_numbers(text: &mut Blob, entry: &QueueEntry) -> Result<(), AllocError>
    ensures { OnOk result (text.new ≡ text.old ++ entry_numbers entry.now) }
{
    put_number(text, " priority ", u64::from(entry.priority))?;
    put_number(text, " arrival ", u64::from(entry.arrival))?;
    put_number(text, " copies ", u64::from(entry.copies))?;
    put_number(text, " left ", u64::from(entry.left))
}

fn put_entry(text: &mut Blob, entry: &QueueEntry) -> Result<(), AllocError>
    ensures { OnOk result (text.new ≡ text.old ++ entry_line entry.now) }
{
    put_entry_names(text, entry)?;
    put_entry_numbers(text, entry)?;
    text.append(b" material")?;
    put_name(text, &entry.material)?;
    text.append(b"\n")
}

fn outcome_text(outcome: Outcome) -> &'static str
    ensures { result.now ≡ outcome_text outcome }
{
    match outcome {
        Outcome::Active => " active\n",
        Outcome::Done => " done\n",
        Outcome::Cancelled => " cancelled\n",
        Outcome::Failed => " failed\n",
    }
}

fn put_print(text: &mut Blob, print: &PrintRow) -> Result<(), AllocError>
    ensures { OnOk result (text.new ≡ text.old ++ print_line print.now) }
{
    put_number(text, "print ", u64::from(print.number))?;
    put_name(text, &print.user)?;
    put_name(text, &print.file)?;
    put_number(text, " commands ", u64::from(print.commands))?;
    text.append(outcome_text(print.outcome).as_bytes())
}

fn put_count(text: &mut Blob, name: &str, count: usize) -> Result<(), AllocError>
    ensures { OnOk result (text.new ≡ text.old ++ count_line name.now count) }
{
    put_number(text, name, count as u64)?;
    text.append(b"\n")
}

fn put_users(text: &mut Blob, users: &[UserRow]) -> Result<(), AllocError>
    ensures { OnOk result (text.new ≡ text.old ++ flat_map user_line users.now) }
{
    for user in users {
        put_user(text, user)?;
    }
    Ok(())
}

fn put_entries(text: &mut Blob, entries: &[QueueEntry]) -> Result<(), AllocError>
    ensures { OnOk result (text.new ≡ text.old ++ flat_map entry_line entries.now) }
{
    for entry in entries {
        put_entry(text, entry)?;
    }
    Ok(())
}

fn put_prints(text: &mut Blob, prints: &[PrintRow]) -> Result<(), AllocError>
    ensures { OnOk result (text.new ≡ text.old ++ flat_map print_line prints.now) }
{
    for print in prints {
        put_print(text, print)?;
    }
    Ok(())
}

/// The tables as text: each table's number of rows, then a line for each row. Fails if out of memory.
pub fn tables_text(alloc: Global, tables: &Tables) -> Result<Blob, AllocError>
    ensures { IfOk result (λ text. text ≡ tables_text tables.now) }
{
    let mut text = Blob::new(alloc);
    put_count(&mut text, "users ", tables.users.as_slice().len())?;
    put_users(&mut text, tables.users.as_slice())?;
    put_count(&mut text, "entries ", tables.queue.as_slice().len())?;
    put_entries(&mut text, tables.queue.as_slice())?;
    put_count(&mut text, "prints ", tables.prints.as_slice().len())?;
    put_prints(&mut text, tables.prints.as_slice())?;
    Ok(text)
}
