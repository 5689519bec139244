//! Entries of the queue as rows of the database.
ghost use Rattle.std.specs.Prelude.{◌≡◌, map, MatchOption, IfOk, IsErrOf};
ghost use Rattle.std.specs.List.{All};
ghost use Rattle.sqlite.specs.Values.{bound};
ghost use Rattle.octo_keeper.specs.declared.keeper.KeeperFault.TheVariants as fault;
ghost use Rattle.octo_keeper_sql.specs.Holds.{HoldsEntry};
ghost use Rattle.octo_keeper_sql.specs.Rows.{entry_row};

use crate::reading::{name_at, u8_at, u32_at};
use octo_keeper::KeeperFault;
use print_queue::{EntryList, QueueEntry};
use sqlite::Row;
use sqlite::types::ValueRef;
use std::alloc::Global;

/// The values of an entry's row.
pub fn entry_values<'a>(entry: &'a QueueEntry) -> [ValueRef<'a>; 8]
    ensures { bound result ≡ entry_row entry.now }
{
    [
        ValueRef::Text(entry.user.as_bytes()),
        ValueRef::Text(entry.name.as_bytes()),
        ValueRef::Text(entry.file.as_bytes()),
        ValueRef::Int(i64::from(entry.priority)),
        ValueRef::Int(i64::from(entry.arrival)),
        ValueRef::Int(i64::from(entry.copies)),
        ValueRef::Int(i64::from(entry.left)),
        ValueRef::Text(entry.material.as_bytes()),
    ]
}

// The entry of a row.
#[tactic(auto, using(crate::proofs::Columns::eight_columns))]
fn entry_of(row: &Row) -> Option<QueueEntry>
    ensures { MatchOption result (¬ HoldsEntry row.now) (λ entry. row.now ≡ entry_row entry) }
{
    if row.column_count() != 8 {
        return None;
    }
    Some(QueueEntry {
        user: name_at(row, 0)?,
        name: name_at(row, 1)?,
        file: name_at(row, 2)?,
        priority: u8_at(row, 3)?,
        arrival: u32_at(row, 4)?,
        copies: u8_at(row, 5)?,
        left: u8_at(row, 6)?,
        material: name_at(row, 7)?,
    })
}

/// The entries of rows; a row that holds none is a fault. Fails as well if out of memory.
pub fn entries_of(alloc: Global, rows: &[Row]) -> Result<EntryList, KeeperFault>
    ensures ok { IfOk result (λ entries. map entry_row entries ≡ rows.now) }
    ensures failed { IsErrOf result fault.Failed → ¬ All HoldsEntry rows.now }
{
    let mut entries = EntryList::new(alloc);
    for row in rows {
        let Some(entry) = entry_of(row) else {
            return Err(KeeperFault::Failed);
        };
        entries.push(entry)?;
    }
    Ok(entries)
}
