//! The queue of the schema before, which knew neither copies nor materials.
ghost use Rattle.std.specs.Prelude.{◌≡◌, map, MatchOption, IfOk, IsErrOf};
ghost use Rattle.std.specs.List.{All};
ghost use Rattle.octo_keeper.specs.declared.keeper.KeeperFault.TheVariants as fault;
ghost use Rattle.octo_keeper_sql.specs.Holds.{HoldsOldEntry};
ghost use Rattle.octo_keeper_sql.specs.Rows.{old_entry_row};
ghost use Rattle.octo_keeper_sql.specs.Upgrade.{upgraded};

use crate::reading::{name_at, u8_at, u32_at};
use byte_text::Name;
use octo_keeper::KeeperFault;
use print_queue::{EntryList, QueueEntry, any_material};
use sqlite::Row;
use std::alloc::{AllocError, Global};

/// An entry of the queue of the schema before.
#[derive(Drop)]
pub struct OldEntry {
    pub user: Name,
    pub name: Name,
    pub file: Name,
    pub priority: u8,
    pub arrival: u32,
}

// The entry of a row of the schema before.
#[tactic(auto, using(crate::proofs::Columns::five_columns))]
fn old_entry_of(row: &Row) -> Option<OldEntry>
    ensures { MatchOption result (¬ HoldsOldEntry row.now)
        (λ entry. row.now ≡ old_entry_row entry) }
{
    if row.column_count() != 5 {
        return None;
    }
    Some(OldEntry {
        user: name_at(row, 0)?,
        name: name_at(row, 1)?,
        file: name_at(row, 2)?,
        priority: u8_at(row, 3)?,
        arrival: u32_at(row, 4)?,
    })
}

/// The entries of rows of the schema before; a row that holds none is a fault. Fails as well if out of memory.
pub fn old_entries_of(alloc: Global, rows: &[Row]) -> Result<Vec<OldEntry>, KeeperFault>
    ensures ok { IfOk result (λ entries. map old_entry_row entries.items ≡ rows.now) }
    ensures failed { IsErrOf result fault.Failed → ¬ All HoldsOldEntry rows.now }
{
    let mut entries = Vec::new(alloc);
    for row in rows {
        let Some(entry) = old_entry_of(row) else {
            return Err(KeeperFault::Failed);
        };
        entries.push(entry)?;
    }
    Ok(entries)
}

// The entry as one copy of any material.
fn upgrade_entry(old: &OldEntry) -> QueueEntry
    ensures { result ≡ upgraded old.now }
{
    QueueEntry {
        user: old.user.copy(),
        name: old.name.copy(),
        file: old.file.copy(),
        priority: old.priority,
        copies: 1,
        left: 1,
        material: any_material(),
        arrival: old.arrival,
    }
}

/// The entries in the same order, each as one copy of any material. Fails if out of memory.
pub fn upgrade(alloc: Global, rows: &[OldEntry]) -> Result<EntryList, AllocError>
    ensures { IfOk result (λ entries. entries ≡ map upgraded rows.now) }
{
    let mut entries = EntryList::new(alloc);
    for row in rows {
        entries.push(upgrade_entry(row))?;
    }
    Ok(entries)
}
