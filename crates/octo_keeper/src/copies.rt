//! Copies of the lists of the tables.
ghost use Rattle.std.specs.Prelude.{◌≡◌, IfOk};

use octo_access::{UserList, UserRow};
use print_queue::{EntryList, PrintList, PrintRow, QueueEntry};
use std::alloc::{AllocError, Global};

/// A copy of users. Fails if out of memory.
pub fn copy_users(alloc: Global, rows: &[UserRow]) -> Result<UserList, AllocError>
    ensures { IfOk result (λ list. list ≡ rows.now) }
{
    let mut list = UserList::new(alloc);
    for row in rows {
        list.push(row.copy())?;
    }
    Ok(list)
}

/// A copy of entries. Fails if out of memory.
pub fn copy_entries(alloc: Global, rows: &[QueueEntry]) -> Result<EntryList, AllocError>
    ensures { IfOk result (λ list. list ≡ rows.now) }
{
    let mut list = EntryList::new(alloc);
    for row in rows {
        list.push(row.copy())?;
    }
    Ok(list)
}

/// A copy of records of prints. Fails if out of memory.
pub fn copy_prints(alloc: Global, rows: &[PrintRow]) -> Result<PrintList, AllocError>
    ensures { IfOk result (λ list. list ≡ rows.now) }
{
    let mut list = PrintList::new(alloc);
    for row in rows {
        list.push(row.copy())?;
    }
    Ok(list)
}
