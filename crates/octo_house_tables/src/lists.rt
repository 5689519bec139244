//! Rows as answers show them.
ghost use Rattle.std.specs.Prelude.{◌≡◌, map, filter, reverse, take, IfOk};
ghost use Rattle.print_queue.specs.Rows.{is_of};
ghost use Rattle.octo_asks.specs.Shown.{shown_user, shown_entry, shown_print};
ghost use Rattle.octo_house_rules.specs.Reads.{file_shown, is_print_of};

use byte_text::Name;
use octo_access::UserRow;
use octo_asks::{
    ShownEntry, ShownEntryList, ShownFile, ShownFileList, ShownPrint, ShownPrintList, ShownUser,
    ShownUserList,
};
use octo_outside::NameList;
use print_queue::{PrintRow, QueueEntry};
use std::alloc::{AllocError, Global};

const MOST_SHOWN_PRINTS: usize = 100;

/// The same names again. Fails if out of memory.
pub fn copy_names(alloc: Global, names: &[Name]) -> Result<NameList, AllocError>
    ensures { IfOk result (λ list. list ≡ names.now) }
{
    let mut list = NameList::new(alloc);
    for name in names {
        list.push(name.copy())?;
    }
    Ok(list)
}

/// Files as they are shown, by their names and sizes in bytes. Fails if out of memory.
pub fn shown_files(alloc: Global, files: &[(Name, u64)]) -> Result<ShownFileList, AllocError>
    ensures { IfOk result (λ list. list ≡ map (λ file. file_shown file.0 file.1) files.now) }
{
    let mut list = ShownFileList::new(alloc);
    for (name, size) in files {
        list.push(ShownFile {
            name: name.copy(),
            size: *size,
        })?;
    }
    Ok(list)
}

/// Users as they are shown. Fails if out of memory.
pub fn shown_users(alloc: Global, rows: &[UserRow]) -> Result<ShownUserList, AllocError>
    ensures { IfOk result (λ list. list ≡ map shown_user rows.now) }
{
    let mut list = ShownUserList::new(alloc);
    for row in rows {
        list.push(ShownUser::of(row))?;
    }
    Ok(list)
}

// Whether an entry is this user's; every entry is if no user is named.
fn is_entry_of(entry: &QueueEntry, user: &Option<Name>) -> bool
    ensures { result ≡ is_of user.now entry.now }
{
    match user {
        Some(user) => entry.is_of(user),
        None => true,
    }
}

/// The entries of a user, or of all users, as they are shown. Fails if out of memory.
pub fn shown_entries(
    alloc: Global,
    rows: &[QueueEntry],
    user: &Option<Name>,
) -> Result<ShownEntryList, AllocError>
    ensures { IfOk result (λ list. list ≡ map shown_entry (filter (is_of user.now) rows.now)) }
{
    let mut list = ShownEntryList::new(alloc);
    for row in rows {
        if is_entry_of(row, user) {
            list.push(ShownEntry::of(row))?;
        }
    }
    Ok(list)
}

// Whether a print is this user's; every print is if no user is named.
fn is_print_of(row: &PrintRow, user: &Option<Name>) -> bool
    ensures { result ≡ is_print_of user.now row.now }
{
    match user {
        Some(user) => row.user.is(user),
        None => true,
    }
}

/// The prints of a user, or of all users, as they are shown: newest first, at most 100. Fails if out of memory.
pub fn shown_prints(
    alloc: Global,
    rows: &[PrintRow],
    user: &Option<Name>,
) -> Result<ShownPrintList, AllocError>
    ensures { IfOk result (λ list. list
        ≡ map shown_print (take 100 (reverse (filter (is_print_of user.now) rows.now)))) }
{
    let mut list = ShownPrintList::new(alloc);
    let mut free = MOST_SHOWN_PRINTS;
    let mut left = rows.len();
    while free > 0 && left > 0 {
        left -= 1;
        let row = &rows[left];
        if is_print_of(row, user) {
            list.push(ShownPrint::of(row))?;
            free -= 1;
        }
    }
    Ok(list)
}
