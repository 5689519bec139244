//! The edits of the lists of the tables.
ghost use Rattle.std.specs.Prelude.{◌≡◌, ◌++◌, ◌∷◌, [], OnOk, OnErr};
ghost use Rattle.octo_access.specs.Rows.{with_row};
ghost use Rattle.print_queue.specs.Rows.{insert_row, without};
ghost use Rattle.octo_keeper.specs.Tables.{with_user, with_taken, with_due_end, with_end};

use crate::edits::{
    begin_print, drop_entry, end_print, put_entry, put_user, set_users, take_entry,
};
use byte_text::Name;
use octo_access::{UserList, UserRow};
use octo_outside::ItemList;
use print_queue::{Ending, EntryList, PrintList, PrintRow, QueueEntry};
use std::alloc::{AllocError, Global};
use std::mem;

// Takes the rows out of a list, which is empty until they are put back.
fn take_rows<T: Drop>(alloc: Global, list: &mut ItemList<T>) -> Vec<T>
    ensures { result.items ≡ list.old }
{
    mem::replace(list, ItemList::new(alloc)).into_items()
}

/// Adds a user in the place of its name. Fails if out of memory.
pub fn add_user(alloc: Global, list: &mut UserList, row: &UserRow) -> Result<(), AllocError>
    ensures ok { OnOk result (list.new ≡ with_row row.now list.old) }
    ensures err { OnErr result (list.new ≡ list.old) }
{
    let mut rows = take_rows(alloc, list);
    let done = put_user(&mut rows, row);
    *list = UserList::from_items(rows);
    done
}

/// Sets each user of a name.
pub fn set_user(alloc: Global, list: &mut UserList, row: &UserRow)
    ensures { list.new ≡ with_user row.now list.old }
{
    let mut rows = take_rows(alloc, list);
    set_users(&mut rows, row);
    *list = UserList::from_items(rows);
}

/// Adds an entry in its place in the order. Fails if out of memory.
pub fn add_entry(alloc: Global, list: &mut EntryList, entry: &QueueEntry) -> Result<(), AllocError>
    ensures ok { OnOk result (list.new ≡ insert_row entry.now list.old) }
    ensures err { OnErr result (list.new ≡ list.old) }
{
    let mut rows = take_rows(alloc, list);
    let done = put_entry(&mut rows, entry);
    *list = EntryList::from_items(rows);
    done
}

/// Takes a user's entry of a name out.
pub fn remove_entry(alloc: Global, list: &mut EntryList, user: &Name, name: &Name)
    ensures { list.new ≡ without user.now name.now list.old }
{
    let mut rows = take_rows(alloc, list);
    drop_entry(&mut rows, user, name);
    *list = EntryList::from_items(rows);
}

/// Starts one copy of an entry, if one was taken.
pub fn start_copy(alloc: Global, list: &mut EntryList, taken: &Option<QueueEntry>)
    ensures { list.new ≡ with_taken taken.now list.old }
{
    let Some(taken) = taken else {
        return;
    };
    let mut rows = take_rows(alloc, list);
    take_entry(&mut rows, &taken.user, &taken.name);
    *list = EntryList::from_items(rows);
}

/// Adds a print after the end of another one, if that is due. Fails if out of memory.
pub fn add_print(
    alloc: Global,
    list: &mut PrintList,
    ended: Option<Ending>,
    print: &PrintRow,
) -> Result<(), AllocError>
    ensures ok { OnOk result (list.new ≡ with_due_end ended list.old ++ print.now ∷ []) }
    ensures err { OnErr result (list.new ≡ list.old) }
{
    let mut rows = take_rows(alloc, list);
    let done = begin_print(&mut rows, ended, print);
    *list = PrintList::from_items(rows);
    done
}

/// Ends the print of a number.
pub fn set_end(alloc: Global, list: &mut PrintList, ending: Ending)
    ensures { list.new ≡ with_end ending list.old }
{
    let mut rows = take_rows(alloc, list);
    end_print(&mut rows, ending);
    *list = PrintList::from_items(rows);
}
