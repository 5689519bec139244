//! The tables that are kept, and what changes them.
use crate::copies::{copy_entries, copy_prints, copy_users};
use crate::lists::{add_entry, add_print, add_user, remove_entry, set_end, set_user, start_copy};
use byte_text::Name;
use octo_access::{UserList, UserRow};
use octo_outside::ItemList;
use print_queue::{Ending, EntryList, PrintList, PrintRow, QueueEntry};
use std::alloc::{AllocError, Global};

/// What a keeper keeps.
#[derive(Drop)]
pub struct Tables {
    /// The users, by name.
    pub users: UserList,
    /// The queue: greatest priority first, then least arrival.
    pub queue: EntryList,
    /// The print records, by number.
    pub prints: PrintList,
}

/// A change of the tables, which a keeper makes whole or not at all.
#[derive(Drop)]
pub enum Change {
    /// A user is added, in the place of its name.
    PutUser(UserRow),
    /// The user of that name is changed.
    SetUser(UserRow),
    /// An entry is added to the queue, in its place in the order.
    PutEntry(QueueEntry),
    /// A user's entry of that name is taken out of the queue.
    DropEntry {
        user: Name,
        name: Name,
    },
    /// A print begins. Another one may have ended before, and a copy of an entry of the queue may be started by it: the
    /// entry is handed in as it was before.
    Begin {
        ended: Option<Ending>,
        print: PrintRow,
        taken: Option<QueueEntry>,
    },
    /// A print has ended.
    End(Ending),
}

impl Tables {
    ghost use Rattle.std.specs.Prelude.{◌≡◌, ◌++◌, ◌∷◌, [], IfOk, OnOk, OnErr};
    ghost use Rattle.octo_access.specs.Rows.{with_row};
    ghost use Rattle.print_queue.specs.Rows.{insert_row, without, without_copy};
    ghost use Rattle.octo_keeper.specs.Tables.{changed, with_user, with_taken, with_due_end, with_end};

    /// Tables without rows; takes no memory.
    pub fn empty(alloc: Global) -> Tables
        ensures { result ≡ record { users = []; queue = []; prints = [] } }
    {
        Tables {
            users: ItemList::new(alloc),
            queue: ItemList::new(alloc),
            prints: ItemList::new(alloc),
        }
    }

    /// The same tables again. Fails if out of memory.
    pub fn copy(&self, alloc: Global) -> Result<Tables, AllocError>
        ensures { IfOk result (λ copy. copy ≡ self.now) }
    {
        Ok(Tables {
            users: copy_users(alloc, self.users.as_slice())?,
            queue: copy_entries(alloc, self.queue.as_slice())?,
            prints: copy_prints(alloc, self.prints.as_slice())?,
        })
    }

    // Makes all of a change; without memory nothing of it.
    pub(crate) fn change(&mut self, alloc: Global, change: &Change) -> Result<(), AllocError>
        ensures ok { OnOk result (self.new ≡ changed change.now self.old) }
        ensures err { OnErr result (self.new ≡ self.old) }
    {
        match change {
            Change::PutUser(row) => add_user(alloc, &mut self.users, row),
            Change::SetUser(row) => {
                set_user(alloc, &mut self.users, row);
                Ok(())
            }
            Change::PutEntry(entry) => add_entry(alloc, &mut self.queue, entry),
            Change::DropEntry { user, name } => {
                remove_entry(alloc, &mut self.queue, user, name);
                Ok(())
            }
            Change::Begin {
                ended,
                print,
                taken,
            } => {
                add_print(alloc, &mut self.prints, *ended, print)?;
                start_copy(alloc, &mut self.queue, taken);
                Ok(())
            }
            Change::End(ending) => {
                set_end(alloc, &mut self.prints, *ending);
                Ok(())
            }
        }
    }
}
