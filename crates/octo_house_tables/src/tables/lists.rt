//! Rows as answers show them.
ghost use Rattle.std.specs.Prelude.{◌≡◌, map, filter, reverse, take, IfOk};
ghost use Rattle.octo_asks.specs.Shown.{shown_user, shown_entry, shown_print};
ghost use Rattle.print_queue.specs.Rows.{is_of};
ghost use Rattle.octo_house_rules.specs.Reads.{is_print_of};

use super::HostTables;
use crate::{shown_entries, shown_prints, shown_users};
use byte_text::Name;
use octo_asks::{ShownEntryList, ShownPrintList, ShownUserList};
use std::alloc::AllocError;

impl HostTables {
    /// All users. Fails if out of memory.
    pub fn shown_users(&self) -> Result<ShownUserList, AllocError>
        ensures { IfOk result (λ list. list ≡ map shown_user self.now.users) }
    {
        shown_users(self.alloc, self.users.rows())
    }

    /// The entries of a user, or of all users, in the order of the queue. Fails if out of memory.
    pub fn shown_entries(&self, user: &Option<Name>) -> Result<ShownEntryList, AllocError>
        ensures { IfOk result (λ list.
            list ≡ map shown_entry (filter (is_of user.now) self.now.queue)) }
    {
        shown_entries(self.alloc, self.queue.entries(), user)
    }

    /// The prints of a user, or of all users, newest first, at most 100. Fails if out of memory.
    pub fn shown_prints(&self, user: &Option<Name>) -> Result<ShownPrintList, AllocError>
        ensures { IfOk result (λ list. list
            ≡ map shown_print
            (take 100 (reverse (filter (is_print_of user.now) self.now.prints)))) }
    {
        shown_prints(self.alloc, &self.prints, user)
    }
}
