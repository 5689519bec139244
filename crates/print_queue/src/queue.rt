//! The queue.
use crate::order::sort;
use crate::rows::{count_of, last_arrival, place_for, place_of, place_of_fitting};
use crate::{EntryList, Put, QueueEntry, QueueRefusal};
use byte_text::Name;
use std::alloc::{AllocError, Global};
use std::marker::Model;

/// The most entries that a user may have.
pub const MOST_ENTRIES: usize = 64;

/// The entries that wait to be printed: greatest priority first, then least arrival.
#[derive(Drop)]
pub struct Queue {
    entries: Vec<QueueEntry>,
}

impl Model for Queue {
    ghost use Rattle.std.specs.Prelude.{◌-◌, vec_len};
    ghost use Rattle.std.specs.Vec.{vec_capacity};
    ghost use Rattle.print_queue.specs.Lawful.{IsLawful};
    ghost use Rattle.print_queue.specs.Calls.{QueueData};

    ghost Value = { QueueData };

    ghost view = { λ q. record {
      rows = q.entries.items;
      spare = vec_capacity q.entries - vec_len q.entries;
    } };

    ghost invariant = { λ q. IsLawful q.entries.items };
}

impl Queue {
    ghost use Rattle.std.specs.Prelude.{◌≡◌, ◌≢◌, ◌≤◌, ◌+◌, [], true, false, Some, None, Err, nat_le, if◌then◌else◌, find, filter, option_map, ok_or, IfOk, IfErr, OnOk, OnErr};
    ghost use Rattle.std.specs.List.Sorted.{IsPermutation};
    ghost use Rattle.print_queue.specs.declared.refusal.QueueRefusal.TheVariants as refusal;
    ghost use Rattle.print_queue.specs.Rows.{fits, users_entry, is_of, without, without_copy, insert_row};
    ghost use Rattle.print_queue.specs.Lawful.{HasPlace, IsLawful, IsOrdered, IsSound, IsWholeRow, NextOf};
    ghost use Rattle.print_queue.specs.Calls.{CanRestore, QueueData, new_answer, put_answer, restored, rows_after_put, new_entry};

    /// An empty queue; takes no memory.
    pub fn new(alloc: Global) -> Self
        ensures { result.rows ≡ [] }
    {
        Queue {
            entries: Vec::new(alloc),
        }
    }

    /// The queue of exactly these entries, which keep their order if it is the order of printing; takes no memory.
    pub fn from_entries(entries: EntryList) -> Self
        requires { IsSound entries }
        ensures same { IsPermutation entries result.rows }
        ensures kept { IsOrdered entries → result.rows ≡ entries }
        ensures lawful { IsLawful result.rows }
    {
        let mut entries = entries.into_items();
        sort(&mut entries);
        Queue { entries }
    }

    /// The entries in their order.
    pub fn entries(&self) -> &[QueueEntry]
        ensures rows { result.now ≡ self.now.rows }
        ensures lawful { IsLawful self.now.rows }
    {
        &self.entries
    }

    /// Adds an entry with all its copies left, whose arrival is the greatest that is held plus 1. If this user has an equal
    /// entry of this name, it is returned as it is held, and nothing changes. Refused if an unequal entry has the name, if the
    /// user has 64, if the greatest number of arrival is in use, or if out of memory; then nothing changes either.
    #[tactic(auto, using(std::proofs::lemmas::List::Folds::find_at, std::proofs::lemmas::Option::slice_get_past, std::proofs::lemmas::Option::slice_get_read))]
    pub fn put(
        &mut self,
        user: &Name,
        name: &Name,
        file: &Name,
        priority: u8,
        copies: u8,
        material: &Name,
    ) -> Result<Put, QueueRefusal>
        requires priority { priority ≤ 100 }
        requires some { 1 ≤ copies }
        requires most { copies ≤ 100 }

        ensures answer { result ≢ Err refusal.NoMemory
            → result ≡ put_answer self.old.rows
            (new_entry user.now name.now file.now priority copies material.now) }
        ensures rows { self.new.rows ≡ rows_after_put self.old.rows result }
        ensures again { IfOk result (λ put. put.fresh ≡ false → self.new ≡ self.old) }
        ensures err { OnErr result (self.new ≡ self.old) }
    {
        let asked = QueueEntry::new_entry(user, name, file, priority, copies, material);
        let place = place_of(&self.entries, user, name);
        if place == self.entries.len() {
            return self.put_new(asked);
        }
        Put::again(&self.entries[place], &asked)
    }

    // Adds an entry of a free name.
    fn put_new(&mut self, asked: QueueEntry) -> Result<Put, QueueRefusal>
        requires free { users_entry asked.user asked.name self.old.rows ≡ None }
        requires whole { IsWholeRow asked }

        ensures answer { result ≢ Err refusal.NoMemory → result ≡ new_answer self.old.rows asked }
        ensures rows { self.new.rows ≡ rows_after_put self.old.rows result }
        ensures again { IfOk result (λ put. put.fresh ≡ false → self.new ≡ self.old) }
        ensures err { OnErr result (self.new ≡ self.old) }
    {
        if count_of(&self.entries, &asked.user) >= MOST_ENTRIES {
            return Err(QueueRefusal::Full { count: 64 });
        }
        let last = last_arrival(&self.entries);
        if last == u32::MAX {
            return Err(QueueRefusal::ArrivalsUsed);
        }
        let mut entry = asked;
        entry.arrival = last + 1;
        self.add(entry)
    }

    // Adds an entry for which there is a place.
    fn add(&mut self, entry: QueueEntry) -> Result<Put, QueueRefusal>
        requires { HasPlace entry self.old.rows }

        ensures ok { IfOk result (λ put. put ≡ record { entry = entry; fresh = true }) }
        ensures memory { IfErr result (λ refused. refused ≡ refusal.NoMemory) }
        ensures rows { self.new.rows ≡ rows_after_put self.old.rows result }
        ensures again { IfOk result (λ put. put.fresh ≡ false → self.new ≡ self.old) }
        ensures err { OnErr result (self.new ≡ self.old) }
    {
        let Ok(()) = self.entries.reserve(1) else {
            return Err(QueueRefusal::NoMemory);
        };
        let place = place_for(&self.entries, &entry);
        let _ = self.entries.insert(place, entry.copy());
        Ok(Put { entry, fresh: true })
    }

    /// Takes this user's entry of this name out, with all its copies. It can be put back without memory. Refused as `NoEntry` if
    /// there is none.
    #[tactic(auto, using(std::proofs::lemmas::List::Folds::find_at, std::proofs::lemmas::Option::slice_get_past, std::proofs::lemmas::Option::slice_get_read))]
    pub fn remove(&mut self, user: &Name, name: &Name) -> Result<QueueEntry, QueueRefusal>
        ensures answer { result
            ≡ ok_or (users_entry user.now name.now self.old.rows) refusal.NoEntry }
        ensures rows { OnOk result (self.new.rows ≡ without user.now name.now self.old.rows) }
        ensures spare { OnOk result (self.new.spare ≡ self.old.spare + 1) }
        ensures err { OnErr result (self.new ≡ self.old) }

        ensures can_restore { IfOk result (λ entry. CanRestore entry self.new) }
        ensures back { IfOk result (λ entry. restored entry self.new ≡ self.old) }
    {
        let place = place_of(&self.entries, user, name);
        if place == self.entries.len() {
            return Err(QueueRefusal::NoEntry);
        }
        Ok(self.entries.remove(place))
    }

    /// Starts one copy of this user's entry of this name, and returns the entry as it was before. After its last copy the
    /// entry is gone. It can be put back without memory. Refused as `NoEntry` if there is none.
    #[tactic(auto, using(std::proofs::lemmas::List::Folds::find_at, std::proofs::lemmas::Option::slice_get_past, std::proofs::lemmas::Option::slice_get_read))]
    pub fn take(&mut self, user: &Name, name: &Name) -> Result<QueueEntry, QueueRefusal>
        ensures answer { result
            ≡ ok_or (users_entry user.now name.now self.old.rows) refusal.NoEntry }
        ensures rows { OnOk result (self.new.rows ≡ without_copy user.now name.now self.old.rows) }
        ensures spare { IfOk result
            (λ entry. self.new.spare ≡ self.old.spare + (if nat_le entry.left 1 then 1 else 0)) }
        ensures err { OnErr result (self.new ≡ self.old) }

        ensures can_restore { IfOk result (λ entry. CanRestore entry self.new) }
        ensures back { IfOk result (λ entry. restored entry self.new ≡ self.old) }
    {
        let place = place_of(&self.entries, user, name);
        if place == self.entries.len() {
            return Err(QueueRefusal::NoEntry);
        }
        let entry = self.entries[place].copy();
        if entry.left <= 1 {
            return self.remove(user, name);
        }
        self.entries[place] = entry.after_copy();
        Ok(entry)
    }

    /// Puts an entry back that `remove` or `take` returned: it is held again as it is handed in. Takes no memory.
    pub fn restore(&mut self, entry: QueueEntry)
        requires { CanRestore entry self.old }
        ensures { self.new ≡ restored entry self.old }
    {
        let place = place_of(&self.entries, &entry.user, &entry.name);
        if place < self.entries.len() {
            self.entries[place] = entry;
            return;
        }
        let place = place_for(&self.entries, &entry);
        let _ = self.entries.insert(place, entry);
    }

    /// The entry that is printed next on a printer that holds this material: of the fitting entries of the greatest
    /// priority the one of the least arrival.
    #[tactic(auto, using(std::proofs::lemmas::List::Folds::find_at, std::proofs::lemmas::Option::slice_get_past, std::proofs::lemmas::Option::slice_get_read))]
    pub fn next(&self, material: &Name) -> Option<QueueEntry>
        ensures next { NextOf self.now.rows material.now result }
        ensures first { result ≡ find (fits material.now) self.now.rows }
    {
        let place = place_of_fitting(&self.entries, material);
        if place == self.entries.len() {
            return None;
        }
        Some(self.entries[place].copy())
    }

    /// The entries of a user, or of all users, in their order. Fails if out of memory.
    pub fn own(&self, user: Option<&Name>) -> Result<EntryList, AllocError>
        ensures rows { IfOk result
            (λ list. list ≡ filter (is_of (option_map (λ u. u.now) user.entry)) self.now.rows) }
        ensures ordered { IfOk result IsOrdered }
    {
        let mut list = EntryList::new(*self.entries.allocator());
        for entry in &self.entries {
            if user.is_none_or(|user| entry.is_of(user)) {
                list.push(entry.copy())?;
            }
        }
        Ok(list)
    }
}
