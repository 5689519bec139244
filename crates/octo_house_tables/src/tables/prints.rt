//! Prints begin and end.
ghost use Rattle.std.specs.Prelude.{◌≡◌, ◌≢◌, ◌⊎◌, ◌≤◌, ◌+◌, length, true, Option, None, Some, OnOk, OnErr};
ghost use Rattle.std.specs.Option.{option_or};
ghost use Rattle.octo_keeper.specs.Tables.{with_due_end, with_taken};
ghost use Rattle.octo_keeper.specs.declared.tables.Tables.{Tables};
ghost use Rattle.gcode_lines.specs.Job.{most_bytes};
ghost use Rattle.print_queue.specs.declared.ending.Outcome.TheVariants as outcome;
ghost use Rattle.octo_outside.specs.Recorded.{Counts};
ghost use Rattle.octo_house_tables.specs.Counts.{is_failed};
ghost use Rattle.octo_house_tables.specs.Data.{due_of, has_room_for, is_unwritten_by_fault, with_begun, with_ended};
ghost use Rattle.octo_house_tables.specs.Kept.{KeepsRows};

use super::{HostTables, Unwritten};
use crate::{add_print, new_row, reserve_print};
use byte_text::Name;
use octo_keeper::{Change, Keeper, KeeperFault, end_print};
use print_queue::{Ending, PrintRow, QueueEntry};

// An entry that is taken, again.
fn copy_taken(taken: &Option<QueueEntry>) -> Option<QueueEntry>
    ensures { result ≡ taken.now }
{
    match taken {
        Some(entry) => Some(entry.copy()),
        None => None,
    }
}

// Ends a print, if one ends.
fn end_due(rows: &mut [PrintRow], ended: Option<Ending>)
    ensures { rows.new ≡ with_due_end ended rows.old }
{
    if let Some(ending) = ended {
        end_print(rows, ending);
    }
}

impl HostTables {
    /// The record of a print that begins; the tables have room for it.
    pub fn next_row(&self, user: &Name, file: &Name, commands: usize) -> PrintRow
        requires room { has_room_for self.now.prints ≡ true }
        requires few { commands ≤ most_bytes }
        ensures { result ≡ record {
          number = length self.now.prints + 1;
          user = user.now;
          file = file.now;
          commands = commands;
          outcome = outcome.Active;
        } }
    {
        new_row(self.prints.len() as u32 + 1, user, file, commands as u32)
    }

    // The end that a print brings with it: of the print in whose place it begins, or the one that isn't written.
    fn end_with(&self, ended: Option<Ending>) -> Option<Ending>
        ensures { result ≡ option_or ended (due_of self.now) }
    {
        match ended {
            Some(ending) => Some(ending),
            None => self.due(),
        }
    }

    /// Has the keeper write the record of a print that begins, with the end of the one in whose place it begins or the end
    /// that isn't written, and with the entry of the queue of which it is a copy. Then it is so. After a fault all is as
    /// it was.
    pub fn begin_print<K: Keeper>(
        &mut self,
        keeper: &mut K,
        ended: Option<Ending>,
        row: PrintRow,
        taken: Option<QueueEntry>,
    ) -> Result<(), KeeperFault>
        requires { ended ≢ None → self.old.unwritten ≡ None }
        ensures ok { OnOk result (self.new ≡ with_begun ended row taken self.old) }
        ensures err { OnErr result (self.new ≡ self.old) }
        ensures kept { KeepsRows (K.state keeper.old).tables (K.state keeper.new).tables self.old
            self.new }
        ensures keeper { Counts (is_failed result ≡ true)
            (K.state keeper.old).faults (K.state keeper.new).faults }
    {
        let Ok(()) = reserve_print(&mut self.prints) else {
            return Err(KeeperFault::NoMemory);
        };
        let change = Change::Begin {
            ended: self.end_with(ended),
            print: row.copy(),
            taken: copy_taken(&taken),
        };
        keeper.commit(self.alloc, &change)?;
        end_due(&mut self.prints, ended);
        add_print(&mut self.prints, row);
        self.take(&taken);
        self.unwritten = None;
        Ok(())
    }

    // Starts a copy of an entry, if one is taken.
    fn take(&mut self, taken: &Option<QueueEntry>)
        ensures { self.new ≡ record self.old { queue = with_taken taken.now self.old.queue } }
    {
        if let Some(entry) = taken {
            let _ = self.queue.take(&entry.user, &entry.name);
        }
    }

    // A print has ended; the keeper hasn't written it yet.
    fn end_print(&mut self, ending: Ending)
        requires { self.old.unwritten ≡ None }
        ensures due { due_of self.new ≡ Some ending }
        ensures rest { self.new ≡ record self.old {
          prints = with_ended ending self.old;
          unwritten = self.new.unwritten;
        } }
        ensures kept { (kept : Option Tables) → KeepsRows kept kept self.old self.new }
    {
        end_print(&mut self.prints, ending);
        self.unwritten = Some(Unwritten {
            ending,
            fault: KeeperFault::NoMemory,
        });
    }

    /// Ends a print, if one has ended. Then the keeper writes the end that isn't written, if one is left. If it can't, the
    /// end stays unwritten with that fault.
    pub fn note_end<K: Keeper>(&mut self, keeper: &mut K, ended: Option<Ending>)
        requires { ended ≢ None → self.old.unwritten ≡ None }
        ensures rest { self.new ≡ record self.old {
          prints = with_due_end ended self.old.prints;
          unwritten = self.new.unwritten;
        } }
        ensures due { (due_of self.new ≡ None)
            ⊎ (due_of self.new ≡ option_or ended (due_of self.old)) }
        ensures kept { KeepsRows (K.state keeper.old).tables (K.state keeper.new).tables self.old
            self.new }
        ensures keeper { Counts (is_unwritten_by_fault self.new.unwritten ≡ true)
            (K.state keeper.old).faults (K.state keeper.new).faults }
    {
        let Some(ending) = ended else {
            self.write_end(keeper);
            return;
        };
        self.end_print(ending);
        self.write_end(keeper);
    }

    // Has the keeper write the end that isn't written, if there is one.
    fn write_end<K: Keeper>(&mut self, keeper: &mut K)
        ensures rest { self.new ≡ record self.old { unwritten = self.new.unwritten } }
        ensures due { (due_of self.new ≡ None) ⊎ (due_of self.new ≡ due_of self.old) }
        ensures kept { KeepsRows (K.state keeper.old).tables (K.state keeper.new).tables self.old
            self.new }
        ensures keeper { Counts (is_unwritten_by_fault self.new.unwritten ≡ true)
            (K.state keeper.old).faults (K.state keeper.new).faults }
    {
        let Some(ending) = self.due() else {
            return;
        };
        match keeper.commit(self.alloc, &Change::End(ending)) {
            Ok(()) => self.unwritten = None,
            Err(fault) => self.unwritten = Some(Unwritten { ending, fault }),
        }
    }
}
