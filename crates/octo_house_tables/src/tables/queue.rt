//! Entries of the queue are added and taken out.
ghost use Rattle.std.specs.Prelude.{◌≡◌, ◌≤◌, ◌⊎◌, true, false, option_map};
ghost use Rattle.octo_asks.specs.Shown.{shown_entry};
ghost use Rattle.octo_asks.specs.declared.answer.Answer.TheVariants as answer;
ghost use Rattle.octo_keeper.specs.Tables.{changed};
ghost use Rattle.octo_keeper.specs.declared.tables.Change.TheVariants as change;
ghost use Rattle.print_queue.specs.Calls.{new_entry};
ghost use Rattle.print_queue.specs.Lawful.{IsWholeRow};
ghost use Rattle.print_queue.specs.Rows.{without};
ghost use Rattle.octo_house_rules.specs.Known.{Known};
ghost use Rattle.octo_house_rules.specs.Rows.{put_by, drop_verdict};
ghost use Rattle.print_queue.specs.Calls.{put_answer};
ghost use Rattle.octo_house_rules.specs.Verdict.{IsDone, is_fault};
ghost use Rattle.octo_outside.specs.Recorded.{Counts};
ghost use Rattle.octo_house_rules.specs.Faults.{is_keepers, is_shelfs};
ghost use Rattle.octo_house_tables.specs.Data.{over};
ghost use Rattle.octo_house_tables.specs.Done.{TablesDone};

use super::HostTables;
use crate::{answer_of_keeper_fault, answer_of_queue_refusal, has_entry};
use byte_text::Name;
use octo_asks::{Answer, ShownEntry};
use octo_keeper::{Change, Keeper};
use print_queue::QueueEntry;

impl HostTables {
    /// Adds an entry, which has no arrival yet, to the queue.
    pub fn put_entry<K: Keeper>(&mut self, keeper: &mut K, asked: &QueueEntry) -> Answer
        requires priority { asked.now.priority ≤ 100 }
        requires whole { IsWholeRow asked.now }
        requires new { asked.now ≡ new_entry asked.now.user asked.now.name asked.now.file
            asked.now.priority asked.now.copies asked.now.material }
        ensures done { (k : Known) → IsDone (put_by (put_answer self.old.queue asked.now)
            (over k self.old)) result (over k self.old) (over k self.new) }
        ensures rest { TablesDone (K.state keeper.old) (K.state keeper.new)
            result self.old self.new }
    {
        let put = match self.queue.put(
            &asked.user,
            &asked.name,
            &asked.file,
            asked.priority,
            asked.copies,
            &asked.material,
        ) {
            Ok(put) => put,
            Err(refusal) => return answer_of_queue_refusal(&refusal),
        };
        if put.fresh {
            return self.write_entry(keeper, put.entry);
        }
        Answer::OneEntry {
            entry: ShownEntry::of(&put.entry),
        }
    }

    // Has the keeper write an entry that was added; if it can't, the entry is taken out again.
    fn write_entry<K: Keeper>(&mut self, keeper: &mut K, entry: QueueEntry) -> Answer
        ensures answer { (result ≡ answer.NoMemory)
            ⊎ ((result ≡ answer.OneEntry (shown_entry entry)) ⊎ (result ≡ answer.KeeperFault)) }
        ensures ok { is_fault result ≡ false → (self.new ≡ self.old) × ((K.state keeper.new).tables
            ≡ option_map (changed (change.PutEntry entry)) (K.state keeper.old).tables) }
        ensures err { is_fault result ≡ true
            → ((K.state keeper.new).tables ≡ (K.state keeper.old).tables)
            × (self.new ≡ record self.old {
              queue = without entry.user entry.name self.old.queue;
            }) }
        ensures keeper { Counts (is_keepers result ≡ true)
            (K.state keeper.old).faults (K.state keeper.new).faults }
        ensures shelf { is_shelfs result ≡ false }
    {
        match keeper.commit(self.alloc, &Change::PutEntry(entry.copy())) {
            Ok(()) => Answer::OneEntry {
                entry: ShownEntry::of(&entry),
            },
            Err(fault) => {
                let _ = self.queue.remove(&entry.user, &entry.name);
                answer_of_keeper_fault(fault)
            }
        }
    }

    /// Takes a user's entry of a name out of the queue.
    pub fn drop_entry<K: Keeper>(&mut self, keeper: &mut K, user: &Name, name: &Name) -> Answer
        ensures done { (k : Known)
            → IsDone (drop_verdict user.now name.now (over k self.old)) result
            (over k self.old) (over k self.new) }
        ensures rest { TablesDone (K.state keeper.old) (K.state keeper.new)
            result self.old self.new }
    {
        if !has_entry(self.queue.entries(), user, name) {
            return Answer::NoEntry;
        }
        let change = Change::DropEntry {
            user: user.copy(),
            name: name.copy(),
        };
        if let Err(fault) = keeper.commit(self.alloc, &change) {
            return answer_of_keeper_fault(fault);
        }
        let _ = self.queue.remove(user, name);
        Answer::Accepted
    }
}
