//! A host's tables.
ghost use Rattle.std.specs.Prelude.{◌≡◌, length, true, false, find, MatchResult};
ghost use Rattle.octo_access.specs.Rights.{caller};
ghost use Rattle.print_queue.specs.Rows.{fits};
ghost use Rattle.octo_asks.specs.declared.answer.Answer.TheVariants as answer;
ghost use Rattle.octo_keeper.specs.Tables.{AreSound};
ghost use Rattle.octo_house_rules.specs.Known.{shown_count};
ghost use Rattle.octo_house_tables.specs.Data.{IsReadFrom, due_of, has_room_for};

mod lists;
mod prints;
mod queue;
mod users;

use crate::read_prints;
use byte_text::Name;
use octo_access::{Policy, UserRow, Users};
use octo_asks::Answer;
use octo_keeper::{KeeperFault, Tables};
use print_queue::{Ending, PrintRow, Queue, QueueEntry};
use std::alloc::Global;
use std::marker::Model;

// The most records of prints.
const MOST_PRINTS: usize = 100_000;

/// The end of a print that isn't written, and the keeper's fault at the last try.
#[derive(Clone, Copy, Debug, PartialEq, Eq)]
pub struct Unwritten {
    pub ending: Ending,
    pub fault: KeeperFault,
}

/// A host's users, queue and records of prints, of which at most the end of one print isn't written by the keeper.
#[derive(Drop)]
pub struct HostTables {
    alloc: Global,
    users: Users,
    queue: Queue,
    prints: Vec<PrintRow>,
    unwritten: Option<Unwritten>,
}

impl Model for HostTables {
    ghost use Rattle.octo_house_tables.specs.Data.{TablesData};

    ghost Value = { TablesData };

    ghost view = { λ t. record {
      users = t.users;
      queue = t.queue.rows;
      prints = t.prints.items;
      unwritten = t.unwritten;
    } };
}

impl HostTables {
    /// The tables of a new host: prints that were still going on have failed. Takes no memory.
    pub fn new(alloc: Global, tables: Tables) -> HostTables
        requires { AreSound tables }
        ensures { IsReadFrom tables result }
    {
        let Tables {
            users,
            queue,
            prints,
        } = tables;
        let mut prints = prints.into_items();
        read_prints(&mut prints);
        HostTables {
            alloc,
            users: Users::from_rows(users),
            queue: Queue::from_entries(queue),
            prints,
            unwritten: None,
        }
    }

    /// The end of a print that isn't written.
    pub fn unwritten(&self) -> Option<Unwritten>
        ensures { result ≡ self.now.unwritten }
    {
        self.unwritten
    }

    // The same without the fault.
    fn due(&self) -> Option<Ending>
        ensures { result ≡ due_of self.now }
    {
        match self.unwritten {
            Some(unwritten) => Some(unwritten.ending),
            None => None,
        }
    }

    /// Whom a key names.
    pub fn caller(&self, policy: &Policy, key: &[u8]) -> Option<UserRow>
        ensures { result ≡ caller policy.now self.now.users key.now }
    {
        self.users.by_key(policy, key)
    }

    /// How many records of prints there are.
    pub fn count(&self) -> usize
        ensures { result ≡ length self.now.prints }
    {
        self.prints.len()
    }

    /// Refuses one more record of a print as `Full` if there are 100,000.
    pub fn check_room(&self) -> Result<(), Answer>
        ensures { MatchResult result
            (λ _. has_room_for self.now.prints ≡ true)
            (λ full. (has_room_for self.now.prints ≡ false)
            × (full ≡ answer.Full (shown_count (length self.now.prints)))) }
    {
        let held = self.prints.len();
        if held >= MOST_PRINTS {
            return Err(Answer::Full {
                count: held.min(u32::MAX as usize) as u32,
            });
        }
        Ok(())
    }

    /// The next entry of the queue that fits a printer with this material.
    pub fn next_entry(&self, material: &Name) -> Option<QueueEntry>
        ensures { result ≡ find (fits material.now) self.now.queue }
    {
        self.queue.next(material)
    }
}
