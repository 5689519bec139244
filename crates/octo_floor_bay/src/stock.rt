//! The queue of a floor.
ghost use Rattle.std.specs.Prelude.{◌≡◌, ◌<◌, ◌≤◌, ℕ, [], option_map, Contains, IfOk, IfSome, OnOk, OnErr};
ghost use Rattle.gcode_lines.specs.Job.{most_bytes};
ghost use Rattle.print_queue.specs.Lawful.{IsLawful};
ghost use Rattle.octo_floor_bay.specs.Stock.{Start, after_event, copies_left};
ghost use Rattle.octo_floor_bay.specs.declared.event.FloorEvent.TheVariants.{Started, Passed};
ghost use Rattle.octo_floor_bay.specs.Faults.{AsksKeeper};
ghost use Rattle.octo_floor_bay.specs.Written.{most_records, row_of, written};

use crate::copies::copies_left;
use crate::end::FloorFault;
use crate::faults::of_keeper;
use crate::next::next_start;
use byte_text::Name;
use octo_house_tables::new_row;
use octo_keeper::{Change, Keeper};
use print_queue::{PrintRow, Queue, QueueEntry};
use std::alloc::{AllocError, Global};
use std::marker::Model;

/// The most records of prints with which a floor starts one more.
pub const MOST_RECORDS: u32 = 100_000;

/// What the printers of a floor share: the queue, the arrivals of the entries that were passed over, and the number of records
/// of prints.
#[derive(Drop)]
pub struct FloorStock {
    alloc: Global,
    waiting: Queue,
    skipped: Vec<u32>,
    count: u32,
}

impl Model for FloorStock {
    ghost use Rattle.octo_floor_bay.specs.Stock.{Stock};

    ghost Value = { Stock };

    ghost view = { λ s. record {
      queue = s.waiting.rows;
      passed = s.skipped.items;
      records = s.count;
    } };
}

impl FloorStock {
    /// A queue of which no entry was passed over, and this number of records. Takes no memory.
    pub fn new(alloc: Global, queue: Queue, records: u32) -> FloorStock
        ensures { result ≡ record { queue = queue.rows; passed = []; records = records } }
    {
        FloorStock {
            alloc,
            waiting: queue,
            skipped: Vec::new(alloc),
            count: records,
        }
    }

    /// The number of copies in the queue that were not started.
    pub fn left(&self) -> u64
        ensures { result ≡ copies_left self.now.queue }
    {
        copies_left(self.waiting.entries())
    }

    /// The number of records of prints.
    pub fn records(&self) -> u32
        ensures { result ≡ self.now.records }
    {
        self.count
    }

    /// The entry that a printer with this material starts next, if there is one.
    pub fn next(&self, material: &Name) -> Option<&QueueEntry>
        ensures next { Start self.now material.now (option_map (λ entry. entry.now) result) }
        ensures among { IfSome result (λ entry. Contains self.now.queue entry.now) }
        ensures lawful { IsLawful self.now.queue }
    {
        next_start(self.waiting.entries(), &self.skipped, material)
    }

    /// Passes an entry over. Without memory nothing changes.
    pub fn pass(&mut self, entry: &QueueEntry) -> Result<(), AllocError>
        ensures ok { OnOk result (self.new ≡ after_event (Passed entry.now) self.old) }
        ensures err { OnErr result (self.new ≡ self.old) }
    {
        self.skipped.push(entry.arrival)?;
        Ok(())
    }

    /// Begins a print of one copy of an entry, whose file has this number of commands: the keeper writes its record and the copy
    /// that is taken, and then it is so. Returns the record. After a fault all is as it was.
    pub fn begin<K: Keeper>(
        &mut self,
        keeper: &mut K,
        entry: &QueueEntry,
        commands: usize,
    ) -> Result<PrintRow, FloorFault>
        requires held { Contains self.old.queue entry.now }
        requires room { self.old.records < most_records }
        requires few { commands ≤ most_bytes }
        ensures row { IfOk result (λ row. row ≡ row_of self.old entry.now commands) }
        ensures ok { IfOk result (λ row. (printer : ℕ)
            → self.new ≡ after_event (Started printer row entry.now) self.old) }
        ensures err { OnErr result (self.new ≡ self.old) }
        ensures written { IfOk result (λ row. (printer : ℕ) → (K.state keeper.new).tables
            ≡ option_map (written (Started printer row entry.now)) (K.state keeper.old).tables) }
        ensures unwritten { OnErr result ((K.state keeper.new).tables
            ≡ (K.state keeper.old).tables) }
        ensures faults { AsksKeeper result (K.state keeper.old).faults (K.state keeper.new).faults }
    {
        let row = new_row(self.count + 1, &entry.user, &entry.file, commands as u32);
        let change = Change::Begin {
            ended: None,
            print: row.copy(),
            taken: Some(entry.copy()),
        };
        if let Err(fault) = keeper.commit(self.alloc, &change) {
            return Err(of_keeper(fault));
        }
        let _ = self.waiting.take(&entry.user, &entry.name);
        self.count += 1;
        Ok(row)
    }
}
