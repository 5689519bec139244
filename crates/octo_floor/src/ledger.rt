//! What the printers of a floor share.
ghost use Rattle.std.specs.Prelude.{◌≡◌, ◌<◌, ◌++◌, [], ◌∷◌, None, length, count_by, IfOk, OnOk, OnErr};
ghost use Rattle.octo_floor_bay.specs.Events.{started_rows, endings};
ghost use Rattle.octo_floor_bay.specs.Stock.{after_event};
ghost use Rattle.octo_floor_bay.specs.declared.event.FloorEvent.TheVariants.{Ended, Started, Passed};
ghost use Rattle.octo_floor_bay.specs.Written.{most_records};
ghost use Rattle.octo_floor.specs.Counted.{is_done, is_failed};
ghost use Rattle.octo_floor.specs.Ledger.{with_events, with_fault, noted_events};

use crate::tally::{NO_PRINTS, Tally};
use arrayvec::ArrayVec;
use job_desk::Note;
use octo_floor_bay::{EventLog, FloorEvent, FloorFault, FloorStock};
use print_queue::{Ending, PrintRow, Queue, QueueEntry};
use std::alloc::{AllocError, Global};
use std::marker::Model;

/// The events of a round: at most three of each printer.
pub type EventList = ArrayVec<FloorEvent, 24>;

/// What the printers of a floor share: the queue and the number of records, the events so far, which are kept for proofs alone, and
/// the first fault of a run.
#[derive(Drop)]
pub struct Ledger {
    pub(crate) alloc: Global,
    pub(crate) stock: FloorStock,
    pub(crate) history: EventLog<FloorEvent>,
    // Whether the keeper wrote each end of a print.
    pub(crate) ends_written: EventLog<bool>,
    pub(crate) fault: Option<FloorFault>,
    pub(crate) tally: Tally,
}

impl Model for Ledger {
    ghost use Rattle.octo_floor.specs.Ledger.{LedgerData};

    ghost Value = { LedgerData };

    ghost use Rattle.octo_floor.specs.LedgerFields.{ledger_of, IsKept};

    ghost view = { ledger_of };

    ghost invariant = { IsKept };
}

impl Ledger {
    /// A ledger of this queue and this number of records, before any event. Fails only if out of memory.
    pub fn new(alloc: Global, queue: Queue, records: u32) -> Result<Ledger, AllocError>
        ensures { IfOk result (λ ledger. ledger ≡ record {
          stock = record { queue = queue.rows; passed = []; records = records };
          history = [];
          ends_written = [];
          fault = None;
        }) }
    {
        Ok(Ledger {
            alloc,
            stock: FloorStock::new(alloc, queue, records),
            history: EventLog::new(alloc)?,
            ends_written: EventLog::new(alloc)?,
            fault: None,
            tally: NO_PRINTS,
        })
    }

    /// The queue and the number of records.
    pub fn stock(&self) -> &FloorStock
        ensures { result.now ≡ self.now.stock }
    {
        &self.stock
    }

    /// The first fault of the run.
    pub fn fault(&self) -> Option<FloorFault>
        ensures { result ≡ self.now.fault }
    {
        self.fault
    }

    /// A run begins, in which no fault came yet.
    pub fn begin_run(&mut self)
        ensures { self.new ≡ record self.old { fault = None } }
    {
        self.fault = None;
    }

    /// The number of prints that were started.
    pub fn prints(&self) -> u32
        ensures { result ≡ length (started_rows self.now.history) }
    {
        self.tally.prints
    }

    /// How many prints are done.
    pub fn done(&self) -> u32
        ensures { result ≡ count_by is_done (endings self.now.history) }
    {
        self.tally.done
    }

    /// How many prints have failed.
    pub fn failed(&self) -> u32
        ensures { result ≡ count_by is_failed (endings self.now.history) }
    {
        self.tally.failed
    }

    // A fault came; the first one stays.
    pub(crate) fn add_fault(&mut self, fault: FloorFault)
        ensures { self.new ≡ with_fault fault self.old }
    {
        if self.fault.is_none() {
            self.fault = Some(fault);
        }
    }

    // Tells what a turn did.
    pub(crate) fn add_note(&mut self, printer: u8, note: Option<Note>, events: &mut EventList)
        requires { length events.old.items < 24 }
        ensures ledger { self.new ≡ with_events (noted_events printer note) self.old }
        ensures events { events.new.items ≡ events.old.items ++ noted_events printer note }
    {
        let Some(note) = note else {
            return;
        };
        let event = FloorEvent::Noted { printer, note };
        self.history.add(&event);
        events.push(event);
    }

    // Tells how a print ended.
    pub(crate) fn add_ending(&mut self, printer: u8, ending: Ending, events: &mut EventList)
        requires room { length events.old.items < 24 }
        requires begun { length (endings self.old.history) < length
            (started_rows self.old.history) }
        ensures ledger { self.new ≡ with_events (Ended printer ending ∷ []) self.old }
        ensures events { events.new.items ≡ events.old.items ++ Ended printer ending ∷ [] }
    {
        self.tally = self.tally.after_ending(ending);
        let event = FloorEvent::Ended { printer, ending };
        self.history.add(&event);
        events.push(event);
    }

    // Tells that a print was started, whose record was begun.
    pub(crate) fn add_start(
        &mut self,
        printer: u8,
        row: PrintRow,
        entry: QueueEntry,
        events: &mut EventList,
    )
        requires room { length events.old.items < 24 }
        requires begun { length (started_rows self.old.history) < self.old.stock.records }
        requires few { length (started_rows self.old.history) < most_records }
        ensures ledger { self.new ≡ with_events (Started printer row entry ∷ []) self.old }
        ensures events { events.new.items ≡ events.old.items ++ Started printer row entry ∷ [] }
    {
        self.tally = self.tally.after_start();
        let event = FloorEvent::Started {
            printer,
            row,
            entry,
        };
        self.history.add(&event);
        events.push(event);
    }

    // Passes an entry over, and tells that. Without memory nothing changes.
    pub(crate) fn add_passed(
        &mut self,
        entry: QueueEntry,
        events: &mut EventList,
    ) -> Result<(), AllocError>
        requires { length events.old.items < 24 }
        ensures ok { OnOk result (self.new ≡ record (with_events (Passed entry ∷ []) self.old)
            { stock = after_event (Passed entry) self.old.stock }) }
        ensures events { OnOk result (events.new.items ≡ events.old.items ++ Passed entry ∷ []) }
        ensures err { OnErr result (self.new ≡ self.old) }
        ensures no_event { OnErr result (events.new.items ≡ events.old.items) }
    {
        self.stock.pass(&entry)?;
        let event = FloorEvent::Passed { entry };
        self.history.add(&event);
        events.push(event);
        Ok(())
    }
}
