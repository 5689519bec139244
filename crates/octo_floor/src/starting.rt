//! What a printer that is free starts.
ghost use Rattle.std.specs.Prelude.{◌≡◌, ◌⊎◌, ◌<◌, ◌≤◌, ◌++◌, ℕ, true, false, None, length, Contains, IfSome, Option};
ghost use Rattle.temp_rules.specs.Hot.{first_hot_of};
ghost use Rattle.job_desk.specs.declared.state.State.TheVariants as state;
ghost use Rattle.octo_floor_bay.specs.Bay.{BayData};
ghost use Rattle.octo_floor_bay.specs.Events.{FloorHistory};
ghost use Rattle.octo_floor_bay.specs.Stock.{Start};
ghost use Rattle.print_queue.specs.Lawful.{IsLawful};
ghost use Rattle.octo_keeper.specs.declared.tables.Tables.{Tables};
ghost use Rattle.octo_floor.specs.Objects.{FaultsCame};
ghost use Rattle.octo_floor.specs.Step.{IsFree, IsFaulty, IsPassed, IsStarted, Takes, Begins};

use crate::ledger::{EventList, Ledger};
use byte_text::Name;
use gcode_lines::Job;
use job_desk::State;
use octo_floor_bay::{Bay, FloorFault, MOST_RECORDS, read_entry};
use octo_keeper::{Keeper, Shelf};
use print_queue::QueueEntry;

// Whether a desk is operational: what `==` says of its state, as clauses.
fn is_operational(now: State) -> bool
    ensures yes { result ≡ true → now ≡ state.Operational }
    ensures no { result ≡ false → now ≡ state.Operational → ⊥ }
{
    now == State::Operational
}

impl Ledger {
    // Whether a printer is free.
    fn is_free(&self, bay: &Bay) -> bool
        ensures yes { result ≡ true → IsFree self.now bay.now }
        ensures no { result ≡ false → IsFree self.now bay.now → ⊥ }
    {
        if self.fault.is_some() || self.stock.records() >= MOST_RECORDS {
            return false;
        }
        if bay.session().desk().print().is_some() {
            return false;
        }
        is_operational(bay.session().desk().state())
    }

    // The entry that is next for a material.
    fn next_entry(&self, material: &Name) -> Option<QueueEntry>
        ensures next { Start self.now.stock material.now result }
        ensures held { IfSome result (λ entry. Contains self.now.stock.queue entry) }
        ensures lawful { IsLawful self.now.stock.queue }
    {
        match self.stock.next(material) {
            Some(entry) => Some(entry.copy()),
            None => None,
        }
    }

    /// Whether a printer has nothing to start: it isn't free, or no entry fits its material.
    pub fn has_none(&self, material: &Name, bay: &Bay) -> bool
        ensures yes { result ≡ true → IsFree self.now bay.now
            → Start self.now.stock material.now None }
        ensures no_free { result ≡ false → IsFree self.now bay.now }
        ensures no { result ≡ false → Start self.now.stock material.now None → ⊥ }
    {
        if !self.is_free(bay) {
            return true;
        }
        self.stock.next(material).is_none()
    }

    // Passes an entry over. Out of memory is a fault.
    fn pass(&mut self, entry: QueueEntry, events: &mut EventList)
        requires { length events.old.items < 24 }
        ensures does { (begun : FloorHistory) × (events.new.items ≡ events.old.items ++ begun)
            × ((tables : Option Tables) (bay : BayData)
            → IsPassed entry tables tables self.old self.new bay bay begun
            ⊎ IsFaulty tables tables self.old self.new bay bay begun) }
        ensures faults { (keeper shelf : ℕ)
            → FaultsCame self.old.fault self.new.fault keeper keeper shelf shelf }
    {
        match self.add_passed(entry, events) {
            Ok(()) => {}
            Err(_) => self.add_fault(FloorFault::NoMemory),
        }
    }

    // Starts one copy of an entry with these commands, once the keeper has written that.
    fn start<K: Keeper>(
        &mut self,
        printer: u8,
        bay: &mut Bay,
        keeper: &mut K,
        job: Job,
        entry: QueueEntry,
        events: &mut EventList,
    )
        requires free { IsFree self.old bay.old }
        requires held { Contains self.old.stock.queue entry }
        requires number { bay.old.session.desk.greatest ≤ self.old.stock.records }
        requires cool { first_hot_of bay.old.session.desk.limits job.commands ≡ None }
        requires room { length events.old.items < 24 }
        ensures does { (begun : FloorHistory) × (events.new.items ≡ events.old.items ++ begun)
            × (IsStarted printer entry job (K.state keeper.old).tables (K.state keeper.new).tables
            self.old self.new bay.old bay.new begun
            ⊎ IsFaulty (K.state keeper.old).tables (K.state keeper.new).tables
            self.old self.new bay.old bay.new begun) }
        ensures faults { (shelf : ℕ) → FaultsCame self.old.fault self.new.fault
            (K.state keeper.old).faults (K.state keeper.new).faults shelf shelf }
    {
        match self.stock.begin(keeper, &entry, job.count()) {
            Ok(row) => {
                bay.start(&entry.file, job, row.number);
                self.add_start(printer, row, entry, events);
            }
            Err(fault) => self.add_fault(fault),
        }
    }

    // Starts one copy of an entry, or passes it over if its file can't be printed.
    fn take<K: Keeper, S: Shelf>(
        &mut self,
        printer: u8,
        bay: &mut Bay,
        keeper: &mut K,
        shelf: &mut S,
        entry: QueueEntry,
        events: &mut EventList,
    )
        requires free { IsFree self.old bay.old }
        requires held { Contains self.old.stock.queue entry }
        requires number { bay.old.session.desk.greatest ≤ self.old.stock.records }
        requires room { length events.old.items < 24 }
        ensures takes { (begun : FloorHistory) × (events.new.items ≡ events.old.items ++ begun)
            × Takes printer entry (S.state shelf.old).files (K.state keeper.old).tables
            (K.state keeper.new).tables
            self.old self.new bay.old bay.new begun }
        ensures files { (S.state shelf.new).files ≡ (S.state shelf.old).files }
        ensures faults { FaultsCame self.old.fault self.new.fault
            (K.state keeper.old).faults (K.state keeper.new).faults (S.state shelf.old).faults
            (S.state shelf.new).faults }
    {
        let limits = *bay.session().desk().limits();
        match read_entry(self.alloc, shelf, &entry.file, &limits) {
            Ok(Some(job)) => self.start(printer, bay, keeper, job, entry, events),
            Ok(None) => self.pass(entry, events),
            Err(fault) => self.add_fault(fault),
        }
    }

    // Starts what is next on a printer that is free.
    pub(crate) fn start_next<K: Keeper, S: Shelf>(
        &mut self,
        printer: u8,
        material: &Name,
        bay: &mut Bay,
        keeper: &mut K,
        shelf: &mut S,
        events: &mut EventList,
    )
        requires number { bay.old.session.desk.greatest ≤ self.old.stock.records }
        requires room { length events.old.items < 24 }
        ensures begins { (begun : FloorHistory) × (events.new.items ≡ events.old.items ++ begun)
            × Begins printer material.now (S.state shelf.old).files
            (K.state keeper.old).tables (K.state keeper.new).tables
            self.old self.new bay.old bay.new begun }
        ensures files { (S.state shelf.new).files ≡ (S.state shelf.old).files }
        ensures faults { FaultsCame self.old.fault self.new.fault
            (K.state keeper.old).faults (K.state keeper.new).faults (S.state shelf.old).faults
            (S.state shelf.new).faults }
    {
        if !self.is_free(bay) {
            return;
        }
        match self.next_entry(material) {
            Some(entry) => self.take(printer, bay, keeper, shelf, entry, events),
            None => {}
        }
    }
}
