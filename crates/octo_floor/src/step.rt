//! One printer's part of a round.
ghost use Rattle.std.specs.Prelude.{◌≡◌, ◌<◌, ◌≤◌, ◌+◌, ◌++◌, ℕ, length, IfSome};
ghost use Rattle.octo_floor_bay.specs.Events.{FloorHistory, started_rows, endings};
ghost use Rattle.octo_floor.specs.Counted.{one_if};
ghost use Rattle.octo_floor.specs.Ledger.{ended_events};
ghost use Rattle.octo_floor.specs.Objects.{FaultsCame, store_state};
ghost use Rattle.octo_floor.specs.Step.{Writes, IsEndTold, IsStep};

use crate::ledger::{EventList, Ledger};
use byte_text::Name;
use octo_floor_bay::{Bay, write_end};
use octo_keeper::{Keeper, Shelf};
use octo_session::Turned;
use print_queue::Ending;
use printer_link::Link;

impl Ledger {
    // Has the keeper write how a print ended; a fault is kept.
    fn write<K: Keeper>(&mut self, keeper: &mut K, ending: Ending)
        ensures writes { Writes ending (K.state keeper.old).tables (K.state keeper.new).tables
            self.old self.new }
        ensures faults { (shelf : ℕ) → FaultsCame self.old.fault self.new.fault
            (K.state keeper.old).faults (K.state keeper.new).faults shelf shelf }
    {
        match write_end(self.alloc, keeper, ending) {
            Ok(()) => self.ends_written.add(&true),
            Err(fault) => {
                self.ends_written.add(&false);
                self.add_fault(fault);
            }
        }
    }

    // Tells how a print ended, and has the keeper write it.
    fn end_print<K: Keeper>(
        &mut self,
        printer: u8,
        ending: Option<Ending>,
        keeper: &mut K,
        events: &mut EventList,
    )
        requires room { length events.old.items < 24 }
        requires begun { IfSome ending (λ _.
            length (endings self.old.history) < length (started_rows self.old.history)) }
        ensures told { IsEndTold printer ending (K.state keeper.old).tables
            (K.state keeper.new).tables
            self.old self.new }
        ensures events { events.new.items ≡ events.old.items ++ ended_events printer ending }
        ensures faults { (shelf : ℕ) → FaultsCame self.old.fault self.new.fault
            (K.state keeper.old).faults (K.state keeper.new).faults shelf shelf }
    {
        let Some(ending) = ending else {
            return;
        };
        self.add_ending(printer, ending, events);
        self.write(keeper, ending);
    }

    /// One printer's part of a round, at a moment that isn't before the last one: a turn of its link, the end of its print as the
    /// keeper writes it, and, if the printer is free and no fault came in this run, the start of what is next for its material.
    /// Adds its events to those of the round. Returns whether a line was received.
    pub fn step<L: Link, K: Keeper, S: Shelf>(
        &mut self,
        printer: u8,
        material: &Name,
        bay: &mut Bay,
        link: &mut L,
        keeper: &mut K,
        shelf: &mut S,
        moment: u64,
        events: &mut EventList,
    ) -> bool
        requires up { (L.state link.old).up ≡ bay.old.session.up }
        requires number { bay.old.session.desk.greatest ≤ self.old.stock.records }
        requires begun { length (endings self.old.history)
            + one_if bay.old.session.desk.active ≤ length (started_rows self.old.history) }
        requires room { length events.old.items ≤ 21 }
        ensures step { (added : FloorHistory) × (events.new.items ≡ events.old.items ++ added)
            × IsStep printer moment material.now
            (L.state link.old)
            (L.state link.new)
            (store_state (K.state keeper.old) (S.state shelf.old))
            (store_state (K.state keeper.new) (S.state shelf.new))
            self.old self.new bay.old bay.new result added }
        ensures few { length events.new.items ≤ length events.old.items + 3 }
    {
        let Turned {
            note,
            ending,
            heard,
        } = bay.turn(link, moment);
        self.add_note(printer, note, events);
        self.end_print(printer, ending, keeper, events);
        self.start_next(printer, material, bay, keeper, shelf, events);
        heard
    }
}
