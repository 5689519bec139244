//! One printer's part of a round of a floor.
ghost use Rattle.std.specs.Prelude.{◌≡◌, ◌<◌, ◌≤◌, ◌+◌, ◌++◌, length, Some, slice_get};
ghost use Rattle.octo_floor_bay.specs.Bay.{BayData};
ghost use Rattle.octo_floor_bay.specs.Events.{FloorHistory};
ghost use Rattle.octo_floor.specs.Objects.{store_state};
ghost use Rattle.octo_floor.specs.Floor.{setting, AreUp};
ghost use Rattle.octo_floor.specs.Links.{link_states};
ghost use Rattle.octo_floor.specs.Round.{IsDialled, IsStepOver, IsStepAt};

use crate::floor::Floor;
use crate::ledger::EventList;
use crate::links::{Links, MOST_LINKS};
use byte_text::Name;
use octo_floor_bay::Bay;
use octo_keeper::{Keeper, Shelf};
use printer_link::Link;

// In the first round a printer begins to connect.
fn dial(bay: &mut Bay, began: bool, port: &Name)
    ensures { IsDialled began port.now bay.old bay.new }
{
    if began {
        return;
    }
    let _ = bay.connect(port);
}

impl Floor {
    // One printer's part, over its link.
    fn step_over<L: Link, K: Keeper, S: Shelf>(
        &mut self,
        printer: usize,
        link: &mut L,
        keeper: &mut K,
        shelf: &mut S,
        moment: u64,
        events: &mut EventList,
    ) -> bool
        requires within { printer < length self.old.bays }
        requires up { (b : BayData) → slice_get self.old.bays printer ≡ Some b
            → (L.state link.old).up ≡ b.session.up }
        requires room { length events.old.items ≤ 21 }
        ensures step { (added : FloorHistory) × (events.new.items ≡ events.old.items ++ added)
            × IsStepOver printer moment
            (L.state link.old)
            (L.state link.new)
            (store_state (K.state keeper.old) (S.state shelf.old))
            (store_state (K.state keeper.new) (S.state shelf.new))
            self.old self.new result added }
        ensures few { length events.new.items ≤ length events.old.items + 3 }
    {
        let bay = &mut self.bays[printer];
        dial(bay, self.began, &self.ports[printer]);
        self.ledger.step(
            printer as u8,
            &self.materials[printer],
            bay,
            link,
            keeper,
            shelf,
            moment,
            events,
        )
    }

    // One printer's part, over its own one of the links.
    pub(crate) fn step_at<L: Link + Drop, K: Keeper, S: Shelf>(
        &mut self,
        printer: usize,
        links: &mut Links<L>,
        keeper: &mut K,
        shelf: &mut S,
        moment: u64,
        events: &mut EventList,
    ) -> bool
        requires within { printer < length self.old.bays }
        requires up { AreUp self.old.bays (link_states L.state links.old) }
        requires room { length events.old.items ≤ 21 }
        ensures step { (added : FloorHistory) × (events.new.items ≡ events.old.items ++ added)
            × IsStepAt printer moment
            (setting self.old (link_states L.state links.old)
            (store_state (K.state keeper.old) (S.state shelf.old)))
            (setting self.new (link_states L.state links.new)
            (store_state (K.state keeper.new) (S.state shelf.new)))
            result added }
        ensures few { length events.new.items ≤ length events.old.items + 3 }
    {
        prove!(self.bays.len() <= MOST_LINKS);
        match printer {
            0 => self.step_over(printer, &mut links.a, keeper, shelf, moment, events),
            1 => self.step_over(printer, &mut links.b, keeper, shelf, moment, events),
            2 => self.step_over(printer, &mut links.c, keeper, shelf, moment, events),
            3 => self.step_over(printer, &mut links.d, keeper, shelf, moment, events),
            4 => self.step_over(printer, &mut links.e, keeper, shelf, moment, events),
            5 => self.step_over(printer, &mut links.f, keeper, shelf, moment, events),
            6 => self.step_over(printer, &mut links.g, keeper, shelf, moment, events),
            _ => self.step_over(printer, &mut links.h, keeper, shelf, moment, events),
        }
    }
}
