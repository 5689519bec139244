//! A round of a floor.
ghost use Rattle.std.specs.Prelude.{◌≡◌, ◌≢◌, [], None, Some, AllPairs};
ghost use Rattle.octo_floor_bay.specs.Events.{started_rows};
ghost use Rattle.octo_floor_bay.specs.declared.end.FloorFault.{FloorFault};
ghost use Rattle.octo_floor.specs.Objects.{store_state};
ghost use Rattle.octo_floor.specs.Floor.{setting, AreUp};
ghost use Rattle.octo_floor.specs.Links.{link_states};
ghost use Rattle.octo_floor.specs.Points.{GoesOn, LeavesIdle};
ghost use Rattle.octo_floor.specs.Round.{IsRound};

use crate::floor::Floor;
use crate::ledger::EventList;
use crate::links::Links;
use octo_floor_bay::FloorFault;
use octo_keeper::{Keeper, Shelf};
use printer_link::Link;

/// What one round did: its events, whether a line was received on a link, and the first fault that came in it.
#[derive(Drop)]
pub struct Rounded {
    pub events: EventList,
    pub heard: bool,
    pub fault: Option<FloorFault>,
}

impl Floor {
    // One round, whose events are added to a list without any. Returns whether a line was received.
    pub(crate) fn round_into<L: Link + Drop, K: Keeper, S: Shelf>(
        &mut self,
        links: &mut Links<L>,
        keeper: &mut K,
        shelf: &mut S,
        moment: u64,
        events: &mut EventList,
    ) -> bool
        requires up { AreUp self.old.bays (link_states L.state links.old) }
        requires empty { events.old.items ≡ [] }
        ensures round { IsRound moment
            (setting self.old (link_states L.state links.old)
            (store_state (K.state keeper.old) (S.state shelf.old)))
            (setting self.new (link_states L.state links.new)
            (store_state (K.state keeper.new) (S.state shelf.new)))
            result events.new.items }
    {
        let mut heard = false;
        for printer in 0..self.bays.len() {
            heard |= self.step_at(printer, links, keeper, shelf, moment, events);
        }
        self.began = true;
        heard
    }

    /// One round: each printer, from 0 up, takes a turn of its link, and starts what is next for its material if it is free and
    /// no fault came. In the first round all printers begin to connect. The links, the keeper and the shelf are those of the
    /// floor's former rounds.
    pub fn round<L: Link + Drop, K: Keeper, S: Shelf>(
        &mut self,
        links: &mut Links<L>,
        keeper: &mut K,
        shelf: &mut S,
        moment: u64,
    ) -> Rounded
        requires up { AreUp self.old.bays (link_states L.state links.old) }

        // Each printer's part, one after the other.
        ensures round { IsRound moment
            (setting self.old (link_states L.state links.old)
            (store_state (K.state keeper.old) (S.state shelf.old)))
            (setting self.new (link_states L.state links.new)
            (store_state (K.state keeper.new) (S.state shelf.new)))
            result.heard result.events.items }

        // So the copies and the records are counted, the tables are kept, and each printer does what its events say.
        ensures goes { GoesOn
            (setting self.old (link_states L.state links.old)
            (store_state (K.state keeper.old) (S.state shelf.old)))
            (setting self.new (link_states L.state links.new)
            (store_state (K.state keeper.new) (S.state shelf.new)))
            result.events.items }
        ensures idle { LeavesIdle
            (setting self.old (link_states L.state links.old)
            (store_state (K.state keeper.old) (S.state shelf.old)))
            (setting self.new (link_states L.state links.new)
            (store_state (K.state keeper.new) (S.state shelf.new)))
            result.events.items }
        ensures numbers { AllPairs (λ a b. a.number ≢ b.number)
            (started_rows self.new.ledger.history) }

        // The first fault that came in it.
        ensures fault { self.old.ledger.fault ≡ None → result.fault ≡ self.new.ledger.fault }
        ensures later { (why : FloorFault) → self.old.ledger.fault ≡ Some why
            → result.fault ≡ None }
        ensures up_after { AreUp self.new.bays (link_states L.state links.new) }
    {
        let before = self.ledger.fault();
        let mut events = EventList::new();
        let heard = self.round_into(links, keeper, shelf, moment, &mut events);
        let fault = match before {
            Some(_) => None,
            None => self.ledger.fault(),
        };
        Rounded {
            events,
            heard,
            fault,
        }
    }
}
