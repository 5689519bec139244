//! Runs of a floor.
ghost use Rattle.std.specs.Prelude.{◌≡◌, ◌≢◌, AllPairs};
ghost use Rattle.octo_floor_bay.specs.Events.{FloorHistory, started_rows};
ghost use Rattle.octo_floor_bay.specs.declared.end.Why.TheVariants as why;
ghost use Rattle.octo_floor.specs.Objects.{store_state};
ghost use Rattle.octo_floor.specs.Floor.{setting, AreUp};
ghost use Rattle.octo_floor.specs.Links.{link_states};
ghost use Rattle.octo_floor.specs.Leaving.{Leaves};
ghost use Rattle.octo_floor.specs.Rounds.{HasRounds};
ghost use Rattle.octo_floor.specs.Points.{GoesOn};
ghost use Rattle.octo_floor.specs.Run.{AreCalled, AreNumbersOf, EndsFor, reason_of, run_begun};

use crate::floor::Floor;
use crate::ledger::EventList;
use crate::links::Links;
use crate::watch::Watch;
use octo_floor_bay::{FloorEnd, Why};
use octo_keeper::{Keeper, Shelf};
use octo_outside::Clock;
use printer_link::Link;

impl Floor {
    // Why a run that is over ended.
    fn reason(&self) -> Why
        ensures { result ≡ reason_of self.now.ledger.fault }
    {
        match self.ledger.fault() {
            Some(fault) => Why::Fault(fault),
            None => Why::Over,
        }
    }

    // Disconnects the printers once nothing goes on. Returns whether they leave.
    fn leave(&mut self, leaves: bool) -> bool
        ensures { Leaves leaves self.old result self.new }
    {
        if leaves {
            return true;
        }
        if !self.is_over() {
            return false;
        }
        self.disconnect_all();
        true
    }

    /// Makes rounds until nothing goes on and nothing more can be started, at most `turns`. Then it disconnects each printer that
    /// isn't lost, and returns when each is offline or lost. It rests the clock after a round in which no line was received. The
    /// links, the keeper and the shelf are those of the floor's former rounds. `watch` is shown the events of each round.
    pub fn run<L: Link + Drop, K: Keeper, S: Shelf, T: Clock, W: Watch>(
        &mut self,
        links: &mut Links<L>,
        keeper: &mut K,
        shelf: &mut S,
        clock: &mut T,
        turns: u64,
        watch: &mut W,
    ) -> FloorEnd
        requires up { AreUp self.old.bays (link_states L.state links.old) }

        // As its rounds, one after the other, in which no fault had come before.
        ensures goes { (events : FloorHistory) × GoesOn
            (run_begun (setting self.old (link_states L.state links.old)
            (store_state (K.state keeper.old) (S.state shelf.old))))
            (setting self.new (link_states L.state links.new)
            (store_state (K.state keeper.new) (S.state shelf.new))) events }
        ensures records { AllPairs (λ a b. a.number ≢ b.number)
            (started_rows self.new.ledger.history) }

        // Each of them leaves idle only printers that had nothing to start.
        ensures rounds { HasRounds turns
            (run_begun (setting self.old (link_states L.state links.old)
            (store_state (K.state keeper.old) (S.state shelf.old))))
            (setting self.new (link_states L.state links.new)
            (store_state (K.state keeper.new) (S.state shelf.new)))
            result.why }

        // What it returns.
        ensures numbers { AreNumbersOf self.new result }
        ensures ends { EndsFor self.old self.new result.why }
        ensures used { result.why ≡ why.TurnsUsed
            → AreCalled turns (link_states L.state links.old) (link_states L.state links.new) }
        ensures up_after { AreUp self.new.bays (link_states L.state links.new) }
    {
        self.ledger.begin_run();
        let mut events = EventList::new();
        let mut moment = 0;
        let mut leaves = false;
        for _ in 0..turns {
            moment = clock.now().max(moment);
            events.clear();
            let heard = self.round_into(links, keeper, shelf, moment, &mut events);
            watch.see(&self.ports, events.as_slice());
            leaves = self.leave(leaves);
            if leaves && self.have_left() {
                return self.end(self.reason());
            }
            if !heard {
                clock.rest();
            }
        }
        self.end(Why::TurnsUsed)
    }
}
