//! How the printers of a floor leave: when a run is over, and what is done then.
ghost use Rattle.std.specs.Prelude.{◌≡◌, ◌<◌, ℕ, List, true, false, length, slice_get, Some};
ghost use Rattle.job_desk.specs.declared.state.State.TheVariants as state;
ghost use Rattle.octo_floor_bay.specs.Bay.{BayData};
ghost use Rattle.octo_floor.specs.Floor.{IsFloor};
ghost use Rattle.octo_floor.specs.Leaving.{IsIdle, AreIdle, IsDisconnected, IsDisconnectedAt, AreDisconnected};
ghost use Rattle.octo_floor.specs.Run.{AreNumbersOf, HaveLeft, is_lost, has_left};

use crate::floor::Floor;
use job_desk::State;
use octo_floor_bay::{Bay, FloorEnd, Why};

// Whether a printer is lost.
fn is_lost(bay: &Bay) -> bool
    ensures { result ≡ is_lost bay.now }
{
    match bay.session().desk().state() {
        State::Fault => true,
        _ => false,
    }
}

// Whether a printer is offline or lost.
fn has_left(bay: &Bay) -> bool
    ensures { result ≡ has_left bay.now }
{
    match bay.session().desk().state() {
        State::Offline => true,
        State::Fault => true,
        _ => false,
    }
}

// Whether a desk connects: what `==` says of its state, as clauses.
fn is_connecting(now: State) -> bool
    ensures yes { result ≡ true → now ≡ state.Connecting }
    ensures no { result ≡ false → now ≡ state.Connecting → ⊥ }
{
    now == State::Connecting
}

// Ends the connection of a printer, unless the printer is lost.
fn disconnect(bay: &mut Bay)
    ensures { IsDisconnected bay.old bay.new }
{
    if is_lost(bay) {
        return;
    }
    bay.disconnect();
}

impl Floor {
    // Whether a printer neither connects nor prints, nor has an entry to start.
    fn is_idle(&self, printer: usize) -> bool
        requires { printer < length self.now.bays }
        ensures yes { (b : BayData) (material : List ℕ) → slice_get self.now.bays printer ≡ Some b
            → slice_get self.now.materials printer ≡ Some material
            → result ≡ true → IsIdle self.now.ledger material b }
        ensures no { (b : BayData) (material : List ℕ) → slice_get self.now.bays printer ≡ Some b
            → slice_get self.now.materials printer ≡ Some material
            → result ≡ false → IsIdle self.now.ledger material b → ⊥ }
    {
        let bay = &self.bays[printer];
        if is_connecting(bay.session().desk().state()) || bay.session().desk().print().is_some() {
            return false;
        }
        self.ledger.has_none(&self.materials[printer], bay)
    }

    // Whether nothing goes on, and nothing more can be started.
    pub(crate) fn is_over(&self) -> bool
        ensures yes { result ≡ true → AreIdle self.now }
        ensures no { result ≡ false → HaveLeft self.now → ⊥ }
    {
        for printer in 0..self.bays.len() {
            if !self.is_idle(printer) {
                return false;
            }
        }
        true
    }

    // Ends the connection of a printer that isn't lost.
    fn disconnect_at(&mut self, printer: usize)
        requires { printer < length self.old.bays }
        ensures { IsDisconnectedAt printer self.old self.new }
    {
        disconnect(&mut self.bays[printer]);
    }

    // Ends the connection of each printer that isn't lost.
    pub(crate) fn disconnect_all(&mut self)
        ensures left { AreDisconnected (length self.old.bays) self.old self.new }
        ensures floor { IsFloor self.new }
    {
        for printer in 0..self.bays.len() {
            self.disconnect_at(printer);
        }
        prove!(!self.bays.is_empty());
    }

    // Whether each printer is offline or lost.
    pub(crate) fn have_left(&self) -> bool
        ensures yes { result ≡ true → HaveLeft self.now }
        ensures no { result ≡ false → HaveLeft self.now → ⊥ }
    {
        self.bays.iter().all(has_left)
    }

    // How a run ended for this reason.
    pub(crate) fn end(&self, why: Why) -> FloorEnd
        ensures numbers { AreNumbersOf self.now result }
        ensures why { result.why ≡ why }
    {
        FloorEnd {
            prints: self.ledger.prints(),
            done: self.ledger.done(),
            failed: self.ledger.failed(),
            left: self.ledger.stock().left(),
            lost: self.bays.iter().filter(|bay| is_lost(bay)).count() as u8,
            why,
        }
    }
}
