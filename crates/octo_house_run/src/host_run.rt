//! The run of a host, from its beginning to its end.
ghost use Rattle.std.specs.Prelude.{◌≡◌, ◌≤◌, None, is_some, true, false};
ghost use Rattle.octo_outside.specs.Recorded.{Became};
ghost use Rattle.octo_outside.specs.Traits.{NotBefore};
ghost use Rattle.octo_house_rules.specs.Faults.{AreCounted};
ghost use Rattle.octo_house_rules.specs.LinkUse.{UsesLink};
ghost use Rattle.octo_house_rules.specs.Shows.{Shows};
ghost use Rattle.octo_house_rules.specs.Temps.{NotesTemps};
ghost use Rattle.octo_house_rules.specs.Tied.{TiesLines};
ghost use Rattle.octo_house_tables.specs.Kept.{KeepsRows};
ghost use Rattle.octo_house.specs.State.{IsListed, session_of, tables_of};
ghost use Rattle.octo_house_run.specs.Laws.{RunKeepsLaws};
ghost use Rattle.octo_house_run.specs.Own.{AsksOfWorkers, ConnectsItself};
ghost use Rattle.octo_house_run.specs.Runs.{HasRun, HasRunOver, RunKeepsPrints, IsFresh, IsOver, ArePassed, begins};
ghost use Rattle.octo_house_run.specs.Tallies.{is_over};
ghost use Rattle.printer_link.specs.Suits.{SuitsAs};

use crate::answering::answer_next;
use crate::link_turn::take_turn;
use crate::reconnect::new_reconnect;
use crate::tally::{Asked, Tally, no_tally, tally_after};
use octo_asks::Counter;
use octo_house::House;
use octo_keeper::{Keeper, Shelf};
use octo_outside::Clock;
use printer_link::Link;
use std::sync::Wait;

// How many workers ask at a counter.
const WORKERS: u64 = 4;

/// Answers asks and takes turns of the link in alternation, until a shutdown was accepted, or four workers have left and no
/// print is active. Then it hangs up, closes the counter and returns the number of calls other than those with which a worker
/// leaves, at most `u64::MAX`.
///
/// If `connects` says so, it also asks for a connection to the first port by itself: at once, and 10 seconds after each error, a
/// wait that doubles up to 5 minutes until the printer answers. It doesn't while a print is active, nor after a disconnect or a
/// stop of the printer was asked, until someone asks to connect.
///
/// It rests the clock if nothing was asked and no line was received. Moments are in milliseconds, and no entry has an earlier
/// one than the entry before it. It may wait for asks without an end.
pub fn run<R: Wait, C: Counter, L: Link, T: Clock, K: Keeper, S: Shelf>(
    rt: &R,
    house: &mut House,
    counter: &mut C,
    link: &mut L,
    clock: &mut T,
    keeper: &mut K,
    shelf: &mut S,
    connects: bool,
) -> u64
    requires fresh { IsFresh (session_of house.old) }
    requires down { (L.state link.old).up ≡ false }
    requires suits { SuitsAs (session_of house.old).sender.numbered
        (L.state link.old).past (L.state link.old).kind.oks }
    requires answered { (C.state counter.old).given ≡ None }
    requires open { (C.state counter.old).closed ≡ false }

    // The history is legal, and leads to the host and its files; the shelf's files are those that it names. If the shelf
    // records nothing, there are contents of it over which the history is legal.
    ensures history { HasRun (C.state counter.old).past (C.state counter.new).past
        (S.state shelf.old).files (S.state shelf.new).files house.old house.new }
    ensures contents { HasRunOver (C.state counter.old).past (C.state counter.new).past
        house.old house.new }
    ensures listed { IsListed (S.state shelf.old).files house.old
        → IsListed (S.state shelf.new).files house.new }
    ensures kept { KeepsRows (K.state keeper.old).tables (K.state keeper.new).tables
        (tables_of house.old) (tables_of house.new) }

    // So it keeps the laws: who was denied, what callers learned of each other, puts that were repeated, and the courses,
    // records and temperatures of prints.
    ensures laws { RunKeepsLaws (C.state counter.old).past (C.state counter.new).past
        (S.state shelf.old).files house.old }

    // What the history says of the clock and of the link.
    ensures moments { ArePassed (T.moment clock.old) (T.moment clock.new)
        (C.state counter.old).past (C.state counter.new).past }
    ensures link_use { Shows (C.state counter.old).past (C.state counter.new).past
        (S.state shelf.old).files
        (begins house.old)
        (UsesLink (L.state link.old).kind.listed (L.state link.old).calls
        (L.state link.new).calls) }
    ensures temps { Became (C.state counter.old).past (C.state counter.new).past
        (λ _ added. NotesTemps (L.state link.old).kind (L.state link.old).past
        (L.state link.new).past added) }

    // What was issued in each session is tied to what the printer executed in it, after every entry.
    ensures tied { TiesLines (session_of house.old).sender.numbered (L.state link.old).kind
        (C.state counter.old).past (C.state counter.new).past (L.state link.old).past
        (L.state link.new).past }

    // What the printer made of each print, and what is said and sent of it.
    ensures prints { RunKeepsPrints (L.state link.old).kind (C.state counter.old).past
        (C.state counter.new).past
        (S.state shelf.old).files (L.state link.old).past (L.state link.new).past house.old }

    // When it connects by itself, at a counter whose asks have other numbers than its own calls.
    ensures own { AsksOfWorkers (λ x. (C.state x).given)
        → Became (C.state counter.old).past (C.state counter.new).past
        (λ _ added. ConnectsItself connects added) }

    // How it came to its end.
    ensures over { Became (C.state counter.old).past (C.state counter.new).past
        (λ _ added. IsOver result (session_of house.new).desk.active added) }
    ensures given { (C.state counter.new).given ≡ None }
    ensures closed { (C.state counter.new).closed ≡ true }
    ensures place { (C.state counter.new).place ≡ (C.state counter.old).place }
    ensures down { (L.state link.new).up ≡ false }
    ensures kind { (L.state link.new).kind ≡ (L.state link.old).kind }
    ensures recorded { is_some (L.state link.new).past ≡ is_some (L.state link.old).past }

    // Faults, by their counts.
    ensures faults { Became (C.state counter.old).past (C.state counter.new).past
        (λ _ added. AreCounted (K.state keeper.old).faults (K.state keeper.new).faults
        (S.state shelf.old).faults (S.state shelf.new).faults (L.state link.old).faults
        (L.state link.new).faults added) }
    ensures link { (L.state link.old).faults ≤ (L.state link.new).faults }
    ensures keeper { (K.state keeper.old).faults ≤ (K.state keeper.new).faults }
    ensures shelf { (S.state shelf.old).faults ≤ (S.state shelf.new).faults }
{
    let mut tally = no_tally();
    let mut moment = 0;
    let mut reconnect = new_reconnect(connects);
    for _ in rt.forever() {
        moment = clock.now().max(moment);
        let asked = answer_next(house, counter, keeper, shelf, &mut reconnect, moment);
        let heard = take_turn(house, counter, link, keeper, moment);
        tally = tally_after(asked, tally);
        if is_over(house, tally) {
            link.hang_up();
            counter.close();
            return tally.calls;
        }
        rest_if_idle(clock, asked, heard);
    }
    unreachable!()
}

// Whether the run is over.
fn is_over(house: &House, tally: Tally) -> bool
    ensures { result ≡ is_over tally (session_of house.now).desk }
{
    if tally.is_shut {
        return true;
    }
    if tally.leaves < WORKERS {
        return false;
    }
    house.session().desk().print().is_none()
}

// Lets a moment pass if nothing was asked and nothing received.
fn rest_if_idle<T: Clock>(clock: &mut T, asked: Option<Asked>, heard: bool)
    ensures { NotBefore (T.moment clock.old) (T.moment clock.new) }
{
    if asked.is_none() && !heard {
        clock.rest();
    }
}
