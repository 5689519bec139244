//! The host from its first connection to its end.
ghost use Rattle.std.specs.Prelude.{◌≡◌, false, true, None, Some, IfOk, OnErr};
ghost use Rattle.octo_serve.specs.Ends.{house_place};
ghost use Rattle.octo_house.specs.State.{session_of};
ghost use Rattle.octo_house_run.specs.Own.{ConnectsItself};
ghost use Rattle.octo_house_run.specs.Runs.{IsFresh};
ghost use Rattle.octo_outside.specs.Recorded.{Became};
ghost use Rattle.octo_serve.specs.Around.{door_states};
ghost use Rattle.octo_serve.specs.Hosted.{setting, Ran, HasHosted};
ghost use Rattle.printer_link.specs.Suits.{SuitsAs};

use crate::beside::four_beside;
use crate::house_counter::HouseCounter;
use crate::joined::History;
use crate::stagers::stagers_of;
use crate::workers::ends;
use octo_api_routes::Routes;
use octo_api_worker::Terms;
use octo_house::House;
use octo_house_run::run;
use octo_keeper::{Keeper, Shelf};
use octo_log_history::LoggedCounter;
use octo_outside::{Clock, Sink};
use octo_outside_doors::{Door, Doors};
use printer_link::Link;
use std::alloc::{AllocError, Global};
use std::sync::Wait;
use std::thread::Threads;

/// What is known of a host that has served and has ended.
#[derive(Drop)]
pub struct Served {
    /// The number of its calls other than those with which a worker leaves and the host's own, at most `u64::MAX`.
    pub calls: u64,
    /// Whether no door failed: no count of faults rose.
    pub doors_held: bool,
    /// What was asked, answered and noted. It keeps no entries.
    pub history: History,
}

// Runs the house at the workers' counter.
fn run_house<R: Wait, L: Link, T: Clock, K: Keeper, S: Shelf, G: Sink + Drop>(
    rt: &R,
    house: &mut House,
    counter: &mut LoggedCounter<HouseCounter, G>,
    link: &mut L,
    clock: &mut T,
    keeper: &mut K,
    shelf: &mut S,
    connects: bool,
) -> u64
    requires fresh { IsFresh (session_of house.old) }
    requires down { (L.state link.old).up ≡ false }
    requires suits { SuitsAs (session_of house.old).sender.numbered
        (L.state link.old).past (L.state link.old).kind.oks }
    requires answered { counter.old.counter.end.view.taken ≡ None }
    requires open { counter.old.counter.end.view.closed ≡ false }

    ensures ran { let at = setting (L.state) T.moment
        (K.state) (S.state) in
        Ran (at house.old link.old clock.old keeper.old shelf.old)
        (at house.new link.new clock.new keeper.new shelf.new)
        (Some counter.old.counter.end.view.history)
        (Some counter.new.counter.end.view.history) result }
    ensures own { Became (Some counter.old.counter.end.view.history)
        (Some counter.new.counter.end.view.history) (λ _ added. ConnectsItself connects added) }
    ensures closed { counter.new.counter.end.view.closed ≡ true }
    ensures place { house_place counter.new.counter.end ≡ house_place counter.old.counter.end }
{
    run(rt, house, counter, link, clock, keeper, shelf, connects)
}

/// Serves the connections of four doors by four workers, each in a thread of its own, while the
/// house answers their asks and turns the link in this thread. It goes on until a shutdown was
/// accepted, or all four workers have left and no print is active. Each worker has a stager of the shelf, which writes the files
/// of uploads in its thread.
///
/// If `connects` says so, the house connects to its first port by itself, as `run` says. The terms hold for each connection.
/// The call may wait without an end. If memory runs out at its beginning, nothing was touched; if it runs out later, the
/// connection that met it is answered 507. A worker for which no thread can be started comes
/// after the house has ended.
///
/// `log` gets the lines of the history, as `LoggedCounter` says. Nothing else depends on it.
pub fn serve<
    R: Threads + Wait + Clone + Send + Sync + Drop,
    L: Link,
    T: Clock,
    K: Keeper,
    S: Shelf,
    D: Door + Send + Drop,
    G: Sink + Drop,
>(
    rt: &R,
    alloc: Global,
    house: &mut House,
    link: &mut L,
    clock: &mut T,
    keeper: &mut K,
    shelf: &mut S,
    doors: &mut Doors<D>,
    terms: &Terms,
    connects: bool,
    log: G,
) -> Result<Served, AllocError>
    requires fresh { IsFresh (session_of house.old) }
    requires down { (L.state link.old).up ≡ false }
    requires suits { SuitsAs (session_of house.old).sender.numbered
        (L.state link.old).past (L.state link.old).kind.oks }

    ensures ok { let at = setting (L.state) T.moment
        (K.state) (S.state) in
        let doors_at = door_states (D.state) in
        IfOk result (λ served. HasHosted terms.now
        (at house.old link.old clock.old keeper.old shelf.old)
        (at house.new link.new clock.new keeper.new shelf.new)
        (doors_at doors.old) (doors_at doors.new)
        served.calls served.doors_held served.history) }

    // When it connects by itself.
    ensures own { IfOk result (λ served. ConnectsItself connects served.history.history) }

    // Without memory for the table of routes, the stagers or the workers' ends nothing was touched.
    ensures house { OnErr result (house.new ≡ house.old) }
    ensures link { OnErr result (link.new ≡ link.old) }
    ensures clock { OnErr result (clock.new ≡ clock.old) }
    ensures keeper { OnErr result (keeper.new ≡ keeper.old) }
    ensures shelf { OnErr result (shelf.new ≡ shelf.old) }
    ensures doors { OnErr result (doors.new ≡ doors.old) }
{
    let routes = Routes::new(alloc)?;
    let mut stagers = stagers_of(shelf)?;
    let (counter, mut workers) = ends(rt, alloc, &doors.a.bell())?;
    let mut counter = LoggedCounter::new(HouseCounter::new(counter), log);
    let (doors_held, calls) = four_beside(
        rt,
        alloc,
        &routes,
        doors,
        &mut workers,
        &mut stagers,
        terms,
        &mut || -> u64
            requires { IsFresh (session_of house.now) × ((L.state link.now).up ≡ false)
                × SuitsAs (session_of house.now).sender.numbered
                (L.state link.now).past (L.state link.now).kind.oks
                × (counter.counter.end.view.taken ≡ None)
                × (counter.counter.end.view.closed ≡ false) }
            ensures ran { let at = setting (L.state) T.moment
                (K.state) (S.state) in
                Ran
                (at house.entry.now link.entry.now clock.entry.now keeper.entry.now shelf.entry.now)
                (at house.exit.now link.exit.now clock.exit.now keeper.exit.now shelf.exit.now)
                (Some counter.entry.counter.end.view.history)
                (Some counter.exit.counter.end.view.history) result }
            ensures own { Became (Some counter.entry.counter.end.view.history)
                (Some counter.exit.counter.end.view.history)
                (λ _ added. ConnectsItself connects added) }
            ensures ended { counter.exit.counter.end.view.closed ≡ true }
            ensures place { house_place counter.exit.counter.end
                ≡ house_place counter.entry.counter.end }
        {
            run_house(
                rt,
                house,
                &mut counter,
                link,
                clock,
                keeper,
                shelf,
                connects,
            )
        },
    );
    Ok(Served {
        calls,
        doors_held,
        history: counter.into_counter().into_end().end(workers),
    })
}
