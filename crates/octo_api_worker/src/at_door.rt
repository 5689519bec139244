//! A worker at its door.
ghost use Rattle.std.specs.Prelude.{◌≡◌, ◌≢◌, ◌⊎◌, ℕ, List, [], ◌∷◌, true, false, Some};
ghost use Rattle.octo_outside.specs.Recorded.{Adds, Rose};
ghost use Rattle.octo_asks.specs.History.{History};
ghost use Rattle.octo_outside.specs.Conns.{ConnState};
ghost use Rattle.octo_outside_doors.specs.Doors.{fresh_conn};
ghost use Rattle.octo_api_worker.specs.declared.at_door.Visit.TheVariants as visit;
ghost use Rattle.octo_api_worker.specs.Served.{IsServed, AsksOnce};
ghost use Rattle.octo_api_worker.specs.Worked.{leave_ask, HasVisited, HasLeft, HasReturned, HasWorked, is_open};

use crate::serve::serve_conn;
use crate::terms::Terms;
use octo_api_routes::Routes;
use octo_asks::{Ask, Asker, Request};
use octo_keeper::Stager;
use octo_outside::{Blob, Failed};
use octo_outside_doors::{Door, Knock};
use std::alloc::Global;
use std::sync::Wait;

// What one look at the door came to.
#[derive(Clone, Copy, Debug, PartialEq, Eq)]
pub(crate) enum Visit {
    // The worker goes on.
    Open,
    // The host has ended.
    Closed,
    // No connection will come any more.
    Ended,
    // The door failed.
    Failed,
}

// Looks at the door, and serves the connection that has come.
fn look_at_door<D: Door, A: Asker, P: Stager>(
    alloc: Global,
    routes: &Routes,
    door: &mut D,
    asker: &mut A,
    stager: &mut P,
    terms: &Terms,
) -> Visit
    ensures visited { (inputs : List (List ℕ)) → (D.state door.old).coming ≡ Some inputs
        → HasVisited terms.now inputs (D.state door.new).coming (D.state door.old).served
        (D.state door.new).served
        (A.state asker.old).mine (A.state asker.new).mine result }
    ensures once { AsksOnce (A.state asker.old).mine (A.state asker.new).mine }
    ensures closed { result ≡ visit.Closed → (A.state asker.new).saw_close ≡ true }
    ensures place { (A.state asker.new).place ≡ (A.state asker.old).place }
    ensures held { result ≢ visit.Failed → (D.state door.new).faults ≡ (D.state door.old).faults }
    ensures failed { result ≡ visit.Failed
        → Rose (D.state door.old).faults (D.state door.new).faults }
{
    if asker.closed() {
        return Visit::Closed;
    }
    match door.accept() {
        Ok(Knock::Conn(conn)) => serve_and_finish(alloc, routes, door, conn, asker, stager, terms),
        Ok(Knock::Quiet) => Visit::Open,
        Ok(Knock::Ended) => Visit::Ended,
        Err(Failed) => Visit::Failed,
    }
}

// Serves a connection and returns it to the door.
fn serve_and_finish<D: Door, A: Asker, P: Stager>(
    alloc: Global,
    routes: &Routes,
    door: &mut D,
    conn: D::Conn,
    asker: &mut A,
    stager: &mut P,
    terms: &Terms,
) -> Visit
    ensures served { (input : List ℕ)
        → D.Conn.state conn ≡ fresh_conn input
        → (after : ConnState) × (calls : History)
        × IsServed terms.now input after (is_open result) calls
        × Adds (D.state door.old).served (D.state door.new).served (after ∷ [])
        × Adds (A.state asker.old).mine (A.state asker.new).mine calls }
    ensures once { AsksOnce (A.state asker.old).mine (A.state asker.new).mine }
    ensures either { (result ≡ visit.Open)
        ⊎ ((result ≡ visit.Closed) × ((A.state asker.new).saw_close ≡ true)) }
    ensures place { (A.state asker.new).place ≡ (A.state asker.old).place }
    ensures coming { (D.state door.new).coming ≡ (D.state door.old).coming }
    ensures faults { (D.state door.new).faults ≡ (D.state door.old).faults }
{
    let mut conn = conn;
    let is_open = serve_conn(alloc, routes, &mut conn, asker, stager, terms);
    door.finish(conn);
    if is_open { Visit::Open } else { Visit::Closed }
}

// The ask with which a worker leaves.
fn leave_ask(alloc: Global) -> Ask
    ensures { result ≡ leave_ask }
{
    Ask {
        key: Blob::new(alloc),
        request: Request::Leave,
    }
}

// Says that this worker leaves. The answer doesn't matter; without one the host has ended.
fn leave<A: Asker>(alloc: Global, asker: &mut A)
    ensures left { HasLeft (A.state asker.old).mine (A.state asker.new).mine
        (A.state asker.new).saw_close }
    ensures seen { (A.state asker.old).saw_close ≡ true → (A.state asker.new).saw_close ≡ true }
    ensures place { (A.state asker.new).place ≡ (A.state asker.old).place }
{
    let _ = asker.ask(leave_ask(alloc));
}

/// Serves the connections of a door until no more come, the door fails or the host has ended. Returns whether the door held.
///
/// It leaves by an ask of its own if the door has ended or failed. It waits at its door and for its answers. It only reads
/// the table of routes, which several workers may share. Its stager writes the files of uploads.
pub fn worker<R: Wait, D: Door, A: Asker, P: Stager>(
    rt: &R,
    alloc: Global,
    routes: &Routes,
    door: &mut D,
    asker: &mut A,
    stager: &mut P,
    terms: &Terms,
) -> bool
    // The connections of a door that records them are served one after the other.
    ensures served { (inputs : List (List ℕ)) → (D.state door.old).coming ≡ Some inputs
        → HasWorked terms.now inputs (D.state door.new).coming (D.state door.old).served
        (D.state door.new).served
        (A.state asker.old).mine (A.state asker.new).mine (A.state asker.new).saw_close result }
    ensures place { (A.state asker.new).place ≡ (A.state asker.old).place }

    // Whatever its door records, it has left or has seen that the host has ended.
    ensures returned { HasReturned (A.state asker.old).mine (A.state asker.new).mine
        (A.state asker.new).saw_close }

    // It returns false exactly if a call of the door failed.
    ensures held { result ≡ true → (D.state door.new).faults ≡ (D.state door.old).faults }
    ensures failed { result ≡ false → Rose (D.state door.old).faults (D.state door.new).faults }
{
    for _ in rt.forever() {
        match look_at_door(alloc, routes, door, asker, stager, terms) {
            Visit::Open => {}
            Visit::Closed => return true,
            Visit::Ended => {
                leave(alloc, asker);
                return true;
            }
            Visit::Failed => {
                leave(alloc, asker);
                return false;
            }
        }
    }
    unreachable!()
}
