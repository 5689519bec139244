//! Rows of steps, and how they are taken while one call fails.
use super::looks::{Look, has_same_rows, look_at};
use super::steps::take;
use crate::tests::bench::Bench;
use crate::tests::seen::Seen;
use crate::tests::wishes::Wish;
use job_desk::State;
use octo_asks::StoredCause;
use print_queue::Outcome;
use std::alloc::Global;
use std::process::Abort;

// Turns until nothing is connected to or printed any more.
pub(super) const IDLE: Wish = Wish::Until(State::Operational);

// What is seen of an upload alone.
pub(super) const STORED: Seen = Seen::Uploaded(false, false);

// A file of one command.
pub(super) const ONE: &[u8] = b"G28\n";

// The calls that a step makes, one at each place.
#[derive(Clone, Copy)]
pub(super) enum Calls {
    Neither,
    OfKeeper,
    OfShelf,
    OfBoth,
}

// The caller's key, what is asked for, the calls that are made if none fails, and what is seen.
pub(super) type Step = (&'static [u8], Wish, Calls, Seen);

// Which object has the call that fails.
#[derive(Clone, Copy)]
pub(super) enum Place {
    AtKeeper,
    AtShelf,
}

fn is_called(place: Place, calls: Calls) -> bool {
    match (place, calls) {
        (_, Calls::OfBoth) => true,
        (Place::AtKeeper, Calls::OfKeeper) => true,
        (Place::AtShelf, Calls::OfShelf) => true,
        _ => false,
    }
}

// A host with a printer for PLA, at whose keeper or shelf a row's call of this number fails. Before it, the host has
// called each once at its beginning, and the shelf once for the look before the step.
fn failing_bench(rt: &impl Abort, alloc: Global, place: Place, number: u64) -> Bench {
    match place {
        Place::AtKeeper => Bench::failing(rt, alloc, "PLA", &[number.wrapping_add(1)], &[]),
        Place::AtShelf => Bench::failing(rt, alloc, "PLA", &[], &[number.wrapping_add(2)]),
    }
}

// What is seen of a step whose call fails.
fn fault_of(place: Place, wish: Wish) -> Seen {
    match (place, wish) {
        (Place::AtShelf, _) => Seen::ShelfFault,
        (Place::AtKeeper, Wish::Upload(_, _)) => Seen::Stored(StoredCause::KeeperFault),
        (Place::AtKeeper, Wish::Until(_)) => Seen::Unwritten,
        (Place::AtKeeper, _) => Seen::KeeperFault,
    }
}

// Whether a file that was stored alone is listed and selected, and nothing else is changed.
fn is_stored(text: &[u8], before: Look, after: Look) -> bool {
    after.files == Seen::Files(1, text.len() as u64)
        && after.job == Seen::Job(Some(text.len() as u64), false, State::Operational)
        && has_same_rows(before, after)
}

// Whether a print has ended for the host, and its record is still active at the keeper.
fn is_unwritten(before: Look, after: Look) -> bool {
    after.kept.newest == Some(Outcome::Active)
        && after.kept == before.kept
        && after.prints != before.prints
        && after.files == before.files
        && after.queue == before.queue
        && after.users == before.users
}

// Whether a step that failed has left the host as it has to.
fn is_left(fault: Seen, wish: Wish, before: Look, after: Look) -> bool {
    match (fault, wish) {
        (Seen::Stored(_), Wish::Upload(text, _)) => is_stored(text, before, after),
        (Seen::Unwritten, _) => is_unwritten(before, after),
        _ => before == after,
    }
}

// Takes a step whose call at this place fails, looks whether all is as before, and takes it again.
fn take_failing(rt: &impl Abort, bench: &mut Bench, place: Place, step: Step) {
    let (key, wish, _, wanted) = step;
    let before = look_at(rt, bench);
    let fault = take(rt, bench, key, wish);
    assert!(rt; fault == fault_of(place, wish));
    assert!(rt; is_left(fault, wish, before, look_at(rt, bench)));
    assert!(rt; take(rt, bench, key, wish) == wanted);
}

// Takes a step at which nothing fails.
fn take_whole(rt: &impl Abort, bench: &mut Bench, step: Step) {
    let (key, wish, _, wanted) = step;
    assert!(rt; take(rt, bench, key, wish) == wanted);
}

// Takes a row, of whose calls at this place that of this number fails, counted from 1; whether it was made.
fn take_row(rt: &impl Abort, alloc: Global, row: &[Step], place: Place, number: u64) -> bool {
    let mut bench = failing_bench(rt, alloc, place, number);
    let mut made: u64 = 0;
    for step in row {
        let is_called = is_called(place, step.2);
        if is_called {
            made = made.wrapping_add(1);
        }
        if is_called && made == number {
            take_failing(rt, &mut bench, place, *step);
        } else {
            take_whole(rt, &mut bench, *step);
        }
    }
    bench.end();
    made >= number
}

// Takes a row with each of its calls at this place failing in turn, and at last with none; returns how many calls it has.
pub(super) fn calls_of(rt: &impl Abort, alloc: Global, row: &[Step], place: Place) -> u64 {
    for number in 1..50 {
        if !take_row(rt, alloc, row, place, number) {
            return number - 1;
        }
    }
    panic!(rt; "a long row")
}
