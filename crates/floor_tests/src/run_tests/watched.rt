//! What a watch is shown over a run: the events of each round, in order, each once.
use super::seen::{BOTH_RUN, FIRST_RUN, NOTHING_RUN, PLAIN_RUN, Seen, Story, UNMADE_RUN};
use super::shops::{PLAIN, TURNS, floor_of, with_fails, with_keeper, with_shelf};
use octo_floor_bay::{FloorFault, Why};
use std::alloc::Global;
use std::process::Abort;
use test_makers::{MemoryFloor, Shop};

// A run ends for this reason, and its watch is shown these events and nothing else.
fn assert_watched(rt: &impl Abort, alloc: Global, shop: &Shop, wanted: &'static [Seen], why: Why) {
    let mut floor = floor_of(rt, alloc, shop);
    let mut story = Story::of(wanted);
    let end = floor.run_watched(TURNS, &mut story);
    assert_eq!(rt; end.why, why);
    story.assert_all_came(rt);
    floor.end();
}

// Also those of the last round, in which the printers hang up.
#[test]
fn a_watched_run(rt: HostRuntime) {
    assert_watched(&rt, rt.alloc(), &PLAIN, PLAIN_RUN, Why::Over);
}

#[test]
fn a_watched_loss(rt: HostRuntime) {
    let shop = with_fails(&PLAIN, &[1]);
    assert_watched(&rt, rt.alloc(), &shop, UNMADE_RUN, Why::Over);
}

// Runs in which a start or an end isn't written, or a file isn't read.
#[test]
fn watched_faults(rt: HostRuntime) {
    let alloc = rt.alloc();
    let why = Why::Fault(FloorFault::KeeperFailed);
    assert_watched(&rt, alloc, &with_keeper(&[1]), NOTHING_RUN, why);
    assert_watched(&rt, alloc, &with_keeper(&[2]), FIRST_RUN, why);
    assert_watched(&rt, alloc, &with_keeper(&[4]), BOTH_RUN, why);
    assert_watched(&rt, alloc, &with_keeper(&[6]), PLAIN_RUN, why);
    let why = Why::Fault(FloorFault::ShelfFailed);
    assert_watched(&rt, alloc, &with_shelf(&[5]), BOTH_RUN, why);
}

// A run of at most `turns` rounds ends for this reason. By its end `place` events of all runs were shown.
fn assert_shown(
    rt: &impl Abort,
    floor: &mut MemoryFloor,
    turns: u64,
    why: Why,
    story: &mut Story,
    place: usize,
) {
    let end = floor.run_watched(turns, story);
    assert_eq!(rt; end.why, why);
    story.assert_came(rt, place);
}

// Runs whose rounds are used up: each is shown, those without an event too. After them a run to the end, and one that is over in its first
// round, in which nothing comes.
#[test]
fn watched_runs_one_after_another(rt: HostRuntime) {
    let mut floor = floor_of(&rt, rt.alloc(), &PLAIN);
    let mut story = Story::of(PLAIN_RUN);
    assert_shown(&rt, &mut floor, 0, Why::TurnsUsed, &mut story, 0);
    assert_shown(&rt, &mut floor, 2, Why::TurnsUsed, &mut story, 2);
    assert_shown(&rt, &mut floor, 1, Why::TurnsUsed, &mut story, 6);
    assert_shown(&rt, &mut floor, 1, Why::TurnsUsed, &mut story, 6);
    assert_eq!(rt; story.rounds, 4);
    assert_shown(&rt, &mut floor, TURNS, Why::Over, &mut story, 12);
    let rounds = story.rounds;
    assert_shown(&rt, &mut floor, 1, Why::Over, &mut story, 12);
    assert_eq!(rt; story.rounds, rounds.saturating_add(1));
    floor.end();
}
