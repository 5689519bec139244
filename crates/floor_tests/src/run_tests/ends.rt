//! Runs whose rounds are used up, runs after a first one, and when a run rests its clock.
use super::seen::{PLAIN_RUN, Story};
use super::shops::{Counts, PLAIN, TURNS, assert_run, floor_of, with_keeper};
use octo_floor_bay::{FloorFault, Why};
use std::alloc::Global;
use std::process::Abort;
use test_makers::{MemoryFloor, Shop};

// A run of `turns` rounds uses them up and comes to these counts, and its clock shows this moment then.
fn assert_used(rt: &impl Abort, floor: &mut MemoryFloor, turns: u64, wanted: Counts, moment: u64) {
    assert_run(rt, floor, turns, Why::TurnsUsed, wanted);
    assert_eq!(rt; floor.moment(), moment);
}

// Each printer dials in the first round, sends the hello in the second, starts in the third, in which it hears the hello's `ok`, and sends
// the first lines in the fourth: the clock rests after each of these rounds but the third one. A run that was cut off goes on in the next
// one, and what a run returns is counted from the floor's beginning.
#[test]
fn used_turns(rt: HostRuntime) {
    let mut floor = floor_of(&rt, rt.alloc(), &PLAIN);
    assert_used(&rt, &mut floor, 0, (0, 0, 0, 3, 0), 0);
    assert_used(&rt, &mut floor, 2, (0, 0, 0, 3, 0), 20);
    assert_used(&rt, &mut floor, 1, (2, 0, 0, 1, 0), 20);
    assert_used(&rt, &mut floor, 1, (2, 0, 0, 1, 0), 30);
    assert_run(&rt, &mut floor, TURNS, Why::Over, (3, 3, 0, 0, 0));
    floor.end();
}

// A run ends for this reason. After it the printers are disconnected, and a second run doesn't connect them again: it is over in its first
// round, whatever is left, and sends nothing.
fn assert_second(rt: &impl Abort, alloc: Global, shop: &Shop, why: Why, wanted: Counts) {
    let mut floor = floor_of(rt, alloc, shop);
    assert_run(rt, &mut floor, TURNS, why, wanted);
    let sends = floor.sends();
    assert_run(rt, &mut floor, 1, Why::Over, wanted);
    assert_eq!(rt; floor.sends(), sends);
    floor.end();
}

#[test]
fn second_runs(rt: HostRuntime) {
    assert_second(&rt, rt.alloc(), &PLAIN, Why::Over, (3, 3, 0, 0, 0));
    let why = Why::Fault(FloorFault::KeeperFailed);
    assert_second(&rt, rt.alloc(), &with_keeper(&[2]), why, (1, 1, 0, 2, 0));
}

// The number of the plain shop's rounds in a run, and the moment of its end.
fn run_plain(rt: &impl Abort, alloc: Global) -> (u64, u64) {
    let mut floor = floor_of(rt, alloc, &PLAIN);
    let mut story = Story::of(PLAIN_RUN);
    floor.run_watched(TURNS, &mut story);
    let moment = floor.moment();
    floor.end();
    (story.rounds, moment)
}

// In how many of the first `rounds` rounds of the plain shop nothing is heard, if ten milliseconds pass after each of these.
fn quiet_rounds(rt: &impl Abort, alloc: Global, rounds: u64) -> u64 {
    let mut floor = floor_of(rt, alloc, &PLAIN);
    let mut quiet: u64 = 0;
    for _ in 0..rounds {
        if !floor.round(quiet.saturating_mul(10)).heard {
            quiet = quiet.saturating_add(1);
        }
    }
    floor.end();
    quiet
}

// A run rests its clock for ten milliseconds after each round in which nothing is heard, and after no other one. In its last round the
// printers hang up; it doesn't rest after that.
#[test]
fn a_rest_for_each_quiet_round(rt: HostRuntime) {
    let (rounds, moment) = run_plain(&rt, rt.alloc());
    let before = rounds.saturating_sub(1);
    let quiet = quiet_rounds(&rt, rt.alloc(), before);
    assert!(rt; 0 < quiet && quiet < before);
    assert_eq!(rt; moment, quiet.saturating_mul(10));
}
