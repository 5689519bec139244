//! Runs in which each call of the keeper and of the shelf fails in turn. Nothing is started after that; what goes on is printed, and its
//! end is written.
use super::shops::{ACTIVE, Counts, DONE, PLAIN, assert_shop, with_keeper, with_shelf};
use octo_floor_bay::{FloorFault, Why};
use print_queue::Outcome;
use std::alloc::Global;
use std::process::Abort;
use test_makers::Shop;

// A run in which these calls of the keeper fail comes to this.
fn assert_keeper(
    rt: &impl Abort,
    alloc: Global,
    fails: &'static [u64],
    wanted: Counts,
    outcomes: [Option<Outcome>; 3],
) {
    let why = Why::Fault(FloorFault::KeeperFailed);
    assert_shop(rt, alloc, &with_keeper(fails), why, wanted, outcomes);
}

// A run in which these calls of the shelf fail comes to this.
fn assert_shelf(
    rt: &impl Abort,
    alloc: Global,
    fails: &'static [u64],
    wanted: Counts,
    outcomes: [Option<Outcome>; 3],
) {
    let why = Why::Fault(FloorFault::ShelfFailed);
    assert_shop(rt, alloc, &with_shelf(fails), why, wanted, outcomes);
}

// The first copy of job-1 begins, and then job-2, as records 1 and 2. The first one ends, and the second copy of job-1 begins, as
// record 3; record 2 ends, and then record 3. An end that isn't written leaves its record active.
#[test]
fn each_call_of_the_keeper(rt: HostRuntime) {
    let alloc = rt.alloc();
    assert_keeper(&rt, alloc, &[1], (0, 0, 0, 3, 0), [None, None, None]);
    assert_keeper(&rt, alloc, &[2], (1, 1, 0, 2, 0), [DONE, None, None]);
    assert_keeper(&rt, alloc, &[3], (2, 2, 0, 1, 0), [ACTIVE, DONE, None]);
    assert_keeper(&rt, alloc, &[4], (2, 2, 0, 1, 0), [DONE, DONE, None]);
    assert_keeper(&rt, alloc, &[5], (3, 3, 0, 0, 0), [DONE, ACTIVE, DONE]);
    assert_keeper(&rt, alloc, &[6], (3, 3, 0, 0, 0), [DONE, DONE, ACTIVE]);
}

// Two files are put by the first two calls. Then the file of each print is read before it begins.
#[test]
fn each_call_of_the_shelf(rt: HostRuntime) {
    let alloc = rt.alloc();
    assert_shelf(&rt, alloc, &[3], (0, 0, 0, 3, 0), [None, None, None]);
    assert_shelf(&rt, alloc, &[4], (1, 1, 0, 2, 0), [DONE, None, None]);
    assert_shelf(&rt, alloc, &[5], (2, 2, 0, 1, 0), [DONE, DONE, None]);
}

// The keeper and the shelf fail at calls that don't come.
const LATER_FAILS: Shop = Shop {
    keeper: &[7],
    shelf: &[6],
    ..PLAIN
};

#[test]
fn no_more_calls(rt: HostRuntime) {
    let all = [DONE, DONE, DONE];
    assert_shop(
        &rt,
        rt.alloc(),
        &LATER_FAILS,
        Why::Over,
        (3, 3, 0, 0, 0),
        all,
    );
}
