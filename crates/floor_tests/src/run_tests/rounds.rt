//! Rounds one by one: what each printer starts and ends, in which order.
use super::seen::{BOTH_RUN, FIRST_RUN, NOTHING_RUN, PLAIN_ROUNDS, Seen, Story, UNMADE_RUN};
use super::shops::{
    EIGHT, LONG_SECOND, PART, PLAIN, floor_of, with_fails, with_keeper, with_shelf,
};
use job_desk::LinkFact;
use octo_floor_bay::FloorFault;
use print_queue::Outcome;
use std::alloc::Global;
use std::process::Abort;
use test_makers::{MemoryFloor, Shop};

// The rounds that are made here: all prints end in them.
const ROUNDS: u64 = 100;

// A fault, and how many events had come by the end of its round.
type Fault = Option<(FloorFault, usize)>;

// The first of two faults; a second one is wrong.
fn first_fault(rt: &impl Abort, first: Fault, found: Option<FloorFault>, place: usize) -> Fault {
    match found {
        None => first,
        Some(fault) => {
            assert!(rt; first.is_none());
            Some((fault, place))
        }
    }
}

// One round: the fault so far.
fn round(
    rt: &impl Abort,
    floor: &mut MemoryFloor,
    moment: u64,
    story: &mut Story,
    first: Fault,
) -> Fault {
    let rounded = floor.round(moment);
    story.follow(rounded.events.as_slice());
    let found = rounded.fault;
    drop(rounded);
    first_fault(rt, first, found, story.place)
}

// A hundred rounds of a shop have the first `place` of these events, and this fault comes in one round alone.
fn assert_rounds(
    rt: &impl Abort,
    alloc: Global,
    shop: &Shop,
    wanted: &'static [Seen],
    place: usize,
    fault: Fault,
) {
    let mut floor = floor_of(rt, alloc, shop);
    let mut story = Story::of(wanted);
    let mut came = None;
    for number in 0..ROUNDS {
        came = round(rt, &mut floor, number.saturating_mul(10), &mut story, came);
    }
    story.assert_came(rt, place);
    assert_eq!(rt; came, fault);
    floor.end();
}

// These rounds have these events, and no fault.
fn assert_story(rt: &impl Abort, alloc: Global, shop: &Shop, wanted: &'static [Seen]) {
    assert_rounds(rt, alloc, shop, wanted, wanted.len(), None);
}

#[test]
fn plain_rounds(rt: HostRuntime) {
    assert_story(&rt, rt.alloc(), &PLAIN, PLAIN_ROUNDS);
}

// Two printers with PLA, and two entries of three copies, the first one without a file.
const SHARED: Shop = Shop {
    materials: &["PLA", "PLA"],
    entries: &[
        ("job-1", "gone.gcode", 5, 3, "PLA"),
        ("job-2", "a.gcode", 4, 3, "PLA"),
    ],
    files: &[("a.gcode", PART)],
    ..PLAIN
};

const SHARED_ROUNDS: &[Seen] = &[
    Seen::Noted(0, LinkFact::Opened),
    Seen::Noted(1, LinkFact::Opened),
    Seen::Noted(0, LinkFact::Ready),
    Seen::Passed(1),
    Seen::Noted(1, LinkFact::Ready),
    Seen::Started(1, 1, 3),
    Seen::Started(0, 2, 2),
    Seen::Ended(1, 1, Outcome::Done),
    Seen::Started(1, 3, 1),
    Seen::Ended(0, 2, Outcome::Done),
    Seen::Ended(1, 3, Outcome::Done),
];

// The copies of one entry go to the printers in their order. An entry whose file is missing is passed over once, and the printer that did
// that starts the next one a round later.
#[test]
fn shared_rounds(rt: HostRuntime) {
    assert_story(&rt, rt.alloc(), &SHARED, SHARED_ROUNDS);
}

const EIGHT_ROUNDS: &[Seen] = &[
    Seen::Noted(0, LinkFact::Opened),
    Seen::Noted(1, LinkFact::Opened),
    Seen::Noted(2, LinkFact::Opened),
    Seen::Noted(3, LinkFact::Opened),
    Seen::Noted(4, LinkFact::Opened),
    Seen::Noted(5, LinkFact::Opened),
    Seen::Noted(6, LinkFact::Opened),
    Seen::Noted(7, LinkFact::Opened),
    Seen::Noted(0, LinkFact::Ready),
    Seen::Started(0, 1, 10),
    Seen::Noted(1, LinkFact::Ready),
    Seen::Started(1, 2, 9),
    Seen::Noted(2, LinkFact::Ready),
    Seen::Started(2, 3, 8),
    Seen::Noted(3, LinkFact::Ready),
    Seen::Started(3, 4, 7),
    Seen::Noted(4, LinkFact::Ready),
    Seen::Started(4, 5, 6),
    Seen::Noted(5, LinkFact::Ready),
    Seen::Started(5, 6, 5),
    Seen::Noted(6, LinkFact::Ready),
    Seen::Started(6, 7, 4),
    Seen::Noted(7, LinkFact::Ready),
    Seen::Started(7, 8, 3),
    Seen::Ended(0, 1, Outcome::Done),
    Seen::Started(0, 9, 2),
    Seen::Ended(1, 2, Outcome::Done),
    Seen::Started(1, 10, 1),
    Seen::Ended(2, 3, Outcome::Done),
    Seen::Ended(3, 4, Outcome::Done),
    Seen::Ended(4, 5, Outcome::Done),
    Seen::Ended(5, 6, Outcome::Done),
    Seen::Ended(6, 7, Outcome::Done),
    Seen::Ended(7, 8, Outcome::Done),
    Seen::Ended(0, 9, Outcome::Done),
    Seen::Ended(1, 10, Outcome::Done),
];

// Eight printers start in one round, in their order, and end in one.
#[test]
fn eight_rounds(rt: HostRuntime) {
    assert_story(&rt, rt.alloc(), &EIGHT, EIGHT_ROUNDS);
}

// The second printer is lost when its link isn't made: the first one goes on. The last event is that of a run.
#[test]
fn rounds_without_a_link(rt: HostRuntime) {
    let shop = with_fails(&PLAIN, &[1]);
    assert_rounds(&rt, rt.alloc(), &shop, UNMADE_RUN, 7, None);
}

const LOST_ROUNDS: &[Seen] = &[
    Seen::Noted(0, LinkFact::Opened),
    Seen::Noted(1, LinkFact::Opened),
    Seen::Noted(0, LinkFact::Ready),
    Seen::Started(0, 1, 2),
    Seen::Noted(1, LinkFact::Ready),
    Seen::Started(1, 2, 1),
    Seen::Ended(0, 1, Outcome::Done),
    Seen::Started(0, 3, 1),
    Seen::Ended(0, 3, Outcome::Done),
    Seen::Noted(1, LinkFact::Failed),
    Seen::Ended(1, 2, Outcome::Failed),
];

// The second printer is lost in its print, which ends in that turn. By then the first one has ended both of its prints.
#[test]
fn rounds_of_a_lost_printer(rt: HostRuntime) {
    let shop = with_fails(&LONG_SECOND, &[60]);
    assert_story(&rt, rt.alloc(), &shop, LOST_ROUNDS);
}

// The keeper fails at these calls: the first `place` of these events come, and the fault in the round by whose end `fault` have come.
fn assert_keeper(
    rt: &impl Abort,
    alloc: Global,
    fails: &'static [u64],
    wanted: &'static [Seen],
    place: usize,
    fault: usize,
) {
    let fault = Some((FloorFault::KeeperFailed, fault));
    assert_rounds(rt, alloc, &with_keeper(fails), wanted, place, fault);
}

// The same of the shelf.
fn assert_shelf(
    rt: &impl Abort,
    alloc: Global,
    fails: &'static [u64],
    wanted: &'static [Seen],
    place: usize,
    fault: usize,
) {
    let fault = Some((FloorFault::ShelfFailed, fault));
    assert_rounds(rt, alloc, &with_shelf(fails), wanted, place, fault);
}

// Nothing is started in the rounds after that in which a start or an end isn't written. The two first prints end in one round, and both
// start in one.
#[test]
fn each_fault_of_the_keeper(rt: HostRuntime) {
    let alloc = rt.alloc();
    assert_keeper(&rt, alloc, &[1], NOTHING_RUN, 4, 4);
    assert_keeper(&rt, alloc, &[2], FIRST_RUN, 6, 5);
    assert_keeper(&rt, alloc, &[3], BOTH_RUN, 8, 8);
    assert_keeper(&rt, alloc, &[4], BOTH_RUN, 8, 8);
    assert_keeper(&rt, alloc, &[5], PLAIN_ROUNDS, 10, 9);
    assert_keeper(&rt, alloc, &[6], PLAIN_ROUNDS, 10, 10);
}

// Nothing is started in the rounds after that in which a file isn't read.
#[test]
fn each_fault_of_the_shelf(rt: HostRuntime) {
    let alloc = rt.alloc();
    assert_shelf(&rt, alloc, &[3], NOTHING_RUN, 4, 4);
    assert_shelf(&rt, alloc, &[4], FIRST_RUN, 6, 5);
    assert_shelf(&rt, alloc, &[5], BOTH_RUN, 8, 8);
}
