//! When a run reads its clock, and when it rests it.
use super::*;
use octo_outside::Clock;
use printer_link::{Fate, FateList};
use std::alloc::Global;
use std::process::Abort;

// A clock that goes on by one step at each look and by another one at each rest, in milliseconds. It counts both.
#[derive(Drop)]
struct CountedClock {
    moment: u64,
    by_look: u64,
    by_rest: u64,
    looks: u64,
    rests: u64,
}

impl CountedClock {
    fn new(moment: u64, by_look: u64, by_rest: u64) -> CountedClock {
        CountedClock {
            moment,
            by_look,
            by_rest,
            looks: 0,
            rests: 0,
        }
    }
}

impl Clock for CountedClock {
    ghost use Rattle.std.specs.Prelude.{None};

    ghost moment = { λ _. None };

    fn now(&mut self) -> u64 {
        let shown = self.moment;
        self.moment = shown.saturating_add(self.by_look);
        self.looks = self.looks.saturating_add(1);
        shown
    }

    fn rest(&mut self) {
        self.moment = self.moment.saturating_add(self.by_rest);
        self.rests = self.rests.saturating_add(1);
    }
}

// Each ask, and the turn of the link after it, has a look at the clock of its own: nine calls come at nine moments.
#[test]
fn a_look_for_each_turn(rt: HostRuntime) {
    let mut asks = AskList::new(rt.alloc());
    versions(&rt, rt.alloc(), &mut asks, 5);
    leave(&rt, rt.alloc(), &mut asks);
    let mut clock = CountedClock::new(100, 1, 0);
    let ran = Ran::by(
        &rt,
        rt.alloc(),
        asks,
        &[],
        FateList::new(rt.alloc()),
        &mut clock,
    );
    for place in 0..9 {
        assert!(rt; ran.moment(place) == Some(100 + place as u64));
    }
    assert!(rt; matches!(ran.entry(9), Some(SeenEntry::Close)));
    ran.end();
    assert_eq!(rt; (clock.looks, clock.rests), (9, 0));
}

// The hello arrives, and the three lines after it are lost.
fn three_lost(rt: &impl Abort, alloc: Global) -> FateList {
    let mut fates = FateList::new(alloc);
    for fate in [Fate::Whole, Fate::Lost, Fate::Lost, Fate::Lost] {
        assert!(rt; fates.push(fate).is_ok());
    }
    fates
}

// Asks to connect, and, once the printer is operational, to store and print a file; then all workers leave.
fn print_asks(rt: &impl Abort, alloc: Global) -> AskList {
    let mut asks = AskList::new(alloc);
    add(rt, alloc, &mut asks, ROOT, Request::Connect { port: None });
    versions(rt, alloc, &mut asks, 20);
    let request = put_file(rt, alloc, false, b"G28\nG1 X5\n");
    add(rt, alloc, &mut asks, ROOT, request);
    leave(rt, alloc, &mut asks);
    asks
}

// The lines of a print are lost, and nothing is heard until the host polls, five seconds later. It rests at each of these turns, for
// ten milliseconds, and never at a turn at which it was asked or heard something: 26 were asks, and at most 30 heard a line.
#[test]
fn a_rest_for_each_quiet_turn(rt: HostRuntime) {
    let asks = print_asks(&rt, rt.alloc());
    let mut clock = CountedClock::new(100, 0, 10);
    let ran = Ran::by(
        &rt,
        rt.alloc(),
        asks,
        &[],
        three_lost(&rt, rt.alloc()),
        &mut clock,
    );
    assert_eq!(rt; ran.calls(), 22);
    assert!(rt; matches!(ran.last(), Some(SeenEntry::Close)));
    ran.end();
    let busy = clock.looks.saturating_sub(clock.rests);
    assert!(rt; 400 <= clock.rests);
    assert!(rt; 26 <= busy && busy <= 56);
}
