//! A printer of a floor, from its connection to its end.
ghost use Rattle.std.specs.Prelude.{◌≡◌, ◌≤◌};
ghost use Rattle.printer_link.specs.Memory.{link_world};

use byte_text::Name;
use gcode_lines::{Job, read_commands};
use job_desk::State;
use octo_floor_bay::Bay;
use print_queue::{Ending, Outcome};
use printer_link::{FateList, MemoryLink};
use std::alloc::Global;
use temp_rules::first_hot;
use test_makers::{link_at, plain_session};

// The turns in which a printer here changes its state.
const TURNS: u64 = 1_000;

// A printer and its link, and the number of prints that it started.
#[derive(Drop)]
struct Printer {
    bay: Bay,
    link: MemoryLink,
    prints: u32,
    moment: u64,
    ghost up: { (link_world link).linked ≡ bay.session.up },
    ghost below: { bay.session.desk.greatest ≤ prints },
}

// A printer that isn't connected.
fn new_printer(alloc: Global) -> Option<Printer> {
    let link = link_at(alloc, "p", FateList::new(alloc))?;
    let bay = Bay::new(alloc, plain_session(alloc, 30_000)?).ok()?;
    Some(Printer {
        bay,
        link,
        prints: 0,
        moment: 0,
    })
}

impl Printer {
    fn state(&self) -> State
        ensures { result ≡ self.now.bay.session.desk.state }
    {
        self.bay.session().desk().state()
    }

    // One turn, ten milliseconds after the last one.
    fn turn(&mut self) -> Option<Ending> {
        self.moment = self.moment.saturating_add(10);
        self.bay.turn(&mut self.link, self.moment).ending
    }

    // Turns until the state is another than this; the last print that ended in them.
    fn turn_past(&mut self, state: State) -> Option<Ending> {
        let mut last = None;
        for _ in 0..TURNS {
            if self.state() != state {
                return last;
            }
            last = self.turn().or(last);
        }
        last
    }

    fn connect(&mut self) -> bool {
        self.bay.connect(&Name::of_short("p")).is_ok()
    }

    // Starts a print, if the printer is free and the commands aren't too hot.
    fn start(&mut self, job: Job) -> bool {
        match self.state() {
            State::Operational => {}
            _ => return false,
        }
        if self.prints == u32::MAX {
            return false;
        }
        match first_hot(&job, self.bay.session().desk().limits()) {
            Some(_) => return false,
            None => {}
        }
        self.prints += 1;
        self.bay.start(&Name::of_short("a.gcode"), job, self.prints);
        true
    }

    // Connects: whether the printer is free then.
    fn open(&mut self) -> bool {
        if !self.connect() {
            return false;
        }
        self.turn_past(State::Connecting);
        self.state() == State::Operational
    }

    // Prints these commands: how the print ended.
    fn print(&mut self, job: Job) -> Option<Ending> {
        if !self.start(job) {
            return None;
        }
        let first = self.turn_past(State::Printing);
        self.turn_past(State::Finishing).or(first)
    }

    // Disconnects: the print that ended in that.
    fn close(&mut self) -> Option<Ending> {
        self.bay.disconnect();
        self.turn_past(State::Closing)
    }

    // Drops it in one place. A test in which it goes out of scope would have to prove that drop itself.
    fn end(self) {}
}

// Two commands.
fn two_commands(alloc: Global) -> Option<Job> {
    read_commands(alloc, b"G28\nG1 X5\n").ok()
}

// How print 1 ended.
fn ended(outcome: Outcome) -> Option<Ending> {
    Some(Ending { print: 1, outcome })
}

// A print from the connection to its end.
#[test]
fn ample(rt: HostRuntime) {
    let job = two_commands(rt.alloc()).expect(&rt, "no memory");
    let mut printer = new_printer(rt.alloc()).expect(&rt, "no memory");
    assert!(rt; printer.open());
    assert_eq!(rt; printer.print(job), ended(Outcome::Done));
    assert_eq!(rt; printer.close(), None);
    assert_eq!(rt; printer.state(), State::Offline);
    printer.end();
}

#[test]
fn a_disconnect_cancels_the_print(rt: HostRuntime) {
    let job = two_commands(rt.alloc()).expect(&rt, "no memory");
    let mut printer = new_printer(rt.alloc()).expect(&rt, "no memory");
    assert!(rt; printer.open());
    assert!(rt; printer.start(job));
    assert_eq!(rt; printer.close(), ended(Outcome::Cancelled));
    printer.end();
}
