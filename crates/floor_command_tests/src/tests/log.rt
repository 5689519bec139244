//! The lines of a floor's log.
use arrayvec::ArrayVec;
use byte_text::Name;
use job_desk::{LinkFact, Note};
use octo_floor::Watch;
use octo_floor_bay::FloorEvent;
use octo_floor_command::FloorLog;
use octo_outside::{CallList, MemorySink};
use print_queue::{Ending, Outcome, PrintRow, QueueEntry};
use std::alloc::Global;
use std::process::Abort;

// An entry of which one copy of 5 was started.
fn entry() -> QueueEntry {
    QueueEntry {
        user: Name::of_short("ana"),
        name: Name::of_short("job-7"),
        file: Name::of_short("part.gcode"),
        priority: 5,
        copies: 5,
        left: 4,
        material: Name::of_short("PLA"),
        arrival: 1,
    }
}

fn started(printer: u8) -> FloorEvent {
    let row = PrintRow {
        number: 1,
        user: Name::of_short("ana"),
        file: Name::of_short("part.gcode"),
        commands: 3,
        outcome: Outcome::Active,
    };
    FloorEvent::Started {
        printer,
        row,
        entry: entry(),
    }
}

fn noted(printer: u8, fact: LinkFact) -> FloorEvent {
    FloorEvent::Noted {
        printer,
        note: Note {
            moment: 0,
            acked: 0,
            issued: ArrayVec::new(),
            temps: None,
            fact,
        },
    }
}

fn ended(printer: u8, outcome: Outcome) -> FloorEvent {
    FloorEvent::Ended {
        printer,
        ending: Ending { print: 1, outcome },
    }
}

// What these events write to a log of printers at two ports.
fn assert_written(rt: &impl Abort, alloc: Global, events: &[FloorEvent], wanted: &str) {
    let ports = [
        Name::of_short("127.0.0.1:7100"),
        Name::of_short("127.0.0.1:7101"),
    ];
    let mut log = FloorLog::new(MemorySink::new(alloc, CallList::new(alloc)));
    log.see(&ports, events);
    assert_eq!(rt; log.log().written().unwrap_or(b""), wanted.as_bytes());
    drop(log);
    drop(ports);
}

#[test]
fn prints(rt: HostRuntime) {
    let events = [
        started(1),
        noted(0, LinkFact::Ready),
        ended(0, Outcome::Done),
    ];
    assert_written(
        &rt,
        rt.alloc(),
        &events,
        "printer 1 (127.0.0.1:7101): began job-7 of ana (part.gcode, copy 2 of 5)\nprinter 0 (127.0.0.1:7100): done\n",
    );
    drop(events);
}

#[test]
fn lost_printers(rt: HostRuntime) {
    let events = [
        noted(0, LinkFact::NoPort),
        noted(1, LinkFact::Failed),
        ended(1, Outcome::Failed),
    ];
    assert_written(
        &rt,
        rt.alloc(),
        &events,
        "printer 0 (127.0.0.1:7100): lost: no such port\nprinter 1 (127.0.0.1:7101): failed: link failed\nprinter 1 (127.0.0.1:7101): lost\n",
    );
    drop(events);
}

#[test]
fn passed_entries(rt: HostRuntime) {
    let events = [FloorEvent::Passed { entry: entry() }];
    assert_written(
        &rt,
        rt.alloc(),
        &events,
        "passed over: job-7 of ana (part.gcode can't be printed)\n",
    );
    drop(events);
}
