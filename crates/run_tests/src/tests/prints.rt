//! Runs in which a file is printed.
use super::*;
use job_desk::{LinkFact, State};
use octo_asks::StoredCause;
use octo_keeper::KeeperFault;
use print_queue::Outcome;
use std::alloc::Global;
use std::process::Abort;
use std::sync::Wait;

// More commands than a turn issues, and than four asks wait for.
const LONG: &[u8] =
    b"G28 ; --XY\r\nG1 X10\nG1 X11\nG1 X12\nG1 X13\nG1 X14\nG1 X15\nG1 X16\nG1 X17\n";

// Asks to connect, and, once the printer is operational, to store and print a file.
fn printing(rt: &impl Abort, alloc: Global, select: bool, bytes: &[u8]) -> AskList {
    let mut asks = AskList::new(alloc);
    add(rt, alloc, &mut asks, ROOT, Request::Connect { port: None });
    versions(rt, alloc, &mut asks, 20);
    let request = put_file(rt, alloc, select, bytes);
    add(rt, alloc, &mut asks, ROOT, request);
    asks
}

// A connect is answered and dialled, a file is stored and printed, and the run goes on until the print has ended: it takes turns at which
// nothing is asked.
#[test]
fn prints_after_the_leaves(rt: HostRuntime) {
    let mut asks = printing(&rt, rt.alloc(), false, LONG);
    leave(&rt, rt.alloc(), &mut asks);
    let ran = Ran::over(&rt, rt.alloc(), asks, &[]);
    assert_eq!(rt; ran.calls(), 22);
    assert!(rt; matches!(ran.entry(0), Some(SeenEntry::Call(_, _, Seen::Accepted))));
    assert!(rt; matches!(ran.entry(1), Some(SeenEntry::Note(LinkFact::Opened))));
    assert!(rt; matches!(ran.last(), Some(SeenEntry::Close)));
    assert_eq!(rt; ran.kept_outcome(0), Some(Outcome::Done));
    assert_eq!(rt; ran.kept_outcome(1), None);
    ran.end();
}

// Whether an answer says that a file was stored, selected and begun to be printed.
fn has_upload(ran: &Ran) -> bool {
    for place in 0..ran.entries().len() {
        if matches!(
            ran.entry(place),
            Some(SeenEntry::Call(_, _, Seen::Uploaded(true, true)))
        ) {
            return true;
        }
    }
    false
}

// Whether an answer says that the printer prints.
fn has_printing(ran: &Ran) -> bool {
    for place in 0..ran.entries().len() {
        if matches!(
            ran.entry(place),
            Some(SeenEntry::Call(_, _, Seen::Connection(State::Printing)))
        ) {
            return true;
        }
    }
    false
}

// What kept an upload from its print, if memory ran out or a call failed.
fn cause_of(ran: &Ran) -> &'static str {
    if ran.entries().is_empty() {
        return "no memory for the history";
    }
    for place in 0..ran.entries().len() {
        match ran.entry(place) {
            Some(SeenEntry::Call(_, _, Seen::NoMemory)) => return "out of memory",
            Some(SeenEntry::Call(_, _, Seen::Stored(StoredCause::NoMemory))) => {
                return "Stored, NoMemory";
            }
            Some(SeenEntry::Call(_, _, Seen::Stored(StoredCause::KeeperFault))) => {
                return "keeper failed";
            }
            Some(SeenEntry::Note(LinkFact::Failed)) => return "link failed",
            _ => {}
        }
    }
    "another outcome"
}

// An upload that asks for both is selected and printed, while the printer is operational.
#[test]
fn upload_prints(rt: HostRuntime) {
    let mut asks = printing(&rt, rt.alloc(), true, LONG);
    add(&rt, rt.alloc(), &mut asks, ROOT, Request::GetConnection);
    leave(&rt, rt.alloc(), &mut asks);
    let ran = Ran::over(&rt, rt.alloc(), asks, &[]);
    assert_eq!(rt; ran.calls(), 23);
    assert!(rt; has_upload(&ran), "{}", cause_of(&ran));
    assert!(rt; has_printing(&ran), "{}", cause_of(&ran));
    ran.end();
}

// The keeper fails at the end of the print, with which the run ends: the record is still active, and its end unwritten.
#[test]
fn end_unwritten(rt: HostRuntime) {
    let mut asks = printing(&rt, rt.alloc(), false, LONG);
    leave(&rt, rt.alloc(), &mut asks);
    let ran = Ran::over(&rt, rt.alloc(), asks, &[3]);
    assert_eq!(rt; ran.calls(), 22);
    assert_eq!(rt; ran.kept_outcome(0), Some(Outcome::Active));
    assert_eq!(rt; ran.kept_outcome(1), None);
    assert_eq!(rt; ran.unwritten(), Some((1, KeeperFault::Failed)));
    ran.end();
}

// The same, and a turn later the end is written.
#[test]
fn end_written_later(rt: HostRuntime) {
    let mut asks = printing(&rt, rt.alloc(), false, b"G28\n");
    versions(&rt, rt.alloc(), &mut asks, 40);
    leave(&rt, rt.alloc(), &mut asks);
    let ran = Ran::over(&rt, rt.alloc(), asks, &[3]);
    assert_eq!(rt; ran.calls(), 62);
    assert_eq!(rt; ran.kept_outcome(0), Some(Outcome::Done));
    assert_eq!(rt; ran.kept_outcome(1), None);
    assert_eq!(rt; ran.unwritten(), None);
    ran.end();
}
