//! Rows of asks for prints and files, and the faults of each of their calls.
use super::rows::{Calls, IDLE, ONE, Place, STORED, Step, calls_of};
use crate::tests::seen::Seen;
use crate::tests::wishes::Wish;
use job_desk::State;
use octo_access::Permission;
use octo_asks::PrintRefusal;
use print_queue::Outcome;
use test_makers::{ANA, EVE};

const SIX: &[u8] = b"G28\nG1 X1\nG1 X2\nG1 X3\nG1 X4\nG1 X5\n";

const HOT: &[u8] = b"G28\nG1 X10\nM109 R260\n";

const CANCEL: &[Step] = &[
    (ANA, Wish::Connect, Calls::Neither, Seen::Accepted),
    (ANA, IDLE, Calls::Neither, Seen::Turned),
    (ANA, Wish::Upload(SIX, false), Calls::OfShelf, STORED),
    (ANA, Wish::Select(false), Calls::OfShelf, Seen::Accepted),
    (ANA, Wish::Start, Calls::OfKeeper, Seen::Accepted),
    (ANA, Wish::Pause, Calls::Neither, Seen::Accepted),
    (ANA, Wish::Cancel, Calls::Neither, Seen::Accepted),
    (
        ANA,
        Wish::Cancel,
        Calls::Neither,
        Seen::WrongState(State::Cancelling),
    ),
    (ANA, IDLE, Calls::OfKeeper, Seen::Turned),
    (
        ANA,
        Wish::Cancel,
        Calls::Neither,
        Seen::WrongState(State::Operational),
    ),
    (
        ANA,
        Wish::Prints,
        Calls::Neither,
        Seen::Prints(1, Some(Outcome::Cancelled)),
    ),
];

// A print that is cancelled while it pauses.
#[test]
fn cancel(rt: HostRuntime) {
    assert_eq!(rt; calls_of(&rt, rt.alloc(), CANCEL, Place::AtKeeper), 2);
    assert_eq!(rt; calls_of(&rt, rt.alloc(), CANCEL, Place::AtShelf), 2);
}

const RESTART: &[Step] = &[
    (ANA, Wish::Connect, Calls::Neither, Seen::Accepted),
    (ANA, IDLE, Calls::Neither, Seen::Turned),
    (ANA, Wish::Upload(SIX, false), Calls::OfShelf, STORED),
    (ANA, Wish::Select(true), Calls::OfBoth, Seen::Accepted),
    (ANA, Wish::Resume, Calls::Neither, Seen::Accepted),
    (
        ANA,
        Wish::Restart,
        Calls::Neither,
        Seen::WrongState(State::Printing),
    ),
    (ANA, Wish::Pause, Calls::Neither, Seen::Accepted),
    (
        ANA,
        Wish::Until(State::Paused),
        Calls::Neither,
        Seen::Turned,
    ),
    (ANA, Wish::Restart, Calls::OfKeeper, Seen::Accepted),
    (
        ANA,
        Wish::Prints,
        Calls::Neither,
        Seen::Prints(2, Some(Outcome::Active)),
    ),
    (ANA, IDLE, Calls::OfKeeper, Seen::Turned),
    (
        ANA,
        Wish::Prints,
        Calls::Neither,
        Seen::Prints(2, Some(Outcome::Done)),
    ),
];

// A print that is resumed and restarted while it goes on, and restarted once it is paused.
#[test]
fn restart(rt: HostRuntime) {
    assert_eq!(rt; calls_of(&rt, rt.alloc(), RESTART, Place::AtKeeper), 3);
    assert_eq!(rt; calls_of(&rt, rt.alloc(), RESTART, Place::AtShelf), 2);
}

const TOO_HOT: &[Step] = &[
    (ANA, Wish::Connect, Calls::Neither, Seen::Accepted),
    (ANA, IDLE, Calls::Neither, Seen::Turned),
    (
        ANA,
        Wish::Upload(HOT, true),
        Calls::OfShelf,
        Seen::Unprinted(
            true,
            PrintRefusal::TooHotLine {
                line: 3,
                asked: 260,
                limit: 250,
            },
        ),
    ),
    (
        ANA,
        Wish::Start,
        Calls::Neither,
        Seen::TooHotLine(3, 260, 250),
    ),
    (ANA, Wish::Select(false), Calls::OfShelf, Seen::Accepted),
    (ANA, Wish::Prints, Calls::Neither, Seen::Prints(0, None)),
];

// A file that is too hot for the tool.
#[test]
fn too_hot(rt: HostRuntime) {
    assert_eq!(rt; calls_of(&rt, rt.alloc(), TOO_HOT, Place::AtKeeper), 0);
    assert_eq!(rt; calls_of(&rt, rt.alloc(), TOO_HOT, Place::AtShelf), 2);
}

const START: &[Step] = &[
    (
        EVE,
        Wish::Start,
        Calls::Neither,
        Seen::Denied(Some(Permission::Print)),
    ),
    (
        b"no-key-0123456789",
        Wish::Start,
        Calls::Neither,
        Seen::Denied(None),
    ),
    (ANA, Wish::Connect, Calls::Neither, Seen::Accepted),
    (ANA, IDLE, Calls::Neither, Seen::Turned),
    (
        ANA,
        Wish::Upload(ONE, true),
        Calls::OfBoth,
        Seen::Uploaded(true, true),
    ),
    (ANA, IDLE, Calls::OfKeeper, Seen::Turned),
    (ANA, Wish::Start, Calls::OfKeeper, Seen::Accepted),
    (
        ANA,
        Wish::Prints,
        Calls::Neither,
        Seen::Prints(2, Some(Outcome::Active)),
    ),
    (ANA, IDLE, Calls::OfKeeper, Seen::Turned),
    (
        ANA,
        Wish::Prints,
        Calls::Neither,
        Seen::Prints(2, Some(Outcome::Done)),
    ),
];

// Callers who may not start, an upload that is printed, and a start.
#[test]
fn start(rt: HostRuntime) {
    assert_eq!(rt; calls_of(&rt, rt.alloc(), START, Place::AtKeeper), 4);
    assert_eq!(rt; calls_of(&rt, rt.alloc(), START, Place::AtShelf), 1);
}

const DELETE: &[Step] = &[
    (ANA, Wish::Connect, Calls::Neither, Seen::Accepted),
    (ANA, IDLE, Calls::Neither, Seen::Turned),
    (
        ANA,
        Wish::Upload(ONE, true),
        Calls::OfBoth,
        Seen::Uploaded(true, true),
    ),
    (ANA, Wish::Delete, Calls::Neither, Seen::FileBusy),
    (
        ANA,
        Wish::Upload(SIX, false),
        Calls::Neither,
        Seen::FileBusy,
    ),
    (ANA, IDLE, Calls::OfKeeper, Seen::Turned),
    (ANA, Wish::Show, Calls::OfShelf, Seen::File(4)),
    (ANA, Wish::Download, Calls::OfShelf, Seen::Download(4)),
    (ANA, Wish::Delete, Calls::OfShelf, Seen::Accepted),
    (ANA, Wish::Files, Calls::OfShelf, Seen::Files(0, 0)),
    (ANA, Wish::Delete, Calls::Neither, Seen::NoFile),
];

// The file that is printed is deleted: while it is printed, and later.
#[test]
fn delete(rt: HostRuntime) {
    assert_eq!(rt; calls_of(&rt, rt.alloc(), DELETE, Place::AtKeeper), 2);
    assert_eq!(rt; calls_of(&rt, rt.alloc(), DELETE, Place::AtShelf), 5);
}
