//! Rows of asks for the queue and the users, and the faults of each of their calls.
use super::rows::{Calls, IDLE, ONE, Place, STORED, Step, calls_of};
use crate::tests::seen::Seen;
use crate::tests::wishes::Wish;
use octo_access::Permission;
use print_queue::Outcome;
use test_makers::{ANA, BEN, ROOT};

const PUT: &[Step] = &[
    (ANA, Wish::Upload(ONE, false), Calls::OfShelf, STORED),
    (
        ANA,
        Wish::Put("job-1", 5, 1, "any"),
        Calls::OfKeeper,
        Seen::OneEntry(5, 1),
    ),
    (
        ANA,
        Wish::Put("job-1", 5, 1, "any"),
        Calls::Neither,
        Seen::OneEntry(5, 1),
    ),
    (
        ANA,
        Wish::Put("job-1", 6, 1, "any"),
        Calls::Neither,
        Seen::NameTaken(Some(5)),
    ),
    (ANA, Wish::Queue, Calls::Neither, Seen::Entries(1, 1)),
    (BEN, Wish::Queue, Calls::Neither, Seen::Entries(0, 0)),
    (ANA, Wish::Drop("job-1"), Calls::OfKeeper, Seen::Accepted),
    (ANA, Wish::Queue, Calls::Neither, Seen::Entries(0, 0)),
];

// An entry that is put again, and with another priority, and dropped.
#[test]
fn put(rt: HostRuntime) {
    assert_eq!(rt; calls_of(&rt, rt.alloc(), PUT, Place::AtKeeper), 2);
    assert_eq!(rt; calls_of(&rt, rt.alloc(), PUT, Place::AtShelf), 1);
}

const COPIES: &[Step] = &[
    (ANA, Wish::Connect, Calls::Neither, Seen::Accepted),
    (ANA, IDLE, Calls::Neither, Seen::Turned),
    (ANA, Wish::Upload(ONE, false), Calls::OfShelf, STORED),
    (
        ANA,
        Wish::Put("job-1", 5, 1, "PETG"),
        Calls::OfKeeper,
        Seen::OneEntry(5, 1),
    ),
    (BEN, Wish::Next, Calls::Neither, Seen::NoEntry),
    (
        ANA,
        Wish::Put("job-2", 5, 2, "PLA"),
        Calls::OfKeeper,
        Seen::OneEntry(5, 2),
    ),
    (BEN, Wish::Next, Calls::OfBoth, Seen::TakenEntry(2)),
    (
        ANA,
        Wish::Put("job-2", 5, 2, "PLA"),
        Calls::Neither,
        Seen::OneEntry(5, 1),
    ),
    (ANA, IDLE, Calls::OfKeeper, Seen::Turned),
    (BEN, Wish::Next, Calls::OfBoth, Seen::TakenEntry(1)),
    (ANA, Wish::Queue, Calls::Neither, Seen::Entries(1, 1)),
    (ANA, IDLE, Calls::OfKeeper, Seen::Turned),
    (BEN, Wish::Next, Calls::Neither, Seen::NoEntry),
    (
        ANA,
        Wish::Prints,
        Calls::Neither,
        Seen::Prints(2, Some(Outcome::Done)),
    ),
    (BEN, Wish::Prints, Calls::Neither, Seen::Prints(0, None)),
];

// Two copies for PLA, and an entry for another material, on a printer of PLA.
#[test]
fn copies(rt: HostRuntime) {
    assert_eq!(rt; calls_of(&rt, rt.alloc(), COPIES, Place::AtKeeper), 6);
    assert_eq!(rt; calls_of(&rt, rt.alloc(), COPIES, Place::AtShelf), 3);
}

const USERS: &[Step] = &[
    (
        ROOT,
        Wish::AddUser("tom"),
        Calls::OfKeeper,
        Seen::User(true),
    ),
    (
        b"tom-key-0123456789",
        Wish::Prints,
        Calls::Neither,
        Seen::Prints(0, None),
    ),
    (ROOT, Wish::SwitchOff, Calls::OfKeeper, Seen::Accepted),
    (
        b"tom-key-0123456789",
        Wish::Prints,
        Calls::Neither,
        Seen::Denied(None),
    ),
    (ROOT, Wish::Users, Calls::Neither, Seen::Users(4, 3)),
];

// A user is added and switched off.
#[test]
fn users(rt: HostRuntime) {
    assert_eq!(rt; calls_of(&rt, rt.alloc(), USERS, Place::AtKeeper), 2);
    assert_eq!(rt; calls_of(&rt, rt.alloc(), USERS, Place::AtShelf), 0);
}

const BACKUPS: &[Step] = &[
    (
        ANA,
        Wish::Backup,
        Calls::Neither,
        Seen::Denied(Some(Permission::System)),
    ),
    (ROOT, Wish::Backup, Calls::OfKeeper, Seen::Accepted),
    (ANA, Wish::Upload(ONE, false), Calls::OfShelf, STORED),
    (
        ANA,
        Wish::Put("job-1", 5, 1, "any"),
        Calls::OfKeeper,
        Seen::OneEntry(5, 1),
    ),
    (ROOT, Wish::Backup, Calls::OfKeeper, Seen::Accepted),
    (ANA, Wish::Queue, Calls::Neither, Seen::Entries(1, 1)),
];

// A backup is for one with the permission SYSTEM. Done or failed, it leaves all as it was.
#[test]
fn backups(rt: HostRuntime) {
    assert_eq!(rt; calls_of(&rt, rt.alloc(), BACKUPS, Place::AtKeeper), 3);
    assert_eq!(rt; calls_of(&rt, rt.alloc(), BACKUPS, Place::AtShelf), 1);
}
