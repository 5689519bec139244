//! Tables in memory that take each kind of change, one of whose commits fails.
use super::only;
use crate::tests::ANA_KEY;
use byte_text::Name;
use octo_access::{Admin, UserRow, digest_of};
use octo_keeper::{Change, Keeper, KeeperFault, MemoryKeeper, Tables};
use octo_outside::CallList;
use print_queue::{Ending, Outcome, PrintRow, QueueEntry};
use std::alloc::{AllocError, Global};
use std::process::Abort;
use std::test::Fail;

// ana's entry of two copies.
fn entry(rt: &impl Abort) -> QueueEntry {
    QueueEntry {
        user: Name::from_text("ana").expect(rt, "a long name"),
        name: Name::from_text("job-1").expect(rt, "a long name"),
        file: Name::from_text("a.gcode").expect(rt, "a long name"),
        priority: 5,
        copies: 2,
        left: 2,
        material: Name::from_text("any").expect(rt, "a long name"),
        arrival: 1,
    }
}

fn user(rt: &impl Abort, active: bool) -> UserRow {
    let admin = Admin {
        name: Name::from_text("ana").expect(rt, "a long name"),
        digest: digest_of(ANA_KEY),
    };
    let mut row = admin.row();
    row.active = active;
    row
}

fn print(rt: &impl Abort, number: u32) -> PrintRow {
    PrintRow {
        number,
        user: Name::from_text("ana").expect(rt, "a long name"),
        file: Name::from_text("a.gcode").expect(rt, "a long name"),
        commands: 3,
        outcome: Outcome::Active,
    }
}

fn end_of(print: u32, outcome: Outcome) -> Ending {
    Ending { print, outcome }
}

// No tables' rows; the calls with these numbers fail.
fn keeper(alloc: Global, fail_at: CallList) -> MemoryKeeper {
    MemoryKeeper::new(Tables::empty(alloc), fail_at)
}

fn commits(alloc: Global, keeper: &mut MemoryKeeper, change: Change) -> Result<(), KeeperFault> {
    keeper.commit(alloc, &change)
}

// How many users, entries and prints are loaded.
fn counts(alloc: Global, keeper: &mut MemoryKeeper) -> Option<(usize, usize, usize)> {
    let tables = keeper.load(alloc).ok()?;
    Some((
        tables.users.as_slice().len(),
        tables.queue.as_slice().len(),
        tables.prints.as_slice().len(),
    ))
}

fn is_active(keeper: &MemoryKeeper) -> Option<bool> {
    Some(keeper.tables()?.users.as_slice().first()?.active)
}

fn copies_left(keeper: &MemoryKeeper) -> Option<u8> {
    Some(keeper.tables()?.queue.as_slice().first()?.left)
}

fn outcome(keeper: &MemoryKeeper, place: usize) -> Option<Outcome> {
    Some(keeper.tables()?.prints.as_slice().get(place)?.outcome)
}

fn puts_entry(
    rt: &impl Abort,
    alloc: Global,
    keeper: &mut MemoryKeeper,
) -> Result<(), KeeperFault> {
    commits(alloc, keeper, Change::PutEntry(entry(rt)))
}

fn drops_entry(
    rt: &impl Abort,
    alloc: Global,
    keeper: &mut MemoryKeeper,
) -> Result<(), KeeperFault> {
    let drop = Change::DropEntry {
        user: Name::from_text("ana").expect(rt, "a long name"),
        name: Name::from_text("job-1").expect(rt, "a long name"),
    };
    commits(alloc, keeper, drop)
}

// The first commit fails, and the second makes its change.
#[test]
fn ample(rt: HostRuntime) {
    let alloc = rt.alloc();
    let mut keeper = keeper(alloc, only(&rt, alloc, 1));
    assert_eq!(rt;
        puts_entry(&rt, alloc, &mut keeper),
        Err(KeeperFault::Failed)
    );
    assert_eq!(rt; puts_entry(&rt, alloc, &mut keeper), Ok(()));
    assert!(rt; counts(alloc, &mut keeper) == Some((0, 1, 0)));
}

// An entry is put and dropped.
#[test]
fn ample_entries(rt: HostRuntime) {
    let alloc = rt.alloc();
    let mut keeper = keeper(alloc, CallList::new(alloc));
    assert_eq!(rt; puts_entry(&rt, alloc, &mut keeper), Ok(()));
    assert_eq!(rt; drops_entry(&rt, alloc, &mut keeper), Ok(()));
    assert!(rt; counts(alloc, &mut keeper) == Some((0, 0, 0)));
}

// How many entries the last backup has.
fn saved_entries(keeper: &MemoryKeeper) -> Option<usize> {
    Some(keeper.saved()?.queue.as_slice().len())
}

// A backup fails, and the next one has the entry that was put. Both leave the tables.
#[test]
fn backups(rt: HostRuntime) {
    let alloc = rt.alloc();
    let mut keeper = keeper(alloc, only(&rt, alloc, 2));
    assert_eq!(rt; puts_entry(&rt, alloc, &mut keeper), Ok(()));
    assert_eq!(rt; keeper.backup(alloc), Err(KeeperFault::Failed));
    assert_eq!(rt; saved_entries(&keeper), None);
    assert_eq!(rt; keeper.backup(alloc), Ok(()));
    assert_eq!(rt; saved_entries(&keeper), Some(1));
    assert!(rt; counts(alloc, &mut keeper) == Some((0, 1, 0)));
}

// A user is added and switched off.
#[test]
fn ample_users(rt: HostRuntime) {
    let alloc = rt.alloc();
    let mut keeper = keeper(alloc, CallList::new(alloc));
    let put = commits(alloc, &mut keeper, Change::PutUser(user(&rt, true)));
    assert_eq!(rt; put, Ok(()));
    let set = commits(alloc, &mut keeper, Change::SetUser(user(&rt, false)));
    assert_eq!(rt; set, Ok(()));
    assert!(rt; is_active(&keeper) == Some(false));
    assert!(rt; counts(alloc, &mut keeper) == Some((1, 0, 0)));
}

// A keeper in which a print began, and was left for one of a copy of an entry.
fn with_two_prints(rt: &impl Abort, alloc: Global) -> MemoryKeeper {
    let mut keeper = keeper(alloc, CallList::new(alloc));
    assert_eq!(rt; puts_entry(rt, alloc, &mut keeper), Ok(()));
    let first = Change::Begin {
        ended: None,
        print: print(rt, 1),
        taken: None,
    };
    assert_eq!(rt; commits(alloc, &mut keeper, first), Ok(()));
    let second = Change::Begin {
        ended: Some(end_of(1, Outcome::Cancelled)),
        print: print(rt, 2),
        taken: Some(entry(rt)),
    };
    assert_eq!(rt; commits(alloc, &mut keeper, second), Ok(()));
    keeper
}

// A print begins, is left for a copy of an entry, and that one ends.
#[test]
fn ample_prints(rt: HostRuntime) {
    let mut keeper = with_two_prints(&rt, rt.alloc());
    let end = Change::End(end_of(2, Outcome::Done));
    assert_eq!(rt; commits(rt.alloc(), &mut keeper, end), Ok(()));
    assert!(rt; copies_left(&keeper) == Some(1));
    assert!(rt; outcome(&keeper, 0) == Some(Outcome::Cancelled));
    assert!(rt; outcome(&keeper, 1) == Some(Outcome::Done));
}

// An entry's user, name, priority and arrival.
type Row = (&'static str, &'static str, u8, u32);

// Queues in their order, and whether a host can begin with each.
const QUEUES: [(&[Row], bool); 6] = [
    (&[], true),
    (
        &[
            ("bob", "job-1", 9, 3),
            ("ana", "job-2", 9, 4),
            ("bob", "job-2", 1, 1),
            ("ana", "job-1", 1, 2),
        ],
        true,
    ),
    // One name is the beginning of the other, and of user and name together the bytes are the same.
    (
        &[("ana", "b", 9, 3), ("an", "ab", 5, 1), ("ana", "bc", 1, 2)],
        true,
    ),
    // The same arrival.
    (
        &[
            ("bob", "job-1", 9, 3),
            ("ana", "job-1", 5, 1),
            ("ana", "job-2", 1, 3),
        ],
        false,
    ),
    // The same user and name.
    (
        &[
            ("ana", "job-1", 9, 3),
            ("bob", "job-1", 5, 1),
            ("ana", "job-1", 1, 2),
        ],
        false,
    ),
    (&[("ana", "job-1", 5, 1), ("ana", "job-1", 5, 1)], false),
];

fn entry_of(rt: &impl Abort, row: &Row) -> QueueEntry {
    let mut entry = entry(rt);
    entry.user = Name::from_text(row.0).expect(rt, "a long name");
    entry.name = Name::from_text(row.1).expect(rt, "a long name");
    entry.priority = row.2;
    entry.arrival = row.3;
    entry
}

// Whether a keeper loads tables with these entries.
fn loads(rt: &impl Abort, alloc: Global, rows: &[Row]) -> Result<bool, AllocError> {
    let mut tables = Tables::empty(alloc);
    for row in rows {
        tables.queue.push(entry_of(rt, row))?;
    }
    let mut keeper = MemoryKeeper::new(tables, CallList::new(alloc));
    Ok(keeper.load(alloc).is_ok())
}

#[test]
fn queues(rt: HostRuntime) -> Result<(), Fail> {
    for (rows, want) in QUEUES {
        assert_eq!(rt; loads(&rt, rt.alloc(), rows)?, want);
    }
    Ok(())
}

// One of ana's entries, with this number in its name.
fn numbered(rt: &impl Abort, alloc: Global, number: u32) -> Result<QueueEntry, AllocError> {
    let mut entry = entry(rt);
    let text = format!(in alloc; "job-{number}")?;
    entry.name = Name::from_text(&text).expect(rt, "a long name");
    entry.arrival = number;
    Ok(entry)
}

// Whether a keeper loads tables with this number of ana's entries.
fn loads_many(rt: &impl Abort, alloc: Global, count: u32) -> Result<bool, AllocError> {
    let mut tables = Tables::empty(alloc);
    for number in 0..count {
        tables.queue.push(numbered(rt, alloc, number)?)?;
    }
    let mut keeper = MemoryKeeper::new(tables, CallList::new(alloc));
    Ok(keeper.load(alloc).is_ok())
}

// A user has at most 64 entries.
#[test]
fn many_entries(rt: HostRuntime) -> Result<(), Fail> {
    assert!(rt; loads_many(&rt, rt.alloc(), 64)?);
    assert!(rt; !loads_many(&rt, rt.alloc(), 65)?);
    Ok(())
}
