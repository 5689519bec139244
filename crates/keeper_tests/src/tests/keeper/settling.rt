//! Prints of a former host, of which two were going on, are settled in memory, while one of the keeper's calls fails.
use super::only;
use byte_text::Name;
use octo_keeper::{KeeperFault, MemoryKeeper, Tables, settle_prints};
use octo_outside::CallList;
use print_queue::{Outcome, PrintRow};
use std::alloc::{AllocError, Global};
use std::process::Abort;
use std::test::Fail;

const ACTIVE: Outcome = Outcome::Active;

const FAILED: Outcome = Outcome::Failed;

// Four prints as the former host left them, and settled.
const LEFT: [Outcome; 4] = [Outcome::Done, ACTIVE, Outcome::Cancelled, ACTIVE];

const SETTLED: [Outcome; 4] = [Outcome::Done, FAILED, Outcome::Cancelled, FAILED];

const FIRST_SETTLED: [Outcome; 4] = [Outcome::Done, FAILED, Outcome::Cancelled, ACTIVE];

fn print(rt: &impl Abort, number: u32, outcome: Outcome) -> PrintRow {
    PrintRow {
        number,
        user: Name::from_text("ana").expect(rt, "a long name"),
        file: Name::from_text("a.gcode").expect(rt, "a long name"),
        commands: 3,
        outcome,
    }
}

// A keeper of the four prints, some of whose calls fail.
fn left(rt: &impl Abort, alloc: Global, fails: CallList) -> Result<MemoryKeeper, AllocError> {
    let mut tables = Tables::empty(alloc);
    tables.prints.push(print(rt, 1, LEFT[0]))?;
    tables.prints.push(print(rt, 2, LEFT[1]))?;
    tables.prints.push(print(rt, 3, LEFT[2]))?;
    tables.prints.push(print(rt, 4, LEFT[3]))?;
    Ok(MemoryKeeper::new(tables, fails))
}

// Whether the prints have these outcomes.
fn has(keeper: &MemoryKeeper, wanted: [Outcome; 4]) -> bool {
    let Some(tables) = keeper.tables() else {
        return false;
    };
    match tables.prints.as_slice() {
        [one, two, three, four] => {
            one.outcome == wanted[0]
                && two.outcome == wanted[1]
                && three.outcome == wanted[2]
                && four.outcome == wanted[3]
        }
        _ => false,
    }
}

// Settles the prints while that call fails, and then again.
fn fails_at(rt: &impl Abort, alloc: Global, call: u64, after: [Outcome; 4]) -> Result<(), Fail> {
    let mut keeper = left(rt, alloc, only(rt, alloc, call))?;
    assert_eq!(rt; settle_prints(alloc, &mut keeper), Err(KeeperFault::Failed));
    assert!(rt; has(&keeper, after));
    assert_eq!(rt; settle_prints(alloc, &mut keeper), Ok(()));
    assert!(rt; has(&keeper, SETTLED));
    Ok(())
}

#[test]
fn settles(rt: HostRuntime) -> Result<(), Fail> {
    let alloc = rt.alloc();
    let mut keeper = left(&rt, alloc, CallList::new(alloc))?;
    assert_eq!(rt; settle_prints(alloc, &mut keeper), Ok(()));
    assert!(rt; has(&keeper, SETTLED));
    Ok(())
}

// The tables are loaded, and then each end is one commit.
#[test]
fn settles_later(rt: HostRuntime) -> Result<(), Fail> {
    fails_at(&rt, rt.alloc(), 1, LEFT)?;
    fails_at(&rt, rt.alloc(), 2, LEFT)?;
    fails_at(&rt, rt.alloc(), 3, FIRST_SETTLED)
}
