//! Tables that change with their keeper.
ghost use Rattle.std.specs.Prelude.{◌≡◌, None};

use super::makers::{entry, keeper};
use byte_text::Name;
use octo_access::{Groups, Policy};
use octo_asks::Answer;
use octo_house_tables::HostTables;
use octo_keeper::{Keeper, MemoryKeeper};
use octo_outside::Blob;
use print_queue::{Ending, Outcome};
use std::alloc::Global;
use std::process::Abort;
use test_makers::kept_outcome;

// The tables of a host that begins with what the keeper keeps.
fn tables_of<K: Keeper>(rt: &impl Abort, alloc: Global, keeper: &mut K) -> HostTables {
    match keeper.load(alloc) {
        Ok(tables) => HostTables::new(alloc, tables),
        Err(_) => panic!(rt; "no tables"),
    }
}

// How many users, entries and prints are shown.
fn counts(tables: &HostTables) -> Option<(usize, usize, usize)> {
    let users = tables.shown_users().ok()?;
    let entries = tables.shown_entries(&None).ok()?;
    let prints = tables.shown_prints(&None).ok()?;
    Some((
        users.as_slice().len(),
        entries.as_slice().len(),
        prints.as_slice().len(),
    ))
}

fn adds_user<K: Keeper>(
    rt: &impl Abort,
    alloc: Global,
    tables: &mut HostTables,
    keeper: &mut K,
) -> bool {
    let policy = Policy::new(Groups::new(alloc), None);
    let key = Blob::from_slice(alloc, b"ben-key-0123456789").expect(rt, "no memory");
    let groups = arrayvec::ArrayVec::new();
    let answer = tables.put_user(
        keeper,
        &policy,
        &Name::from_text("ben").expect(rt, "a long name"),
        &key,
        &groups,
        true,
    );
    matches!(answer, Answer::User { .. })
}

fn switches_off<K: Keeper>(
    rt: &impl Abort,
    alloc: Global,
    tables: &mut HostTables,
    keeper: &mut K,
) -> bool {
    let policy = Policy::new(Groups::new(alloc), None);
    let answer = tables.change_user(
        keeper,
        &policy,
        &Name::from_text("ben").expect(rt, "a long name"),
        &None,
        &None,
        Some(false),
    );
    matches!(answer, Answer::Accepted)
}

// A user is added and switched off.
#[test]
fn ample_users(rt: HostRuntime) {
    let mut keeper = keeper(&rt, rt.alloc());
    let mut tables = tables_of(&rt, rt.alloc(), &mut keeper);
    assert!(rt; adds_user(&rt, rt.alloc(), &mut tables, &mut keeper));
    assert!(rt; switches_off(&rt, rt.alloc(), &mut tables, &mut keeper));
    assert!(rt; counts(&tables) == Some((2, 0, 0)));
}

fn puts<K: Keeper>(rt: &impl Abort, tables: &mut HostTables, keeper: &mut K) -> bool {
    matches!(
        tables.put_entry(keeper, &entry(rt)),
        Answer::OneEntry { .. }
    )
}

fn drops<K: Keeper>(rt: &impl Abort, tables: &mut HostTables, keeper: &mut K) -> bool {
    matches!(
        tables.drop_entry(
            keeper,
            &Name::from_text("ana").expect(rt, "a long name"),
            &Name::from_text("job-1").expect(rt, "a long name")
        ),
        Answer::Accepted
    )
}

// An entry is put and dropped.
#[test]
fn ample_entries(rt: HostRuntime) {
    let mut keeper = keeper(&rt, rt.alloc());
    let mut tables = tables_of(&rt, rt.alloc(), &mut keeper);
    assert!(rt; puts(&rt, &mut tables, &mut keeper));
    assert!(rt; counts(&tables) == Some((1, 1, 0)));
    assert!(rt; drops(&rt, &mut tables, &mut keeper));
    assert!(rt; counts(&tables) == Some((1, 0, 0)));
}

// Begins a print of ana's.
fn begins<K: Keeper>(rt: &impl Abort, tables: &mut HostTables, keeper: &mut K) -> bool {
    if tables.check_room().is_err() {
        return false;
    }
    let row = tables.next_row(
        &Name::from_text("ana").expect(rt, "a long name"),
        &Name::from_text("a.gcode").expect(rt, "a long name"),
        218,
    );
    tables.begin_print(keeper, None, row, None).is_ok()
}

// A print begins and ends.
#[test]
fn ample_prints(rt: HostRuntime) {
    let mut keeper = keeper(&rt, rt.alloc());
    let mut tables = tables_of(&rt, rt.alloc(), &mut keeper);
    assert!(rt; begins(&rt, &mut tables, &mut keeper));
    assert!(rt; counts(&tables) == Some((1, 0, 1)));
    assert!(rt; tables.unwritten().is_none());
    let ending = Ending {
        print: 1,
        outcome: Outcome::Done,
    };
    tables.note_end(&mut keeper, Some(ending));
    assert!(rt; kept_outcome(&keeper, 0) == Some(Outcome::Done));
}
