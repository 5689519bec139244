//! Rows and keepers. Out of memory, a test stops.
ghost use Rattle.std.specs.Prelude.{◌≡◌, ◌≤◌};
ghost use Rattle.print_queue.specs.Lawful.{IsWholeRow};
ghost use Rattle.print_queue.specs.Calls.{new_entry};

use byte_text::Name;
use octo_access::UserRow;
use octo_house_tables::{asked_entry, new_row, new_user};
use octo_keeper::MemoryKeeper;
use octo_outside::Blob;
use print_queue::{PrintRow, QueueEntry};
use std::alloc::Global;
use std::process::Abort;
use test_makers::{keeper_of, no_rows};

// An active user without groups.
pub(super) fn user(rt: &impl Abort, alloc: Global, text: &str) -> UserRow {
    let key = Blob::from_slice(alloc, b"key-0123456789abc").expect(rt, "no memory");
    new_user(
        &Name::from_text(text).expect(rt, "a long name"),
        &key,
        &arrayvec::ArrayVec::new(),
        true,
    )
}

// Three copies of ana's entry.
pub(super) fn entry(rt: &impl Abort) -> QueueEntry
    ensures priority { result.priority ≤ 100 }
    ensures whole { IsWholeRow result }
    ensures new { result ≡ new_entry result.user result.name result.file
        result.priority result.copies result.material }
{
    asked_entry(
        &Name::from_text("ana").expect(rt, "a long name"),
        &Name::from_text("job-1").expect(rt, "a long name"),
        &Name::from_text("a.gcode").expect(rt, "a long name"),
        5,
        3,
        &Name::from_text("any").expect(rt, "a long name"),
    )
}

// The record of ana's first print.
pub(super) fn print(rt: &impl Abort) -> PrintRow {
    new_row(
        1,
        &Name::from_text("ana").expect(rt, "a long name"),
        &Name::from_text("a.gcode").expect(rt, "a long name"),
        218,
    )
}

// A keeper that keeps ana alone.
pub(super) fn keeper(rt: &impl Abort, alloc: Global) -> MemoryKeeper {
    let mut tables = no_rows(alloc);
    assert!(rt; tables.users.push(user(rt, alloc, "ana")).is_ok());
    keeper_of(alloc, tables, &[]).expect(rt, "no memory")
}
