//! Rows and what is shown of them.
use super::makers::{entry, print, user};
use byte_text::Name;
use octo_house_tables::{
    add_name, add_print, copy_names, names_in, read_bytes, read_job, read_lines, reserve_name,
    reserve_print, shown_entries, shown_files, shown_prints, shown_users,
};
use octo_keeper::{MemoryShelf, Shelf};
use octo_outside::{Blob, CallList};
use print_queue::{Outcome, PrintRow};
use std::alloc::Global;
use std::process::Abort;

// Adds a name.
fn grow_names(rt: &impl Abort, names: &mut Vec<Name>, text: &str) {
    assert!(rt; reserve_name(names).is_ok());
    add_name(names, &Name::from_text(text).expect(rt, "a long name"));
}

// Whether names have this many, and this first one.
fn begin_with(names: &[Name], count: usize, first: &str) -> bool {
    match names.first() {
        Some(name) => names.len() == count && name.as_str() == first,
        None => false,
    }
}

// Whether the names' copy begins with the same.
fn is_copied(alloc: Global, names: &[Name]) -> bool {
    match copy_names(alloc, names) {
        Ok(copy) => begin_with(copy.as_slice(), 2, "a.gcode"),
        Err(_) => false,
    }
}

// Names of files, in their order.
#[test]
fn ample_names(rt: HostRuntime) {
    let mut names = match names_in(
        rt.alloc(),
        &[(Name::from_text("b.gcode").expect(&rt, "a long name"), 4)],
    ) {
        Ok(names) => names,
        Err(_) => panic!(rt; "no memory"),
    };
    grow_names(&rt, &mut names, "a.gcode");
    assert!(rt; begin_with(&names, 2, "a.gcode"));
    assert!(rt; is_copied(rt.alloc(), &names));
}

// The size of the only file that is shown.
fn size_shown(alloc: Global, file: &Name) -> Option<u64> {
    let list = shown_files(alloc, &[(file.copy(), 4)]).ok()?;
    Some(list.as_slice().first()?.size)
}

// Whether the only user that is shown is active.
fn active_shown(rt: &impl Abort, alloc: Global) -> Option<bool> {
    let list = shown_users(alloc, &[user(rt, alloc, "ana")]).ok()?;
    Some(list.as_slice().first()?.active)
}

// The copies of the only entry that is shown.
fn copies_shown(rt: &impl Abort, alloc: Global) -> Option<u8> {
    let list = shown_entries(alloc, &[entry(rt)], &None).ok()?;
    Some(list.as_slice().first()?.left)
}

// The outcome of the only print that is shown.
fn outcome_shown(alloc: Global, rows: &[PrintRow]) -> Option<Outcome> {
    let list = shown_prints(alloc, rows, &None).ok()?;
    Some(list.as_slice().first()?.outcome)
}

// A file, a user and an entry as they are shown.
#[test]
fn ample_shown(rt: HostRuntime) {
    assert!(rt;
        size_shown(
            rt.alloc(),
            &Name::from_text("a.gcode").expect(&rt, "a long name")
        ) == Some(4)
    );
    assert!(rt; active_shown(&rt, rt.alloc()) == Some(true));
    assert!(rt; copies_shown(&rt, rt.alloc()) == Some(3));
}

// A print that was added to an empty list, as it is shown.
#[test]
fn ample_shown_print(rt: HostRuntime) {
    let mut rows = Vec::new(rt.alloc());
    assert!(rt; reserve_print(&mut rows).is_ok());
    add_print(&mut rows, print(&rt));
    assert!(rt; outcome_shown(rt.alloc(), &rows) == Some(Outcome::Active));
}

// A shelf that holds a file of one command.
fn shelf(rt: &impl Abort, alloc: Global, file: &Name) -> MemoryShelf {
    let mut shelf = MemoryShelf::new(alloc, CallList::new(alloc));
    assert!(rt; shelf.put(alloc, file, b"G28\n", None).is_ok());
    shelf
}

// The number of bytes of a file at a shelf, and of its commands.
fn file_read<S: Shelf>(alloc: Global, shelf: &mut S, file: &Name) -> Option<(usize, usize)> {
    let bytes = match read_bytes(alloc, shelf, file, None) {
        Ok(bytes) => bytes.as_slice().len(),
        Err(_) => return None,
    };
    match read_job(alloc, shelf, file) {
        Ok(job) => Some((bytes, job.count())),
        Err(_) => None,
    }
}

// The number of lines that a text is.
fn lines_read(rt: &impl Abort, alloc: Global) -> Option<usize> {
    match read_lines(
        alloc,
        &[Blob::from_slice(alloc, b"M105").expect(rt, "no memory")],
    ) {
        Ok(lines) => Some(lines.len()),
        Err(_) => None,
    }
}

// A file and a line that are read.
#[test]
fn ample_read(rt: HostRuntime) {
    let file = Name::from_text("a.gcode").expect(&rt, "a long name");
    let mut shelf = shelf(&rt, rt.alloc(), &file);
    assert!(rt; file_read(rt.alloc(), &mut shelf, &file) == Some((4, 1)));
    assert!(rt; lines_read(&rt, rt.alloc()) == Some(1));
}
