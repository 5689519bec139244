//! A shelf in memory, one of whose calls fails.
use super::only;
use byte_text::Name;
use octo_keeper::{MemoryShelf, Shelf, ShelfFault};
use std::alloc::Global;
use std::process::Abort;

fn file(rt: &impl Abort) -> Name {
    Name::from_text("a.gcode").expect(rt, "a long name")
}

// A shelf with a file. The call with this number fails.
fn shelf(rt: &impl Abort, alloc: Global, fails: u64) -> MemoryShelf {
    let mut shelf = MemoryShelf::new(alloc, only(rt, alloc, fails));
    assert_eq!(rt; shelf.put(alloc, &file(rt), b"G28\n", None), Ok(()));
    shelf
}

fn removes(rt: &impl Abort, alloc: Global, shelf: &mut MemoryShelf) -> Result<(), ShelfFault> {
    shelf.remove(alloc, &file(rt))
}

fn holds(rt: &impl Abort, alloc: Global, shelf: &mut MemoryShelf) -> bool {
    match shelf.get(alloc, &file(rt), None) {
        Ok(Some(kept)) => kept.as_slice() == b"G28\n".as_slice(),
        _ => false,
    }
}

// The size of the first file of the list.
fn size_listed(alloc: Global, shelf: &mut MemoryShelf) -> Option<u64> {
    let list = shelf.list(alloc).ok()?;
    Some(list.as_slice().first()?.1)
}

// The size of the file, by a call of its own.
fn size(rt: &impl Abort, shelf: &mut MemoryShelf) -> Result<Option<u64>, ShelfFault> {
    shelf.size(&file(rt))
}

// The third call fails, which is to tell the size of the file. It has one before, and none once the file is removed.
#[test]
fn sizes(rt: HostRuntime) {
    let alloc = rt.alloc();
    let mut shelf = shelf(&rt, alloc, 3);
    assert_eq!(rt; size(&rt, &mut shelf), Ok(Some(4)));
    assert_eq!(rt; size(&rt, &mut shelf), Err(ShelfFault::Failed));
    assert_eq!(rt; removes(&rt, alloc, &mut shelf), Ok(()));
    assert_eq!(rt; size(&rt, &mut shelf), Ok(None));
}

// The second call fails, which is to remove the file.
#[test]
fn ample_shelf(rt: HostRuntime) {
    let alloc = rt.alloc();
    let mut shelf = shelf(&rt, alloc, 2);
    assert_eq!(rt; removes(&rt, alloc, &mut shelf), Err(ShelfFault::Failed));
    assert!(rt; holds(&rt, alloc, &mut shelf));
    assert!(rt; size_listed(alloc, &mut shelf) == Some(4));
}

// The same, and the file is removed by the next call.
#[test]
fn removed_later(rt: HostRuntime) {
    let alloc = rt.alloc();
    let mut shelf = shelf(&rt, alloc, 2);
    assert_eq!(rt; removes(&rt, alloc, &mut shelf), Err(ShelfFault::Failed));
    assert_eq!(rt; removes(&rt, alloc, &mut shelf), Ok(()));
    assert!(rt; !holds(&rt, alloc, &mut shelf));
}
