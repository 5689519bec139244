//! Downloads of files that were read ahead.
ghost use Rattle.std.specs.Prelude.{None};

use super::seen::{Seen, seen_of};
use byte_text::Name;
use octo_asks::{Ask, Request, Sought};
use octo_house::House;
use octo_keeper::{Fetched, FileList, FileMark, MemoryKeeper, NoStager, Shelf, ShelfFault};
use octo_outside::Blob;
use std::alloc::{AllocError, Global};
use std::process::Abort;
use test_makers::{ANA, house_of, keeper_of, shelf_of, three_users};

// A shelf that gives what was read ahead, and has nothing else.
#[derive(Drop)]
struct Ahead;

impl Shelf for Ahead {
    type Stager = NoStager;

    ghost state = { λ _. record { files = None; faults = 0 } };

    fn list(&mut self, alloc: Global) -> Result<FileList, ShelfFault> {
        Ok(FileList::new(alloc))
    }

    fn get(
        &mut self,
        _alloc: Global,
        _name: &Name,
        fetched: Option<Fetched>,
    ) -> Result<Option<Blob>, ShelfFault> {
        match fetched {
            Some(fetched) => Ok(Some(fetched.bytes)),
            None => Ok(None),
        }
    }

    fn size(&mut self, _name: &Name) -> Result<Option<u64>, ShelfFault> {
        Ok(None)
    }

    fn stager(&self, number: u8) -> Result<NoStager, AllocError> {
        Ok(NoStager::new(number))
    }

    fn put(
        &mut self,
        _alloc: Global,
        _name: &Name,
        _bytes: &[u8],
        _part: Option<u8>,
    ) -> Result<(), ShelfFault> {
        Ok(())
    }

    fn remove(&mut self, _alloc: Global, _name: &Name) -> Result<(), ShelfFault> {
        Ok(())
    }
}

// The mark of a file of five bytes.
const MARK: FileMark = FileMark {
    device: 1,
    inode: 2,
    size: 5,
    modified: 3,
    modified_nanos: 4,
    changed: 5,
    changed_nanos: 6,
};

fn file(rt: &impl Abort) -> Name {
    Name::from_text("a.gcode").expect(rt, "a long name")
}

// The file, as a stager read it.
fn fetched(rt: &impl Abort, alloc: Global) -> Fetched {
    Fetched {
        name: file(rt),
        mark: MARK,
        bytes: Blob::from_slice(alloc, b"ahead").expect(rt, "no memory"),
    }
}

// A keeper of the three users.
fn keeper(rt: &impl Abort, alloc: Global) -> MemoryKeeper {
    let users = three_users(alloc).expect(rt, "no memory");
    keeper_of(alloc, users, &[]).expect(rt, "no memory")
}

// A host that has the file.
fn house(rt: &impl Abort, alloc: Global, keeper: &mut MemoryKeeper) -> House {
    let mut shelf = shelf_of(alloc, &[]).expect(rt, "no memory");
    assert!(rt; shelf.put(alloc, &file(rt), b"G28\n", None).is_ok());
    house_of(alloc, "any", 30_000, keeper, &mut shelf).expect(rt, "no host")
}

// What a caller sees of the file at a shelf that has only what was read ahead.
fn seen(rt: &impl Abort, alloc: Global, fetched: Option<Fetched>) -> Seen {
    let mut name = Sought::new(file(rt));
    name.set_fetched(fetched);
    let ask = Ask {
        key: Blob::from_slice(alloc, ANA).expect(rt, "no memory"),
        request: Request::Download { name },
    };
    let mut keeper = keeper(rt, alloc);
    let mut house = house(rt, alloc, &mut keeper);
    seen_of(&house.ask(&mut keeper, &mut Ahead, ask))
}

// The shelf gets what was read ahead.
#[test]
fn fetched_download(rt: HostRuntime) {
    let ahead = fetched(&rt, rt.alloc());
    assert!(rt; seen(&rt, rt.alloc(), Some(ahead)) == Seen::Download(5));
}

// And nothing else.
#[test]
fn download_without_it(rt: HostRuntime) {
    assert!(rt; seen(&rt, rt.alloc(), None) == Seen::NoFile);
}
