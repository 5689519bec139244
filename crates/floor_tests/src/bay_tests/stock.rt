//! What the printers of a floor share, with a keeper and a shelf in memory, each of whose calls may fail.
use byte_text::Name;
use job_desk::Limits;
use octo_floor_bay::{FloorFault, FloorStock, read_entry, write_end};
use octo_keeper::{MemoryKeeper, MemoryShelf, Shelf, Tables};
use octo_outside::{ItemList, calls_of};
use print_queue::{Ending, EntryList, Outcome, PrintList, Queue, QueueEntry};
use std::alloc::Global;
use std::test::Fail;
use test_makers::{keeper_of, kept_outcome};

const LIMITS: Limits = Limits {
    tool: 250,
    bed: 100,
};

// Two copies of job-1 in PLA.
fn entry() -> QueueEntry {
    QueueEntry {
        user: Name::of_short("ana"),
        name: Name::of_short("job-1"),
        file: Name::of_short("a.gcode"),
        priority: 5,
        copies: 2,
        left: 2,
        material: Name::of_short("PLA"),
        arrival: 1,
    }
}

// A queue of that entry.
fn queue(alloc: Global) -> Option<Queue> {
    let mut queue = Queue::new(alloc);
    let name = Name::of_short("job-1");
    let file = Name::of_short("a.gcode");
    queue
        .put(
            &Name::of_short("ana"),
            &name,
            &file,
            5,
            2,
            &Name::of_short("PLA"),
        )
        .ok()?;
    Some(queue)
}

// A keeper of that entry; these calls of it fail, counted from 1.
fn keeper(alloc: Global, fails: &[u64]) -> Option<MemoryKeeper> {
    let mut entries = EntryList::new(alloc);
    entries.push(entry()).ok()?;
    let tables = Tables {
        users: ItemList::new(alloc),
        queue: entries,
        prints: PrintList::new(alloc),
    };
    keeper_of(alloc, tables, fails)
}

// Begins a print of what is next for PLA: its number.
fn begin(stock: &mut FloorStock, keeper: &mut MemoryKeeper) -> Result<u32, FloorFault> {
    if stock.records() >= 100_000 {
        return Err(FloorFault::NoMemory);
    }
    let entry = match stock.next(&Name::of_short("PLA")) {
        Some(entry) => entry.copy(),
        None => return Ok(0),
    };
    match stock.begin(keeper, &entry, 7) {
        Ok(row) => Ok(row.number),
        Err(fault) => Err(fault),
    }
}

// Each start takes one copy, until none is left.
#[test]
fn ample_starts(rt: HostRuntime) -> Result<(), Fail> {
    let alloc = rt.alloc();
    let mut stock = FloorStock::new(alloc, queue(alloc).ok_or("no memory")?, 4);
    let mut keeper = keeper(alloc, &[]).ok_or("no memory")?;
    assert_eq!(rt; stock.left(), 2);
    assert_eq!(rt; begin(&mut stock, &mut keeper), Ok(5));
    assert_eq!(rt; stock.left(), 1);
    assert_eq!(rt; begin(&mut stock, &mut keeper), Ok(6));
    assert_eq!(rt; stock.left(), 0);
    assert_eq!(rt; begin(&mut stock, &mut keeper), Ok(0));
    Ok(())
}

// A start that isn't written leaves the queue; the next one has the same number.
#[test]
fn an_unwritten_start_takes_nothing(rt: HostRuntime) -> Result<(), Fail> {
    let alloc = rt.alloc();
    let mut stock = FloorStock::new(alloc, queue(alloc).ok_or("no memory")?, 0);
    let mut keeper = keeper(alloc, &[1, 3]).ok_or("no memory")?;
    assert_eq!(rt;
        begin(&mut stock, &mut keeper),
        Err(FloorFault::KeeperFailed)
    );
    assert_eq!(rt; stock.left(), 2);
    assert_eq!(rt; begin(&mut stock, &mut keeper), Ok(1));
    let done = Ending {
        print: 1,
        outcome: Outcome::Done,
    };
    assert_eq!(rt;
        write_end(alloc, &mut keeper, done),
        Err(FloorFault::KeeperFailed)
    );
    assert_eq!(rt; kept_outcome(&keeper, 0), Some(Outcome::Active));
    assert_eq!(rt; write_end(alloc, &mut keeper, done), Ok(()));
    assert_eq!(rt; kept_outcome(&keeper, 0), Some(Outcome::Done));
    Ok(())
}

// An entry that was passed over isn't started any more, and stays in the queue.
#[test]
fn ample_pass(rt: HostRuntime) -> Result<(), Fail> {
    let alloc = rt.alloc();
    let mut stock = FloorStock::new(alloc, queue(alloc).ok_or("no memory")?, 0);
    assert!(rt; stock.next(&Name::of_short("PLA")).is_some());
    stock.pass(&entry())?;
    assert!(rt; stock.next(&Name::of_short("PLA")).is_none());
    assert_eq!(rt; stock.left(), 2);
    Ok(())
}

// Whether a file of these bytes has commands to print, on a shelf whose calls with these numbers fail; the put is the first one.
fn has_commands(alloc: Global, bytes: &[u8], fails: &[u64]) -> Option<Result<bool, FloorFault>> {
    let mut shelf = MemoryShelf::new(alloc, calls_of(alloc, fails).ok()?);
    let name = Name::of_short("a.gcode");
    let _ = shelf.put(alloc, &name, bytes, None);
    match read_entry(alloc, &mut shelf, &name, &LIMITS) {
        Ok(found) => Some(Ok(found.is_some())),
        Err(fault) => Some(Err(fault)),
    }
}

// A file is missing if its put fails.
#[test]
fn ample_files(rt: HostRuntime) {
    let alloc = rt.alloc();
    assert_eq!(rt; has_commands(alloc, b"G28\n", &[]), Some(Ok(true)));
    assert_eq!(rt; has_commands(alloc, b"G28\n", &[1]), Some(Ok(false)));
    assert_eq!(rt; has_commands(alloc, b"M104 S300\n", &[]), Some(Ok(false)));
    assert_eq!(rt;
        has_commands(alloc, b"G28\n", &[2]),
        Some(Err(FloorFault::ShelfFailed))
    );
}
