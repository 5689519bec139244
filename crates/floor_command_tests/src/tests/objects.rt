//! What a command works with, in memory. Out of memory, a test stops.
ghost use Rattle.std.specs.Prelude.{◌≡◌, false, true, IfSome};
ghost use Rattle.octo_floor_command.specs.Links.{EachLink};
ghost use Rattle.printer_link.specs.Memory.{link_world};

use byte_text::Name;
use octo_floor::Links;
use octo_keeper::{MemoryKeeper, MemoryShelf, Shelf, Tables};
use octo_outside::{CallList, MemorySink, MemorySource, WordList};
use octo_outside_doors::{Doors, MemoryDoor};
use print_queue::QueueEntry;
use printer_link::{FateList, MemoryLink, Schedule};
use std::alloc::Global;
use std::process::Abort;
use test_makers::{calls, door_of, keeper_of, no_rows, ports, shelf_of};

// The one call that fails, counted from 1.
#[derive(Clone, Copy)]
pub(super) enum Fault {
    Nothing,
    Source(u64),
    Sink(u64),
    // Of the second printer's link.
    Link(u64),
    // The first loads the tables, the second is the first commit.
    Keeper(u64),
    // Two put the files, and the third lists them.
    Shelf(u64),
}

impl Fault {
    // That of the source, the sink, the link, the keeper and the shelf; 0 is none.
    pub(super) fn calls(self) -> [u64; 5] {
        match self {
            Fault::Nothing => [0, 0, 0, 0, 0],
            Fault::Source(call) => [call, 0, 0, 0, 0],
            Fault::Sink(call) => [0, call, 0, 0, 0],
            Fault::Link(call) => [0, 0, call, 0, 0],
            Fault::Keeper(call) => [0, 0, 0, call, 0],
            Fault::Shelf(call) => [0, 0, 0, 0, call],
        }
    }
}

fn call_list(rt: &impl Abort, alloc: Global, call: u64) -> CallList {
    calls(alloc, &[call]).expect(rt, "no memory")
}

pub(super) fn word_list(rt: &impl Abort, alloc: Global, words: &[&str]) -> WordList {
    let mut list = WordList::new(alloc);
    for word in words {
        assert!(rt; list.push(word).is_ok());
    }
    list
}

// The settings, in the file s.
pub(super) fn source(rt: &impl Abort, alloc: Global, settings: &str, fails: u64) -> MemorySource {
    let mut source = MemorySource::new(alloc, call_list(rt, alloc, fails));
    assert!(rt; source.put("s", settings.as_bytes()).is_ok());
    source
}

pub(super) fn sink(rt: &impl Abort, alloc: Global, fails: u64) -> MemorySink {
    MemorySink::new(alloc, call_list(rt, alloc, fails))
}

fn name(rt: &impl Abort, text: &str) -> Name {
    Name::from_text(text).expect(rt, "a long name")
}

// An entry of ana's.
fn entry(
    rt: &impl Abort,
    job: &str,
    file: &str,
    priority: u8,
    copies: u8,
    material: &str,
    arrival: u32,
) -> QueueEntry {
    QueueEntry {
        user: name(rt, "ana"),
        name: name(rt, job),
        file: name(rt, file),
        priority,
        copies,
        left: copies,
        material: name(rt, material),
        arrival,
    }
}

fn add_entry(rt: &impl Abort, tables: &mut Tables, entry: QueueEntry) {
    assert!(rt; tables.queue.push(entry).is_ok());
}

// Two copies of job-1 in PLA, and one of job-2 in PETG, which stands before it.
fn tables(rt: &impl Abort, alloc: Global) -> Tables {
    let mut tables = no_rows(alloc);
    add_entry(
        rt,
        &mut tables,
        entry(rt, "job-2", "b.gcode", 9, 1, "PETG", 2),
    );
    add_entry(
        rt,
        &mut tables,
        entry(rt, "job-1", "a.gcode", 5, 2, "PLA", 1),
    );
    tables
}

// A keeper of both jobs.
pub(super) fn keeper(rt: &impl Abort, alloc: Global, fails: u64) -> MemoryKeeper {
    keeper_of(alloc, tables(rt, alloc), &[fails]).expect(rt, "no memory")
}

fn put_file(rt: &impl Abort, alloc: Global, shelf: &mut MemoryShelf, file: &str, part: &str) {
    let file = name(rt, file);
    assert!(rt; shelf.put(alloc, &file, part.as_bytes(), None).is_ok());
    drop(file);
}

// A shelf with the files of both jobs, which are equal.
pub(super) fn shelf(rt: &impl Abort, alloc: Global, part: &str, fails: u64) -> MemoryShelf {
    let mut shelf = shelf_of(alloc, &[fails]).expect(rt, "no memory");
    put_file(rt, alloc, &mut shelf, "a.gcode", part);
    put_file(rt, alloc, &mut shelf, "b.gcode", part);
    shelf
}

fn door(rt: &impl Abort, alloc: Global) -> MemoryDoor {
    door_of(alloc, &[], &[]).expect(rt, "no memory")
}

// Doors at which nobody comes.
pub(super) fn doors(rt: &impl Abort, alloc: Global) -> Doors<MemoryDoor> {
    Doors {
        a: door(rt, alloc),
        b: door(rt, alloc),
        c: door(rt, alloc),
        d: door(rt, alloc),
    }
}

pub(super) fn drop_doors(doors: Doors<MemoryDoor>) {
    let Doors { a, b, c, d } = doors;
    drop(a);
    drop(b);
    drop(c);
    drop(d);
}

// A printer at this port with 4 buffer slots. Its `ok`s have numbers and none is lost, which suits a floor that counts them as well as
// one that reads their numbers.
fn link_of(alloc: Global, port: &str, fails: u64) -> Option<MemoryLink>
    ensures down { IfSome result (λ link. (link_world link).linked ≡ false) }
    ensures plain { IfSome result (λ link. link.story.oks.lost ≡ false) }
    ensures numbered { IfSome result (λ link. link.story.oks.numbered ≡ true) }
{
    let schedule = Schedule {
        names: ports(alloc, port)?,
        last: 0,
        slots: 4,
        numbered: true,
        fates: FateList::new(alloc),
        slow: 0,
        fail_at: calls(alloc, &[fails])?,
        restart_at: CallList::new(alloc),
        lost: CallList::new(alloc),
    };
    MemoryLink::new(alloc, schedule).ok()
}

pub(super) fn link(rt: &impl Abort, alloc: Global, port: &str, fails: u64) -> MemoryLink
    ensures down { (link_world result).linked ≡ false }
    ensures plain { result.story.oks.lost ≡ false }
    ensures numbered { result.story.oks.numbered ≡ true }
{
    link_of(alloc, port, fails).expect(rt, "no memory")
}

// Eight links, the first to port p and the others to port q.
pub(super) fn links(rt: &impl Abort, alloc: Global, fails: u64) -> Links<MemoryLink>
    ensures down { EachLink (λ link. (link_world link).linked ≡ false) result }
    ensures plain { EachLink (λ link. link.story.oks.lost ≡ false) result }
    ensures numbered { EachLink (λ link. link.story.oks.numbered ≡ true) result }
{
    Links {
        a: link(rt, alloc, "p", 0),
        b: link(rt, alloc, "q", fails),
        c: link(rt, alloc, "q", 0),
        d: link(rt, alloc, "q", 0),
        e: link(rt, alloc, "q", 0),
        f: link(rt, alloc, "q", 0),
        g: link(rt, alloc, "q", 0),
        h: link(rt, alloc, "q", 0),
    }
}

pub(super) fn drop_links(links: Links<MemoryLink>) {
    let Links {
        a,
        b,
        c,
        d,
        e,
        f,
        g,
        h,
    } = links;
    drop(a);
    drop(b);
    drop(c);
    drop(d);
    drop(e);
    drop(f);
    drop(g);
    drop(h);
}
