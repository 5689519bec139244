//! What commands work with, made by rows. Out of memory, a test stops.
ghost use Rattle.std.specs.Prelude.{◌≡◌, false, true};
ghost use Rattle.octo_floor_command.specs.Links.{EachLink};
ghost use Rattle.printer_link.specs.Memory.{link_world};

use super::{Row, SETTINGS};
use octo_floor::Links;
use octo_keeper::{MemoryKeeper, MemoryShelf};
use octo_outside::{CallList, MemorySource, WordList};
use octo_outside_doors::{Doors, MemoryDoor};
use printer_link::{Fate, FateList, MemoryLink, Schedule};
use std::alloc::Global;
use std::process::Abort;
use test_makers::{calls, door_of, keeper_of, link_at, no_rows, ports, shelf_of};

pub(super) fn call_list(rt: &impl Abort, alloc: Global, numbers: &[u64]) -> CallList
    ensures { result ≡ numbers.now }
{
    calls(alloc, numbers).expect(rt, "no memory")
}

fn fate_list(rt: &impl Abort, alloc: Global, fates: &[Fate]) -> FateList {
    FateList::from_items(Vec::from_slice(alloc, fates).expect(rt, "no memory"))
}

// A printer at port p with 4 buffer slots and the last number 4. Its `ok`s have numbers and none is lost, which suits a host that
// counts them as well as one that reads their numbers.
pub(super) fn link(rt: &impl Abort, alloc: Global, row: &Row) -> MemoryLink
    ensures down { (link_world result).linked ≡ false }
    ensures plain { result.story.oks.lost ≡ false }
    ensures numbered { result.story.oks.numbered ≡ true }
{
    let schedule = Schedule {
        names: ports(alloc, "p").expect(rt, "no memory"),
        last: 4,
        slots: 4,
        numbered: true,
        fates: fate_list(rt, alloc, row.fates),
        slow: 0,
        fail_at: call_list(rt, alloc, row.link_fails),
        restart_at: call_list(rt, alloc, row.restarts),
        lost: CallList::new(alloc),
    };
    MemoryLink::new(alloc, schedule).expect(rt, "no memory")
}

pub(super) fn word_list(rt: &impl Abort, alloc: Global, words: &[&str]) -> WordList {
    let mut list = WordList::new(alloc);
    for word in words {
        assert!(rt; list.push(word).is_ok());
    }
    list
}

fn put(rt: &impl Abort, files: &mut MemorySource, name: &str, bytes: &[u8]) {
    assert!(rt; files.put(name, bytes).is_ok());
}

// A source with the row's file and the settings.
pub(super) fn files(rt: &impl Abort, alloc: Global, row: &Row) -> MemorySource {
    let mut files = MemorySource::new(alloc, call_list(rt, alloc, row.source_fails));
    put(rt, &mut files, "a.gcode", row.file);
    put(rt, &mut files, "s", SETTINGS);
    files
}

fn door(rt: &impl Abort, alloc: Global, inputs: &[&[u8]]) -> MemoryDoor {
    door_of(alloc, inputs, &[]).expect(rt, "no memory")
}

// Doors, at the first of which connections with these inputs come.
pub(super) fn doors(rt: &impl Abort, alloc: Global, inputs: &[&[u8]]) -> Doors<MemoryDoor> {
    Doors {
        a: door(rt, alloc, inputs),
        b: door(rt, alloc, &[]),
        c: door(rt, alloc, &[]),
        d: door(rt, alloc, &[]),
    }
}

// A link of a floor, which no command here uses.
fn floor_link(rt: &impl Abort, alloc: Global) -> MemoryLink
    ensures down { (link_world result).linked ≡ false }
    ensures plain { result.story.oks.lost ≡ false }
    ensures numbered { result.story.oks.numbered ≡ true }
{
    link_at(alloc, "p", FateList::new(alloc)).expect(rt, "no memory")
}

// The links of a floor.
pub(super) fn floor_links(rt: &impl Abort, alloc: Global) -> Links<MemoryLink>
    ensures down { EachLink (λ link. (link_world link).linked ≡ false) result }
    ensures plain { EachLink (λ link. link.story.oks.lost ≡ false) result }
    ensures numbered { EachLink (λ link. link.story.oks.numbered ≡ true) result }
{
    Links {
        a: floor_link(rt, alloc),
        b: floor_link(rt, alloc),
        c: floor_link(rt, alloc),
        d: floor_link(rt, alloc),
        e: floor_link(rt, alloc),
        f: floor_link(rt, alloc),
        g: floor_link(rt, alloc),
        h: floor_link(rt, alloc),
    }
}

// Drops the links of a floor one by one.
pub(super) fn end_links(links: Links<MemoryLink>) {
    let Links {
        a,
        b,
        c,
        d,
        e,
        f,
        g,
        h,
    } = links;
    drop(a);
    drop(b);
    drop(c);
    drop(d);
    drop(e);
    drop(f);
    drop(g);
    drop(h);
}

pub(super) fn keeper(rt: &impl Abort, alloc: Global) -> MemoryKeeper {
    keeper_of(alloc, no_rows(alloc), &[]).expect(rt, "no memory")
}

pub(super) fn shelf(rt: &impl Abort, alloc: Global) -> MemoryShelf {
    shelf_of(alloc, &[]).expect(rt, "no memory")
}
