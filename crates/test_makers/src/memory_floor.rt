//! A floor with its links, its keeper and its shelf in memory.
ghost use Rattle.std.specs.Prelude.{◌≡◌, ◌≤◌, length, All, IfSome};
ghost use Rattle.octo_floor_bay.specs.Bay.{IsNewSession};
ghost use Rattle.octo_floor.specs.Floor.{AreUp};
ghost use Rattle.test_makers.specs.Links.{AreDown, AreOffline, memory_states};

use crate::house::{keeper_of, kept_outcome};
use crate::parts::{entries, links, names, ports_of, queue, sessions, shelf};
use crate::shop::Shop;
use octo_floor::{Floor, Links, Rounded, SessionList, Unwatched, Watch};
use octo_floor_bay::{FloorEnd, copies_left};
use octo_keeper::{MemoryKeeper, MemoryShelf, Tables};
use octo_outside::{Clock, ItemList, MemoryClock, NameList};
use print_queue::{Outcome, PrintList, Queue};
use printer_link::MemoryLink;
use std::alloc::{AllocError, Global};

/// A floor with its links, its keeper and its shelf in memory. Its clock begins at 0 and goes on by 10 milliseconds at each rest.
#[derive(Drop)]
pub struct MemoryFloor {
    floor: Floor,
    links: Links<MemoryLink>,
    keeper: MemoryKeeper,
    shelf: MemoryShelf,
    clock: MemoryClock,
    ghost up: { AreUp floor.bays (memory_states links) },
}

// The keeper of a shop, with its queue.
fn keeper(alloc: Global, shop: &Shop) -> Option<MemoryKeeper> {
    let queue = queue(alloc, shop.entries)?;
    let queue = entries(alloc, &queue)?;
    let users = ItemList::new(alloc);
    let prints = PrintList::new(alloc);
    keeper_of(
        alloc,
        Tables {
            users,
            queue,
            prints,
        },
        shop.keeper,
    )
}

// A floor of new sessions, without records of prints.
fn floor_of(
    alloc: Global,
    sessions: SessionList,
    ports: NameList,
    materials: NameList,
    queue: Queue,
) -> Option<Floor>
    requires some { 2 ≤ length sessions }
    requires few { length sessions ≤ 8 }
    requires ports { length ports ≡ length sessions }
    requires materials { length materials ≡ length sessions }
    requires sessions { All IsNewSession sessions }
    ensures { IfSome result (λ floor. AreOffline floor.bays) }
{
    let prints = PrintList::new(alloc);
    match Floor::new(alloc, sessions, ports, materials, queue, prints) {
        Ok(floor) => Some(floor),
        Err(AllocError) => None,
    }
}

// The floor of a shop of 2 to 8 printers. None for any other number of them.
fn floor(alloc: Global, shop: &Shop) -> Option<Floor>
    ensures { IfSome result (λ floor. AreOffline floor.bays) }
{
    let count = shop.materials.len();
    if count < 2 {
        return None;
    }
    if count > 8 {
        return None;
    }
    let ports = ports_of(alloc, count)?;
    let materials = names(alloc, shop.materials)?;
    let queue = queue(alloc, shop.entries)?;
    let sessions = sessions(alloc, count, shop.wires.numbered)?;
    floor_of(alloc, sessions, ports, materials, queue)
}

// Drops links.
fn end_links(links: Links<MemoryLink>) {
    let Links {
        a,
        b,
        c,
        d,
        e,
        f,
        g,
        h,
    } = links;
    drop(a);
    drop(b);
    drop(c);
    drop(d);
    drop(e);
    drop(f);
    drop(g);
    drop(h);
}

// The parts as one, if there is a floor.
fn join(
    floor: Option<Floor>,
    links: Links<MemoryLink>,
    keeper: MemoryKeeper,
    shelf: MemoryShelf,
) -> Option<MemoryFloor>
    requires floor { IfSome floor (λ floor. AreOffline floor.bays) }
    requires links { AreDown links }
{
    match floor {
        Some(floor) => Some(MemoryFloor {
            floor,
            links,
            keeper,
            shelf,
            clock: MemoryClock::new(0, 10),
        }),
        None => {
            end_links(links);
            drop(keeper);
            drop(shelf);
            None
        }
    }
}

// The floor of a shop with this keeper and this shelf.
fn with_stores(
    alloc: Global,
    shop: &Shop,
    keeper: MemoryKeeper,
    shelf: MemoryShelf,
) -> Option<MemoryFloor> {
    let Some(links) = links(alloc, &shop.wires) else {
        drop(keeper);
        drop(shelf);
        return None;
    };
    join(floor(alloc, shop), links, keeper, shelf)
}

impl MemoryFloor {
    /// The floor of a shop. None if out of memory, if it has fewer than 2 printers or more than 8, or if a
    /// name or an entry of it isn't one.
    pub fn new(alloc: Global, shop: &Shop) -> Option<MemoryFloor> {
        let keeper = keeper(alloc, shop)?;
        let Some(shelf) = shelf(alloc, shop.files, shop.shelf) else {
            drop(keeper);
            return None;
        };
        with_stores(alloc, shop, keeper, shelf)
    }

    /// One run, of at most this number of rounds.
    pub fn run(&mut self, turns: u64) -> FloorEnd {
        self.run_watched(turns, &mut Unwatched)
    }

    /// The same, while something watches.
    pub fn run_watched<W: Watch>(&mut self, turns: u64, watch: &mut W) -> FloorEnd {
        self.floor.run(
            &mut self.links,
            &mut self.keeper,
            &mut self.shelf,
            &mut self.clock,
            turns,
            watch,
        )
    }

    /// One round at this moment, in milliseconds. The clock stays as it is.
    pub fn round(&mut self, moment: u64) -> Rounded {
        self.floor
            .round(&mut self.links, &mut self.keeper, &mut self.shelf, moment)
    }

    /// The moment that the clock shows, in milliseconds: ten times its rests.
    pub fn moment(&mut self) -> u64 {
        self.clock.now()
    }

    /// How many lines were sent over all links.
    pub fn sends(&self) -> u64 {
        let links = &self.links;
        let mut count: u64 = 0;
        for link in [
            &links.a, &links.b, &links.c, &links.d, &links.e, &links.f, &links.g, &links.h,
        ] {
            count = count.saturating_add(link.sends());
        }
        count
    }

    /// The links, and what was done over them.
    pub fn links(&self) -> &Links<MemoryLink> {
        &self.links
    }

    /// The keeper's tables.
    pub fn tables(&self) -> Option<&Tables> {
        self.keeper.tables()
    }

    /// The outcome of a record, if there is one; the first one has place 0.
    pub fn outcome(&self, place: usize) -> Option<Outcome> {
        kept_outcome(&self.keeper, place)
    }

    /// The copies that the keeper's queue has left.
    pub fn left(&self) -> u64 {
        match self.keeper.tables() {
            Some(tables) => copies_left(tables.queue.as_slice()),
            None => 0,
        }
    }

    /// Drops the floor.
    pub fn end(self) {
        let MemoryFloor {
            floor,
            links,
            keeper,
            shelf,
            clock: _,
        } = self;
        end_links(links);
        drop(keeper);
        drop(shelf);
        drop(floor);
    }
}
