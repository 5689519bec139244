//! A host with all that it serves with but its doors.
ghost use Rattle.std.specs.Prelude.{◌≡◌, true, false};
ghost use Rattle.octo_house.specs.State.{session_of};
ghost use Rattle.octo_house_run.specs.Runs.{IsFresh};
ghost use Rattle.printer_link.specs.Memory.{link_world};

use super::real_rests::RealRests;
use octo_api_worker::Terms;
use octo_asks::{Ask, Request};
use octo_house::House;
use octo_keeper::{MemoryKeeper, MemoryShelf};
use octo_outside::{Blob, CallList, MemorySink, NameList};
use octo_outside_doors::{Door, Doors};
use octo_serve::{Served, serve};
use printer_link::{Fate, FateList, MemoryLink};
use std::alloc::{AllocError, Global};
use std::process::Abort;
use std::sync::Wait;
use std::thread::Threads;
use std::time::Clock;
use test_makers::{ROOT, house_of, keeper_of, link_at, no_rows, shelf_of};

// The quiet reads for which a worker waits.
const PATIENCE: u32 = 10_000;

// The first line that is sent arrives, and this number of lines after it is lost.
fn fates(rt: &impl Abort, alloc: Global, lost: u32) -> FateList {
    let mut fates = FateList::new(alloc);
    assert!(rt; fates.push(Fate::Whole).is_ok());
    for _ in 0..lost {
        assert!(rt; fates.push(Fate::Lost).is_ok());
    }
    fates
}

// A host with all that it serves with but its doors.
pub(super) struct Bench {
    alloc: Global,
    house: House,
    link: MemoryLink,
    keeper: MemoryKeeper,
    shelf: MemoryShelf,
}

// A link that loses this number of lines after the first one.
fn link(rt: &impl Abort, alloc: Global, lost: u32) -> MemoryLink
    ensures plain { result.story.oks.lost ≡ false }
    ensures numbered { result.story.oks.numbered ≡ true }
{
    link_at(alloc, "p", fates(rt, alloc, lost)).expect(rt, "no memory")
}

// A host of one port that has begun nothing.
fn house(
    rt: &impl Abort,
    alloc: Global,
    keeper: &mut MemoryKeeper,
    shelf: &mut MemoryShelf,
) -> House
    ensures { IsFresh (session_of result) }
{
    house_of(alloc, "any", 1_000, keeper, shelf).expect(rt, "no host")
}

impl Bench {
    // A host over a link that loses this number of lines after the first one.
    pub(super) fn new(rt: &impl Abort, alloc: Global, lost: u32) -> Bench
        ensures fresh { IsFresh (session_of result.house) }
        ensures plain { result.link.story.oks.lost ≡ false }
        ensures numbered { result.link.story.oks.numbered ≡ true }
    {
        let link = link(rt, alloc, lost);
        let mut keeper = keeper_of(alloc, no_rows(alloc), &[]).expect(rt, "no memory");
        let mut shelf = shelf_of(alloc, &[]).expect(rt, "no memory");
        let house = house(rt, alloc, &mut keeper, &mut shelf);
        Bench {
            alloc,
            house,
            link,
            keeper,
            shelf,
        }
    }

    // Drops its parts one by one. A test in which they go out of scope would have to prove their drops itself.
    pub(super) fn end(self) {
        let Bench {
            alloc: _,
            house,
            link,
            keeper,
            shelf,
        } = self;
        drop(house);
        drop(link);
        drop(keeper);
        drop(shelf);
    }

    // The admin asks at the beginning.
    pub(super) fn ask(&mut self, rt: &impl Abort, request: Request)
        requires fresh { IsFresh (session_of self.old.house) }
        ensures fresh { IsFresh (session_of self.new.house) }
        ensures link { self.new.link ≡ self.old.link }
    {
        let key = Blob::from_slice(self.alloc, ROOT).expect(rt, "no memory");
        self.house
            .ask(&mut self.keeper, &mut self.shelf, Ask { key, request });
    }

    // Calls the host in one place, since its contract is long.
    fn serve_by<
        R: Threads + Wait + Abort + Clock + Copy + Send + Sync + Drop,
        D: Door + Send + Drop,
    >(
        &mut self,
        rt: &R,
        doors: &mut Doors<D>,
        clock: &mut RealRests<R>,
        terms: &Terms,
    ) -> Result<Served, AllocError>
        requires fresh { IsFresh (session_of self.old.house) }
        requires down { (link_world self.old.link).linked ≡ false }
        requires plain { self.old.link.story.oks.lost ≡ false }
        requires numbered { self.old.link.story.oks.numbered ≡ true }
    {
        serve(
            rt,
            self.alloc,
            &mut self.house,
            &mut self.link,
            clock,
            &mut self.keeper,
            &mut self.shelf,
            doors,
            terms,
            false,
            MemorySink::new(self.alloc, CallList::new(self.alloc)),
        )
    }

    // Serves at these doors; returns the number of calls, and whether no door failed.
    pub(super) fn serve<
        R: Threads + Wait + Abort + Clock + Copy + Send + Sync + Drop,
        D: Door + Send + Drop,
    >(&mut self, rt: &R, doors: &mut Doors<D>) -> (u64, bool)
        requires fresh { IsFresh (session_of self.old.house) }
        requires plain { self.old.link.story.oks.lost ≡ false }
        requires numbered { self.old.link.story.oks.numbered ≡ true }
    {
        assert!(rt; !self.link.is_up());
        let mut clock = RealRests::new(rt);
        let terms = Terms {
            patience: PATIENCE,
            origins: NameList::new(self.alloc),
        };
        let served = self.serve_by(rt, doors, &mut clock, &terms);
        drop(clock);
        drop(terms);
        counted(served.expect(rt, "no memory"))
    }
}

// The number of calls, and whether no door failed.
fn counted(served: Served) -> (u64, bool) {
    let counts = (served.calls, served.doors_held);
    drop(served);
    counts
}
