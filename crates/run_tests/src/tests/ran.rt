//! A run that has ended.
ghost use Rattle.std.specs.Prelude.{◌≡◌, false, None};
ghost use Rattle.octo_asks.specs.Memory.{new_counter};

use super::seen::{Seen, SeenEntry, entry_of, own_moment};
use super::slow_counter::SlowCounter;
use job_desk::State;
use octo_asks::{AskList, Entry, MemoryCounter};
use octo_house::House;
use octo_house_run::run;
use octo_keeper::{KeeperFault, MemoryKeeper, MemoryShelf};
use octo_outside::{Clock, MemoryClock};
use print_queue::Outcome;
use printer_link::{FateList, MemoryLink};
use std::alloc::Global;
use std::process::Abort;
use std::sync::Wait;
use test_makers::{house_of, keeper_of, kept_outcome, link_at, no_rows, shelf_of};

fn counter_of(rt: &impl Abort, alloc: Global, asks: AskList) -> MemoryCounter
    ensures { result ≡ new_counter asks }
{
    match MemoryCounter::new(alloc, asks) {
        Ok(counter) => counter,
        Err(_) => panic!(rt; "no memory"),
    }
}

// What a run left: the number that it returned, and its host and all that it went over.
#[derive(Drop)]
pub(super) struct Ran {
    calls: u64,
    house: House,
    counter: SlowCounter,
    link: MemoryLink,
    keeper: MemoryKeeper,
    shelf: MemoryShelf,
}

impl Ran {
    // Runs a new host over these asks, at whose keeper these calls fail, counted from 1, and whose link loses no line.
    pub(super) fn over(
        rt: &(impl Wait + Abort),
        alloc: Global,
        asks: AskList,
        fails: &[u64],
    ) -> Ran {
        Ran::with(rt, alloc, asks, fails, "p", 0, false)
    }

    // Runs a new host that connects by itself to a printer at this port, over these asks; this number of rounds passes before each.
    pub(super) fn connecting(
        rt: &(impl Wait + Abort),
        alloc: Global,
        asks: AskList,
        port: &str,
        rounds: u64,
    ) -> Ran {
        Ran::with(rt, alloc, asks, &[], port, rounds, true)
    }

    fn with(
        rt: &(impl Wait + Abort),
        alloc: Global,
        asks: AskList,
        fails: &[u64],
        port: &str,
        rounds: u64,
        connects: bool,
    ) -> Ran {
        let counter = SlowCounter::new(counter_of(rt, alloc, asks), rounds);
        let link = link_at(alloc, port, FateList::new(alloc)).expect(rt, "no memory");
        let mut clock = MemoryClock::new(100, if connects { 1_000 } else { 10 });
        Ran::of(rt, alloc, counter, fails, link, &mut clock, connects)
    }

    // The same by this clock, over a link whose first lines have these fates.
    pub(super) fn by<T: Clock>(
        rt: &(impl Wait + Abort),
        alloc: Global,
        asks: AskList,
        fails: &[u64],
        fates: FateList,
        clock: &mut T,
    ) -> Ran {
        let counter = SlowCounter::new(counter_of(rt, alloc, asks), 0);
        let link = link_at(alloc, "p", fates).expect(rt, "no memory");
        Ran::of(rt, alloc, counter, fails, link, clock, false)
    }

    // Runs a new host over this counter and this link.
    fn of<T: Clock>(
        rt: &(impl Wait + Abort),
        alloc: Global,
        mut counter: SlowCounter,
        fails: &[u64],
        mut link: MemoryLink,
        clock: &mut T,
        connects: bool,
    ) -> Ran
        requires answered { counter.counter.given ≡ None }
        requires open { counter.counter.closed ≡ false }
        requires plain { link.story.oks.lost ≡ false }
    {
        let mut keeper = keeper_of(alloc, no_rows(alloc), fails).expect(rt, "no memory");
        let mut shelf = shelf_of(alloc, &[]).expect(rt, "no memory");
        let mut house = house_of(alloc, "any", 30_000, &mut keeper, &mut shelf).expect(
            rt, "no host",
        );
        assert!(rt; !link.is_up());
        let calls = run(
            rt,
            &mut house,
            &mut counter,
            &mut link,
            clock,
            &mut keeper,
            &mut shelf,
            connects,
        );
        Ran {
            calls,
            house,
            counter,
            link,
            keeper,
            shelf,
        }
    }

    // Drops what the run left in one place. A test in which it goes out of scope would have to prove that drop itself.
    pub(super) fn end(self) {}

    pub(super) fn calls(&self) -> u64 {
        self.calls
    }

    pub(super) fn entries(&self) -> &[Entry] {
        self.counter.entries().unwrap_or(&[])
    }

    // The moments at which the host asked for a connection by itself, these at most. The others stay 0.
    pub(super) fn own_moments<const N: usize>(&self) -> [u64; N] {
        let mut moments = [0; N];
        let mut count = 0;
        for entry in self.entries() {
            if let Some(moment) = own_moment(entry) {
                if count < N {
                    moments[count] = moment;
                    count += 1;
                }
            }
        }
        moments
    }

    // Whether the connection was shown in this state.
    pub(super) fn shows(&self, state: State) -> bool {
        for entry in self.entries() {
            if let SeenEntry::Call(_, _, Seen::Connection(shown)) = entry_of(entry) {
                if shown == state {
                    return true;
                }
            }
        }
        false
    }

    // The entry at a place of the history, counted from 0.
    pub(super) fn entry(&self, place: usize) -> Option<SeenEntry> {
        match self.entries().get(place) {
            Some(entry) => Some(entry_of(entry)),
            None => None,
        }
    }

    // The moment of the call at a place of the history.
    pub(super) fn moment(&self, place: usize) -> Option<u64> {
        match self.entry(place) {
            Some(SeenEntry::Call(_, moment, _)) => Some(moment),
            _ => None,
        }
    }

    // The last entry of the history.
    pub(super) fn last(&self) -> Option<SeenEntry> {
        match self.entries().last() {
            Some(entry) => Some(entry_of(entry)),
            None => None,
        }
    }

    // The outcome of a kept record.
    pub(super) fn kept_outcome(&self, place: usize) -> Option<Outcome> {
        kept_outcome(&self.keeper, place)
    }

    pub(super) fn unwritten(&self) -> Option<(u32, KeeperFault)> {
        self.house.unwritten()
    }
}
