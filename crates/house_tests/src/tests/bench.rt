//! A host with its keeper, its shelf and its link.
use super::seen::{Seen, cause_of, seen_of};
use super::wishes::{Wish, request_of};
use job_desk::State;
use octo_asks::Ask;
use octo_house::House;
use octo_keeper::{KeeperFault, MemoryKeeper, MemoryShelf};
use octo_outside::{Blob, calls_of};
use print_queue::Outcome;
use printer_link::FateList;
use std::alloc::Global;
use std::process::Abort;
use test_makers::{
    ANA, LossyLink, house_of, keeper_of, kept_outcome, link_at, shelf_of, three_users,
};

// The time limit of a line, in milliseconds.
pub(super) const LIMIT: u64 = 30_000;

// A link to port p over which these replies are lost.
fn link_losing(rt: &impl Abort, alloc: Global, replies: &[u64]) -> LossyLink {
    let link = link_at(alloc, "p", FateList::new(alloc)).expect(rt, "no memory");
    LossyLink::new(link, calls_of(alloc, replies).expect(rt, "no memory"))
}

// A host with its keeper, its shelf and its link.
#[derive(Drop)]
pub(super) struct Bench {
    alloc: Global,
    house: House,
    pub keeper: MemoryKeeper,
    shelf: MemoryShelf,
    link: LossyLink,
    // The moment of the next turn.
    moment: u64,
}

impl Bench {
    // A host with a printer of a material, at whose keeper and shelf these calls fail, counted from 1.
    pub(super) fn failing(
        rt: &impl Abort,
        alloc: Global,
        material: &str,
        keeper: &[u64],
        shelf: &[u64],
    ) -> Bench {
        let mut keeper = keeper_of(
            alloc,
            three_users(alloc).expect(rt, "no memory"),
            keeper,
        ).expect(rt, "no memory");
        let mut shelf = shelf_of(alloc, shelf).expect(rt, "no memory");
        let house = house_of(alloc, material, LIMIT, &mut keeper, &mut shelf).expect(rt, "no host");
        let link = link_losing(rt, alloc, &[]);
        Bench {
            alloc,
            house,
            keeper,
            shelf,
            link,
            moment: 7,
        }
    }

    // A host at which nothing fails, but the replies with these numbers are lost, counted from 1.
    pub(super) fn losing(rt: &impl Abort, alloc: Global, replies: &[u64]) -> Bench {
        let mut bench = Bench::sound(rt, alloc);
        bench.link = link_losing(rt, alloc, replies);
        bench
    }

    // A host with a printer of any material, at which nothing fails.
    pub(super) fn sound(rt: &impl Abort, alloc: Global) -> Bench {
        Bench::failing(rt, alloc, "any", &[], &[])
    }

    // Drops the bench in one place. A function in which it goes out of scope would have to prove that drop itself.
    pub(super) fn end(self) {}

    // Another host takes the place of this one, on what the keeper and the shelf hold.
    pub(super) fn begin_again(&mut self, rt: &impl Abort) {
        self.house = house_of(self.alloc, "any", LIMIT, &mut self.keeper, &mut self.shelf).expect(
            rt, "no host",
        );
    }

    pub(super) fn ask(&mut self, rt: &impl Abort, key: &[u8], wish: Wish) -> Seen {
        let key = Blob::from_slice(self.alloc, key).expect(rt, "no memory");
        let request = request_of(rt, self.alloc, wish);
        let ask = Ask { key, request };
        let answer = self.house.ask(&mut self.keeper, &mut self.shelf, ask);
        seen_of(&answer)
    }

    pub(super) fn state(&self) -> State {
        self.house.session().desk().state()
    }

    pub(super) fn unwritten(&self) -> Option<(u32, KeeperFault)> {
        self.house.unwritten()
    }

    pub(super) fn turn(&mut self, rt: &impl Abort) {
        assert!(rt; self.link.is_up() == self.house.session().up());
        self.house
            .turn(&mut self.link, &mut self.keeper, self.moment);
    }

    // Time limits pass, with turns enough for all that is then sent and received.
    pub(super) fn pass_limits(&mut self, rt: &impl Abort, limits: u64) {
        for _ in 0..limits {
            self.moment = self.moment.saturating_add(LIMIT);
            for _ in 0..20 {
                self.turn(rt);
            }
        }
    }

    // Turns until the desk is in a state, 50 at most.
    pub(super) fn turn_until(&mut self, rt: &impl Abort, state: State) {
        for _ in 0..50 {
            if self.state() == state {
                return;
            }
            self.turn(rt);
        }
        let found = self.state();
        panic!(rt; "in the state {found:?}, not in {state:?}");
    }

    // Asks, and sees this.
    pub(super) fn sees(&mut self, rt: &impl Abort, key: &[u8], wish: Wish, wanted: Seen) {
        let seen = self.ask(rt, key, wish);
        assert!(rt; seen == wanted, "{}", cause_of(seen));
    }

    pub(super) fn accepts(&mut self, rt: &impl Abort, key: &[u8], wish: Wish) {
        self.sees(rt, key, wish, Seen::Accepted);
    }

    pub(super) fn connect(&mut self, rt: &impl Abort) {
        self.accepts(rt, ANA, Wish::Connect);
        self.turn_until(rt, State::Operational);
    }

    // Stores and selects the file.
    pub(super) fn select(&mut self, rt: &impl Abort, text: &'static [u8]) {
        self.sees(
            rt,
            ANA,
            Wish::Upload(text, false),
            Seen::Uploaded(false, false),
        );
        self.accepts(rt, ANA, Wish::Select(false));
    }

    // The first two records have these outcomes; `None` where there is no record.
    pub(super) fn keeps(&self, rt: &impl Abort, first: Option<Outcome>, second: Option<Outcome>) {
        assert_eq!(rt; self.kept_outcome(0), first);
        assert_eq!(rt; self.kept_outcome(1), second);
    }

    // The outcome of a kept record.
    pub(super) fn kept_outcome(&self, place: usize) -> Option<Outcome> {
        kept_outcome(&self.keeper, place)
    }
}
