//! A host over a database answers rows of asks for the queue and the prints, and another one begins on what it left.
use super::rows::user;
use super::single::empty_keeper;
use byte_text::Name;
use job_desk::State;
use octo_access::digest_of;
use octo_asks::{Answer, Ask, Request, Upload};
use octo_house::House;
use octo_keeper::{Change, Keeper, MemoryShelf};
use octo_outside::Blob;
use print_queue::Outcome;
use printer_link::{FateList, MemoryLink};
use std::alloc::Global;
use std::process::Abort;
use std::test::Fail;
use test_makers::{ANA, BEN, link_at, plain_session, policy, ports, shelf_of};

// What is asked for. The one file is a.gcode.
#[derive(Clone, Copy)]
enum Wish {
    // No ask: turns of the link, one at least, until the printer is operational.
    Idle,
    Connect,
    Upload,
    // The name of an entry, its priority, its copies and their material.
    Put(&'static str, u8, u8, &'static str),
    Drop(&'static str),
    Next,
    Queue,
    Prints,
}

// What is seen of an answer.
#[derive(Clone, Copy, PartialEq, Eq)]
enum Seen {
    Turned,
    Accepted,
    Uploaded,
    // The priority of an entry, and how many copies are left.
    Entry(u8, u8),
    // How many copies were left before this one.
    Taken(u8),
    // The number of entries.
    Entries(usize),
    // The number of prints, and the outcome of the newest.
    Prints(usize, Option<Outcome>),
    NameTaken,
    NoEntry,
    Other,
}

type Step = (&'static [u8], Wish, Seen);

// The printer has PLA. An entry is put, put again, put with another priority and dropped, beside one of another user that has its
// name. Both copies of another one are printed, and a third print is going on at the end.
const FIRST: &[Step] = &[
    (ANA, Wish::Connect, Seen::Accepted),
    (ANA, Wish::Idle, Seen::Turned),
    (ANA, Wish::Upload, Seen::Uploaded),
    (ANA, Wish::Put("job-1", 5, 1, "any"), Seen::Entry(5, 1)),
    (ANA, Wish::Put("job-1", 5, 1, "any"), Seen::Entry(5, 1)),
    (ANA, Wish::Put("job-1", 6, 1, "any"), Seen::NameTaken),
    (BEN, Wish::Put("job-1", 5, 1, "PETG"), Seen::Entry(5, 1)),
    (ANA, Wish::Queue, Seen::Entries(1)),
    (ANA, Wish::Drop("job-1"), Seen::Accepted),
    (ANA, Wish::Queue, Seen::Entries(0)),
    (BEN, Wish::Next, Seen::NoEntry),
    (ANA, Wish::Put("job-2", 5, 2, "PLA"), Seen::Entry(5, 2)),
    (BEN, Wish::Next, Seen::Taken(2)),
    (ANA, Wish::Put("job-2", 5, 2, "PLA"), Seen::Entry(5, 1)),
    (ANA, Wish::Idle, Seen::Turned),
    (ANA, Wish::Prints, Seen::Prints(1, Some(Outcome::Done))),
    (BEN, Wish::Next, Seen::Taken(1)),
    (ANA, Wish::Queue, Seen::Entries(0)),
    (ANA, Wish::Idle, Seen::Turned),
    (BEN, Wish::Next, Seen::NoEntry),
    (BEN, Wish::Prints, Seen::Prints(0, None)),
    (ANA, Wish::Put("job-3", 9, 1, "any"), Seen::Entry(9, 1)),
    (ANA, Wish::Next, Seen::Taken(1)),
    (ANA, Wish::Prints, Seen::Prints(3, Some(Outcome::Active))),
];

// The print that was going on is read as failed; the other rows are as they were.
const SECOND: &[Step] = &[
    (ANA, Wish::Prints, Seen::Prints(3, Some(Outcome::Failed))),
    (ANA, Wish::Queue, Seen::Entries(0)),
    (BEN, Wish::Queue, Seen::Entries(1)),
    (BEN, Wish::Drop("job-1"), Seen::Accepted),
    (BEN, Wish::Queue, Seen::Entries(0)),
];

fn name(rt: &impl Abort, text: &str) -> Name {
    Name::from_text(text).expect(rt, "a long name")
}

fn request_of(rt: &impl Abort, alloc: Global, wish: Wish) -> Request {
    match wish {
        Wish::Connect => Request::Connect { port: None },
        Wish::Upload => Request::PutFile {
            name: name(rt, "a.gcode"),
            file: Upload::read(alloc, b"G28\n").expect(rt, "no memory"),
            select: false,
            print: false,
        },
        Wish::Put(entry, priority, copies, material) => Request::PutEntry {
            name: name(rt, entry),
            file: name(rt, "a.gcode"),
            priority,
            copies,
            material: name(rt, material),
        },
        Wish::Drop(entry) => Request::DropOwn {
            name: name(rt, entry),
        },
        Wish::Next => Request::NextEntry,
        Wish::Queue => Request::ListQueue,
        Wish::Prints | Wish::Idle => Request::ListPrints,
    }
}

fn seen_of(answer: &Answer) -> Seen {
    match answer {
        Answer::Accepted => Seen::Accepted,
        Answer::Uploaded { .. } => Seen::Uploaded,
        Answer::OneEntry { entry } => Seen::Entry(entry.priority, entry.left),
        Answer::TakenEntry { entry } => Seen::Taken(entry.left),
        Answer::Entries { entries } => Seen::Entries(entries.as_slice().len()),
        Answer::Prints { prints } => Seen::Prints(
            prints.as_slice().len(),
            match prints.as_slice().first() {
                Some(print) => Some(print.outcome),
                None => None,
            },
        ),
        Answer::NameTaken { .. } => Seen::NameTaken,
        Answer::NoEntry => Seen::NoEntry,
        _ => Seen::Other,
    }
}

// A host with its shelf and its link.
#[derive(Drop)]
struct Bench {
    alloc: Global,
    house: House,
    shelf: MemoryShelf,
    link: MemoryLink,
}

impl Bench {
    // A host on this keeper and an empty shelf, with a printer of PLA.
    fn on<K: Keeper>(rt: &impl Abort, alloc: Global, keeper: &mut K) -> Bench {
        let mut shelf = shelf_of(alloc, &[]).expect(rt, "no memory");
        let session = plain_session(alloc, 30_000).expect(rt, "no memory");
        let ports = ports(alloc, "p").expect(rt, "no memory");
        let material = name(rt, "PLA");
        let house = House::begin(
            alloc,
            session,
            policy(alloc),
            ports,
            material,
            keeper,
            &mut shelf,
        )
        .expect(rt, "no host");
        let link = link_at(alloc, "p", FateList::new(alloc)).expect(rt, "no memory");
        Bench {
            alloc,
            house,
            shelf,
            link,
        }
    }

    // Drops the bench in one place. A function in which it goes out of scope would have to prove that drop itself.
    fn end(self) {}

    fn ask<K: Keeper>(&mut self, rt: &impl Abort, keeper: &mut K, key: &[u8], wish: Wish) -> Seen {
        let key = Blob::from_slice(self.alloc, key).expect(rt, "no memory");
        let request = request_of(rt, self.alloc, wish);
        let answer = self
            .house
            .ask(keeper, &mut self.shelf, Ask { key, request });
        seen_of(&answer)
    }

    fn turn<K: Keeper>(&mut self, rt: &impl Abort, keeper: &mut K) {
        assert!(rt; self.link.is_up() == self.house.session().up());
        self.house.turn(&mut self.link, keeper, 7);
    }

    // Turns until the printer is operational, 50 at most.
    fn idle<K: Keeper>(&mut self, rt: &impl Abort, keeper: &mut K) -> Seen {
        for _ in 0..50 {
            self.turn(rt, keeper);
            if self.house.session().desk().state() == State::Operational {
                return Seen::Turned;
            }
        }
        panic!(rt; "not operational");
    }

    fn take<K: Keeper>(&mut self, rt: &impl Abort, keeper: &mut K, key: &[u8], wish: Wish) -> Seen {
        if matches!(wish, Wish::Idle) {
            return self.idle(rt, keeper);
        }
        self.ask(rt, keeper, key, wish)
    }
}

// A host on this keeper takes the steps, of which each shows what it says.
fn take_all<K: Keeper>(rt: &impl Abort, alloc: Global, keeper: &mut K, steps: &[Step]) {
    let mut bench = Bench::on(rt, alloc, keeper);
    for step in steps {
        let (key, wish, wanted) = *step;
        assert!(rt; bench.take(rt, keeper, key, wish) == wanted);
    }
    bench.end();
}

// Adds a user who may print.
fn put_user<K: Keeper>(alloc: Global, keeper: &mut K, text: &str, key: &[u8]) -> Result<(), Fail> {
    let mut row = user(text, 0, &["users"], true)?;
    row.digest = digest_of(key);
    match keeper.commit(alloc, &Change::PutUser(row)) {
        Ok(()) => Ok(()),
        Err(_) => Err("no user".into()),
    }
}

fn run_hosts<K: Keeper>(rt: &impl Abort, alloc: Global, keeper: &mut K) -> Result<(), Fail> {
    put_user(alloc, keeper, "ana", ANA)?;
    put_user(alloc, keeper, "ben", BEN)?;
    take_all(rt, alloc, keeper, FIRST);
    take_all(rt, alloc, keeper, SECOND);
    Ok(())
}

#[test]
fn hosts_over_a_database(rt: HostRuntime) -> Result<(), Fail> {
    let mut keeper = empty_keeper(rt.alloc())?;
    run_hosts(&rt, rt.alloc(), &mut keeper)
}
