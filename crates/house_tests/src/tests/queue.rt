//! Users and the queue.
ghost use Rattle.std.specs.Prelude.{◌<◌};

use super::*;

// Puts ana's entry job-1, one copy of any material, and sees this.
fn puts(bench: &mut Bench, rt: &impl Abort, priority: u8, wanted: Seen) {
    bench.sees(rt, ANA, Wish::Put("job-1", priority, 1, "any"), wanted);
}

// A list of the queue has that many entries, each with one copy left.
fn holds(bench: &mut Bench, rt: &impl Abort, key: &[u8], wanted: usize) {
    bench.sees(rt, key, Wish::Queue, Seen::Entries(wanted, wanted as u64));
}

// A put that is repeated changes nothing; another content is refused with the kept entry.
#[test]
fn repeated_put(rt: HostRuntime) {
    let mut bench = Bench::sound(&rt, rt.alloc());
    bench.select(&rt, b"G28\n");
    for _ in 0..2 {
        puts(&mut bench, &rt, 5, Seen::OneEntry(5, 1));
    }
    holds(&mut bench, &rt, ANA, 1);
    puts(&mut bench, &rt, 6, Seen::NameTaken(Some(5)));
    holds(&mut bench, &rt, BEN, 0);
    holds(&mut bench, &rt, ROOT, 1);
    bench.end();
}

// A name of one byte.
fn letter(rt: &impl Abort, place: usize) -> &'static str
    requires { place < 64 }
{
    let names = b"0123456789abcdefghijklmnopqrstuvwxyzABCDEFGHIJKLMNOPQRSTUVWXYZ+-_.";
    match std::str::from_utf8(&names[place..place + 1]) {
        Ok(text) => text,
        Err(_) => panic!(rt; "no text"),
    }
}

// A 65th entry is refused.
#[test]
fn full_queue(rt: HostRuntime) {
    let mut bench = Bench::sound(&rt, rt.alloc());
    bench.select(&rt, b"G28\n");
    for place in 0..64 {
        let text = letter(&rt, place);
        let seen = bench.ask(&rt, ANA, Wish::Put(text, 5, 1, "any"));
        assert!(rt; matches!(seen, Seen::OneEntry(_, _)));
    }
    let seen = bench.ask(&rt, ANA, Wish::Put("job-65", 5, 1, "any"));
    assert!(rt; matches!(seen, Seen::Full(64)));
    bench.end();
}

// A connected host with a file, on a printer of a material.
fn with_file(rt: &impl Abort, alloc: Global, material: &str) -> Bench {
    let mut bench = Bench::failing(rt, alloc, material, &[], &[]);
    bench.connect(rt);
    bench.select(rt, b"G28\n");
    bench
}

// Copies of a material, on a printer of another one.
#[test]
fn no_copies(rt: HostRuntime) {
    let mut petg = with_file(&rt, rt.alloc(), "PETG");
    petg.ask(&rt, ANA, Wish::Put("job-1", 5, 2, "PLA"));
    petg.sees(&rt, BEN, Wish::Next, Seen::NoEntry);
    petg.end();
}

// Copies of a material, on a printer of it.
#[test]
fn copies(rt: HostRuntime) {
    let mut pla = with_file(&rt, rt.alloc(), "PLA");
    pla.ask(&rt, ANA, Wish::Put("job-1", 5, 2, "PLA"));
    pla.sees(&rt, BEN, Wish::Next, Seen::TakenEntry(2));
    let seen = pla.ask(&rt, ANA, Wish::Put("job-1", 5, 2, "PLA"));
    assert!(rt; matches!(seen, Seen::OneEntry(_, 1)));
    pla.turn_until(&rt, State::Operational);
    pla.sees(&rt, BEN, Wish::Next, Seen::TakenEntry(1));
    holds(&mut pla, &rt, ANA, 0);
    pla.end();
}

// The print of an entry is its user's, and the keeper's fault leaves the entry.
#[test]
fn failed_next(rt: HostRuntime) {
    let mut bench = Bench::failing(&rt, rt.alloc(), "any", &[3], &[]);
    bench.connect(&rt);
    bench.select(&rt, b"G28\n");
    bench.ask(&rt, ANA, Wish::Put("job-1", 5, 1, "any"));
    bench.sees(&rt, BEN, Wish::Next, Seen::KeeperFault);
    holds(&mut bench, &rt, ANA, 1);
    let seen = bench.ask(&rt, BEN, Wish::Next);
    assert!(rt; matches!(seen, Seen::TakenEntry(_)));
    let seen = bench.ask(&rt, ANA, Wish::Prints);
    assert!(rt; matches!(seen, Seen::Prints(1, _)));
    bench.end();
}

// Entries for which the commit fails are as before.
#[test]
fn failed_entries(rt: HostRuntime) {
    let mut bench = Bench::failing(&rt, rt.alloc(), "any", &[2, 4], &[]);
    bench.select(&rt, b"G28\n");
    puts(&mut bench, &rt, 5, Seen::KeeperFault);
    holds(&mut bench, &rt, ANA, 0);
    bench.ask(&rt, ANA, Wish::Put("job-1", 5, 1, "any"));
    bench.sees(&rt, ANA, Wish::Drop("job-1"), Seen::KeeperFault);
    holds(&mut bench, &rt, ANA, 1);
    bench.end();
}

// Users for which the commit fails are as before.
#[test]
fn failed_rows(rt: HostRuntime) {
    let mut bench = Bench::failing(&rt, rt.alloc(), "any", &[2, 4], &[]);
    bench.sees(&rt, ROOT, Wish::AddUser("tom"), Seen::KeeperFault);
    bench.sees(&rt, ROOT, Wish::AddUser("tom"), Seen::User(true));
    bench.sees(&rt, ROOT, Wish::SwitchOff, Seen::KeeperFault);
    bench.sees(&rt, ROOT, Wish::SwitchOff, Seen::Accepted);
    let denied = Seen::Denied(None);
    bench.sees(&rt, b"tom-key-0123456789", Wish::Version, denied);
    bench.end();
}

// Users that can't be added or changed.
#[test]
fn refused_users(rt: HostRuntime) {
    let mut bench = Bench::sound(&rt, rt.alloc());
    bench.sees(&rt, ROOT, Wish::AddUser("ana"), Seen::NameTaken(None));
    bench.sees(&rt, ROOT, Wish::SwitchOff, Seen::NoUser);
    bench.sees(&rt, ROOT, Wish::Users, Seen::Users(3, 3));
    bench.end();
}
