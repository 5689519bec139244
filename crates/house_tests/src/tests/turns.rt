//! Turns, and ends that are written later.
use super::bench::LIMIT;
use super::*;
use octo_house::BeginFault;
use octo_keeper::KeeperFault;
use test_makers::{house_of, keeper_of, shelf_of, three_users};

// A host whose print has ended, and whose keeper failed at that end.
fn ended_bench(rt: &impl Abort, alloc: Global) -> Bench {
    let mut bench = Bench::failing(rt, alloc, "any", &[3], &[]);
    bench.connect(rt);
    bench.select(rt, b"G28\n");
    bench.accepts(rt, ANA, Wish::Start);
    bench.turn_until(rt, State::Operational);
    bench
}

// The keeper fails at the end of a print: its record stays active, and the next turn writes it.
#[test]
fn end_written_later(rt: HostRuntime) {
    let mut bench = ended_bench(&rt, rt.alloc());
    assert_eq!(rt; bench.kept_outcome(0), Some(Outcome::Active));
    assert_eq!(rt; bench.unwritten(), Some((1, KeeperFault::Failed)));
    bench.turn(&rt);
    assert_eq!(rt; bench.kept_outcome(0), Some(Outcome::Done));
    assert_eq!(rt; bench.unwritten(), None);
    bench.end();
}

// A print that begins meanwhile carries the end.
#[test]
fn end_written_by_a_start(rt: HostRuntime) {
    let mut bench = ended_bench(&rt, rt.alloc());
    bench.accepts(&rt, ANA, Wish::Start);
    bench.keeps(&rt, Some(Outcome::Done), Some(Outcome::Active));
    assert_eq!(rt; bench.unwritten(), None);
    bench.end();
}

// A host that begins on an active record reads it as failed.
#[test]
fn begin_after_a_print(rt: HostRuntime) {
    let mut bench = Bench::sound(&rt, rt.alloc());
    bench.connect(&rt);
    bench.ask(&rt, ANA, Wish::Upload(b"G28\n", true));
    bench.begin_again(&rt);
    assert!(rt;
        matches!(
            bench.ask(&rt, ANA, Wish::Prints),
            Seen::Prints(_, Some(Outcome::Failed))
        )
    );
    bench.end();
}

// Why a host doesn't begin, at whose keeper and shelf these calls fail.
fn fault_of(rt: &impl Abort, alloc: Global, keeper: &[u64], shelf: &[u64]) -> Option<BeginFault> {
    let mut keeper = keeper_of(alloc, three_users(alloc).expect(rt, "no memory"), keeper).expect(
        rt,
        "no memory",
    );
    let mut shelf = shelf_of(alloc, shelf).expect(rt, "no memory");
    match house_of(alloc, "any", LIMIT, &mut keeper, &mut shelf) {
        Ok(_) => None,
        Err(fault) => Some(fault),
    }
}

// A keeper or a shelf whose first call fails.
#[test]
fn no_beginning(rt: HostRuntime) {
    assert!(rt;
        matches!(
            fault_of(&rt, rt.alloc(), &[1], &[]),
            Some(BeginFault::KeeperFailed)
        )
    );
    assert!(rt;
        matches!(
            fault_of(&rt, rt.alloc(), &[], &[1]),
            Some(BeginFault::ShelfFailed)
        )
    );
}

#[test]
fn ample(rt: HostRuntime) {
    let mut bench = Bench::sound(&rt, rt.alloc());
    bench.sees(&rt, ANA, Wish::Connection, Seen::Connection(1));
    bench.turn(&rt);
    bench.end();
}
