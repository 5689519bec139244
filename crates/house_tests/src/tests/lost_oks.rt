//! A host whose printer has all lines, but `ok`s are lost.
use super::prints::SIX;
use super::*;

// The reply to the hello comes, and those to the next four lines are lost: as many as the window has.
const LOST: [u64; 4] = [2, 3, 4, 5];

// A host that prints, and no further line can be sent. An entry waits in its queue.
fn standing_still(rt: &impl Abort, alloc: Global) -> Bench {
    let mut bench = Bench::losing(rt, alloc, &LOST);
    bench.connect(rt);
    bench.select(rt, SIX);
    bench.ask(rt, ANA, Wish::Put("job-1", 5, 1, "any"));
    bench.accepts(rt, ANA, Wish::Start);
    for _ in 0..8 {
        bench.turn(rt);
    }
    bench
}

// At the first limit the lines are sent again. In each of the next twenty the printer asks for the line after them.
#[test]
fn print_fails(rt: HostRuntime) {
    let mut bench = standing_still(&rt, rt.alloc());
    bench.pass_limits(&rt, 20);
    assert_eq!(rt; bench.state(), State::Printing);
    bench.pass_limits(&rt, 1);
    assert_eq!(rt; bench.state(), State::Fault);
    assert_eq!(rt; bench.kept_outcome(0), Some(Outcome::Failed));
    bench.end();
}

// A `cancel` ends so too.
#[test]
fn cancel_fails(rt: HostRuntime) {
    let mut bench = standing_still(&rt, rt.alloc());
    bench.pass_limits(&rt, 1);
    bench.accepts(&rt, ANA, Wish::Cancel);
    bench.pass_limits(&rt, 20);
    assert_eq!(rt; bench.state(), State::Fault);
    bench.end();
}

// Connected again, the host goes on with its queue.
#[test]
fn queue_goes_on(rt: HostRuntime) {
    let mut bench = standing_still(&rt, rt.alloc());
    bench.pass_limits(&rt, 21);
    bench.connect(&rt);
    bench.ask(&rt, ANA, Wish::Next);
    bench.turn_until(&rt, State::Operational);
    bench.keeps(&rt, Some(Outcome::Failed), Some(Outcome::Done));
    bench.end();
}
