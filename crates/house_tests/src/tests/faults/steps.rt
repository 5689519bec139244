//! The steps of a row at a host, and what its keeper keeps.
use crate::tests::bench::Bench;
use crate::tests::seen::Seen;
use crate::tests::wishes::Wish;
use print_queue::Outcome;
use std::process::Abort;

// What a keeper keeps, in numbers.
#[derive(Clone, Copy, PartialEq, Eq)]
pub(super) struct Kept {
    pub users: usize,
    pub entries: usize,
    pub prints: usize,
    // The outcome of the newest record.
    pub newest: Option<Outcome>,
}

// Takes a step of a row, with the key of the caller: an ask, or turns until the desk is in a state, one turn at least and
// 50 at most.
pub(super) fn take(rt: &impl Abort, bench: &mut Bench, key: &[u8], wish: Wish) -> Seen {
    let Wish::Until(state) = wish else {
        return bench.ask(rt, key, wish);
    };
    bench.turn(rt);
    bench.turn_until(rt, state);
    if bench.unwritten().is_some() {
        return Seen::Unwritten;
    }
    Seen::Turned
}

pub(super) fn what_is_kept(rt: &impl Abort, bench: &Bench) -> Kept {
    let Some(tables) = bench.keeper.tables() else {
        panic!(rt; "no tables")
    };
    Kept {
        users: tables.users.as_slice().len(),
        entries: tables.queue.as_slice().len(),
        prints: tables.prints.as_slice().len(),
        newest: match tables.prints.as_slice().last() {
            Some(print) => Some(print.outcome),
            None => None,
        },
    }
}
