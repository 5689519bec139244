//! What is seen of a whole host.
use super::steps::{Kept, what_is_kept};
use crate::tests::bench::Bench;
use crate::tests::seen::Seen;
use crate::tests::wishes::Wish;
use std::process::Abort;
use test_makers::ROOT;

// What the admin's lists show of a host, and what its keeper keeps.
#[derive(Clone, Copy, PartialEq, Eq)]
pub(super) struct Look {
    pub job: Seen,
    pub files: Seen,
    pub queue: Seen,
    pub prints: Seen,
    pub users: Seen,
    pub kept: Kept,
}

// What the admin sees.
fn sees(rt: &impl Abort, bench: &mut Bench, wish: Wish) -> Seen {
    bench.ask(rt, ROOT, wish)
}

// Looks at a host, with one call of its shelf.
pub(super) fn look_at(rt: &impl Abort, bench: &mut Bench) -> Look {
    Look {
        job: sees(rt, bench, Wish::Job),
        files: sees(rt, bench, Wish::Files),
        queue: sees(rt, bench, Wish::Queue),
        prints: sees(rt, bench, Wish::Prints),
        users: sees(rt, bench, Wish::Users),
        kept: what_is_kept(rt, bench),
    }
}

// Whether the rows are the same, whatever the job and the files are.
pub(super) fn has_same_rows(one: Look, other: Look) -> bool {
    one.queue == other.queue
        && one.prints == other.prints
        && one.users == other.users
        && one.kept == other.kept
}
