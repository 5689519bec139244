//! Lists of asks over a keeper, a shelf and a link in memory.
mod bench;
mod downloads;
mod faults;
mod lost_oks;
mod prints;
mod queue;
mod seen;
mod sums;
mod turns;
mod uploads;
mod wishes;

use bench::Bench;
use job_desk::State;
use print_queue::Outcome;
use seen::Seen;
use std::alloc::Global;
use std::process::Abort;
use test_makers::{ANA, BEN, EVE, ROOT};
use wishes::Wish;
