//! Links from a host to a printer, which record what happened between both, and a link in memory.
#![tactic(auto)]

mod link;
mod memory_link;
mod schedule;
mod story;

pub use link::{Heard, Link, LinkFault};
pub use memory_link::MemoryLink;
pub use schedule::{Fate, FateList, Schedule};
