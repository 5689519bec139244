//! The log of a host's history: a counter whose entries are logged, as far as no other object of the host sees what they say.
#![tactic(auto)]

mod counter;
mod lines;
mod press;

pub use counter::LoggedCounter;
