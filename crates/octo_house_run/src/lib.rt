//! The run of a print host: its asks and the turns of its link in alternation, and the history that they make.
#![tactic(auto)]

mod answering;
mod host_run;
mod link_turn;
mod reconnect;
mod tally;

pub use host_run::run;
