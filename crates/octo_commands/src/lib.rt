//! The commands of the print host as one call, over any files, links, output, clock, keeper, shelf and doors.
#![tactic(auto)]

mod carrying;
mod demo;
mod run;

pub use run::{Status, octo};
