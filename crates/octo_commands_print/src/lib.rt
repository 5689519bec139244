//! The command `print` of a print host: a file's commands over a session made by the settings; and a print made from a number, over a
//! link in memory, for the command `demo`.
#![tactic(auto)]

mod draws;
mod file;
mod job;
mod print;
mod report;
mod run;
mod schedule;

pub use draws::Draws;
pub use file::{MOST_COMMANDS, demo_file};
pub use job::demo_job;
pub use print::print_file;
pub use report::{DemoCounts, SummaryText, summary};
pub use run::{Demo, run_demo};
pub use schedule::demo_schedule;
