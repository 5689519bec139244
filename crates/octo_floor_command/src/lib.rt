//! The command `floor` of a print host: it reads its settings, begins a floor of printers on the tables and files that are kept, and
//! runs it until nothing more can be started; how that is reported, and the log of it in plain text.
#![tactic(auto)]

mod beginning;
mod log;
mod report;
mod run_report;
mod running;
mod sessions;
mod settings;
mod words;

pub use log::FloorLog;
pub use report::{FloorReport, write_floor_report};
pub use run_report::{PRINTS_FAILED, floor_code, write_floor_end};
pub use running::{FloorDone, run_floor};
