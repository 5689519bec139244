//! The command `serve` of a print host: it reads its settings, begins on its tables and files, and serves its doors; and how a
//! command of the program is reported, that one among them.
#![tactic(auto)]

mod beginning;
mod hosting;
mod opened;
mod report;

pub use hosting::{HostEnd, host};
pub use opened::Opened;
pub use report::{HostReport, write_host_report};
