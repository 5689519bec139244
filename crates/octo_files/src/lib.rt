//! The commands on files of a print host: reading a file's job, checking it, measuring it, writing its rest, and reading
//! settings; and what a command reports: its exit status and its text.
#![tactic(auto)]

mod checking;
mod faults;
mod jobs;
mod measuring;
mod page;
mod report;
mod settings;
mod status;
mod texts;
mod writing;

pub use checking::check_file;
pub use jobs::read_job;
pub use measuring::{measure_file, rest_of_file};
pub use report::Report;
pub use settings::read_settings_of;
pub use status::{
    BAD_ARGUMENTS, DOOR_FAILED, FILE_REFUSED, LINK_FAILED, OUT_OF_MEMORY, OUTPUT_FAILED,
    SESSION_ENDED, SETTINGS_REFUSED, SOURCE_FAILED, STORE_FAILED, SUCCESS, TURNS_USED,
};
pub use writing::write_report;
