//! The commands of a G-code file, as a host sends them to a Marlin printer one by one: its lines without comments,
//! checksums, blanks and line numbers. The words of a command come from `gcode_words`.
#![tactic(auto)]

mod fault;
mod job;
mod laws;
mod line;
mod packed_entry;
mod places;
mod reading;
mod single;
mod text;

pub use fault::{FileFault, NotOne};
pub use gcode_words::{CodeWord, Words, words};
pub use job::Job;
pub use laws::{job_law, line_law, single_law};
pub use reading::{MOST_FILE_BYTES, read_commands, take_commands};
pub use single::one_command;
pub use text::{has_order_mark, is_numbered};
