//! The numbered lines of Marlin's serial protocol: written, checked and read back.
//!
//! A command is sent as `N`, its number, a space, the command, `*` and the checksum in decimal, the exclusive
//! or of all bytes before the `*`. This is the form that Marlin's serial queue takes.
#![tactic(auto)]

mod laws;
mod numbering;
mod parts;
mod read;
mod written;

pub use byte_text::xor;
pub use laws::{frame_law, hello_law, line_law};
pub use numbering::{HELLO_NUMBER, hello_frame, wire_number};
pub use parts::{
    begins_with_n, checksum_matches, fails, has_checksum, has_second_n, line_number, n_parameter,
    text,
};
pub use read::{Read, read_frame};
pub use written::{LAST_NUMBER, frame};
