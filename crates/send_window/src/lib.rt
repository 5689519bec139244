//! The sender of a print host, by Marlin's serial protocol: lines with a number and a checksum, a window of lines
//! that may be unacknowledged, Resend requests, and a time limit for the printer's `ok`.
//!
//! Source: Marlin's queue.cpp for line numbers, checksums, `ok`, `Resend:` and `M110`; `ADVANCED_OK` for numbered
//! acknowledgements.
#![tactic(auto)]

mod held;
mod laws;
mod sender;
mod session_end;

pub use laws::{
    acked_law, counted_law, end_law, ends_law, extra_law, given_law, held_law, named_law,
    silence_law, wait_law,
};
pub use sender::Sender;
pub use session_end::SessionEnd;
