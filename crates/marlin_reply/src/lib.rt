//! The printer's reply lines, by Marlin's serial protocol.
//!
//! Source: Marlin's queue.cpp for `ok` and `Resend:`; temperature.cpp for the reports of temperatures;
//! `HOST_KEEPALIVE_FEATURE` for `echo:busy:`.
#![tactic(auto)]

mod laws;
mod pieces;
mod read;
mod reply;
mod temperatures;

pub use laws::{ok_law, request_law};
pub use read::read_reply;
pub use reply::{Heat, Reply, Temps};
