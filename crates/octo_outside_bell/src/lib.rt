//! A bell between threads: a ring ends a wait of another thread, which may wait for a socket or a clock at the same time.
#![tactic(auto)]

mod bell;
mod ear_clock;

pub use bell::{Bell, Ear, bell_and_ear};
pub use ear_clock::EarClock;
