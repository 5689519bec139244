//! Which commands ask a heater for a temperature, and whether it is above the heater's limit.
#![tactic(auto)]

mod asked;
mod heater;
mod job;
mod laws;
mod limits;
mod targets;

pub use heater::Heater;
pub use job::{HotLine, first_hot};
pub use laws::{hot_law, targets_law};
pub use limits::{Limits, TooHot, check};
pub use targets::Targets;
