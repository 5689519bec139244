//! A print host at its four doors: four workers in threads of their own, and the house in the caller's thread. They hand it asks and
//! get its answers over one table of words and slots that is proved by a rule: one history for all, each call in it once and in its
//! worker's order.
#![tactic(auto)]

mod beside;
mod board;
mod house_counter;
mod house_end;
mod joined;
mod plays;
mod serving;
mod stagers;
mod waiting;
mod worker_end;
mod workers;

pub use house_end::HouseEnd;
pub use joined::History;
pub use serving::{Served, serve};
pub use worker_end::WorkerEnd;
pub use workers::{Workers, ends};
