//! A modelled Marlin printer, and the world of wires between host and printer as events; and the history of a link by its
//! sessions: what the printer executed in each, and what host and printer exchanged.
#![tactic(auto)]

mod corrupt;
mod event;
mod executed;
mod oks;
mod printer;
mod replies;
mod session_executed;
mod session_theorems;
mod theorems;
mod wire;
mod world;

pub use corrupt::corrupted;
pub use event::WorldEvent;
pub use executed::ExecutedLine;
pub use oks::Oks;
pub use printer::{Printer, Ran, Reason, Taken};
pub use replies::{error_line, ok_line, resend_line, start_line};
pub use session_executed::Executed;
pub use session_theorems::session_law;
pub use theorems::{line_law, reply_law, world_law};
pub use world::World;
