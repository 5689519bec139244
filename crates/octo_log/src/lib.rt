//! The log of a host: a line for each event, in plain text, for the people who run it.
//!
//! A keeper, a shelf and doors are wrapped: each call is the wrapped one's, and the log gets what came of it. A log that
//! fails loses the rest of a line; nothing else changes by it.
#![tactic(auto)]

mod conn;
mod door;
mod keeper;
mod line;
mod shelf;
mod words;

pub use conn::LoggedConn;
pub use door::LoggedDoor;
pub use keeper::LoggedKeeper;
pub use line::{MOST_LOG_BYTES, log_line};
pub use shelf::LoggedShelf;
pub use words::{log_serving, log_stopped};
