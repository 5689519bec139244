//! Links that say what goes over them: the log of a host's link, with a line for each event, and the progress of a print, which is
//! counted and shown while the print goes on.
//!
//! Each call of the link is the wrapped one's. A log that fails loses what was to be shown; nothing else changes by it.
//!
//! Each call is the wrapped link's. A log that fails loses the rest of a line; nothing else changes by it.
#![tactic(auto)]

mod link;
mod logging;
mod progress;
mod progress_watched;
mod progress_words;
mod shown;
mod tally;
mod temps;
mod watched;
mod words;

pub use link::LoggedLink;
pub use progress::{ProgressLink, Showing};
pub use tally::Tally;
