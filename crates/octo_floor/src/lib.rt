//! A floor of printers that share one queue: each printer connects, and starts what is next for its material until nothing more can be
//! started; its rounds, printer by printer, and what holds of a floor after a run's rounds.
#![tactic(auto)]

mod floor;
mod leaving;
mod ledger;
mod links;
mod round;
mod run;
mod starting;
mod step;
mod steps;
mod tally;
mod watch;

pub use floor::{Floor, SessionList};
pub use ledger::{EventList, Ledger};
pub use links::Links;
pub use round::Rounded;
pub use watch::{Unwatched, Watch};
