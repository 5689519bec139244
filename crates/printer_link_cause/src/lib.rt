//! Why a call of a link to a printer failed, for the people who use it.
#![tactic(auto)]

mod cause;
mod watched;

pub use cause::{Cause, CauseText, MOST_CAUSE_BYTES, cause_of, cause_words};
pub use watched::WatchedLink;
