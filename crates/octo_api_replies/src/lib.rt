//! The replies of a print host's REST API: the JSON of each answer, and the status and bytes of each reply.
//!
//! Source: OctoPrint's REST API. The replies for users, the queue and the prints, and the bodies of refusals, are this
//! project's own.
#![tactic(auto)]

mod fixed;
mod items;
mod lists;
mod pages;
mod printer;
mod refusals;
mod replies;
mod rows;
mod shown;
mod texts;
mod uploads;
mod written;

pub use replies::to_bytes;
pub use shown::shown_bytes;
