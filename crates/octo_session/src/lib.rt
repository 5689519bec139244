//! The session of a print host with its printer: desk, sender and link, joined turn by turn. A turn is also described as
//! plain data: a list of steps on the sender and the link, and what it finds and returns.
#![tactic(auto)]

mod found;
mod open_turn;
mod session;

pub use found::{Doing, Found, Received, Turned, turned_of};
pub use job_desk::{Ending, Issued, LinkFact, Note, SessionEnd};
pub use session::Session;
