//! What holds of a sender, its wires and the printer through a session, whatever the line loses, corrupts or delays and
//! whenever the printer restarts; and how long a session waits for an answer.
#![tactic(auto)]

mod laws;

pub use laws::{linked_law, turn_law};
