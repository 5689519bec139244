//! What a print host answers to each request and what it then knows, as plain data; and which histories of a host are
//! legal and what they lead to; with the laws of callers and of whole histories.
#![tactic(auto)]

mod caller_laws;
mod history_laws;

pub use caller_laws::{
    callers_are_isolated, permitted_callers_are_answered, repeated_puts_change_nothing,
};
pub use history_laws::{every_history_keeps_outcomes, every_history_keeps_scripts};
