//! A whole print over a session and its link: what it issues, how far it is at its desk, what remains of it, and how soon a print over
//! a prompt link is done.
#![tactic(auto)]

mod end;
mod laws;
mod print;

pub use end::PrintEnd;
pub use laws::every_print_follows_its_plan;
pub use print::run_print;
