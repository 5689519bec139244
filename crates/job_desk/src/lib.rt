//! The desk of a print host: its states, its scripts and its prints; what it does at each call, as steps on plain data,
//! and what a whole run of calls comes to.
#![tactic(auto)]

mod desk;
mod issued;
mod laws;
mod link_fact;
mod scripts;
mod state;
mod waiting;

pub use desk::{Desk, NotSelected};
pub use issued::{Issued, Note};
pub use laws::{
    every_beginning_is_in_order, every_course_reads_plainly, every_run_has_stories,
    nothing_is_left_to_settle,
};
pub use link_fact::LinkFact;
pub use print_queue::{Ending, Outcome};
pub use scripts::{AddFault, MOST_SCRIPT_LINES, Scripts};
pub use send_window::SessionEnd;
pub use state::{Point, Refusal, State, Tag};
pub use temp_rules::{HotLine, Limits};
