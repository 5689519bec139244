//! Further laws of whole histories of a print host: the limits of its heaters, the courses of its prints, who was denied, what callers
//! learn of each other, and puts that were repeated; also over a shelf that may record nothing, as a real folder.
#![tactic(auto)]

mod laws;

pub use laws::{
    every_call_is_by_a_permitted_caller, every_caller_is_isolated,
    every_done_record_has_a_whole_course, every_history_keeps_laws_over_contents,
    every_history_keeps_prints_over_contents, every_host_keeps_the_laws,
    every_line_is_within_limits, every_line_of_read_settings_is_within_limits,
    every_line_over_contents_is_within_limits, every_print_follows_a_course,
    every_put_is_made_once,
};
