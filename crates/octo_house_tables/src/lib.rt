//! The rows that a print host keeps with its keeper: users, queue and records of prints. The keeper writes a change first,
//! and then what can't fail is done. Also what a host reads and makes of these rows, and what its answers show of them.
#![tactic(auto)]

mod entries;
mod files;
mod jobs;
mod lists;
mod names;
mod prints;
mod refusals;
mod states;
mod tables;
mod temps;
mod texts;
mod users;

pub use entries::{asked_entry, has_entry};
pub use files::{bad_file, read_bytes, read_job, read_size};
pub use jobs::{check_job, progress};
pub use lists::{copy_names, shown_entries, shown_files, shown_prints, shown_users};
pub use names::{add_name, drop_name, names_in, port_for, reserve_name};
pub use prints::{add_print, new_row, read_prints, reserve_print};
pub use refusals::{
    answer_of_keeper_fault, answer_of_queue_refusal, answer_of_refusal, answer_of_shelf_fault,
    answer_of_user_refusal,
};
pub use states::{may_select, may_show, may_shut_down};
pub use tables::{HostTables, Unwritten};
pub use temps::{shown_heat, temps_after};
pub use texts::{bed_line, first_hot_text, read_lines, tool_line};
pub use users::{changed_user, new_user, nobody, user_named};
