//! The queue of prints, entries of users by priority and arrival, each for a number of copies of a material; and the records
//! of prints: how each print of a host goes or ended.
#![tactic(auto)]

mod ending;
mod entry;
mod material;
mod order;
mod queue;
mod refusal;
mod row;
mod rows;

pub use ending::{Ending, Outcome};
pub use entry::{EntryList, MOST_COPIES, MOST_PRIORITY, QueueEntry};
pub use material::any_material;
pub use queue::{MOST_ENTRIES, Queue};
pub use refusal::{Put, QueueRefusal};
pub use row::{PrintList, PrintRow};
pub use rows::{place_for, place_of};
