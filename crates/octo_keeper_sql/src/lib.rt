//! The tables of a print host in a database: each row as the SQL reads and writes it, and each change as one transaction.
#![tactic(auto)]

mod adopt;
mod entries;
mod entry_rows;
mod fault;
mod keeper;
mod load;
mod old_queue;
mod print_rows;
mod prints;
mod reading;
mod schema;
mod statement;
mod user_rows;
mod users;
mod write;

pub use entry_rows::{entries_of, entry_values};
pub use fault::fault_of;
pub use keeper::{NotAdopted, SqlKeeper};
pub use old_queue::{OldEntry, old_entries_of, upgrade};
pub use print_rows::{number_of, print_values, prints_of};
pub use reading::number_at;
pub use user_rows::{text_of_groups, user_values, users_of};
