//! What a print host keeps: its users, queue and print records as tables, and its files on a shelf.
#![tactic(auto)]

mod checks;
mod copies;
mod edits;
mod fetched;
mod files;
mod keeper;
mod lists;
mod memory_keeper;
mod memory_shelf;
mod order;
mod settling;
mod shelf;
mod stager;
mod tables;

pub use checks::are_sound;
pub use edits::end_print;
pub use fetched::{Fetched, FileMark};
pub use keeper::{Keeper, KeeperFault};
pub use memory_keeper::MemoryKeeper;
pub use memory_shelf::MemoryShelf;
pub use settling::settle_prints;
pub use shelf::{FileList, Shelf, ShelfFault, ShelfFile};
pub use stager::{NoStager, Stager};
pub use tables::{Change, Tables};
