//! A shelf of files in a folder of the system.
#![tactic(auto)]

mod fetching;
mod files;
mod folder;
mod listing;
mod notes;
mod paths;
mod shelf;
mod stager;

pub use shelf::FolderShelf;
pub use stager::FolderStager;
