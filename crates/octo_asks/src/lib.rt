//! What a print host is asked and answers, the history of it, and how asks come in and answers go out.
#![tactic(auto)]

mod answer;
mod asked;
mod asker;
mod copies;
mod counter;
mod entry;
mod memory_counter;
mod request;
mod rights;
mod shown;
mod sought;
mod upload;

pub use answer::{Answer, PrintRefusal, StoredCause};
pub use asker::{Asker, Closed};
pub use counter::{Counter, Given, Next};
pub use entry::Entry;
pub use memory_counter::{AskList, MemoryCounter};
pub use request::{Ask, BlobList, Request};
pub use rights::needed;
pub use shown::{
    Progress, ShownEntry, ShownEntryList, ShownFile, ShownFileList, ShownHeat, ShownPrint,
    ShownPrintList, ShownUser, ShownUserList,
};
pub use sought::Sought;
pub use upload::Upload;
