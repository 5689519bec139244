//! The command line of the print host: which command its arguments are.
#![tactic(auto)]

mod apps;
mod command;
mod fields;
mod parse;
mod read;
mod remark;
mod replies;

pub use command::{Command, FilePath, ReplyList, WordsFault};
pub use read::{asks_progress, read_words};
pub use remark::{Remark, remark_on};
