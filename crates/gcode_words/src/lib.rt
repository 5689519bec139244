//! The words of a G-code line, each a letter and its number, and the numbers themselves in whole millionths.
#![tactic(auto)]

mod number;
mod scan;
mod word;

pub use number::{Number, decimal_up_to, read_number};
pub use scan::words;
pub use word::{CodeWord, Words};
