//! The lines that JSON bodies ask a print host to send, and the members and lists of such bodies.
//!
//! Source: OctoPrint's REST API, printer operations.
#![tactic(auto)]

mod commands;
mod decimals;
mod lists;
mod members;
mod moves;
mod rates;
mod unread;

pub use commands::command_of;
pub use decimals::{Decimal, as_decimal};
pub use lists::{are_texts, as_lines, items_in};
pub use members::{as_whole_in, flag_at, is_text_at, text_at};
pub use moves::{axis_at, home_lines, jog_lines, speed_at};
pub use rates::{amount_at, extrude_lines, feedrate_lines, flowrate_lines, select_lines};
pub use unread::Unread;
