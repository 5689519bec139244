//! A printer of a floor and what the printers share: a session with a record of what was done with it, kept for proofs alone; the queue
//! with its entries that were passed over; and the rules of which entry a printer starts next. What the printer made of each print is a
//! theorem of the printer by itself, whatever the other printers do.
#![tactic(auto)]

mod bay;
mod copies;
mod deed;
mod end;
mod ending;
mod event;
mod faults;
mod laws;
mod next;
mod reading;
mod recording;
mod rule_laws;
mod stock;
mod table;

pub use bay::Bay;
pub use copies::copies_left;
pub use deed::Deed;
pub use end::{FloorEnd, FloorFault, Why};
pub use ending::write_end;
pub use event::FloorEvent;
pub use laws::prints_are_sound;
pub use next::next_start;
pub use reading::read_entry;
pub use rule_laws::{copies_are_counted, numbers_differ, numbers_go_on, passed_entries_stay_out};
pub use stock::{FloorStock, MOST_RECORDS};
pub use table::EventLog;
