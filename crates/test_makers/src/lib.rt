//! What the tests of a host and of a floor of printers begin with: connections, doors, links, tables, hosts and floors in memory. Each
//! that takes memory returns None when there is none left.
#![tactic(auto)]

mod doors;
mod house;
mod lists;
mod lossy_link;
mod memory_floor;
mod parts;
mod printer;
mod shop;
mod users;

pub use doors::{conn_of, conns_of, door_of};
pub use house::{house_of, keeper_of, kept_outcome, shelf_of};
pub use lists::{calls, ports};
pub use lossy_link::LossyLink;
pub use memory_floor::MemoryFloor;
pub use parts::{PORT, link_of, session_of};
pub use printer::{link_at, plain_desk, plain_sender, plain_session};
pub use shop::{CLEAN, EntryRow, Shop, Wires};
pub use users::{ANA, BEN, EVE, ROOT, no_rows, policy, three_users};
