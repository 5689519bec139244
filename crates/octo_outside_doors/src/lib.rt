//! Doors, at which connections come in: the trait, its form in memory, and four doors over one TCP listener.
#![tactic(auto)]

mod arrivals;
mod came;
mod door;
mod door_conn;
mod memory_door;
mod pace;
mod passing;
mod tcp_door;

pub use door::{Door, Doors, Knock};
pub use door_conn::DoorConn;
pub use memory_door::{ConnList, MemoryDoor};
pub use passing::may_pass;
pub use tcp_door::TcpDoor;
