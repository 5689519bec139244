//! A print host: its desk, users, queue, records and files' names, and how each request changes them.
#![tactic(auto)]

mod calls;
mod faults;
mod host_desk;
mod house;
mod reads;

pub use faults::BeginFault;
pub use host_desk::HostDesk;
pub use house::House;
