//! A link to a printer over the streams of ports, which does not record what happened.
#![tactic(auto)]

mod address;
mod boot;
mod dial;
mod lines;
mod link;
mod poll;
mod stream_link;
mod unsent;
mod waiting;
mod watched;

pub use address::{Device, device_of, names_address, names_device, names_port};
pub use dial::{Dial, Opened, WriteNow};
pub use link::PortLink;
