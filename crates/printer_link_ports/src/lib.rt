//! The ports of this machine's system: over TCP, Unix sockets and serial devices.
#![tactic(auto)]

mod connecting;
mod ports;
mod room;
mod stream;
mod tty;

pub use ports::SystemPorts;
pub use stream::PortStream;
pub use tty::TtyStream;
