//! Connections over sockets, with calls that wait for a bounded time.
#![tactic(auto)]

mod socket_stream;
mod streams;
mod tcp_conn;

pub use socket_stream::{SocketStream, unix_path};
pub use streams::{linger, may_come_later, prepare, write_some};
pub use tcp_conn::TcpConn;
