//! One HTTP/1.1 message from a connection, and its reply: what bytes say as a head, how long the body is, and the parts round
//! the bytes of a chunked body.
//!
//! Source: RFC 9112.
#![tactic(auto)]

mod body;
mod chunks;
mod fault;
mod fields;
mod fill;
mod framing;
mod head;
mod intake;
mod looks;
mod message;
mod part;
mod read_head;
mod read_part;
mod reply;

pub use fault::MessageFault;
pub use framing::Framing;
pub use head::{Found, Head, look};
pub use message::{Begun, Message, is_long, read_begin, read_message, read_rest};
pub use part::{Part, look_part};
pub use reply::{FieldLines, HttpReply, NO_CONTENT, ReplyKind, write_head, write_reply};
