//! Replies with compact JSON, and those to messages that are no request, with their reasons.
//!
//! Source: RFC 9110 for the statuses. The bodies of refusals are this project's own.
#![tactic(auto)]

mod direct;
mod methods;
mod objects;
mod reasons;
mod status;
mod written;

pub use direct::{direct_bytes, empty_reply, fault_bytes, out_of_memory};
pub use methods::{MethodsText, methods_text};
pub use objects::{Members, Primitive, members_of, object_of, object_with, pair, with_member};
pub use status::{
    BAD_REQUEST, CONFLICT, CREATED, FORBIDDEN, INSUFFICIENT_STORAGE, NOT_FOUND, OK,
    SERVICE_UNAVAILABLE,
};
pub use written::{json_reply, object_reply, object_reply_with};
