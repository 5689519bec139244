//! What HTTP messages ask of a print host: its REST API's paths, methods and bodies.
//!
//! Source: OctoPrint's REST API. The paths for users, the queue and the prints are this project's own.
#![tactic(auto)]

mod bodies;
mod body_faults;
mod entry_body;
mod fields;
mod lists;
mod marked;
mod printer_bodies;
mod printer_faults;
mod request;
mod stored;
mod upload;
mod user_bodies;

pub use octo_api_routes::{BodyFault, Direct, MediaFault, Member};
pub use request::{request_by, to_request};
