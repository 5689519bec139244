//! A worker of a print host: it reads the messages of a door's connections, asks what they say, and writes the replies. The page for
//! browsers it shows by itself: nobody is asked for it, and no key is needed. Pages of the origins that its terms list may read the
//! replies.
//!
//! Source: RFC 9110, section 15, for the statuses; W3C, Content Security Policy Level 3, for what the page may do.
//!
//! Source: RFC 9112 for messages and replies; OctoPrint's REST API for what they say.
#![tactic(auto)]

mod admit;
mod at_door;
mod html;
mod origins;
mod page;
mod reply;
mod serve;
mod staging;
mod terms;

pub use at_door::worker;
pub use page::{Page, page_bytes, page_of};
pub use serve::serve_conn;
pub use terms::Terms;
