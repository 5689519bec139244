//! The paths and methods of a print host's REST API: what they are about, which body they want, and why a message is no
//! request.
//!
//! Source: OctoPrint's REST API. The paths for users, the queue and the prints are this project's own.
#![tactic(auto)]

mod ascii;
mod direct;
mod place;
mod shown;
mod target;
mod wanted;

pub use ascii::{ascii_text, is_key};
pub use direct::{BodyFault, Direct, MediaFault, Member, Methods};
pub use place::Routes;
pub use shown::{Shown, shown_of};
pub use target::{Target, target_of};
pub use wanted::{Form, Wanted, methods_of, wanted_of};
