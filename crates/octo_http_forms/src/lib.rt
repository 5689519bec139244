//! The parts of a `multipart/form-data` body: an uploaded file, its folder and the form's two flags.
#![tactic(auto)]

mod delimiters;
mod form;
mod laws;
mod parameters;
mod part;
mod quotes;
mod text;
mod types;

pub use form::multipart;
pub use laws::one_meaning_law;
pub use parameters::{has_type, is_type};
pub use types::{PartFault, Parts, Span};
