//! The history of a print host.
use crate::{Answer, Ask};
use job_desk::Note;

// The number at which the host's own calls are in the history; the workers have smaller ones.
pub(crate) const OWN_NUMBER: u8 = 4;

/// An entry of the history.
#[derive(Drop)]
pub enum Entry {
    /// An ask was answered, at a moment in milliseconds: a worker's, or the host's own, which comes as number 4.
    Call {
        worker: u8,
        ask: Ask,
        moment: u64,
        answer: Answer,
    },
    /// A turn of the link did something.
    Note(Note),
    /// The host ended; nothing follows.
    Close,
}
