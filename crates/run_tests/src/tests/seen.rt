//! What a test sees of a history.
use job_desk::{LinkFact, State};
use octo_asks::{Answer, Entry, PrintRefusal, StoredCause};

// An answer by its plain values, if a test compares it.
#[derive(Clone, Copy)]
pub(super) enum Seen {
    Version,
    Accepted,
    Denied,
    Connection(State),
    // Whether the file was selected, and its print started.
    Uploaded(bool, bool),
    Unprinted(bool, PrintRefusal),
    // A file was stored and selected, and its print not started.
    Stored(StoredCause),
    NoMemory,
    Other,
}

// An entry of the history by its plain values.
#[derive(Clone, Copy)]
pub(super) enum SeenEntry {
    // The worker, the moment and the answer.
    Call(u8, u64, Seen),
    Note(LinkFact),
    Close,
}

fn seen_of(answer: &Answer) -> Seen {
    match answer {
        Answer::Version => Seen::Version,
        Answer::Accepted => Seen::Accepted,
        Answer::Denied { .. } => Seen::Denied,
        Answer::Connection { state, .. } => Seen::Connection(*state),
        Answer::Uploaded { select, print, .. } => Seen::Uploaded(*select, *print),
        Answer::Unprinted {
            select,
            refusal,
            ..
        } => Seen::Unprinted(*select, *refusal),
        Answer::Stored { cause, .. } => Seen::Stored(*cause),
        Answer::NoMemory => Seen::NoMemory,
        _ => Seen::Other,
    }
}

// The moment of an own ask of the host.
pub(super) fn own_moment(entry: &Entry) -> Option<u64> {
    match entry {
        Entry::Call {
            worker: 4,
            moment,
            ..
        } => Some(*moment),
        _ => None,
    }
}

pub(super) fn entry_of(entry: &Entry) -> SeenEntry {
    match entry {
        Entry::Call {
            worker,
            moment,
            answer,
            ..
        } => SeenEntry::Call(*worker, *moment, seen_of(answer)),
        Entry::Note(note) => SeenEntry::Note(note.fact),
        Entry::Close => SeenEntry::Close,
    }
}
