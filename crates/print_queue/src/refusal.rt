//! What the queue answers.
use crate::QueueEntry;
use thiserror::Error;

/// A put that the queue took.
#[derive(Drop)]
pub struct Put {
    /// The entry as it is held.
    pub entry: QueueEntry,
    /// Whether it was added; if not, an equal one was held already.
    pub fresh: bool,
}

/// Why the queue refuses.
#[derive(Debug, Drop, Error)]
pub enum QueueRefusal {
    /// The user holds an entry of this name with another file, priority, number of copies or material.
    #[error("queue: entry {}: another one has this name", .kept.name.as_str())]
    NameTaken { kept: QueueEntry },
    /// The user holds no entry of this name.
    #[error("queue: no such entry")]
    NoEntry,
    /// The user holds this number of entries, the most.
    #[error("queue: {count} entries of the user, the most")]
    Full { count: u32 },
    /// The greatest number of arrival is in use.
    #[error("queue: no number of arrival is left")]
    ArrivalsUsed,
    /// Out of memory.
    #[error("out of memory")]
    NoMemory,
}

impl Put {
    ghost use Rattle.std.specs.Prelude.{◌≡◌};
    ghost use Rattle.print_queue.specs.Calls.{again_answer};

    // The answer to a put of a name that is held.
    pub(crate) fn again(kept: &QueueEntry, asked: &QueueEntry) -> Result<Put, QueueRefusal>
        ensures { result ≡ again_answer kept.now asked.now }
    {
        let entry = kept.copy();
        if kept.is_same(asked) {
            return Ok(Put {
                entry,
                fresh: false,
            });
        }
        Err(QueueRefusal::NameTaken { kept: entry })
    }
}
