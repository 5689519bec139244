//! The events of a floor.
ghost use Rattle.std.specs.Prelude.{◌≡◌};
ghost use Rattle.octo_floor_bay.specs.Events.{no_event};

use job_desk::Note;
use print_queue::{Ending, Outcome, PrintRow, QueueEntry};

/// What happened on a floor. Printers are counted from 0.
#[derive(Drop)]
pub enum FloorEvent {
    /// A turn of a printer's link did this.
    Noted {
        printer: u8,
        note: Note,
    },
    /// A printer's print ended.
    Ended {
        printer: u8,
        ending: Ending,
    },
    /// A printer started one copy of an entry. The record is as it began, and the entry as it was before.
    Started {
        printer: u8,
        row: PrintRow,
        entry: QueueEntry,
    },
    /// The file of an entry can't be printed. The entry stays in the queue, and isn't started any more.
    Passed {
        entry: QueueEntry,
    },
}

impl Default for FloorEvent {
    ghost is_default = { λ event. event ≡ no_event };

    /// What fills a list of events before they come: the end of no print.
    fn default() -> Self
        ensures { result ≡ no_event }
    {
        FloorEvent::Ended {
            printer: 0,
            ending: Ending {
                print: 0,
                outcome: Outcome::Active,
            },
        }
    }
}
