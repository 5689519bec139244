//! The events of a floor without their details, and what follows them.
use byte_text::Name;
use job_desk::LinkFact;
use octo_floor::Watch;
use octo_floor_bay::FloorEvent;
use print_queue::Outcome;
use std::process::Abort;

// An event without its details.
#[derive(Clone, Copy, Debug, PartialEq, Eq)]
pub(super) enum Seen {
    // What a turn found of a printer's link, unless that was nothing new.
    Noted(u8, LinkFact),
    // The number of a record, and its outcome.
    Ended(u8, u32, Outcome),
    // The number of a record, and the copies that were left before.
    Started(u8, u32, u8),
    // The arrival of an entry.
    Passed(u32),
}

fn seen_in(event: &FloorEvent) -> Option<Seen> {
    match event {
        FloorEvent::Noted { printer, note } => match note.fact {
            LinkFact::Quiet => None,
            fact => Some(Seen::Noted(*printer, fact)),
        },
        FloorEvent::Ended { printer, ending } => {
            Some(Seen::Ended(*printer, ending.print, ending.outcome))
        }
        FloorEvent::Started {
            printer,
            row,
            entry,
        } => Some(Seen::Started(*printer, row.number, entry.left)),
        FloorEvent::Passed { entry } => Some(Seen::Passed(entry.arrival)),
    }
}

// What follows the events of rounds: they are to be these, in order.
#[derive(Clone, Copy)]
pub(super) struct Story {
    wanted: &'static [Seen],
    // How many of these came.
    pub place: usize,
    // The first event that isn't the next one of these.
    other: Option<Seen>,
    // How many rounds came.
    pub rounds: u64,
}

impl Story {
    // Before the first round.
    pub(super) fn of(wanted: &'static [Seen]) -> Story {
        Story {
            wanted,
            place: 0,
            other: None,
            rounds: 0,
        }
    }

    fn add(&mut self, event: Seen) {
        if self.wanted.get(self.place) == Some(&event) {
            self.place = self.place.saturating_add(1);
        } else {
            self.other = self.other.or(Some(event));
        }
    }

    // The events of one more round.
    pub(super) fn follow(&mut self, events: &[FloorEvent]) {
        for event in events {
            if let Some(seen) = seen_in(event) {
                self.add(seen);
            }
        }
        self.rounds = self.rounds.saturating_add(1);
    }

    // The first `place` of these came, and nothing else.
    pub(super) fn assert_came(&self, rt: &impl Abort, place: usize) {
        assert_eq!(rt; self.other, None);
        assert_eq!(rt; self.place, place);
    }

    // These came, and nothing else.
    pub(super) fn assert_all_came(&self, rt: &impl Abort) {
        self.assert_came(rt, self.wanted.len());
    }
}

impl Watch for Story {
    fn see(&mut self, _ports: &[Name], events: &[FloorEvent]) {
        self.follow(events);
    }
}

// Both printers of the plain shop dial in the first round. Each is ready in the third one and starts then. Both end the first print in one
// round, in which the first one starts another.
pub(super) const PLAIN_ROUNDS: &[Seen] = &[
    Seen::Noted(0, LinkFact::Opened),
    Seen::Noted(1, LinkFact::Opened),
    Seen::Noted(0, LinkFact::Ready),
    Seen::Started(0, 1, 2),
    Seen::Noted(1, LinkFact::Ready),
    Seen::Started(1, 2, 1),
    Seen::Ended(0, 1, Outcome::Done),
    Seen::Started(0, 3, 1),
    Seen::Ended(1, 2, Outcome::Done),
    Seen::Ended(0, 3, Outcome::Done),
];

// In the last round of a run the printers hang up.
pub(super) const PLAIN_RUN: &[Seen] = &[
    Seen::Noted(0, LinkFact::Opened),
    Seen::Noted(1, LinkFact::Opened),
    Seen::Noted(0, LinkFact::Ready),
    Seen::Started(0, 1, 2),
    Seen::Noted(1, LinkFact::Ready),
    Seen::Started(1, 2, 1),
    Seen::Ended(0, 1, Outcome::Done),
    Seen::Started(0, 3, 1),
    Seen::Ended(1, 2, Outcome::Done),
    Seen::Ended(0, 3, Outcome::Done),
    Seen::Noted(0, LinkFact::Closed),
    Seen::Noted(1, LinkFact::Closed),
];

// The first start isn't written: nothing is printed.
pub(super) const NOTHING_RUN: &[Seen] = &[
    Seen::Noted(0, LinkFact::Opened),
    Seen::Noted(1, LinkFact::Opened),
    Seen::Noted(0, LinkFact::Ready),
    Seen::Noted(1, LinkFact::Ready),
    Seen::Noted(0, LinkFact::Closed),
    Seen::Noted(1, LinkFact::Closed),
];

// Only the first printer starts.
pub(super) const FIRST_RUN: &[Seen] = &[
    Seen::Noted(0, LinkFact::Opened),
    Seen::Noted(1, LinkFact::Opened),
    Seen::Noted(0, LinkFact::Ready),
    Seen::Started(0, 1, 2),
    Seen::Noted(1, LinkFact::Ready),
    Seen::Ended(0, 1, Outcome::Done),
    Seen::Noted(0, LinkFact::Closed),
    Seen::Noted(1, LinkFact::Closed),
];

// Each printer starts, and the second copy isn't started.
pub(super) const BOTH_RUN: &[Seen] = &[
    Seen::Noted(0, LinkFact::Opened),
    Seen::Noted(1, LinkFact::Opened),
    Seen::Noted(0, LinkFact::Ready),
    Seen::Started(0, 1, 2),
    Seen::Noted(1, LinkFact::Ready),
    Seen::Started(1, 2, 1),
    Seen::Ended(0, 1, Outcome::Done),
    Seen::Ended(1, 2, Outcome::Done),
    Seen::Noted(0, LinkFact::Closed),
    Seen::Noted(1, LinkFact::Closed),
];

// The second printer's link isn't made.
pub(super) const UNMADE_RUN: &[Seen] = &[
    Seen::Noted(0, LinkFact::Opened),
    Seen::Noted(1, LinkFact::Failed),
    Seen::Noted(0, LinkFact::Ready),
    Seen::Started(0, 1, 2),
    Seen::Ended(0, 1, Outcome::Done),
    Seen::Started(0, 2, 1),
    Seen::Ended(0, 2, Outcome::Done),
    Seen::Noted(0, LinkFact::Closed),
];
