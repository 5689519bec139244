//! The log as the seat at a table of its own.
ghost use Rattle.octo_floor_bay.specs.Told.{no_rule, no_events, event_added};

use atomic_table::{Play, Seat, Table, TableRule};
use std::alloc::{AllocError, Global};
use std::marker::Model;

// The word of the table. A compare-exchange of it says an event, and leaves it as it is.
const WORD: usize = 0;

// What the word always is.
const VALUE: u64 = 0;

/// What a log's seat knows. No value of it is made.
pub struct Told<T> {
    /// The events so far. A clause reads an array as a list, of any length.
    pub events: [T; 0],
}

/// The rule of the table: its words and views may be any.
pub struct NoRule;

impl<T> TableRule<T, Told<T>, ()> for NoRule {
    ghost holds = { λ _. no_rule };

    ghost first = { λ _. no_events };
}

// An event is added.
pub(crate) struct AddEvent;

impl<T> Play<T, Told<T>> for AddEvent {
    ghost then = { event_added };
}

/// The events that were added, in their order. Contracts see the log as that list; no event is kept.
#[derive(Drop)]
pub struct EventLog<T: Drop> {
    table: Table<T, Told<T>, (), NoRule, Global>,
    seat: Seat<T, Told<T>>,
}

impl<T: Drop> Model for EventLog<T> {
    ghost use Rattle.std.specs.Prelude.{List};
    ghost use Rattle.octo_floor_bay.specs.Told.{IsSeated};

    ghost Value = { List T };

    ghost view = { λ l. l.seat.me.0.events };

    ghost invariant = { λ l. IsSeated l.seat.table_id l.table.shared.table_id };
}

impl<T: Drop> EventLog<T> {
    ghost use Rattle.std.specs.Prelude.{◌≡◌, ◌++◌, ◌∷◌, [], IfOk};

    /// A log of no events. Fails only if out of memory.
    pub fn new(alloc: Global) -> Result<Self, AllocError>
        ensures { IfOk result (λ log. log ≡ []) }
    {
        match Table::new(alloc, &[VALUE], Vec::new(alloc), &()) {
            Ok((table, seat)) => Ok(EventLog { table, seat }),
            Err(_) => Err(AllocError),
        }
    }

    /// Adds an event at the end; takes no memory.
    pub fn add(&mut self, event: &T)
        ensures { self.new ≡ self.old ++ event.now ∷ [] }
    {
        let table = &self.table;
        table
            .shared
            .compare_exchange_with::<AddEvent>(&mut self.seat, WORD, VALUE, VALUE, event);
    }
}
