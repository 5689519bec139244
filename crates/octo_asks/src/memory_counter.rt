//! A counter in memory, whose asks are a list.
ghost use Rattle.std.specs.Prelude.{◌≡◌, [], ◌∷◌, map, IfOk};
ghost use Rattle.std.specs.Option.{option_copied};
ghost use Rattle.octo_outside.specs.Recorded.{Adds};
ghost use Rattle.octo_asks.specs.Memory.{new_counter};
ghost use Rattle.octo_asks.specs.Waiting.{ask_of};

use crate::asked::Asked;
use crate::entry::OWN_NUMBER;
use crate::{Answer, Ask, Counter, Entry, Given, Next};
use job_desk::Note;
use octo_outside::ItemList;
use std::alloc::{AllocError, Global};
use std::collections::VecDeque;
use std::marker::Model;

/// Workers with their asks, in a list.
pub type AskList = ItemList<(u8, Ask)>;

/// A counter that returns a list of asks and keeps the history in memory.
#[derive(Drop)]
pub struct MemoryCounter {
    asks: VecDeque<Asked>,
    given: Option<Given>,
    entries: Vec<Entry>,
    // Whether no entry was lost because memory ran out.
    is_whole: bool,
    closed: bool,
    alloc: Global,
}

impl Model for MemoryCounter {
    ghost use Rattle.std.specs.Prelude.{map, if◌then◌else◌, Some, None};
    ghost use Rattle.octo_asks.specs.Memory.{CounterData};
    ghost use Rattle.octo_asks.specs.Waiting.{ask_of};

    ghost Value = { CounterData };

    ghost view = { λ c. record {
      asks = map ask_of c.asks.items;
      given = c.given;
      past = if c.is_whole then Some c.entries.items else None;
      closed = c.closed;
    } };
}

// The asks with their copies, in order.
fn with_copies(alloc: Global, asks: AskList) -> Result<VecDeque<Asked>, AllocError>
    ensures { IfOk result (λ list. map ask_of list.items ≡ asks) }
{
    let mut list = VecDeque::new(alloc);
    for (worker, ask) in asks.into_items() {
        let copy = ask.copy(alloc)?;
        list.push_back(Asked { worker, ask, copy })?;
    }
    Ok(list)
}

impl MemoryCounter {
    /// A counter that returns these asks in order. Fails if out of memory.
    pub fn new(alloc: Global, asks: AskList) -> Result<MemoryCounter, AllocError>
        ensures { IfOk result (λ counter. counter ≡ new_counter asks) }
    {
        Ok(MemoryCounter {
            asks: with_copies(alloc, asks)?,
            given: None,
            entries: Vec::new(alloc),
            is_whole: true,
            closed: false,
            alloc,
        })
    }

    /// The history, `None` only after memory ran out.
    pub fn entries(&self) -> Option<&[Entry]>
        ensures { option_copied result ≡ self.now.past }
    {
        if self.is_whole {
            return Some(self.entries.as_slice());
        }
        None
    }

    // Adds an entry; without memory the history is no longer recorded.
    fn add(&mut self, entry: Entry)
        ensures past { Adds self.old.past self.new.past (entry ∷ []) }
        ensures rest { self.new ≡ record self.old { past = self.new.past } }
    {
        if self.entries.push(entry).is_err() {
            self.is_whole = false;
        }
    }
}

impl Counter for MemoryCounter {
    ghost use Rattle.std.specs.Prelude.{◌≡◌, true, false, [], ◌∷◌, Some, None, IfSome};
    ghost use Rattle.octo_outside.specs.Recorded.{Adds};
    ghost use Rattle.octo_asks.specs.declared.entry.Entry.TheVariants as entry;
    ghost use Rattle.octo_asks.specs.History.{IsGiven, ask_given, own_call};
    ghost use Rattle.octo_asks.specs.Memory.{next_of};
    ghost use Rattle.octo_asks.specs.Place.{no_place};

    ghost state = { λ c. record {
      place = no_place;
      past = c.past;
      given = c.given;
      closed = c.closed;
    } };

    fn next(&mut self) -> Next
        requires answered { self.old.given ≡ None }
        requires open { self.old.closed ≡ false }

        ensures order { next_of self.old.asks ≡ (result, self.new.asks) }
        ensures past { self.new.past ≡ self.old.past }
        ensures given { self.new.given ≡ ask_given result }
        ensures open { self.new.closed ≡ false }
    {
        match self.asks.pop_front() {
            Some(Asked { worker, ask, copy }) => {
                self.given = Some(Given { worker, ask: copy });
                Next::Asked { worker, ask }
            }
            None => Next::Nothing,
        }
    }

    fn answer(&mut self, worker: u8, moment: u64, answer: Answer)
        requires given { IsGiven worker self.old.given }
        requires open { self.old.closed ≡ false }

        ensures asks { self.new.asks ≡ self.old.asks }
        ensures past { IfSome self.old.given
            (λ one. Adds self.old.past self.new.past
            (entry.Call worker one.ask moment answer ∷ [])) }
        ensures given { self.new.given ≡ None }
        ensures open { self.new.closed ≡ false }
    {
        let Some(Given { ask, .. }) = self.given.take() else {
            unreachable!()
        };
        self.add(Entry::Call {
            worker,
            ask,
            moment,
            answer,
        });
    }

    fn own(&mut self, moment: u64, answer: Answer)
        requires open { self.old.closed ≡ false }

        ensures asks { self.new.asks ≡ self.old.asks }
        ensures past { Adds self.old.past self.new.past (own_call moment answer ∷ []) }
        ensures given { self.new.given ≡ self.old.given }
        ensures open { self.new.closed ≡ false }
    {
        let ask = Ask::own(self.alloc);
        self.add(Entry::Call {
            worker: OWN_NUMBER,
            ask,
            moment,
            answer,
        });
    }

    fn note(&mut self, note: Note)
        requires open { self.old.closed ≡ false }

        ensures asks { self.new.asks ≡ self.old.asks }
        ensures past { Adds self.old.past self.new.past (entry.Note note ∷ []) }
        ensures given { self.new.given ≡ self.old.given }
        ensures open { self.new.closed ≡ false }
    {
        self.add(Entry::Note(note));
    }

    fn close(&mut self)
        requires answered { self.old.given ≡ None }
        requires open { self.old.closed ≡ false }

        ensures asks { self.new.asks ≡ self.old.asks }
        ensures past { Adds self.old.past self.new.past (entry.Close ∷ []) }
        ensures given { self.new.given ≡ None }
        ensures closed { self.new.closed ≡ true }
    {
        self.add(Entry::Close);
        self.closed = true;
    }
}
