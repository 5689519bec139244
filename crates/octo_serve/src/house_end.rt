//! The house's place at the counter.
ghost use Rattle.std.specs.Prelude.{◌≡◌, ◌<◌, false, Some, None, IsSome};
ghost use Rattle.octo_serve.specs.Steps.{ask_in};
ghost use Rattle.octo_serve.specs.Ends.{AfterHouseLook};

use crate::board::{
    ANSWERED, ASKED, Board, ENDED, Letter, NOTE_WORD, Place, RUNS, WORKERS, write_letter,
};
use crate::plays::{LookForAsk, PutAnswer, PutClose, PutNote};
use job_desk::Note;
use octo_asks::{Answer, Ask, Counter, Next};
use std::marker::Model;
use std::sync::Arc;

/// The house's end: it takes the workers' asks and answers them.
/// None of its calls waits or takes memory. An answer wakes the worker that sleeps for it.
#[derive(Drop)]
pub struct HouseEnd {
    pub(crate) table: Arc<Board>,
    pub(crate) seat: Place,
    // The worker whose word is looked at first.
    pub(crate) first: u8,
}

impl Model for HouseEnd {
    ghost use Rattle.std.specs.Prelude.{◌≡◌, ◌<◌, true, None, IfSome};
    ghost use Rattle.std.specs.Arc.{arc_value};
    ghost use Rattle.octo_serve.specs.Views.{house_of, all_of_four};
    ghost use Rattle.octo_serve.specs.Ends.{HouseData, IsSized, IsHouse};

    ghost Value = { HouseData };

    ghost view = { λ e.
        record { table = e.seat.table_id; view = house_of e.seat.me.0; first = e.first } };

    ghost invariant = { λ e. (e.seat.table_id ≡ (arc_value e.table).shared.table_id)
        × IsSized e.seat.table_id × (e.first < 4) × IsHouse e.seat.me
        × IfSome (house_of e.seat.me.0).taken (λ given. given.worker < 4)
        × ((house_of e.seat.me.0).closed ≡ true → (house_of e.seat.me.0).taken ≡ None)
        × (all_of_four (house_of e.seat.me.0).history ≡ true) };
}

// The ask in a letter that is one.
fn ask_in(letter: Option<Letter>) -> Ask
    requires { IsSome (ask_in letter) }
    ensures { ask_in letter ≡ Some result }
{
    match letter {
        Some(Letter::Asked(ask)) => ask,
        _ => unreachable!(),
    }
}

impl HouseEnd {
    // Looks at a worker's word, and takes what it asks.
    fn look(&mut self, worker: u8) -> Option<Ask>
        requires worker { worker < 4 }
        requires answered { self.old.view.taken ≡ None }
        requires open { self.old.view.closed ≡ false }
        ensures look { AfterHouseLook worker self.old.view result self.new.view }
        ensures rest { self.new ≡ record self.old { view = self.new.view } }
    {
        let words = &self.table.shared;
        if words.load::<LookForAsk>(&mut self.seat, worker as usize + 1) != ASKED {
            return None;
        }
        let letter = words.exchange(&mut self.seat, worker as usize, None);
        Some(ask_in(letter))
    }
}

impl Counter for HouseEnd {
    ghost use Rattle.std.specs.Prelude.{◌≡◌, ◌++◌, true, false, [], ◌∷◌, Some, None, IfSome};
    ghost use Rattle.octo_outside.specs.Recorded.{Adds};
    ghost use Rattle.octo_asks.specs.declared.entry.Entry.TheVariants as entry;
    ghost use Rattle.octo_asks.specs.History.{IsGiven, ask_given, own_call};
    ghost use Rattle.octo_serve.specs.Ends.{AfterNext, house_place};

    ghost state = { λ e. record {
      place = house_place e;
      past = Some e.view.history;
      given = e.view.taken;
      closed = e.view.closed;
    } };

    /// Looks at the four workers' words once each.
    /// The first word is the one of the worker after the one last handed out.
    fn next(&mut self) -> Next
        requires answered { self.old.view.taken ≡ None }
        requires open { self.old.view.closed ≡ false }

        ensures past { Some self.new.view.history ≡ Some self.old.view.history }
        ensures given { self.new.view.taken ≡ ask_given result }
        ensures open { self.new.view.closed ≡ false }
        ensures place { house_place self.new ≡ house_place self.old }

        ensures looks { AfterNext self.old result self.new }
    {
        let first = self.first;
        for step in 0..WORKERS {
            let worker = (first + step) % WORKERS;
            if let Some(ask) = self.look(worker) {
                self.first = (worker + 1) % WORKERS;
                return Next::Asked { worker, ask };
            }
        }
        Next::Nothing
    }

    fn answer(&mut self, worker: u8, moment: u64, answer: Answer)
        requires given { IsGiven worker self.old.view.taken }
        requires open { self.old.view.closed ≡ false }

        ensures past { IfSome self.old.view.taken (λ one.
            Adds (Some self.old.view.history) (Some self.new.view.history)
            (entry.Call worker one.ask moment answer ∷ [])) }
        ensures given { self.new.view.taken ≡ None }
        ensures open { self.new.view.closed ≡ false }
        ensures place { house_place self.new ≡ house_place self.old }

        ensures rest { self.new ≡ record self.old {
          view = record self.old.view { history = self.new.view.history; taken = None };
        } }
    {
        let words = &self.table.shared;
        let letter = Letter::Answered(moment, answer);
        write_letter(words, &mut self.seat, worker as usize, letter);
        words.store::<PutAnswer>(&mut self.seat, worker as usize + 1, ANSWERED);
        words.wake_one(worker as usize + 1);
    }

    fn own(&mut self, moment: u64, answer: Answer)
        requires open { self.old.view.closed ≡ false }

        ensures past { Adds (Some self.old.view.history) (Some self.new.view.history)
            (own_call moment answer ∷ []) }
        ensures given { self.new.view.taken ≡ self.old.view.taken }
        ensures open { self.new.view.closed ≡ false }
        ensures place { house_place self.new ≡ house_place self.old }

        ensures rest { self.new ≡ record self.old {
          view = record self.old.view { history = self.new.view.history };
        } }
    {
        let words = &self.table.shared;
        let said = Some(Letter::Own(moment, answer));
        words.compare_exchange_with::<PutNote>(&mut self.seat, NOTE_WORD, RUNS, RUNS, &said);
    }

    fn note(&mut self, note: Note)
        requires open { self.old.view.closed ≡ false }

        ensures past { Adds (Some self.old.view.history) (Some self.new.view.history)
            (entry.Note note ∷ []) }
        ensures given { self.new.view.taken ≡ self.old.view.taken }
        ensures open { self.new.view.closed ≡ false }
        ensures place { house_place self.new ≡ house_place self.old }

        ensures rest { self.new ≡ record self.old {
          view = record self.old.view { history = self.new.view.history };
        } }
    {
        let words = &self.table.shared;
        let noted = Some(Letter::Noted(note));
        words.compare_exchange_with::<PutNote>(&mut self.seat, NOTE_WORD, RUNS, RUNS, &noted);
    }

    fn close(&mut self)
        requires answered { self.old.view.taken ≡ None }
        requires open { self.old.view.closed ≡ false }

        ensures past { Adds (Some self.old.view.history) (Some self.new.view.history)
            (entry.Close ∷ []) }
        ensures given { self.new.view.taken ≡ None }
        ensures closed { self.new.view.closed ≡ true }
        ensures place { house_place self.new ≡ house_place self.old }

        ensures rest { self.new ≡ record self.old {
          view = record self.old.view { history = self.new.view.history; closed = true };
        } }
    {
        self.table
            .shared
            .store::<PutClose>(&mut self.seat, NOTE_WORD, ENDED);
    }
}
