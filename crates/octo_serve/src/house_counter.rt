//! The house's end at the counter, whose asks are the four workers'.
ghost use Rattle.std.specs.Prelude.{◌≡◌, true, None};
ghost use Rattle.octo_serve.specs.Own.{is_of_worker};

use crate::house_end::HouseEnd;
use job_desk::Note;
use octo_asks::{Answer, Counter, Next};

// The house's end. No ask that it gives out has the number of the house's own calls.
#[derive(Drop)]
pub(crate) struct HouseCounter {
    end: HouseEnd,
    ghost of_worker: { is_of_worker end.view.taken ≡ true },
}

impl HouseCounter {
    // An end that has given no ask out.
    pub(crate) fn new(end: HouseEnd) -> HouseCounter
        requires { end.view.taken ≡ None }
        ensures { result.end ≡ end }
    {
        HouseCounter { end }
    }

    // The end again.
    pub(crate) fn into_end(self) -> HouseEnd
        ensures { result ≡ self.end }
    {
        let HouseCounter { end } = self;
        end
    }
}

impl Counter for HouseCounter {
    ghost use Rattle.std.specs.Prelude.{Some};
    ghost use Rattle.octo_serve.specs.Ends.{house_place};

    ghost state = { λ c. record {
      place = house_place c.end;
      past = Some c.end.view.history;
      given = c.end.view.taken;
      closed = c.end.view.closed;
    } };

    fn next(&mut self) -> Next {
        self.end.next()
    }

    fn answer(&mut self, worker: u8, moment: u64, answer: Answer) {
        self.end.answer(worker, moment, answer);
    }

    fn own(&mut self, moment: u64, answer: Answer) {
        self.end.own(moment, answer);
    }

    fn note(&mut self, note: Note) {
        self.end.note(note);
    }

    fn close(&mut self) {
        self.end.close();
    }
}
