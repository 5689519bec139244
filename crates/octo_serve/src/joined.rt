//! What is known once the ends are joined.
ghost use Rattle.std.specs.Prelude.{◌≡◌, ◌<◌, ◌++◌, true, [], ◌∷◌, length};
ghost use Rattle.std.specs.Arc.{arc_value};
ghost use Rattle.octo_serve.specs.declared.board.View.TheVariants.{House};
ghost use Rattle.octo_serve.specs.Views.{house_of, has_close, all_of_four, AreCalls};
ghost use Rattle.octo_serve.specs.Ends.{IsSized, seat_at, worker_place};

use crate::board::{Board, NOTE_WORD, Place, Words};
use crate::house_end::HouseEnd;
use crate::plays::{Learn, TakeBack};
use crate::worker_end::WorkerEnd;
use crate::workers::Workers;
use std::marker::Model;
use std::sync::{Arc, Wait};

/// What is known once the host has ended and the ends are joined: its history, and each worker's calls.
/// It keeps no entries.
#[derive(Drop)]
pub struct History {
    table: Arc<Board>,
    seat: Place,
}

impl Model for History {
    ghost use Rattle.octo_serve.specs.Views.{house_of};
    ghost use Rattle.octo_serve.specs.Ends.{HistoryData};

    ghost Value = { HistoryData };

    ghost view = { λ h. record {
      history = (house_of h.seat.me.0).history;
      mines = (house_of h.seat.me.0).joined;
    } };
}

// Joins a worker's seat to the house's; the workers come in the order of their numbers.
fn join<R: Wait + Drop>(words: &Words, house: &mut Place, worker: WorkerEnd<R>)
    requires table { (house.old.table_id ≡ words.now.table_id) × IsSized words.now.table_id
        × (worker.table ≡ words.now.table_id) }
    requires house { house.old.me ≡ (House (house_of house.old.me.0), []) }
    requires closed { (house_of house.old.me.0).closed ≡ true }
    requires order { worker.view.number ≡ length (house_of house.old.me.0).joined }
    ensures table { house.new.table_id ≡ house.old.table_id }
    ensures joined { house.new.me ≡ (
      House (record (house_of house.old.me.0) {
        joined = (house_of house.old.me.0).joined ++ worker.view.mine ∷ [];
      }),
      [],
    ) }
{
    let WorkerEnd {
        rt: _,
        bell: _,
        table: _,
        seat,
        number: _,
        saw_close: _,
    } = worker;
    words.join_seat::<TakeBack>(house, seat);
}

impl HouseEnd {
    /// Joins the workers' ends that were made with this one, after the host has ended.
    pub fn end<R: Wait + Drop>(self, workers: Workers<R>) -> History
        requires closed { self.view.closed ≡ true }
        requires a { worker_place workers.a ≡ seat_at self.table 0 }
        requires b { worker_place workers.b ≡ seat_at self.table 1 }
        requires c { worker_place workers.c ≡ seat_at self.table 2 }
        requires d { worker_place workers.d ≡ seat_at self.table 3 }

        ensures history { result.history ≡ self.view.history }
        ensures mines { result.mines ≡ workers.a.view.mine ∷ workers.b.view.mine
            ∷ workers.c.view.mine ∷ workers.d.view.mine ∷ [] }
        ensures calls { AreCalls result.history 0 result.mines }
        ensures workers { all_of_four result.history ≡ true }
        ensures ended { has_close result.history ≡ true }
    {
        let HouseEnd {
            table,
            mut seat,
            first: _,
        } = self;
        let Workers { a, b, c, d } = workers;
        join(&table.shared, &mut seat, a);
        join(&table.shared, &mut seat, b);
        join(&table.shared, &mut seat, c);
        join(&table.shared, &mut seat, d);
        table.shared.load::<Learn>(&mut seat, NOTE_WORD);
        History { table, seat }
    }
}
