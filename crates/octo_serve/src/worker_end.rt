//! A worker's place at the counter.
ghost use Rattle.std.specs.Prelude.{◌≡◌, true};
ghost use Rattle.octo_serve.specs.Ends.{AfterAsk};

use crate::board::{Board, Place};
use crate::waiting::{look_for_close, put_ask, wait_for_answer};
use octo_asks::{Answer, Ask, Asker, Closed};
use octo_outside_bell::Bell;
use std::marker::Model;
use std::sync::{Arc, Wait};

/// One of the four workers' ends. It asks the house, in another thread, and waits for the answer.
#[derive(Drop)]
pub struct WorkerEnd<R> {
    pub(crate) rt: R,
    // It ends a wait of the house's thread.
    pub(crate) bell: Bell,
    pub(crate) table: Arc<Board>,
    pub(crate) seat: Place,
    pub(crate) number: usize,
    // Whether it saw that the host has ended.
    pub(crate) saw_close: bool,
}

impl<R> Model for WorkerEnd<R> {
    ghost use Rattle.std.specs.Prelude.{◌≡◌, ◌<◌};
    ghost use Rattle.std.specs.Arc.{arc_value};
    ghost use Rattle.octo_serve.specs.Views.{worker_of};
    ghost use Rattle.octo_serve.specs.Ends.{WorkerData, IsSized, IsResting};

    ghost Value = { WorkerData };

    ghost view = { λ e. record { table = e.seat.table_id; view = worker_of e.seat.me.0 } };

    ghost invariant = { λ e. (e.seat.table_id ≡ (arc_value e.table).shared.table_id)
        × IsSized e.seat.table_id × (e.number < 4) × IsResting e.number e.saw_close e.seat.me };
}

impl<R: Wait> Asker for WorkerEnd<R> {
    ghost use Rattle.std.specs.Prelude.{◌≡◌, Bool, true, Some, IfOk, OnErr};
    ghost use Rattle.octo_asks.specs.History.{History, Finishes};
    ghost use Rattle.octo_serve.specs.Ends.{AfterAsk, worker_place};

    ghost state = { λ e. record {
      place = worker_place e;
      mine = Some e.view.mine;
      saw_close = e.view.saw_close;
    } };

    /// Puts the ask into the worker's slot, rings, and waits until the house has answered it, or has
    /// ended and never took it.
    fn ask(&mut self, ask: Ask) -> Result<Answer, Closed>
        ensures ok { IfOk result (λ answer.
            Finishes ask answer (Some self.old.view.mine) (Some self.new.view.mine)) }
        ensures err { OnErr result (Some self.new.view.mine ≡ Some self.old.view.mine) }
        ensures place { worker_place self.new ≡ worker_place self.old }

        ensures closed { OnErr result (self.new.view.saw_close ≡ true) }
        ensures seen { self.old.view.saw_close ≡ true → self.new.view.saw_close ≡ true }

        ensures view { AfterAsk ask self.old.view result self.new.view }
        ensures table { self.new.table ≡ self.old.table }
    {
        put_ask(&self.table.shared, &mut self.seat, self.number, ask);
        self.bell.ring();
        wait_for_answer(
            &self.rt,
            &self.table.shared,
            &mut self.seat,
            self.number,
            &mut self.saw_close,
        )
    }

    fn closed(&mut self) -> bool
        ensures closed { result ≡ true → self.new.view.saw_close ≡ true }
        ensures seen { self.old.view.saw_close ≡ true → self.new.view.saw_close ≡ true }
        ensures mine { Some self.new.view.mine ≡ Some self.old.view.mine }
        ensures place { worker_place self.new ≡ worker_place self.old }

        ensures rest { self.new ≡ record self.old {
          view = record self.old.view { saw_close = result };
        } }
    {
        self.saw_close = look_for_close(&self.table.shared, &mut self.seat, self.saw_close);
        self.saw_close
    }
}
