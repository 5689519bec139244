//! The ends of one table.
ghost use Rattle.std.specs.Prelude.{◌≡◌, ◌<◌, ◌+◌, [], IfOk};
ghost use Rattle.std.specs.Arc.{arc_value};
ghost use Rattle.octo_serve.specs.declared.board.View.TheVariants.{House};
ghost use Rattle.octo_serve.specs.Views.{new_house};
ghost use Rattle.octo_serve.specs.Ends.{new_worker_end, new_house_end, IsSized};

use crate::board::{Board, IDLE, Place, RUNS, SLOTS};
use crate::house_end::HouseEnd;
use crate::plays::MakeSeat;
use crate::worker_end::WorkerEnd;
use atomic_table::Table;
use octo_outside_bell::Bell;
use std::alloc::{AllocError, Global};
use std::sync::{Arc, Wait};

/// The four workers' ends.
#[derive(Drop)]
pub struct Workers<R> {
    pub a: WorkerEnd<R>,
    pub b: WorkerEnd<R>,
    pub c: WorkerEnd<R>,
    pub d: WorkerEnd<R>,
}

// The end of the worker with this number, on this table.
fn worker_end<R: Wait + Clone + Drop>(
    rt: &R,
    bell: &Bell,
    table: &Arc<Board>,
    house: &mut Place,
    number: usize,
) -> Result<WorkerEnd<R>, AllocError>
    requires table { (house.old.table_id ≡ (arc_value table.now).shared.table_id)
        × IsSized house.old.table_id × (number < 4) }
    requires house { house.old.me ≡ (House (record new_house { made = number }), []) }
    ensures made { IfOk result (λ worker. worker ≡ new_worker_end house.old.table_id number) }
    ensures house { IfOk result (λ _. (house.new.table_id ≡ house.old.table_id)
        × (house.new.me ≡ (House (record new_house { made = number + 1 }), []))) }
{
    let rt = rt.clone()?;
    let table = Arc::try_clone(table)?;
    let seat = table.shared.split_seat::<MakeSeat>(house);
    Ok(WorkerEnd {
        rt,
        bell: bell.copy(),
        table,
        seat,
        number,
        saw_close: false,
    })
}

/// A house end and four worker ends on one table. Fails if out of memory.
/// Each worker end keeps a copy of the runtime, since its `ask` waits, and one of the bell, which it rings after it has asked.
pub fn ends<R: Wait + Clone + Drop>(
    rt: &R,
    alloc: Global,
    bell: &Bell,
) -> Result<(HouseEnd, Workers<R>), AllocError>
    ensures house { IfOk result (λ made. made.0 ≡ new_house_end made.0.table) }
    ensures a { IfOk result (λ made. made.1.a ≡ new_worker_end made.0.table 0) }
    ensures b { IfOk result (λ made. made.1.b ≡ new_worker_end made.0.table 1) }
    ensures c { IfOk result (λ made. made.1.c ≡ new_worker_end made.0.table 2) }
    ensures d { IfOk result (λ made. made.1.d ≡ new_worker_end made.0.table 3) }
{
    let (table, mut seat) = Table::vacant(alloc, &[RUNS, IDLE, IDLE, IDLE, IDLE], SLOTS, &())?;
    let table = Arc::new(alloc, table)?;
    let workers = Workers {
        a: worker_end(rt, bell, &table, &mut seat, 0)?,
        b: worker_end(rt, bell, &table, &mut seat, 1)?,
        c: worker_end(rt, bell, &table, &mut seat, 2)?,
        d: worker_end(rt, bell, &table, &mut seat, 3)?,
    };
    let house = HouseEnd {
        table,
        seat,
        first: 0,
    };
    Ok((house, workers))
}
