//! The end of a print, as the keeper writes it.
ghost use Rattle.std.specs.Prelude.{◌≡◌, ℕ, option_map, OnOk, OnErr};
ghost use Rattle.octo_floor_bay.specs.declared.event.FloorEvent.TheVariants.{Ended};
ghost use Rattle.octo_floor_bay.specs.Faults.{AsksKeeper};
ghost use Rattle.octo_floor_bay.specs.Written.{written};

use crate::end::FloorFault;
use crate::faults::of_keeper;
use octo_keeper::{Change, Keeper};
use print_queue::Ending;
use std::alloc::Global;

/// Has the keeper write how a print ended. After a fault the tables are as they were.
pub fn write_end<K: Keeper>(alloc: Global, keeper: &mut K, ending: Ending) -> Result<(), FloorFault>
    ensures ok { OnOk result ((printer : ℕ)
        → (K.state keeper.new).tables
        ≡ option_map (written (Ended printer ending)) (K.state keeper.old).tables) }
    ensures err { OnErr result ((K.state keeper.new).tables ≡ (K.state keeper.old).tables) }
    ensures faults { AsksKeeper result (K.state keeper.old).faults (K.state keeper.new).faults }
{
    match keeper.commit(alloc, &Change::End(ending)) {
        Ok(()) => Ok(()),
        Err(fault) => Err(of_keeper(fault)),
    }
}
