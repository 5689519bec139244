//! A floor begins by its settings.
ghost use Rattle.std.specs.Prelude.{◌≡◌, Option, IfOk, IfSome, IsErrOf};
ghost use Rattle.octo_outside.specs.Recorded.{Counts};
ghost use Rattle.octo_keeper.specs.Tables.{AreSound};
ghost use Rattle.octo_keeper.specs.declared.tables.Tables.{Tables};
ghost use Rattle.octo_floor_bay.specs.declared.end.FloorFault.TheVariants as fault;
ghost use Rattle.octo_settings.specs.Sound.{IsFloorSettings};
ghost use Rattle.octo_floor.specs.Floor.{AreFresh};
ghost use Rattle.octo_floor_command.specs.Beginning.{IsBegun};

use crate::sessions::sessions_of;
use octo_floor::Floor;
use octo_floor_bay::FloorFault;
use octo_keeper::{Keeper, KeeperFault, Shelf, ShelfFault, Tables};
use octo_settings::FloorSettings;
use print_queue::Queue;
use std::alloc::{AllocError, Global};

// The tables that the keeper keeps, if the shelf's files can be listed too.
fn read_kept<K: Keeper, S: Shelf>(
    alloc: Global,
    keeper: &mut K,
    shelf: &mut S,
) -> Result<Tables, FloorFault>
    ensures same { IfOk result
        (λ loaded. IfSome (K.state keeper.old).tables (λ tables. loaded ≡ tables)) }
    ensures sound { IfOk result AreSound }
    ensures tables { (K.state keeper.new).tables ≡ (K.state keeper.old).tables }
    ensures files { (S.state shelf.new).files ≡ (S.state shelf.old).files }
    ensures keeper { Counts (IsErrOf result fault.KeeperFailed)
        (K.state keeper.old).faults (K.state keeper.new).faults }
    ensures shelf { Counts (IsErrOf result fault.ShelfFailed)
        (S.state shelf.old).faults (S.state shelf.new).faults }
{
    let tables = match keeper.load(alloc) {
        Ok(tables) => tables,
        Err(KeeperFault::Failed) => return Err(FloorFault::KeeperFailed),
        Err(KeeperFault::NoMemory) => return Err(FloorFault::NoMemory),
    };
    match shelf.list(alloc) {
        Ok(_) => Ok(tables),
        Err(ShelfFault::Failed) => Err(FloorFault::ShelfFailed),
        Err(ShelfFault::NoMemory) => Err(FloorFault::NoMemory),
    }
}

// A new floor by these settings, on these tables.
fn floor_of(alloc: Global, settings: FloorSettings, tables: Tables) -> Result<Floor, AllocError>
    requires settings { IsFloorSettings settings }
    requires tables { AreSound tables }
    ensures begun { (kept : Option Tables) → IfSome kept (λ held. tables ≡ held)
        → IfOk result (IsBegun settings kept) }
    ensures fresh { IfOk result (λ floor. AreFresh floor.bays) }
{
    let FloorSettings {
        settings,
        ports,
        materials,
    } = settings;
    let Tables {
        users: _,
        queue,
        prints,
    } = tables;
    let sessions = sessions_of(alloc, &settings, ports.as_slice())?;
    let queue = Queue::from_entries(queue);
    Floor::new(alloc, sessions, ports, materials, queue, prints)
}

// A new floor by these settings, on what the keeper keeps.
pub(crate) fn begin_by<K: Keeper, S: Shelf>(
    alloc: Global,
    settings: FloorSettings,
    keeper: &mut K,
    shelf: &mut S,
) -> Result<Floor, FloorFault>
    requires { IsFloorSettings settings }
    ensures begun { IfOk result (IsBegun settings (K.state keeper.old).tables) }
    ensures fresh { IfOk result (λ floor. AreFresh floor.bays) }
    ensures tables { (K.state keeper.new).tables ≡ (K.state keeper.old).tables }
    ensures files { (S.state shelf.new).files ≡ (S.state shelf.old).files }
    ensures keeper { Counts (IsErrOf result fault.KeeperFailed)
        (K.state keeper.old).faults (K.state keeper.new).faults }
    ensures shelf { Counts (IsErrOf result fault.ShelfFailed)
        (S.state shelf.old).faults (S.state shelf.new).faults }
{
    let tables = read_kept(alloc, keeper, shelf)?;
    match floor_of(alloc, settings, tables) {
        Ok(floor) => Ok(floor),
        Err(AllocError) => Err(FloorFault::NoMemory),
    }
}
