//! The ends of prints that were going on when the last host ended.
ghost use Rattle.std.specs.Prelude.{◌≡◌, ℕ, option_map, OnOk, OnErr, IsErrOf};
ghost use Rattle.octo_keeper.specs.declared.keeper.KeeperFault.TheVariants as fault;
ghost use Rattle.octo_outside.specs.Recorded.{Counts};
ghost use Rattle.octo_keeper.specs.Settled.{settled, settled_to, settled_by};

use crate::{Change, Keeper, KeeperFault};
use print_queue::{Ending, Outcome, PrintRow};
use std::alloc::Global;

// Stores that this print has failed, if its record reads as going on.
fn settle_print<K: Keeper>(alloc: Global, keeper: &mut K, row: &PrintRow) -> Result<(), KeeperFault>
    ensures ok { OnOk result
        ((K.state keeper.new).tables ≡ option_map (settled_by row.now) (K.state keeper.old).tables) }
    ensures err { OnErr result ((K.state keeper.new).tables ≡ (K.state keeper.old).tables) }

    ensures counts { Counts (IsErrOf result fault.Failed) (K.state keeper.old).faults (K.state keeper.new).faults }
    ensures steady { (IsErrOf result fault.Failed → ⊥) → (K.state keeper.new).faults ≡ (K.state keeper.old).faults }
{
    match row.outcome {
        Outcome::Active => keeper.commit(
            alloc,
            &Change::End(Ending {
                print: row.number,
                outcome: Outcome::Failed,
            }),
        ),
        _ => Ok(()),
    }
}

/// Stores that each print has failed whose record reads as going on: it ended with the host that printed it. So a database shows the
/// records that a host on it does.
///
/// Each end is one commit. In tables that hosts wrote at most one record reads as going on. After a fault the first records, up to
/// one of them, are settled; a host on the tables shows the same records then, and the next call settles the others.
pub fn settle_prints<K: Keeper>(alloc: Global, keeper: &mut K) -> Result<(), KeeperFault>
    ensures settled { OnOk result ((K.state keeper.new).tables ≡ option_map settled (K.state keeper.old).tables) }
    ensures stopped { OnErr result
        ((n : ℕ) × ((K.state keeper.new).tables ≡ option_map (settled_to n) (K.state keeper.old).tables)) }

    ensures counts { Counts (IsErrOf result fault.Failed) (K.state keeper.old).faults (K.state keeper.new).faults }
    ensures steady { (IsErrOf result fault.Failed → ⊥) → (K.state keeper.new).faults ≡ (K.state keeper.old).faults }
{
    let tables = keeper.load(alloc)?;
    for row in tables.prints.as_slice() {
        settle_print(alloc, keeper, row)?;
    }
    Ok(())
}
