//! A host begins by its settings.
ghost use Rattle.std.specs.Prelude.{◌≡◌, length, Some, IfOk, IfErr, IsErrOf};
ghost use Rattle.octo_access.specs.Rows.{IsUserTable};
ghost use Rattle.octo_house.specs.Beginning.{IsMadeOf, BeginsOn};
ghost use Rattle.octo_house.specs.State.{IsListed, session_of};
ghost use Rattle.octo_keeper.specs.declared.tables.Tables.{Tables};
ghost use Rattle.octo_outside.specs.Recorded.{Counts};
ghost use Rattle.octo_settings.specs.Session.{session_by};
ghost use Rattle.octo_settings.specs.Sound.{IsSettings};
ghost use Rattle.print_queue.specs.Lawful.{IsLawful};
ghost use Rattle.octo_house_tables.specs.Kept.{IsKept};
ghost use Rattle.octo_house_run.specs.Runs.{IsFresh};
ghost use Rattle.octo_serve_command.specs.Beginning.{policy_by, terms_by};
ghost use Rattle.octo_house.specs.declared.faults.BeginFault.TheVariants as fault;

use octo_access::Policy;
use octo_api_worker::Terms;
use octo_house::{BeginFault, House};
use octo_keeper::{Keeper, Shelf};
use octo_settings::Settings;
use std::alloc::Global;

// A host that has begun, and what holds for its connections.
#[derive(Drop)]
pub(crate) struct Begun {
    pub house: House,
    pub terms: Terms,
}

// A host with a new session, the ports, the printer's material and the policy of these settings, on what the keeper and the shelf
// hold, and the terms of the settings.
pub(crate) fn begin_by<K: Keeper, S: Shelf>(
    alloc: Global,
    settings: Settings,
    keeper: &mut K,
    shelf: &mut S,
) -> Result<Begun, BeginFault>
    requires { IsSettings settings }

    // The state that it begins with.
    ensures made { IfOk result (λ begun. IsMadeOf (session_by settings) (policy_by settings)
        settings.ports settings.material begun.house) }
    ensures begins { IfOk result (λ begun. BeginsOn (session_by settings) (policy_by settings)
        settings.ports settings.material (K.state keeper.old).tables (S.state shelf.old).files
        begun.house) }
    ensures fresh { IfOk result (λ begun. IsFresh (session_of begun.house)) }
    ensures terms { IfOk result (λ begun. begun.terms ≡ terms_by settings) }

    // Keeper and shelf hold what they held, and it is the host's.
    ensures tables { (K.state keeper.new).tables ≡ (K.state keeper.old).tables }
    ensures files { (S.state shelf.new).files ≡ (S.state shelf.old).files }
    ensures kept { IfOk result (λ begun. (tables : Tables) → (K.state keeper.new).tables
        ≡ Some tables
        → IsUserTable tables.users → IsLawful tables.queue
        → IsKept (length tables.prints) (K.state keeper.new).tables begun.house.tables) }
    ensures listed { IfOk result (λ begun. IsListed (S.state shelf.new).files begun.house) }

    // Faults, by their counts.
    ensures keeper { Counts (IsErrOf result fault.KeeperFailed)
        (K.state keeper.old).faults (K.state keeper.new).faults }
    ensures shelf { Counts (IsErrOf result fault.ShelfFailed)
        (S.state shelf.old).faults (S.state shelf.new).faults }
{
    let Ok(session) = settings.session(alloc) else {
        return Err(BeginFault::NoMemory);
    };
    let Settings {
        ports,
        material,
        admin,
        patience,
        origins,
        groups,
        ..
    } = settings;
    let policy = Policy::new(groups, admin);
    let terms = Terms { patience, origins };
    match House::begin(alloc, session, policy, ports, material, keeper, shelf) {
        Ok(house) => Ok(Begun { house, terms }),
        Err(fault) => Err(fault),
    }
}
