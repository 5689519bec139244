//! A host begins.
ghost use Rattle.std.specs.Prelude.{◌≡◌, ℕ, false, length, Some, IfOk, IfSome, IsErrOf};
ghost use Rattle.octo_outside.specs.Recorded.{Counts};
ghost use Rattle.job_desk.specs.Data.{new_desk};
ghost use Rattle.octo_keeper.specs.declared.tables.Tables.{Tables};
ghost use Rattle.send_window.specs.Data.{new_sender};
ghost use Rattle.octo_house.specs.Beginning.{IsMadeOf, BeginsOn, IsLoaded};
ghost use Rattle.octo_access.specs.Rows.{IsUserTable};
ghost use Rattle.print_queue.specs.Lawful.{IsLawful};
ghost use Rattle.octo_house_tables.specs.Kept.{IsKept};
ghost use Rattle.octo_house_rules.specs.Known.{names_of};
ghost use Rattle.octo_house.specs.State.{IsListed};
ghost use Rattle.octo_house.specs.declared.faults.BeginFault.TheVariants as fault;

use super::House;
use crate::HostDesk;
use crate::faults::{BeginFault, of_keeper, of_shelf};
use byte_text::Name;
use marlin_reply::Temps;
use octo_access::Policy;
use octo_house_tables::{HostTables, names_in};
use octo_keeper::{Keeper, Shelf};
use octo_outside::NameList;
use octo_session::Session;
use std::alloc::Global;

impl House {
    /// A host with a new session, these ports and the printer's material, on what the keeper and the shelf hold. A print
    /// that was going on when the last host ended is read as failed. Each later call with a keeper or a shelf is handed
    /// these, which no one else uses. Fails if the keeper or the shelf does, or if out of memory.
    pub fn begin<K: Keeper, S: Shelf>(
        alloc: Global,
        session: Session,
        policy: Policy,
        ports: NameList,
        material: Name,
        keeper: &mut K,
        shelf: &mut S,
    ) -> Result<House, BeginFault>
        requires new_desk { session.desk
            ≡ new_desk session.desk.scripts session.desk.limits session.desk.poll_ms
            session.desk.numbered }
        requires new_sender { session.sender
            ≡ new_sender session.sender.window session.sender.numbered session.sender.limit }
        requires down { session.up ≡ false }

        // The state that it begins with.
        ensures made { IfOk result (λ house. IsMadeOf session policy ports material house) }
        ensures begins { IfOk result (λ house.
            BeginsOn session policy ports material
            (K.state keeper.old).tables (S.state shelf.old).files house) }

        // Keeper and shelf hold what they held, and it is the host's.
        ensures tables { (K.state keeper.new).tables ≡ (K.state keeper.old).tables }
        ensures files { (S.state shelf.new).files ≡ (S.state shelf.old).files }
        ensures kept { IfOk result (λ house. (tables : Tables) → (K.state keeper.new).tables
            ≡ Some tables
            → IsUserTable tables.users → IsLawful tables.queue
            → IsKept (length tables.prints) (K.state keeper.new).tables house.tables) }
        ensures listed { IfOk result (λ house. IsListed (S.state shelf.new).files house) }

        // Faults, by their counts.
        ensures keeper { Counts (IsErrOf result fault.KeeperFailed)
            (K.state keeper.old).faults (K.state keeper.new).faults }
        ensures shelf { Counts (IsErrOf result fault.ShelfFailed)
            (S.state shelf.old).faults (S.state shelf.new).faults }
    {
        match read_kept(alloc, keeper, shelf) {
            Ok((tables, names)) => Ok(House {
                desk: HostDesk {
                    alloc,
                    session,
                    ports,
                    temps: Temps {
                        tool: None,
                        bed: None,
                    },
                },
                policy,
                material,
                tables,
                names,
            }),
            Err(fault) => Err(fault),
        }
    }
}

// The tables of a new host, by what the keeper keeps.
fn load_tables<K: Keeper>(alloc: Global, keeper: &mut K) -> Result<HostTables, BeginFault>
    ensures read { IfOk result (IsLoaded (K.state keeper.old).tables) }
    ensures tables { (K.state keeper.new).tables ≡ (K.state keeper.old).tables }
    ensures keeper { Counts (IsErrOf result fault.KeeperFailed)
        (K.state keeper.old).faults (K.state keeper.new).faults }
    ensures other { IsErrOf result fault.ShelfFailed → ⊥ }
{
    match keeper.load(alloc) {
        Ok(tables) => Ok(HostTables::new(alloc, tables)),
        Err(fault) => Err(of_keeper(fault)),
    }
}

// The names of the files that the shelf holds.
fn list_names<S: Shelf>(alloc: Global, shelf: &mut S) -> Result<Vec<Name>, BeginFault>
    ensures names { IfOk result (λ names.
        IfSome (S.state shelf.old).files (λ held. names.items ≡ names_of held)) }
    ensures files { (S.state shelf.new).files ≡ (S.state shelf.old).files }
    ensures shelf { Counts (IsErrOf result fault.ShelfFailed)
        (S.state shelf.old).faults (S.state shelf.new).faults }
    ensures other { IsErrOf result fault.KeeperFailed → ⊥ }
{
    let files = match shelf.list(alloc) {
        Ok(files) => files,
        Err(fault) => return Err(of_shelf(fault)),
    };
    match names_in(alloc, files.as_slice()) {
        Ok(names) => Ok(names),
        Err(_) => Err(BeginFault::NoMemory),
    }
}

// The tables of a new host and the names of its files, by what keeper and shelf hold.
fn read_kept<K: Keeper, S: Shelf>(
    alloc: Global,
    keeper: &mut K,
    shelf: &mut S,
) -> Result<(HostTables, Vec<Name>), BeginFault>
    ensures read { IfOk result (λ read. IsLoaded (K.state keeper.old).tables read.0) }
    ensures names { IfOk result (λ read.
        IfSome (S.state shelf.old).files (λ held. read.1.items ≡ names_of held)) }
    ensures tables { (K.state keeper.new).tables ≡ (K.state keeper.old).tables }
    ensures files { (S.state shelf.new).files ≡ (S.state shelf.old).files }
    ensures keeper { Counts (IsErrOf result fault.KeeperFailed)
        (K.state keeper.old).faults (K.state keeper.new).faults }
    ensures shelf { Counts (IsErrOf result fault.ShelfFailed)
        (S.state shelf.old).faults (S.state shelf.new).faults }
{
    let tables = load_tables(alloc, keeper)?;
    let names = list_names(alloc, shelf)?;
    Ok((tables, names))
}
