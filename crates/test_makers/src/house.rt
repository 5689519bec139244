//! Keepers, shelves, and hosts on them.
ghost use Rattle.std.specs.Prelude.{◌≡◌, ◌≤◌, [], ◌∷◌, codes, None, IfOk, IfSome, option_map};
ghost use Rattle.std.specs.List.{slice_get};
ghost use Rattle.send_window.specs.Data.{IsSound};
ghost use Rattle.octo_house.specs.Beginning.{IsMadeOf};
ghost use Rattle.octo_house.specs.State.{session_of};
ghost use Rattle.test_makers.specs.Objects.{plain_session, root_policy};

use crate::lists::{calls, ports};
use crate::printer::plain_session;
use crate::users::{ROOT, policy};
use byte_text::Name;
use octo_house::{BeginFault, House};
use octo_keeper::{MemoryKeeper, MemoryShelf, Tables};
use octo_outside::NameList;
use octo_session::Session;
use print_queue::Outcome;
use std::alloc::Global;

/// A keeper of these tables. These calls of it fail, counted from 1.
pub fn keeper_of(alloc: Global, tables: Tables, fails: &[u64]) -> Option<MemoryKeeper>
    ensures { IfSome result (λ keeper. keeper ≡ record {
      tables = tables;
      saved = None;
      calls = record { made = 0; faults = 0; fail_at = fails.now };
    }) }
{
    Some(MemoryKeeper::new(tables, calls(alloc, fails)?))
}

/// The outcome of a record that the keeper holds, the first at place 0. There is none beyond the last record.
pub fn kept_outcome(keeper: &MemoryKeeper, place: usize) -> Option<Outcome>
    ensures { result
        ≡ option_map (λ row. row.outcome) (slice_get keeper.now.tables.prints place) }
{
    Some(keeper.tables()?.prints.as_slice().get(place)?.outcome)
}

/// An empty shelf. These calls of it fail, counted from 1.
pub fn shelf_of(alloc: Global, fails: &[u64]) -> Option<MemoryShelf>
    ensures { IfSome result (λ shelf. shelf ≡ record {
      files = [];
      calls = record { made = 0; faults = 0; fail_at = fails.now };
    }) }
{
    Some(MemoryShelf::new(alloc, calls(alloc, fails)?))
}

// What a host is made of: its session, its one port, and the printer's material.
fn parts_of(alloc: Global, material: &str, limit: u64) -> Option<(Session, NameList, Name)>
    requires { 1 ≤ limit }
    ensures session { IfSome result (λ parts. parts.0 ≡ plain_session limit) }
    ensures sound { IfSome result (λ parts. IsSound parts.0.sender) }
    ensures ports { IfSome result (λ parts. parts.1 ≡ codes "p" ∷ []) }
    ensures material { IfSome result (λ parts. parts.2 ≡ material.now) }
{
    let material = Name::from_text(material)?;
    let ports = ports(alloc, "p")?;
    let session = plain_session(alloc, limit)?;
    Some((session, ports, material))
}

/// A host with the port p, the admin root, a printer of this material, and this time limit in milliseconds, at least 1.
pub fn house_of(
    alloc: Global,
    material: &str,
    limit: u64,
    keeper: &mut MemoryKeeper,
    shelf: &mut MemoryShelf,
) -> Result<House, BeginFault>
    requires { 1 ≤ limit }
    ensures made { IfOk result
        (IsMadeOf (plain_session limit) (root_policy ROOT.now) (codes "p" ∷ []) material.now) }
    ensures session { IfOk result (λ house. session_of house ≡ plain_session limit) }
    ensures sound { IfOk result (λ house. IsSound (session_of house).sender) }
    ensures tables { keeper.new.tables ≡ keeper.old.tables }
    ensures files { shelf.new.files ≡ shelf.old.files }
{
    let Some((session, ports, material)) = parts_of(alloc, material, limit) else {
        return Err(BeginFault::NoMemory);
    };
    House::begin(
        alloc,
        session,
        policy(alloc),
        ports,
        material,
        keeper,
        shelf,
    )
}
