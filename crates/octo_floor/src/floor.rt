//! A floor.
ghost use Rattle.std.specs.Prelude.{◌≡◌, ◌≤◌, length, map, All, IfOk};
ghost use Rattle.octo_keeper.specs.Tables.{AreNumbered};
ghost use Rattle.octo_keeper.specs.declared.tables.Tables.{Tables};
ghost use Rattle.octo_floor_bay.specs.Bay.{IsNewSession};
ghost use Rattle.octo_floor.specs.Floor.{AreFresh, new_bay, new_floor};
ghost use Rattle.octo_floor.specs.Tables.{AreKeptSince};

use crate::ledger::Ledger;
use byte_text::Name;
use octo_floor_bay::Bay;
use octo_outside::{ItemList, NameList};
use octo_session::Session;
use print_queue::{PrintList, Queue};
use std::alloc::{AllocError, Global};
use std::marker::Model;

/// Sessions in a list.
pub type SessionList = ItemList<Session>;

/// A floor of 2 to 8 printers that share one queue. Moments are in milliseconds.
#[derive(Drop)]
pub struct Floor {
    pub(crate) bays: Vec<Bay>,
    pub(crate) ports: Vec<Name>,
    pub(crate) materials: Vec<Name>,
    pub(crate) ledger: Ledger,
    // Whether the first round was made.
    pub(crate) began: bool,
}

impl Model for Floor {
    ghost use Rattle.octo_floor.specs.Floor.{FloorData};

    ghost Value = { FloorData };

    ghost use Rattle.octo_floor.specs.Fields.{floor_of, IsKept};

    ghost view = { floor_of };

    ghost invariant = { IsKept };
}

// A bay for each session.
fn bays_of(alloc: Global, sessions: SessionList) -> Result<Vec<Bay>, AllocError>
    requires { All IsNewSession sessions }
    ensures bays { IfOk result (λ bays. bays.items ≡ map new_bay sessions) }
    ensures tied { IfOk result (λ bays. AreFresh bays.items) }
{
    let mut bays = Vec::new(alloc);
    for session in sessions.into_items() {
        bays.push(Bay::new(alloc, session)?)?;
    }
    Ok(bays)
}

// How many records there are, which are numbered from 1 without a gap: the last number.
fn count_of(prints: &PrintList) -> u32
    requires { AreNumbered prints.now }
    ensures { result ≡ length prints.now }
{
    match prints.as_slice().last() {
        Some(row) => row.number,
        None => 0,
    }
}

impl Floor {
    /// A floor of these sessions: each with its port and the material that its printer holds. Of the records of prints, which are
    /// numbered from 1 without a gap, it keeps the number alone. Fails only if out of memory.
    pub fn new(
        alloc: Global,
        sessions: SessionList,
        ports: NameList,
        materials: NameList,
        queue: Queue,
        prints: PrintList,
    ) -> Result<Floor, AllocError>
        requires some { 2 ≤ length sessions }
        requires few { length sessions ≤ 8 }
        requires ports { length ports ≡ length sessions }
        requires materials { length materials ≡ length sessions }
        requires sessions { All IsNewSession sessions }
        requires prints { AreNumbered prints }
        ensures new { IfOk result (λ floor. floor
            ≡ new_floor sessions ports materials queue.rows (length prints)) }
        ensures kept { IfOk result (λ floor. (first : Tables) → first.queue ≡ queue.rows
            → first.prints ≡ prints → AreKeptSince first floor.ledger first) }
        ensures tied { IfOk result (λ floor. AreFresh floor.bays) }
    {
        let records = count_of(&prints);
        Ok(Floor {
            bays: bays_of(alloc, sessions)?,
            ports: ports.into_items(),
            materials: materials.into_items(),
            ledger: Ledger::new(alloc, queue, records)?,
            began: false,
        })
    }

    /// The printers, in order, each with what was done with it.
    pub fn printers(&self) -> &[Bay]
        ensures { result.now ≡ self.now.bays }
    {
        &self.bays
    }
}
