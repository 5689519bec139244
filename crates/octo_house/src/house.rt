//! A print host.
ghost use Rattle.std.specs.Prelude.{◌≡◌, ◌≤◌, length, option_map};
ghost use Rattle.octo_house_tables.specs.Data.{IsRested};

mod ask;
mod begin;
mod files;
mod prints;
mod reads;
mod select;
mod turn;
mod upload;

use crate::HostDesk;
use byte_text::Name;
use octo_access::{Policy, is_among};
use octo_house_tables::HostTables;
use octo_keeper::KeeperFault;
use octo_session::Session;

/// A print host: what it knows between its requests. Keeper and shelf are not part of it: it is handed them at each call
/// that needs them.
#[derive(Drop)]
pub struct House {
    desk: HostDesk,
    policy: Policy,
    material: Name,
    tables: HostTables,
    names: Vec<Name>,
    ghost numbered: { desk.session.desk.greatest ≤ length tables.prints },
    ghost rested: { IsRested tables.unwritten desk.session.desk.active },
}

impl House {
    ghost use Rattle.octo_house_rules.specs.Known.{is_held};
    ghost use Rattle.octo_house.specs.State.{known_of};

    /// The print whose end isn't written yet, by its number, and the keeper's fault at the last try.
    pub fn unwritten(&self) -> Option<(u32, KeeperFault)>
        ensures { result ≡ option_map (λ u. (u.ending.print, u.fault)) self.now.tables.unwritten }
    {
        match self.tables.unwritten() {
            Some(unwritten) => Some((unwritten.ending.print, unwritten.fault)),
            None => None,
        }
    }

    // Whether there is a file of that name.
    fn holds(&self, name: &Name) -> bool
        ensures { result ≡ is_held name.now (known_of self.now) }
    {
        is_among(name, &self.names)
    }

    /// The session with the printer.
    pub fn session(&self) -> &Session
        ensures { result.now ≡ self.now.desk.session }
    {
        &self.desk.session
    }
}
