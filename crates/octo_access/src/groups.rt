//! Groups of users: those that are built in, and those that the settings name.
ghost use Rattle.std.specs.Prelude.{◌≡◌, ◌≤◌, ◌++◌, ◌↔◌, [], ◌∷◌, length, true, false, OnOk, OnErr, Err};
ghost use Rattle.std.specs.List.{position_or_len};
ghost use Rattle.std.specs.Option.{option_copied};
ghost use Rattle.octo_access.specs.Groups.{most_groups, built_in, is_group, added_permissions, permissions_of, is_known, group_grants};

use crate::permission::{Permission, grants};
use byte_text::Name;
use std::alloc::Global;
use std::marker::Model;
use thiserror::Error;

/// The most groups that aren't built in.
pub const MOST_GROUPS: usize = 16;

// What the group `users` has.
const USERS_HAVE: [Permission; 9] = [
    Permission::Status,
    Permission::Connection,
    Permission::Print,
    Permission::Control,
    Permission::FilesList,
    Permission::FilesUpload,
    Permission::FilesDownload,
    Permission::FilesDelete,
    Permission::FilesSelect,
];

/// Why a group isn't added.
#[derive(Clone, Copy, Debug, PartialEq, Eq, Error)]
pub enum GroupFault {
    /// A group of that name exists, or is built in.
    #[error("group: the name is taken")]
    Taken,
    /// There are 16 groups.
    #[error("groups: over 16")]
    TooMany,
    /// Out of memory.
    #[error("out of memory")]
    NoMemory,
}

#[derive(Drop)]
struct Group {
    name: Name,
    permissions: Vec<Permission>,
}

impl Model for Group {
    ghost use Rattle.octo_access.specs.Groups.{GroupData};

    ghost Value = { GroupData };

    ghost view = { λ g. record { name = g.name; permissions = g.permissions.items } };
}

/// Up to 16 groups beside `admins`, `users`, `readonly` and `guests`, in the order in which they were added.
#[derive(Drop)]
pub struct Groups {
    alloc: Global,
    groups: Vec<Group>,
}

impl Model for Groups {
    ghost use Rattle.std.specs.Prelude.{List, length, ◌≤◌};
    ghost use Rattle.octo_access.specs.Groups.{GroupData, most_groups};

    ghost Value = { List GroupData };

    ghost view = { λ g. g.groups.items };

    ghost invariant = { λ g. length g.groups.items ≤ most_groups };
}

// What a built-in group has.
fn built_in(name: &Name) -> Option<&'static [Permission]>
    ensures { option_copied result ≡ built_in name.now }
{
    match name.as_str() {
        "admins" => Some(&[Permission::Admin]),
        "users" => Some(&USERS_HAVE),
        "readonly" => Some(&[Permission::Status, Permission::FilesList]),
        "guests" => Some(&[]),
        _ => None,
    }
}

impl Groups {
    /// No groups but those that are built in. Takes no memory.
    pub fn new(alloc: Global) -> Groups
        ensures { result ≡ [] }
    {
        Groups {
            alloc,
            groups: Vec::new(alloc),
        }
    }

    /// Adds a group after the others. Fails if there is one of that name or it is built in, if 16 were added, or if out of
    /// memory; then the groups are as before.
    pub fn add(&mut self, name: &Name, permissions: &[Permission]) -> Result<(), GroupFault>
        ensures ok { OnOk result
            (self.new ≡ self.old
            ++ record { name = name.now; permissions = permissions.now } ∷ []) }
        ensures err { OnErr result (self.new ≡ self.old) }

        ensures taken { (result ≡ Err GroupFault.Taken) ↔ (is_known self.old name.now ≡ true) }
        ensures too_many { (result ≡ Err GroupFault.TooMany)
            ↔ ((is_known self.old name.now ≡ false) × (length self.old ≡ most_groups)) }
    {
        if self.is_known(name) {
            return Err(GroupFault::Taken);
        }
        if self.groups.len() >= MOST_GROUPS {
            return Err(GroupFault::TooMany);
        }
        let Ok(permissions) = Vec::from_slice(self.alloc, permissions) else {
            return Err(GroupFault::NoMemory);
        };
        let name = name.copy();
        match self.groups.push(Group { name, permissions }) {
            Ok(()) => Ok(()),
            Err(_) => Err(GroupFault::NoMemory),
        }
    }

    // The place of the group of that name, the number of groups if there is none.
    fn place_of(&self, name: &Name) -> usize
        ensures place { result ≡ position_or_len (is_group name.now) self.now }
        ensures within { result ≤ length self.now }
    {
        self.groups
            .iter()
            .take_while(|group| !group.name.is(name))
            .count()
    }

    // What the group of that name has, if it isn't built in.
    #[tactic(auto, using(std::proofs::lemmas::List::Folds::find_at, std::proofs::lemmas::Option::slice_get_past, std::proofs::lemmas::Option::slice_get_read))]
    fn added_permissions(&self, name: &Name) -> Option<&[Permission]>
        ensures { option_copied result ≡ added_permissions self.now name.now }
    {
        let place = self.place_of(name);
        if place == self.groups.len() {
            return None;
        }
        Some(self.groups[place].permissions.as_slice())
    }

    // What the group of that name has.
    fn permissions_of(&self, name: &Name) -> Option<&[Permission]>
        ensures { option_copied result ≡ permissions_of self.now name.now }
    {
        match built_in(name) {
            Some(permissions) => Some(permissions),
            None => self.added_permissions(name),
        }
    }

    /// Whether there is a group of that name.
    pub fn is_known(&self, name: &Name) -> bool
        ensures { result ≡ is_known self.now name.now }
    {
        self.permissions_of(name).is_some()
    }

    // Whether the group of that name grants a permission.
    pub(crate) fn grants(&self, name: &Name, wanted: Permission) -> bool
        ensures { result ≡ group_grants self.now wanted name.now }
    {
        match self.permissions_of(name) {
            Some(permissions) => grants(permissions, wanted),
            None => false,
        }
    }
}
