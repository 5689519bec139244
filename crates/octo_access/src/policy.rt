//! The groups and the admin, and what they let a user do.
ghost use Rattle.std.specs.Prelude.{◌≡◌, ◌≤◌, length, MatchResult, Some, None, is_some};
ghost use Rattle.std.specs.List.{position_or_len};
ghost use Rattle.std.specs.Option.{option_copied};
ghost use Rattle.std.specs.Str.{bytes_eq};
ghost use Rattle.octo_access.specs.Changes.{is_barred, bad_group};
ghost use Rattle.octo_access.specs.Rights.{has, admin_if, admin_with_key};

use crate::groups::Groups;
use crate::names::is_among;
use crate::permission::Permission;
use crate::refusal::UserRefusal;
use crate::row::{Admin, Digest, UserRow, are_equal};
use byte_text::Name;

/// Which groups there are, and who the admin is.
#[derive(Drop)]
pub struct Policy {
    groups: Groups,
    admin: Option<Admin>,
}

impl Policy {
    /// The policy of these groups and this admin.
    pub fn new(groups: Groups, admin: Option<Admin>) -> Policy
        ensures { result ≡ record { groups = groups; admin = admin } }
    {
        Policy { groups, admin }
    }

    /// Whether a user has a permission: one of his groups has it, or has ADMIN. A group that doesn't exist has none.
    pub fn allowed(&self, user: &UserRow, permission: Permission) -> bool
        ensures { result ≡ has self.now user.now permission }
    {
        user.groups
            .as_slice()
            .iter()
            .any(|group| self.groups.grants(group, permission))
    }

    // The admin, if that is his key's digest.
    pub(crate) fn admin_with_key(&self, digest: &Digest) -> Option<&Admin>
        ensures { option_copied result ≡ admin_with_key digest.now self.now.admin }
    {
        match &self.admin {
            Some(admin) if are_equal(&admin.digest, digest) => Some(admin),
            _ => None,
        }
    }

    // Whether the admin has that name.
    pub(crate) fn names_admin(&self, name: &Name) -> bool
        ensures { result ≡ is_some (admin_if (λ a. bytes_eq a.name name.now) self.now.admin) }
    {
        match &self.admin {
            Some(admin) => admin.name.is(name),
            None => false,
        }
    }

    // Whether a user may not be in a group: it doesn't exist, and he wasn't in it before.
    fn is_barred(&self, former: &[Name], group: &Name) -> bool
        ensures { result ≡ is_barred self.now former.now group.now }
    {
        !(self.groups.is_known(group) || is_among(group, former))
    }

    // The place of the first group that a user may not be in, the number of groups if there is none.
    fn barred_place(&self, former: &[Name], groups: &[Name]) -> usize
        ensures place { result ≡ position_or_len (is_barred self.now former.now) groups.now }
        ensures within { result ≤ length groups.now }
    {
        groups
            .iter()
            .take_while(|group| !self.is_barred(former, group))
            .count()
    }

    // Refuses a user with a group that he may not be in.
    #[tactic(auto, using(std::proofs::lemmas::List::Folds::find_at, std::proofs::lemmas::Option::slice_get_past, std::proofs::lemmas::Option::slice_get_read))]
    pub(crate) fn check_groups(&self, former: &[Name], row: &UserRow) -> Result<(), UserRefusal>
        ensures { MatchResult result
            (λ _. bad_group self.now former.now row.now ≡ None)
            (λ refused. bad_group self.now former.now row.now ≡ Some refused) }
    {
        let groups = row.groups.as_slice();
        let place = self.barred_place(former, groups);
        if place == groups.len() {
            return Ok(());
        }
        let group = groups[place].copy();
        Err(UserRefusal::BadGroup { group })
    }
}
