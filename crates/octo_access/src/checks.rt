//! What changes the users of a print host, and why it is refused.
ghost use Rattle.std.specs.Prelude.{◌≡◌, ◌≤◌, ◌<◌, ◌⊎◌, length, is_ok, is_some, if◌then◌else◌, IsSome, IfSome, MatchResult, Some, None};
ghost use Rattle.std.specs.List.{find, position_or_len};
ghost use Rattle.std.specs.Option.{option_copied, option_map};
ghost use Rattle.octo_access.specs.Changes.{name_taken, holder, key_taken, full, put_refusal, change_refusal, new_key_taken};
ghost use Rattle.octo_access.specs.Rows.{has_digest, is_named, row_named, with_row, without, replaced};

use crate::policy::Policy;
use crate::refusal::UserRefusal;
use crate::row::{Digest, UserRow};
use crate::users::Users;
use byte_text::Name;

/// The most users of a table.
pub const MOST_USERS: usize = 1_000;

impl Users {
    // The user of that name.
    #[tactic(auto, using(std::proofs::lemmas::List::Folds::find_at, std::proofs::lemmas::Option::slice_get_past, std::proofs::lemmas::Option::slice_get_read))]
    fn row_named(&self, name: &Name) -> Option<&UserRow>
        ensures { option_copied result ≡ row_named name.now self.now }
    {
        let place = self.place_of(name);
        if place == self.rows().len() {
            return None;
        }
        Some(&self.rows()[place])
    }

    // The user with that key.
    #[tactic(auto, using(std::proofs::lemmas::List::Folds::find_at, std::proofs::lemmas::Option::slice_get_past, std::proofs::lemmas::Option::slice_get_read))]
    fn with_key(&self, digest: &Digest) -> Option<&UserRow>
        ensures { option_copied result ≡ find (has_digest digest.now) self.now }
    {
        let place = self.place_of_key(digest);
        if place == self.rows().len() {
            return None;
        }
        Some(&self.rows()[place])
    }

    // Whether there is a user of that name.
    fn is_held(&self, name: &Name) -> bool
        ensures { result ≡ is_some (row_named name.now self.now) }
    {
        self.row_named(name).is_some()
    }

    // Refuses a name that the admin or a user has.
    fn check_name(&self, policy: &Policy, name: &Name) -> Result<(), UserRefusal>
        ensures { MatchResult result
            (λ _. name_taken policy.now name.now self.now ≡ None)
            (λ refused. name_taken policy.now name.now self.now ≡ Some refused) }
    {
        if policy.names_admin(name) || self.is_held(name) {
            return Err(UserRefusal::NameTaken);
        }
        Ok(())
    }

    // The name of whoever has a key, the admin first.
    fn holder(&self, policy: &Policy, digest: &Digest) -> Option<Name>
        ensures { result ≡ holder policy.now digest.now self.now }
    {
        if let Some(admin) = policy.admin_with_key(digest) {
            return Some(admin.name.copy());
        }
        match self.with_key(digest) {
            Some(row) => Some(row.name.copy()),
            None => None,
        }
    }

    // Refuses a key that the admin or a user has.
    fn check_key(&self, policy: &Policy, digest: &Digest) -> Result<(), UserRefusal>
        ensures { MatchResult result
            (λ _. key_taken policy.now digest.now self.now ≡ None)
            (λ refused. key_taken policy.now digest.now self.now ≡ Some refused) }
    {
        match self.holder(policy, digest) {
            Some(name) => Err(UserRefusal::KeyTaken { name }),
            None => Ok(()),
        }
    }

    // Refuses one more user if there are 1,000.
    fn check_room(&self) -> Result<(), UserRefusal>
        ensures { MatchResult result (λ _. full self.now ≡ None)
            (λ refused. full self.now ≡ Some refused) }
    {
        if self.rows().len() == MOST_USERS {
            return Err(UserRefusal::Full { count: 1_000 });
        }
        Ok(())
    }

    // Refuses a user who can't be added, out of memory aside.
    pub(crate) fn check_new(&self, row: &UserRow, policy: &Policy) -> Result<(), UserRefusal>
        ensures { MatchResult result
            (λ _. put_refusal policy.now row.now self.now ≡ None)
            (λ refused. put_refusal policy.now row.now self.now ≡ Some refused) }
    {
        policy.check_groups(&[], row)?;
        self.check_name(policy, &row.name)?;
        self.check_key(policy, &row.digest)?;
        self.check_room()
    }

    // Refuses a key that differs from the former row's and that the admin or a user has.
    fn check_new_key(
        &self,
        policy: &Policy,
        former: &UserRow,
        row: &UserRow,
    ) -> Result<(), UserRefusal>
        ensures { MatchResult result
            (λ _. new_key_taken policy.now former.now row.now self.now ≡ None)
            (λ refused. new_key_taken policy.now former.now row.now self.now ≡ Some refused) }
    {
        if former.has_digest(&row.digest) {
            return Ok(());
        }
        self.check_key(policy, &row.digest)
    }

    // Refuses a change of a user.
    pub(crate) fn check_change(&self, row: &UserRow, policy: &Policy) -> Result<(), UserRefusal>
        ensures { MatchResult result
            (λ _. change_refusal policy.now row.now self.now ≡ None)
            (λ refused. change_refusal policy.now row.now self.now ≡ Some refused) }
    {
        let Some(former) = self.row_named(&row.name) else {
            policy.check_groups(&[], row)?;
            return Err(UserRefusal::NoUser);
        };
        policy.check_groups(former.groups.as_slice(), row)?;
        self.check_new_key(policy, former, row)
    }
}
