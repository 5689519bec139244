//! The users of a print host, by name.
ghost use Rattle.std.specs.Prelude.{◌≡◌, ◌≤◌, ◌<◌, ◌⊎◌, [], length, map, is_ok, if◌then◌else◌, IsSome, IfSome, MatchResult, IsPermutation, Some, None};
ghost use Rattle.std.specs.List.{find, prefix_len, position_or_len};
ghost use Rattle.std.specs.Option.{option_copied};
ghost use Rattle.octo_access.specs.Changes.{put_refusal, change_refusal};
ghost use Rattle.octo_access.specs.Rights.{is_caller, caller_of, caller};
ghost use Rattle.octo_access.specs.declared.refusal.UserRefusal.TheVariants as refusal;
ghost use Rattle.octo_access.specs.Rows.{is_before, is_named, has_digest, row_named, with_row, without, replaced, IsUserList, IsUserTable};

use crate::order::put_in_order;
use crate::places::{place_for_name, place_of_name};
use crate::policy::Policy;
use crate::refusal::UserRefusal;
use crate::row::{Digest, UserList, UserRow, digest_of};
use byte_text::Name;
use std::alloc::Global;
use std::marker::Model;
use std::mem;

/// Up to 1,000 users by name, each name and each key once.
#[derive(Drop)]
pub struct Users {
    rows: Vec<UserRow>,
}

impl Model for Users {
    ghost use Rattle.std.specs.Prelude.{List};
    ghost use Rattle.octo_access.specs.Rows.{IsUserTable};
    ghost use Rattle.octo_access.specs.declared.row.UserRow.{UserRow};

    ghost Value = { List UserRow };

    ghost view = { λ u. u.rows.items };

    ghost invariant = { λ u. IsUserTable u.rows.items };
}

impl Users {
    /// No users. Takes no memory.
    pub fn new(alloc: Global) -> Users
        ensures { result ≡ [] }
    {
        Users {
            rows: Vec::new(alloc),
        }
    }

    /// The users of a list. Takes no memory.
    pub fn from_rows(rows: UserList) -> Users
        requires { IsUserList rows }
        ensures held { IsPermutation rows result }
        ensures same { IsUserTable rows → result ≡ rows }
    {
        let mut rows = rows.into_items();
        put_in_order(&mut rows);
        Users { rows }
    }

    /// The users by name.
    pub fn rows(&self) -> &[UserRow]
        ensures value { result.now ≡ self.now }
        ensures table { IsUserTable self.now }
    {
        self.rows.as_slice()
    }

    // The place of the user of that name, the number of users if there is none.
    pub(crate) fn place_of(&self, name: &Name) -> usize
        ensures place { result ≡ position_or_len (is_named name.now) self.now }
        ensures within { result ≤ length self.now }
    {
        place_of_name(self.rows(), name)
    }

    // The place of the user with that key, the number of users if there is none.
    pub(crate) fn place_of_key(&self, digest: &Digest) -> usize
        ensures place { result ≡ position_or_len (has_digest digest.now) self.now }
        ensures within { result ≤ length self.now }
    {
        self.rows
            .iter()
            .take_while(|row| !row.has_digest(digest))
            .count()
    }

    // The place of the active user with that key, the number of users if there is none.
    fn place_of_caller(&self, digest: &Digest) -> usize
        ensures place { result ≡ position_or_len (is_caller digest.now) self.now }
        ensures within { result ≤ length self.now }
    {
        self.rows
            .iter()
            .take_while(|row| !row.is_caller(digest))
            .count()
    }

    // The place for a new user of that name.
    fn place_for(&self, name: &Name) -> usize
        ensures place { result ≡ prefix_len (λ r. is_before r.name name.now) self.now }
        ensures within { result ≤ length self.now }
    {
        place_for_name(self.rows(), name)
    }

    // The active user with that key.
    #[tactic(auto, using(std::proofs::lemmas::List::Folds::find_at, std::proofs::lemmas::Option::slice_get_past, std::proofs::lemmas::Option::slice_get_read))]
    fn active_holder(&self, digest: &Digest) -> Option<UserRow>
        ensures { result ≡ find (is_caller digest.now) self.now }
    {
        let place = self.place_of_caller(digest);
        if place == self.rows.len() {
            return None;
        }
        Some(self.rows[place].copy())
    }

    // Whom a key's digest names: the admin, or else an active user.
    fn by_digest(&self, policy: &Policy, digest: &Digest) -> Option<UserRow>
        ensures { result ≡ caller_of policy.now self.now digest.now }
    {
        match policy.admin_with_key(digest) {
            Some(admin) => Some(admin.row()),
            None => self.active_holder(digest),
        }
    }

    /// Whom a key names: the admin, or else an active user; nobody if the key is empty.
    pub fn by_key(&self, policy: &Policy, key: &[u8]) -> Option<UserRow>
        ensures { result ≡ caller policy.now self.now key.now }
    {
        if key.is_empty() {
            return None;
        }
        self.by_digest(policy, &digest_of(key))
    }

    /// Adds a user. Refused for the first reason of `UserRefusal` that applies, or if out of memory; then the users are as before.
    pub fn put(&mut self, row: &UserRow, policy: &Policy) -> Result<(), UserRefusal>
        ensures exact { MatchResult result
            (λ _. put_refusal policy.now row.now self.old ≡ None)
            (λ refused. (refused ≡ refusal.NoMemory)
            ⊎ (put_refusal policy.now row.now self.old ≡ Some refused)) }
        ensures rows { self.new ≡ (if is_ok result then with_row row.now self.old else self.old) }
    {
        self.check_new(row, policy)?;
        let place = self.place_for(&row.name);
        match self.rows.insert(place, row.copy()) {
            Ok(()) => Ok(()),
            Err(_) => Err(UserRefusal::NoMemory),
        }
    }

    /// Puts a row in the place of the one that has its name, and returns the former one. It may be in groups that don't
    /// exist and that the former one was in. Refused for the first reason of `UserRefusal` that applies; then the users are as
    /// before. Takes no memory.
    pub fn change(&mut self, row: &UserRow, policy: &Policy) -> Result<UserRow, UserRefusal>
        ensures exact { MatchResult result
            (λ former. (change_refusal policy.now row.now self.old ≡ None)
            × (row_named row.now.name self.old ≡ Some former))
            (λ refused. change_refusal policy.now row.now self.old ≡ Some refused) }
        ensures rows { self.new ≡ (if is_ok result then replaced row.now self.old else self.old) }
    {
        self.check_change(row, policy)?;
        let place = self.place_of(&row.name);
        Ok(mem::replace(&mut self.rows[place], row.copy()))
    }

    /// Takes the user of that name out, if there is one.
    pub fn take_back(&mut self, name: &Name)
        ensures { self.new ≡ without name.now self.old }
    {
        self.rows.retain(|row| !row.is_named(name));
    }

    /// Puts a row in the place of the one that has its name. Whoever has its key has that name.
    pub fn restore(&mut self, row: &UserRow)
        requires held { IsSome (row_named row.now.name self.old) }
        requires key { IfSome (find (has_digest row.now.digest) self.old)
            (λ other. other.name ≡ row.now.name) }
        ensures { self.new ≡ replaced row.now self.old }
    {
        let place = self.place_of(&row.name);
        self.rows[place] = row.copy();
    }
}
