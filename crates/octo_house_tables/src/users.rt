//! Users as requests name them.
ghost use Rattle.std.specs.Prelude.{◌≡◌, true, [], replicate, option_map, unwrap_or};
ghost use Rattle.octo_access.specs.Rows.{row_named};
ghost use Rattle.sha2.specs.Sha256.{sha256};
ghost use Rattle.octo_house_rules.specs.Rows.{new_user};
ghost use Rattle.octo_house_tables.specs.Users.{changed};

use byte_text::Name;
use octo_access::{Digest, GroupNames, UserRow, copy_names, digest_of, place_of_name};
use octo_outside::Blob;

/// A new user with this key.
pub fn new_user(name: &Name, key: &Blob, groups: &GroupNames, active: bool) -> UserRow
    ensures { result ≡ new_user name.now key.now groups.now active }
{
    UserRow {
        name: name.copy(),
        digest: digest_of(key.as_slice()),
        groups: copy_names(groups),
        active,
    }
}

fn digest_or(key: &Option<Blob>, former: &Digest) -> Digest
    ensures { result ≡ unwrap_or (option_map sha256 key.now) former.now }
{
    match key {
        Some(key) => digest_of(key.as_slice()),
        None => *former,
    }
}

fn groups_or(groups: &Option<GroupNames>, former: &GroupNames) -> GroupNames
    ensures { result ≡ unwrap_or groups.now former.now }
{
    match groups {
        Some(groups) => copy_names(groups),
        None => copy_names(former),
    }
}

/// A user's row with what a request names; the rest is as before.
pub fn changed_user(
    former: &UserRow,
    key: &Option<Blob>,
    groups: &Option<GroupNames>,
    active: Option<bool>,
) -> UserRow
    ensures { result ≡ changed former.now key.now groups.now active }
{
    UserRow {
        name: former.name.copy(),
        digest: digest_or(key, &former.digest),
        groups: groups_or(groups, &former.groups),
        active: active.unwrap_or(former.active),
    }
}

/// The user of that name.
#[tactic(auto, using(std::proofs::lemmas::List::Folds::find_at, std::proofs::lemmas::Option::slice_get_past, std::proofs::lemmas::Option::slice_get_read))]
pub fn user_named(rows: &[UserRow], name: &Name) -> Option<UserRow>
    ensures { result ≡ row_named name.now rows.now }
{
    let place = place_of_name(rows, name);
    if place == rows.len() {
        return None;
    }
    Some(rows[place].copy())
}

/// A user of that name in no group, for a request that names nobody; the key is of no text.
pub fn nobody(name: &Name) -> UserRow
    ensures name { result.name ≡ name.now }
    ensures digest { result.digest ≡ replicate 32 0 }
    ensures groups { result.groups.items ≡ [] }
    ensures active { result.active ≡ true }
{
    UserRow {
        name: name.copy(),
        digest: [0; 32],
        groups: GroupNames::new(),
        active: true,
    }
}
