//! Users as rows, the admin, and the digests of their keys.
ghost use Rattle.std.specs.Prelude.{◌≡◌, ◌≤◌, length};
ghost use Rattle.std.specs.Str.{bytes_eq};
ghost use Rattle.sha2.specs.Sha256.{sha256};
ghost use Rattle.octo_access.specs.Rights.{admin_row, is_caller};
ghost use Rattle.octo_access.specs.Rows.{is_named, has_digest};

use arrayvec::ArrayVec;
use byte_text::Name;
use octo_outside::ItemList;
use sha2::{Digest as _, Sha256};

/// The SHA-256 of a user's key. Source: FIPS 180-4.
pub type Digest = [u8; 32];

/// The names of a user's groups, at most 8.
pub type GroupNames = ArrayVec<Name, 8>;

/// A user as a row of a table: what he is called, his key's digest, his groups, and whether he may do anything at all.
#[derive(Debug, Drop)]
pub struct UserRow {
    pub name: Name,
    pub digest: Digest,
    pub groups: GroupNames,
    pub active: bool,
}

/// Users in a list.
pub type UserList = ItemList<UserRow>;

/// The user whom the settings name. He has every permission and is a row of no table.
#[derive(Debug, Drop)]
pub struct Admin {
    pub name: Name,
    pub digest: Digest,
}

/// The digest of a key.
pub fn digest_of(key: &[u8]) -> Digest
    ensures { result ≡ sha256 key.now }
{
    Sha256::digest(key)
}

// Whether two digests are equal. It reads every byte of both whatever they hold, so that how long it takes tells nothing of
// a key.
#[tactic(auto, using(crate::proofs::Digests::difference_step))]
pub(crate) fn are_equal(one: &Digest, other: &Digest) -> bool
    ensures { result ≡ bytes_eq one.now other.now }
{
    let mut difference = 0;
    for place in 0..32 {
        difference |= one[place] ^ other[place];
    }
    difference == 0
}

/// The same names again; takes no memory.
pub fn copy_names(names: &GroupNames) -> GroupNames
    ensures { result ≡ names.now }
{
    let mut copy = ArrayVec::new();
    for name in names.as_slice() {
        copy.push(name.copy());
    }
    copy
}

impl UserRow {
    /// The same row again; takes no memory.
    pub fn copy(&self) -> UserRow
        ensures { result ≡ self.now }
    {
        UserRow {
            name: self.name.copy(),
            digest: self.digest,
            groups: copy_names(&self.groups),
            active: self.active,
        }
    }

    /// Whether the user has that name.
    pub fn is_named(&self, name: &Name) -> bool
        ensures { result ≡ is_named name.now self.now }
    {
        self.name.is(name)
    }

    pub(crate) fn has_digest(&self, digest: &Digest) -> bool
        ensures { result ≡ has_digest digest.now self.now }
    {
        are_equal(&self.digest, digest)
    }

    // Whether that key's owner is this user, and active.
    pub(crate) fn is_caller(&self, digest: &Digest) -> bool
        ensures { result ≡ is_caller digest.now self.now }
    {
        self.active && self.has_digest(digest)
    }
}

impl Admin {
    /// The admin as an active user of the group `admins`.
    pub fn row(&self) -> UserRow
        ensures { result ≡ admin_row self.now }
    {
        let mut groups = ArrayVec::new();
        groups.push(Name::of_short("admins"));
        UserRow {
            name: self.name.copy(),
            digest: self.digest,
            groups,
            active: true,
        }
    }
}
