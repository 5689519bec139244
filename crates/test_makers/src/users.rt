//! Users, the admin, and tables of users.
ghost use Rattle.std.specs.Prelude.{◌≡◌, ◌≤◌, [], ◌∷◌, codes, length, IfSome};
ghost use Rattle.byte_text.specs.declared.name.TheConstants.{MOST_NAME_BYTES};
ghost use Rattle.test_makers.specs.Objects.{user_of, root_policy, users_alone};

use arrayvec::ArrayVec;
use byte_text::Name;
use octo_access::{Admin, Groups, Policy, UserRow, digest_of};
use octo_keeper::Tables;
use std::alloc::Global;

/// The admin's key.
pub const ROOT: &[u8] = b"root-key-0123456789";

/// The key of ana, who may print.
pub const ANA: &[u8] = b"ana-key-0123456789";

/// The key of ben, who may print.
pub const BEN: &[u8] = b"ben-key-0123456789";

/// The key of eve, who may only read.
pub const EVE: &[u8] = b"eve-key-0123456789";

// An active user of one group. Takes no memory.
fn user(text: &str, key: &[u8], group: &str) -> UserRow
    requires name { length text.now ≤ MOST_NAME_BYTES }
    requires group { length group.now ≤ MOST_NAME_BYTES }
    ensures { result ≡ user_of text.now key.now group.now }
{
    let mut groups = ArrayVec::new();
    groups.push(Name::of_short(group));
    UserRow {
        name: Name::of_short(text),
        digest: digest_of(key),
        groups,
        active: true,
    }
}

/// The groups that are built in, and the admin root. Takes no memory.
pub fn policy(alloc: Global) -> Policy
    ensures { result ≡ root_policy ROOT.now }
{
    let admin = Admin {
        name: Name::of_short("root"),
        digest: digest_of(ROOT),
    };
    Policy::new(Groups::new(alloc), Some(admin))
}

/// Tables without a row.
pub fn no_rows(alloc: Global) -> Tables
    ensures { result ≡ users_alone [] }
{
    Tables::empty(alloc)
}

/// Tables with ana and ben, who may print, and eve, who may read.
pub fn three_users(alloc: Global) -> Option<Tables>
    ensures { IfSome result (λ tables. tables ≡ users_alone (
        user_of (codes "ana") ANA.now (codes "users")
        ∷ user_of (codes "ben") BEN.now (codes "users")
        ∷ user_of (codes "eve") EVE.now (codes "readonly") ∷ [])) }
{
    let mut tables = no_rows(alloc);
    tables.users.push(user("ana", ANA, "users")).ok()?;
    tables.users.push(user("ben", BEN, "users")).ok()?;
    tables.users.push(user("eve", EVE, "readonly")).ok()?;
    Some(tables)
}
