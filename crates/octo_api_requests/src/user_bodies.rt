//! What JSON bodies ask of users.
ghost use Rattle.std.specs.Prelude.{◌≡◌, ℕ, List, codes, IfOk, IfErr, option_map};
ghost use Rattle.serde_json.specs.Find.{get, as_bool};
ghost use Rattle.serde_json.specs.View.{view};
ghost use Rattle.octo_api_commands.specs.Members.{Gives};
ghost use Rattle.octo_api_requests.specs.Fields.{as_key};
ghost use Rattle.octo_api_commands.specs.Members.{optional};
ghost use Rattle.octo_api_requests.specs.Bodies.{as_groups, user_asked, change_asked};

use crate::fields::{as_key, name_at};
use crate::lists::as_groups;
use byte_text::Name;
use octo_access::GroupNames;
use octo_api_commands::{Unread, flag_at};
use octo_asks::Request;
use octo_outside::Blob;
use serde_json::Value;
use std::alloc::Global;

// A user to be added, whose key is a text yet.
#[derive(Drop)]
struct NewUser<'a> {
    name: Name,
    key: &'a str,
    groups: GroupNames,
    active: bool,
}

// The fields of a new user.
fn new_user(body: &Value) -> Option<NewUser<'_>>
    ensures { option_map
        (λ user. Request.PutUser user.name user.key.now user.groups user.active) result
        ≡ user_asked (view body.now) }
{
    Some(NewUser {
        name: name_at(body, "name")?,
        key: as_key(body.get("key")?)?,
        groups: as_groups(body.get("groups")?)?,
        active: flag_at(body, "active", true)?,
    })
}

// A user to be added.
pub(crate) fn user_of(alloc: Global, body: &Value) -> Result<Request, Unread>
    ensures { Gives (user_asked (view body.now)) result }
{
    let Some(user) = new_user(body) else {
        return Err(Unread::Wrong);
    };
    let key = Blob::from_slice(alloc, user.key.as_bytes())?;
    let NewUser {
        name,
        groups,
        active,
        ..
    } = user;
    Ok(Request::PutUser {
        name,
        key,
        groups,
        active,
    })
}

// A change's key, which may be missing.
pub(crate) fn optional_key(body: &Value) -> Option<Option<&str>>
    ensures { option_map (λ key. option_map (λ text. text.now) key) result
        ≡ optional as_key (get (codes "key") (view body.now)) }
{
    match body.get("key") {
        Some(found) => {
            let key = as_key(found)?;
            Some(Some(key))
        }
        None => Some(None),
    }
}

// A change's groups, which may be missing.
pub(crate) fn optional_groups(body: &Value) -> Option<Option<GroupNames>>
    ensures { result ≡ optional as_groups (get (codes "groups") (view body.now)) }
{
    match body.get("groups") {
        Some(found) => {
            let groups = as_groups(found)?;
            Some(Some(groups))
        }
        None => Some(None),
    }
}

// Whether a user is to be active, which may be missing.
fn optional_active(body: &Value) -> Option<Option<bool>>
    ensures { result ≡ optional as_bool (get (codes "active") (view body.now)) }
{
    match body.get("active") {
        Some(found) => {
            let active = found.as_bool()?;
            Some(Some(active))
        }
        None => Some(None),
    }
}

// What of a user is to change, whose key is a text yet.
#[derive(Drop)]
struct UserChange<'a> {
    key: Option<&'a str>,
    groups: Option<GroupNames>,
    active: Option<bool>,
}

// The fields of a change, which is an object.
fn user_change(body: &Value) -> Option<UserChange<'_>>
    ensures { (name : List ℕ) → option_map (λ change.
        Request.ChangeUser name
        (option_map (λ text. text.now) change.key) change.groups change.active) result
        ≡ change_asked name (view body.now) }
{
    if !body.is_object() {
        return None;
    }
    Some(UserChange {
        key: optional_key(body)?,
        groups: optional_groups(body)?,
        active: optional_active(body)?,
    })
}

// A copy of a key that may be missing.
fn copied_key(alloc: Global, key: Option<&str>) -> Result<Option<Blob>, Unread>
    ensures ok { IfOk result (λ copy. copy ≡ option_map (λ text. text.now) key.entry) }
    ensures err { IfErr result (λ e. e ≡ Unread.NoMemory) }
{
    match key {
        Some(text) => Ok(Some(Blob::from_slice(alloc, text.as_bytes())?)),
        None => Ok(None),
    }
}

// A change of a user.
pub(crate) fn change_of(alloc: Global, name: &Name, body: &Value) -> Result<Request, Unread>
    ensures { Gives (change_asked name.now (view body.now)) result }
{
    let Some(change) = user_change(body) else {
        return Err(Unread::Wrong);
    };
    let key = copied_key(alloc, change.key)?;
    let UserChange { groups, active, .. } = change;
    Ok(Request::ChangeUser {
        name: name.copy(),
        key,
        groups,
        active,
    })
}
