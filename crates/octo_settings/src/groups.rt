//! The groups of settings.
ghost use Rattle.std.specs.Prelude.{◌≡◌, ◌≤◌, ◌<◌, ◌⊎◌, ◌∷◌, ◌++◌, [], length, true, false, codes, IfErr, OnOk, MatchResult, Ok, Err};
ghost use Rattle.std.specs.List.{list_all};
ghost use Rattle.byte_text.specs.declared.name.TheConstants.{MOST_NAME_BYTES};
ghost use Rattle.toml.specs.View.{view, table_view};
ghost use Rattle.octo_access.specs.Groups.{is_known, most_groups};
ghost use Rattle.octo_access.specs.Names.{is_name_byte};
ghost use Rattle.octo_settings.specs.Groups.{group_key, permission_of, permissions_of, is_new_name, with_group, with_groups, groups_in, groups_of};
ghost use Rattle.octo_settings.specs.Seen.{data_of_value};
ghost use Rattle.octo_settings.specs.Values.{Reads, each, members_list};
ghost use Rattle.octo_settings.specs.declared.fault.SettingsFault.TheVariants.{NoMemory, OutOfRange};

use crate::fault::{SettingsFault, out_of_range};
use crate::names::ascii_name;
use crate::texts::read_texts;
use crate::values::read_section;
use arrayvec::ArrayVec;
use byte_text::{Name, append};
use octo_access::{GroupFault, Groups, MOST_GROUPS, Permission, read_name};
use octo_outside::{ItemList, WordList};
use std::alloc::Global;
use toml::{Table, Value};

// The most bytes of a group's name that are part of its key.
const MOST_OF_NAME: usize = 93;

fn group_key(name: &Name) -> Name
    requires { list_all is_name_byte name.now ≡ true }
    ensures { result ≡ group_key name.now }
{
    let mut key = ArrayVec::<u8, 100>::new();
    append(&mut key, b"groups.");
    let name = name.as_bytes();
    append(&mut key, &name[..name.len().min(MOST_OF_NAME)]);
    ascii_name(key.as_slice())
}

fn read_permission(key: &str, text: &str) -> Result<Permission, SettingsFault>
    requires { length key.now ≤ MOST_NAME_BYTES }
    ensures { result ≡ permission_of key.now text.now }
{
    match Permission::from_name(text) {
        Some(permission) => Ok(permission),
        None => Err(out_of_range(key)),
    }
}

fn read_permission_list(
    alloc: Global,
    key: &str,
    texts: &WordList,
) -> Result<ItemList<Permission>, SettingsFault>
    requires { length key.now ≤ MOST_NAME_BYTES }
    ensures { Reads result (each (permission_of key.now) texts.now) }
{
    let mut permissions = ItemList::new(alloc);
    for i in 0..texts.count() {
        let permission = read_permission(key, texts.get(i))?;
        if permissions.push(permission).is_err() {
            return Err(SettingsFault::NoMemory);
        }
    }
    Ok(permissions)
}

fn read_permissions(
    alloc: Global,
    key: &str,
    value: &Value,
) -> Result<ItemList<Permission>, SettingsFault>
    requires { length key.now ≤ MOST_NAME_BYTES }
    ensures { Reads result (permissions_of key.now (view value.now)) }
{
    let texts = read_texts(alloc, key, value)?;
    read_permission_list(alloc, key, &texts)
}

// A text as the name of one more group.
fn new_name(groups: &Groups, name: &str) -> Result<Name, SettingsFault>
    ensures { MatchResult result
        (λ new. (is_new_name groups.now name.now ≡ true) × (new ≡ name.now))
        (λ fault. (is_new_name groups.now name.now ≡ false)
        × (fault ≡ OutOfRange (codes "groups"))) }
{
    match read_name(name) {
        Some(name) if !groups.is_known(&name) => Ok(name),
        _ => Err(out_of_range("groups")),
    }
}

// Adds a new group, which has a place.
fn add_group(
    groups: &mut Groups,
    name: &Name,
    permissions: &[Permission],
) -> Result<(), SettingsFault>
    requires room { length groups.old < most_groups }
    requires new { is_known groups.old name.now ≡ false }
    ensures ok { OnOk result
        (groups.new ≡ groups.old
        ++ record { name = name.now; permissions = permissions.now } ∷ []) }
    ensures err { IfErr result (λ fault. fault ≡ NoMemory) }
{
    match groups.add(name, permissions) {
        Ok(()) => Ok(()),
        Err(GroupFault::NoMemory) => Err(SettingsFault::NoMemory),
        Err(_) => unreachable!(),
    }
}

// Adds the group of a new name, which has a place.
fn read_new_group(
    alloc: Global,
    name: &Name,
    value: &Value,
    groups: &mut Groups,
) -> Result<(), SettingsFault>
    requires room { length groups.old < most_groups }
    requires new { is_new_name groups.old name.now ≡ true }
    ensures { MatchResult result
        (λ _. with_group name.now (view value.now) groups.old ≡ Ok groups.new)
        (λ fault. (fault ≡ NoMemory)
        ⊎ (with_group name.now (view value.now) groups.old ≡ Err fault)) }
{
    let key = group_key(name);
    let permissions = read_permissions(alloc, key.as_str(), value)?;
    add_group(groups, name, permissions.as_slice())
}

fn read_group(
    alloc: Global,
    name: &str,
    value: &Value,
    groups: &mut Groups,
) -> Result<(), SettingsFault>
    requires { length groups.old < most_groups }
    ensures { MatchResult result
        (λ _. with_group name.now (view value.now) groups.old ≡ Ok groups.new)
        (λ fault. (fault ≡ NoMemory)
        ⊎ (with_group name.now (view value.now) groups.old ≡ Err fault)) }
{
    let name = new_name(groups, name)?;
    read_new_group(alloc, &name, value, groups)
}

fn read_group_list(alloc: Global, table: &Table) -> Result<Groups, SettingsFault>
    requires { length (members_list (table_view table.now)) ≤ most_groups }
    ensures { Reads result (with_groups (members_list (table_view table.now)) []) }
{
    let mut groups = Groups::new(alloc);
    for (name, value) in table.iter() {
        read_group(alloc, name.as_str(), value, &mut groups)?;
    }
    Ok(groups)
}

fn read_groups_in(alloc: Global, table: &Table) -> Result<Groups, SettingsFault>
    ensures { Reads result (groups_in (members_list (table_view table.now))) }
{
    if table.len() > MOST_GROUPS {
        return Err(out_of_range("groups"));
    }
    read_group_list(alloc, table)
}

pub(crate) fn read_groups(alloc: Global, value: Option<&Value>) -> Result<Groups, SettingsFault>
    ensures { Reads result (groups_of (data_of_value value.entry)) }
{
    match read_section("groups", value) {
        Ok(Some(table)) => read_groups_in(alloc, table),
        Ok(None) => Ok(Groups::new(alloc)),
        Err(fault) => Err(fault),
    }
}
