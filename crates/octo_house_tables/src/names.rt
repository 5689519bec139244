//! Names of files and ports.
ghost use Rattle.std.specs.Prelude.{◌≡◌, ◌<◌, ◌≤◌, length, map, insert, vec_len, Some, None, IfOk, IsOk, OnOk, OnErr};
ghost use Rattle.std.specs.Vec.{vec_capacity};
ghost use Rattle.std.specs.List.{prefix_len};
ghost use Rattle.octo_access.specs.Rows.{is_before};
ghost use Rattle.octo_house_rules.specs.Known.{with_name, without_name};
ghost use Rattle.octo_house_rules.specs.Prints.{port_for};

use byte_text::Name;
use octo_access::is_among;
use std::alloc::{AllocError, Global};

// The place for a name: how many names come before it, by their bytes.
fn place_for(names: &[Name], name: &Name) -> usize
    ensures place { result ≡ prefix_len (λ n. is_before n name.now) names.now }
    ensures within { result ≤ length names.now }
{
    names
        .iter()
        .take_while(|other| other.is_before(name))
        .count()
}

/// The names in a list of files with their sizes in bytes. Fails if out of memory.
pub fn names_in(alloc: Global, files: &[(Name, u64)]) -> Result<Vec<Name>, AllocError>
    ensures { IfOk result (λ names. names.items ≡ map (λ file. file.0) files.now) }
{
    let mut names = Vec::new(alloc);
    for (name, _) in files {
        names.push(name.copy())?;
    }
    Ok(names)
}

/// Makes room for one more name. Fails if out of memory.
pub fn reserve_name(names: &mut Vec<Name>) -> Result<(), AllocError>
    ensures items { names.new.items ≡ names.old.items }
    ensures room { OnOk result (vec_len names.new < vec_capacity names.new) }
{
    names.reserve(1)?;
    Ok(())
}

/// Takes a name out, if it is listed.
pub fn drop_name(names: &mut Vec<Name>, name: &Name)
    ensures items { names.new.items ≡ without_name name.now names.old.items }
    ensures room { vec_len names.old < vec_capacity names.old
        → vec_len names.new < vec_capacity names.new }
{
    names.retain(|other| !other.is(name));
}

// Adds a name in its place by its bytes; without memory the names stay.
fn insert_name(names: &mut Vec<Name>, name: &Name) -> Result<(), AllocError>
    ensures ok { OnOk result (names.new.items
        ≡ insert names.old.items
        (prefix_len (λ n. is_before n name.now) names.old.items) name.now) }
    ensures err { OnErr result (names.new.items ≡ names.old.items) }
    ensures room { vec_len names.old < vec_capacity names.old → IsOk result }
{
    let place = place_for(names, name);
    names.insert(place, name.copy())?;
    Ok(())
}

/// Adds a name in its place by its bytes, if it isn't listed. The list has room for one more.
pub fn add_name(names: &mut Vec<Name>, name: &Name)
    requires { vec_len names.old < vec_capacity names.old }
    ensures { names.new.items ≡ with_name name.now names.old.items }
{
    drop_name(names, name);
    match insert_name(names, name) {
        Ok(()) => {}
        Err(_) => unreachable!(),
    }
}

/// The port that is named, or else the first one; `None` if no such port exists.
pub fn port_for(port: &Option<Name>, ports: &[Name]) -> Option<Name>
    ensures { result ≡ port_for port.now ports.now }
{
    match port {
        Some(port) => named_port(port, ports),
        None => first_port(ports),
    }
}

// The port of that name.
fn named_port(port: &Name, ports: &[Name]) -> Option<Name>
    ensures { result ≡ port_for (Some port.now) ports.now }
{
    if is_among(port, ports) {
        return Some(port.copy());
    }
    None
}

fn first_port(ports: &[Name]) -> Option<Name>
    ensures { result ≡ port_for None ports.now }
{
    match ports {
        [first, ..] => Some(first.copy()),
        [] => None,
    }
}
