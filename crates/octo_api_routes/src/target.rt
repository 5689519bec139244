//! What a request is about: a path with its names.
ghost use Rattle.std.specs.Prelude.{◌≡◌, ◌≤◌, IfOk, IfErr, true, length};
ghost use Rattle.percent_encoding.specs.Percent.{percent_decode};
ghost use Rattle.octo_api_routes.specs.Places.{has_name, name_of_part, file_name_of_part, before_slash, others_entry, target_at, target_of};

use crate::Direct;
use crate::ascii::ascii_text;
use crate::place::{Place, Routes, plain_path};
use byte_text::{Name, after};
use octo_access::{read_file_name, read_name};
use percent_encoding::percent_decode;
use std::alloc::Global;

// How long the part of a path in front of the name of a file is.
const BEFORE_FILE: usize = "/api/files/local/".len();

// The same of a download's file.
const BEFORE_DOWNLOAD: usize = "/downloads/files/local/".len();

// The same of a user.
const BEFORE_USER: usize = "/api/access/users/".len();

// The same of an entry of the queue.
const BEFORE_ENTRY: usize = "/api/queue/".len();

/// What a request is about.
#[derive(Debug, Drop)]
pub enum Target {
    Version,
    Connection,
    Printer,
    Tool,
    Bed,
    Command,
    Job,
    AllFiles,
    Files,
    File { name: Name },
    Download { name: Name },
    Users,
    User { name: Name },
    Queue,
    Entry { name: Name },
    OthersEntry { user: Name, name: Name },
    NextEntry,
    Prints,
    Backup,
    Shutdown,
    Server,
    Settings,
    Profiles,
    SystemCommands,
    Login,
    Logout,
    CurrentUser,
    Printhead,
}

// The text that a part of a path is percent-encoded from. Source: RFC 3986, section 2.1.
fn decode_part(alloc: Global, part: &[u8]) -> Result<Vec<u8>, Direct>
    ensures ok { IfOk result (λ bytes. bytes.items ≡ percent_decode part.now) }
    ensures err { IfErr result (λ e. e ≡ Direct.NoMemory) }
{
    let mut bytes = Vec::new(alloc);
    percent_decode(part).append_to(&mut bytes)?;
    Ok(bytes)
}

// The name that a part of a path is percent-encoded from.
#[tactic(auto, using(crate::proofs::Texts::not_a_name))]
fn name_of_part(alloc: Global, part: &[u8]) -> Result<Option<Name>, Direct>
    ensures ok { IfOk result (λ name. name ≡ name_of_part part.now) }
    ensures err { IfErr result (λ e. e ≡ Direct.NoMemory) }
{
    let bytes = decode_part(alloc, part)?;
    match ascii_text(bytes.as_slice()) {
        Some(text) => Ok(read_name(text)),
        None => Ok(None),
    }
}

// The name of a file that a part of a path is percent-encoded from.
#[tactic(auto, using(crate::proofs::Texts::not_a_name))]
fn file_name_of_part(alloc: Global, part: &[u8]) -> Result<Option<Name>, Direct>
    ensures ok { IfOk result (λ name. name ≡ file_name_of_part part.now) }
    ensures err { IfErr result (λ e. e ≡ Direct.NoMemory) }
{
    let bytes = decode_part(alloc, part)?;
    match ascii_text(bytes.as_slice()) {
        Some(text) => Ok(read_file_name(text)),
        None => Ok(None),
    }
}

// How many bytes there are in front of the first slash.
fn before_slash(parts: &[u8]) -> usize
    ensures value { result ≡ before_slash parts.now }
    ensures most { result ≤ length parts.now }
{
    parts.iter().take_while(|byte| **byte != b'/').count()
}

// An entry of another user: the user and the name, with a slash between them.
fn others_entry(alloc: Global, parts: &[u8]) -> Result<Option<Target>, Direct>
    ensures ok { IfOk result (λ target. target ≡ others_entry parts.now) }
    ensures err { IfErr result (λ e. e ≡ Direct.NoMemory) }
{
    let slash = before_slash(parts);
    let Some(user) = name_of_part(alloc, &parts[..slash])? else {
        return Ok(None);
    };
    match name_of_part(alloc, after(parts, slash + 1))? {
        Some(name) => Ok(Some(Target::OthersEntry { user, name })),
        None => Ok(None),
    }
}

// What a path with one name is about.
fn named_target(alloc: Global, place: Place, path: &[u8]) -> Result<Option<Target>, Direct>
    requires { has_name place ≡ true }
    ensures ok { IfOk result (λ target. target ≡ target_at place path.now) }
    ensures err { IfErr result (λ e. e ≡ Direct.NoMemory) }
{
    match place {
        Place::File => match file_name_of_part(alloc, after(path, BEFORE_FILE))? {
            Some(name) => Ok(Some(Target::File { name })),
            None => Ok(None),
        },
        Place::Download => match file_name_of_part(alloc, after(path, BEFORE_DOWNLOAD))? {
            Some(name) => Ok(Some(Target::Download { name })),
            None => Ok(None),
        },
        Place::User => match name_of_part(alloc, after(path, BEFORE_USER))? {
            Some(name) => Ok(Some(Target::User { name })),
            None => Ok(None),
        },
        Place::Entry => match name_of_part(alloc, after(path, BEFORE_ENTRY))? {
            Some(name) => Ok(Some(Target::Entry { name })),
            None => Ok(None),
        },
        Place::OthersEntry => others_entry(alloc, after(path, BEFORE_ENTRY)),
        _ => unreachable!(),
    }
}

// What a path is about whose place is known.
fn target_at(alloc: Global, place: Place, path: &[u8]) -> Result<Option<Target>, Direct>
    ensures ok { IfOk result (λ target. target ≡ target_at place path.now) }
    ensures err { IfErr result (λ e. e ≡ Direct.NoMemory) }
{
    match place {
        Place::Version => Ok(Some(Target::Version)),
        Place::Connection => Ok(Some(Target::Connection)),
        Place::Printer => Ok(Some(Target::Printer)),
        Place::Tool => Ok(Some(Target::Tool)),
        Place::Bed => Ok(Some(Target::Bed)),
        Place::Command => Ok(Some(Target::Command)),
        Place::Job => Ok(Some(Target::Job)),
        Place::AllFiles => Ok(Some(Target::AllFiles)),
        Place::Files => Ok(Some(Target::Files)),
        Place::Users => Ok(Some(Target::Users)),
        Place::Queue => Ok(Some(Target::Queue)),
        Place::NextEntry => Ok(Some(Target::NextEntry)),
        Place::Prints => Ok(Some(Target::Prints)),
        Place::Backup => Ok(Some(Target::Backup)),
        Place::Shutdown => Ok(Some(Target::Shutdown)),
        Place::Server => Ok(Some(Target::Server)),
        Place::Settings => Ok(Some(Target::Settings)),
        Place::Profiles => Ok(Some(Target::Profiles)),
        Place::SystemCommands => Ok(Some(Target::SystemCommands)),
        Place::Login => Ok(Some(Target::Login)),
        Place::Logout => Ok(Some(Target::Logout)),
        Place::CurrentUser => Ok(Some(Target::CurrentUser)),
        Place::Printhead => Ok(Some(Target::Printhead)),
        _ => named_target(alloc, place, path),
    }
}

/// What a path is about, `None` if it is no path of the interface; its empty parts don't count. Fails as `NoMemory` alone. Source: OctoPrint's REST API.
pub fn target_of(alloc: Global, routes: &Routes, path: &[u8]) -> Result<Option<Target>, Direct>
    ensures ok { IfOk result (λ target. target ≡ target_of path.now) }
    ensures err { IfErr result (λ e. e ≡ Direct.NoMemory) }
{
    let path = plain_path(alloc, path)?;
    match routes.place_of(path.as_slice()) {
        Some(place) => target_at(alloc, place, path.as_slice()),
        None => Ok(None),
    }
}
