//! Asks by their parts, and copies of requests.
ghost use Rattle.std.specs.Prelude.{◌≡◌, false, Some, None, IfOk};
ghost use Rattle.octo_asks.specs.Copies.{has_fields, has_blobs};
ghost use Rattle.octo_asks.specs.History.{own_ask};

use crate::{Ask, BlobList, Request};
use byte_text::Name;
use octo_access::{GroupNames, copy_names};
use octo_outside::Blob;
use std::alloc::{AllocError, Global};

fn copy_blob(alloc: Global, blob: &Blob) -> Result<Blob, AllocError>
    ensures { IfOk result (λ copy. copy ≡ blob.now) }
{
    Blob::from_slice(alloc, blob.as_slice())
}

fn copy_blobs(alloc: Global, blobs: &[Blob]) -> Result<BlobList, AllocError>
    ensures { IfOk result (λ list. list ≡ blobs.now) }
{
    let mut list = BlobList::new(alloc);
    for blob in blobs {
        list.push(copy_blob(alloc, blob)?)?;
    }
    Ok(list)
}

fn copy_key(alloc: Global, key: &Option<Blob>) -> Result<Option<Blob>, AllocError>
    ensures { IfOk result (λ copy. copy ≡ key.now) }
{
    match key {
        Some(key) => Ok(Some(copy_blob(alloc, key)?)),
        None => Ok(None),
    }
}

fn copy_port(port: &Option<Name>) -> Option<Name>
    ensures { result ≡ port.now }
{
    match port {
        Some(port) => Some(port.copy()),
        None => None,
    }
}

fn copy_groups(groups: &Option<GroupNames>) -> Option<GroupNames>
    ensures { result ≡ groups.now }
{
    match groups {
        Some(groups) => Some(copy_names(groups)),
        None => None,
    }
}

// A request without fields.
fn copy_plain(request: &Request) -> Request
    requires { has_fields request.now ≡ false }
    ensures { result ≡ request.now }
{
    match request {
        Request::Version => Request::Version,
        Request::Caller => Request::Caller,
        Request::GetConnection => Request::GetConnection,
        Request::Disconnect => Request::Disconnect,
        Request::GetPrinter => Request::GetPrinter,
        Request::GetLimits => Request::GetLimits,
        Request::GetJob => Request::GetJob,
        Request::Start => Request::Start,
        Request::Cancel => Request::Cancel,
        Request::Restart => Request::Restart,
        Request::Pause => Request::Pause,
        Request::Resume => Request::Resume,
        Request::Toggle => Request::Toggle,
        Request::ListFiles => Request::ListFiles,
        Request::ListUsers => Request::ListUsers,
        Request::ListQueue => Request::ListQueue,
        Request::NextEntry => Request::NextEntry,
        Request::ListPrints => Request::ListPrints,
        Request::Backup => Request::Backup,
        Request::Shutdown => Request::Shutdown,
        Request::Leave => Request::Leave,
        Request::AutoConnect => Request::AutoConnect,
        _ => unreachable!(),
    }
}

// A request that has names and numbers alone.
fn copy_named(request: &Request) -> Request
    requires { has_blobs request.now ≡ false }
    ensures { result ≡ request.now }
{
    match request {
        Request::Connect { port } => Request::Connect {
            port: copy_port(port),
        },
        Request::HeatTool { degrees } => Request::HeatTool { degrees: *degrees },
        Request::HeatBed { degrees } => Request::HeatBed { degrees: *degrees },
        Request::GetFile { name } => Request::GetFile { name: name.copy() },
        Request::SelectFile { name, print } => Request::SelectFile {
            name: name.copy(),
            print: *print,
        },
        Request::DeleteFile { name } => Request::DeleteFile { name: name.copy() },
        Request::Download { name } => Request::Download { name: name.copy() },
        Request::PutEntry {
            name,
            file,
            priority,
            copies,
            material,
        } => Request::PutEntry {
            name: name.copy(),
            file: file.copy(),
            priority: *priority,
            copies: *copies,
            material: material.copy(),
        },
        Request::DropOwn { name } => Request::DropOwn { name: name.copy() },
        Request::DropOther { user, name } => Request::DropOther {
            user: user.copy(),
            name: name.copy(),
        },
        _ => copy_plain(request),
    }
}

impl Request {
    /// The same request again. Fails if out of memory.
    pub fn copy(&self, alloc: Global) -> Result<Request, AllocError>
        ensures { IfOk result (λ copy. copy ≡ self.now) }
    {
        Ok(match self {
            Request::Lines { texts } => Request::Lines {
                texts: copy_blobs(alloc, texts.as_slice())?,
            },
            Request::Move { texts } => Request::Move {
                texts: copy_blobs(alloc, texts.as_slice())?,
            },
            Request::PutFile {
                name,
                file,
                select,
                print,
            } => Request::PutFile {
                name: name.copy(),
                file: file.copy(alloc)?,
                select: *select,
                print: *print,
            },
            Request::PutUser {
                name,
                key,
                groups,
                active,
            } => Request::PutUser {
                name: name.copy(),
                key: copy_blob(alloc, key)?,
                groups: copy_names(groups),
                active: *active,
            },
            Request::ChangeUser {
                name,
                key,
                groups,
                active,
            } => Request::ChangeUser {
                name: name.copy(),
                key: copy_key(alloc, key)?,
                groups: copy_groups(groups),
                active: *active,
            },
            _ => copy_named(self),
        })
    }
}

impl Ask {
    /// The ask of a caller with this key. Fails if out of memory.
    pub fn of(alloc: Global, key: &[u8], request: Request) -> Result<Ask, AllocError>
        ensures { IfOk result (λ ask. ask ≡ record { key = key.now; request = request }) }
    {
        Ok(Ask {
            key: Blob::from_slice(alloc, key)?,
            request,
        })
    }

    /// The host's own ask, which has no key; takes no memory.
    pub fn own(alloc: Global) -> Ask
        ensures { result ≡ own_ask }
    {
        Ask {
            key: Blob::new(alloc),
            request: Request::AutoConnect,
        }
    }

    /// The same ask again. Fails if out of memory.
    pub fn copy(&self, alloc: Global) -> Result<Ask, AllocError>
        ensures { IfOk result (λ copy. copy ≡ self.now) }
    {
        Ok(Ask {
            key: copy_blob(alloc, &self.key)?,
            request: self.request.copy(alloc)?,
        })
    }
}
