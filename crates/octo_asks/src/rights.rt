//! What a caller must be permitted.
ghost use Rattle.std.specs.Prelude.{◌≡◌};
ghost use Rattle.octo_asks.specs.Rights.{needed, first_needed};

use crate::Request;
use arrayvec::ArrayVec;
use octo_access::Permission;

// The permission that a request needs first, if it needs one.
fn first_needed(request: &Request) -> Option<Permission>
    ensures { result ≡ first_needed request.now }
{
    Some(match request {
        Request::Version
        | Request::GetConnection
        | Request::GetPrinter
        | Request::GetLimits
        | Request::GetJob
        | Request::ListPrints => Permission::Status,
        Request::Connect { .. } | Request::Disconnect => Permission::Connection,
        Request::HeatTool { .. }
        | Request::HeatBed { .. }
        | Request::Lines { .. }
        | Request::Move { .. } => Permission::Control,
        Request::Start
        | Request::Cancel
        | Request::Restart
        | Request::Pause
        | Request::Resume
        | Request::Toggle
        | Request::NextEntry => Permission::Print,
        Request::ListFiles | Request::GetFile { .. } => Permission::FilesList,
        Request::PutFile { .. } => Permission::FilesUpload,
        Request::DeleteFile { .. } => Permission::FilesDelete,
        Request::Download { .. } => Permission::FilesDownload,
        Request::SelectFile { .. }
        | Request::ListQueue
        | Request::PutEntry { .. }
        | Request::DropOwn { .. } => Permission::FilesSelect,
        Request::ListUsers
        | Request::PutUser { .. }
        | Request::ChangeUser { .. }
        | Request::DropOther { .. } => Permission::Admin,
        Request::Backup | Request::Shutdown => Permission::System,
        Request::Caller | Request::Leave | Request::AutoConnect => return None,
    })
}

/// The permissions that a caller needs for a request, in the order in which they are tested. None is needed to ask whom the
/// key names, nor for the requests of a worker and of the host themselves. Source: OctoPrint's permissions; which request needs which is this project's own choice.
pub fn needed(request: &Request) -> ArrayVec<Permission, 2>
    ensures { result.items ≡ needed request.now }
{
    let mut permissions = ArrayVec::new();
    if let Some(permission) = first_needed(request) {
        permissions.push(permission);
    }
    if let Request::SelectFile { print: true, .. } = request {
        permissions.push(Permission::Print);
    }
    permissions
}
