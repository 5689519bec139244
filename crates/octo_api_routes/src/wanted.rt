//! What a method asks of a target, and which body it wants.
ghost use Rattle.std.specs.Prelude.{◌≡◌};
ghost use Rattle.octo_api_routes.specs.Wants.{verb_of, asked_by_get, asked_by_delete, wanted_by_post, wanted_by_put, without_body, methods_of, wanted_of};

use crate::direct::Methods;
use crate::target::Target;
use byte_text::Name;
use octo_asks::{Request, Sought};

// A method of the interface.
#[derive(Clone, Copy, Debug, PartialEq, Eq)]
pub(crate) enum Verb {
    Get,
    Post,
    Put,
    Delete,
}

/// A form of JSON bodies.
#[derive(Debug, Drop)]
pub enum Form {
    Connection,
    Tool,
    Bed,
    Lines,
    Job,
    SelectFile { name: Name },
    PutUser,
    ChangeUser { name: Name },
    PutEntry,
    Login,
    Printhead,
}

/// The body that a request wants.
#[derive(Drop)]
pub enum Wanted {
    /// None; this is asked.
    Nothing { request: Request },
    /// JSON of this form.
    Json { form: Form },
    /// The form of an upload.
    Upload,
}

// A method of the interface, HEAD as GET; letters in another case make another method. Source: RFC 9110, section 9.1.
fn verb_of(method: &str) -> Option<Verb>
    ensures { result ≡ verb_of method.now }
{
    if method == "GET" || method == "HEAD" {
        return Some(Verb::Get);
    }
    if method == "POST" {
        return Some(Verb::Post);
    }
    if method == "PUT" {
        return Some(Verb::Put);
    }
    if method == "DELETE" {
        return Some(Verb::Delete);
    }
    None
}

// What a GET asks.
fn asked_by_get(target: &Target) -> Option<Request>
    ensures { result ≡ asked_by_get target.now }
{
    match target {
        Target::Version | Target::Server | Target::Profiles | Target::SystemCommands => {
            Some(Request::Version)
        }
        Target::Settings => Some(Request::GetLimits),
        Target::CurrentUser => Some(Request::Caller),
        Target::Connection => Some(Request::GetConnection),
        Target::Printer | Target::Tool | Target::Bed => Some(Request::GetPrinter),
        Target::Job => Some(Request::GetJob),
        Target::AllFiles | Target::Files => Some(Request::ListFiles),
        Target::File { name } => Some(Request::GetFile { name: name.copy() }),
        Target::Download { name } => Some(Request::Download {
            name: Sought::new(name.copy()),
        }),
        Target::Users => Some(Request::ListUsers),
        Target::Queue => Some(Request::ListQueue),
        Target::Prints => Some(Request::ListPrints),
        _ => None,
    }
}

// What a DELETE asks.
fn asked_by_delete(target: &Target) -> Option<Request>
    ensures { result ≡ asked_by_delete target.now }
{
    match target {
        Target::File { name } => Some(Request::DeleteFile { name: name.copy() }),
        Target::Entry { name } => Some(Request::DropOwn { name: name.copy() }),
        Target::OthersEntry { user, name } => Some(Request::DropOther {
            user: user.copy(),
            name: name.copy(),
        }),
        _ => None,
    }
}

// A request without a body.
fn without_body(asked: Option<Request>) -> Option<Wanted>
    ensures { result ≡ without_body asked }
{
    match asked {
        Some(request) => Some(Wanted::Nothing { request }),
        None => None,
    }
}

// What a POST wants.
fn wanted_by_post(target: &Target) -> Option<Wanted>
    ensures { result ≡ wanted_by_post target.now }
{
    let form = match target {
        Target::Connection => Form::Connection,
        Target::Tool => Form::Tool,
        Target::Bed => Form::Bed,
        Target::Command => Form::Lines,
        Target::Job => Form::Job,
        Target::File { name } => Form::SelectFile { name: name.copy() },
        Target::Users => Form::PutUser,
        Target::Queue => Form::PutEntry,
        Target::Login => Form::Login,
        Target::Printhead => Form::Printhead,
        Target::Files => return Some(Wanted::Upload),
        Target::NextEntry => return without_body(Some(Request::NextEntry)),
        Target::Backup => return without_body(Some(Request::Backup)),
        Target::Shutdown => return without_body(Some(Request::Shutdown)),
        Target::Logout => return without_body(Some(Request::Caller)),
        _ => return None,
    };
    Some(Wanted::Json { form })
}

// What a PUT wants.
fn wanted_by_put(target: &Target) -> Option<Wanted>
    ensures { result ≡ wanted_by_put target.now }
{
    match target {
        Target::User { name } => Some(Wanted::Json {
            form: Form::ChangeUser { name: name.copy() },
        }),
        _ => None,
    }
}

/// The methods that a target takes.
pub fn methods_of(target: &Target) -> Methods
    ensures { result ≡ methods_of target.now }
{
    Methods {
        get: asked_by_get(target).is_some(),
        post: wanted_by_post(target).is_some(),
        put: wanted_by_put(target).is_some(),
        delete: asked_by_delete(target).is_some(),
    }
}

/// What a method wants of a target, `None` if the target has no such method.
pub fn wanted_of(method: &str, target: &Target) -> Option<Wanted>
    ensures { result ≡ wanted_of method.now target.now }
{
    match verb_of(method)? {
        Verb::Get => without_body(asked_by_get(target)),
        Verb::Delete => without_body(asked_by_delete(target)),
        Verb::Post => wanted_by_post(target),
        Verb::Put => wanted_by_put(target),
    }
}
