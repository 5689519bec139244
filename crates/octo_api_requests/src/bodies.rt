//! What JSON bodies ask of the printer, and of each form.
ghost use Rattle.std.specs.Prelude.{◌≡◌, ◌∷◌, [], Some, false};
ghost use Rattle.serde_json.specs.View.{view};
ghost use Rattle.octo_api_commands.specs.Members.{Gives};
ghost use Rattle.octo_api_requests.specs.Bodies.{as_port, connection_asked, pause_asked, job_asked, selection_asked, lines_asked, has_password, login_asked, asked_in, takes_memory};

use crate::entry_body::entry_of;
use crate::printer_bodies::{bed_of, or_wrong, printhead_of, tool_of};
use crate::user_bodies::{change_of, user_of};
use byte_text::Name;
use octo_api_commands::{Unread, as_lines, command_of, flag_at, is_text_at};
use octo_api_routes::Form;
use octo_asks::{BlobList, Request};
use octo_outside::Blob;
use serde_json::Value;
use std::alloc::Global;

// A port's name: 1 to 100 bytes. Null and `AUTO` name none, as OctoPrint takes them.
fn port_of(found: &Value) -> Option<Option<Name>>
    ensures { result ≡ as_port (view found.now) }
{
    if found.is_null() {
        return Some(None);
    }
    let text = found.as_str()?;
    if text == "AUTO" {
        return Some(None);
    }
    if text.is_empty() {
        return None;
    }
    let name = Name::from_text(text)?;
    Some(Some(name))
}

// What a body asks of the connection: to connect, to a port if it names one, or to disconnect.
fn connection_of(body: &Value) -> Option<Request>
    ensures { result ≡ connection_asked (view body.now) }
{
    if is_text_at(body, "command", "connect") {
        let port = match body.get("port") {
            Some(found) => port_of(found)?,
            None => None,
        };
        return Some(Request::Connect { port });
    }
    if is_text_at(body, "command", "disconnect") {
        return Some(Request::Disconnect);
    }
    None
}

// What a pause asks, by its action.
fn pause_of(body: &Value) -> Option<Request>
    ensures { result ≡ pause_asked (view body.now) }
{
    if body.get("action").is_none() {
        return Some(Request::Toggle);
    }
    if is_text_at(body, "action", "pause") {
        return Some(Request::Pause);
    }
    if is_text_at(body, "action", "resume") {
        return Some(Request::Resume);
    }
    if is_text_at(body, "action", "toggle") {
        return Some(Request::Toggle);
    }
    None
}

// What a body asks of the job: to start, to cancel, to restart or to pause.
fn job_of(body: &Value) -> Option<Request>
    ensures { result ≡ job_asked (view body.now) }
{
    if is_text_at(body, "command", "start") {
        return Some(Request::Start);
    }
    if is_text_at(body, "command", "cancel") {
        return Some(Request::Cancel);
    }
    if is_text_at(body, "command", "restart") {
        return Some(Request::Restart);
    }
    if is_text_at(body, "command", "pause") {
        return pause_of(body);
    }
    None
}

// What a body asks of a file: to select it, and whether to print it.
fn selection_of(name: &Name, body: &Value) -> Option<Request>
    ensures { result ≡ selection_asked name.now (view body.now) }
{
    if is_text_at(body, "command", "select") {
        let print = flag_at(body, "print", false)?;
        let name = name.copy();
        return Some(Request::SelectFile { name, print });
    }
    None
}

// A list of this line alone.
fn one_line(alloc: Global, text: Blob) -> Result<BlobList, Unread>
    ensures { Gives (Some (text ∷ [])) result }
{
    let mut texts = BlobList::new(alloc);
    texts.push(text)?;
    Ok(texts)
}

// What a body asks to send: one line, or 1 to 256, and not both.
fn lines_of(alloc: Global, body: &Value) -> Result<Request, Unread>
    ensures { Gives (lines_asked (view body.now)) result }
{
    let parameters = body.get("parameters");
    if let Some(found) = body.get("commands") {
        if body.get("command").is_some() {
            return Err(Unread::Wrong);
        }
        let texts = as_lines(alloc, parameters, found)?;
        return Ok(Request::Lines { texts });
    }
    let Some(found) = body.get("command") else {
        return Err(Unread::Wrong);
    };
    let text = command_of(alloc, parameters, found)?;
    let texts = one_line(alloc, text)?;
    Ok(Request::Lines { texts })
}

// Whether a body has a password.
pub(crate) fn has_password(body: &Value) -> bool
    ensures { result ≡ has_password (view body.now) }
{
    body.get("user").is_some() && body.get("pass").is_some()
}

// What a login asks: whom the key names. The host knows no passwords.
fn login_of(body: &Value) -> Option<Request>
    ensures { result ≡ login_asked (view body.now) }
{
    if !has_password(body) && body.get("passive").is_some() {
        return Some(Request::Caller);
    }
    None
}

// What a body asks in a form whose reading takes no memory.
fn request_of_form(form: &Form, body: &Value) -> Option<Request>
    requires { takes_memory form.now ≡ false }
    ensures { result ≡ asked_in form.now (view body.now) }
{
    match form {
        Form::Connection => connection_of(body),
        Form::Bed => bed_of(body),
        Form::Job => job_of(body),
        Form::SelectFile { name } => selection_of(name, body),
        Form::PutEntry => entry_of(body),
        Form::Login => login_of(body),
        _ => unreachable!(),
    }
}

// What a body asks in a form.
pub(crate) fn asked_in(alloc: Global, form: &Form, body: &Value) -> Result<Request, Unread>
    ensures { Gives (asked_in form.now (view body.now)) result }
{
    match form {
        Form::Tool => tool_of(alloc, body),
        Form::Printhead => printhead_of(alloc, body),
        Form::Lines => lines_of(alloc, body),
        Form::PutUser => user_of(alloc, body),
        Form::ChangeUser { name } => change_of(alloc, name, body),
        _ => or_wrong(request_of_form(form, body)),
    }
}
