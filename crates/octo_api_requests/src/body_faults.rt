//! What is wrong with JSON that isn't what a form takes: of its members the first one, in the order in which they are read.
ghost use Rattle.std.specs.Prelude.{◌≡◌};
ghost use Rattle.serde_json.specs.View.{view};
ghost use Rattle.octo_api_requests.specs.BodyFaults.{unread_member, connection_fault, commands_fault, lines_fault, job_fault, selection_fault, user_fault, change_fault, entry_fault, login_fault, members_fault, fault_in};

use crate::bodies::has_password;
use crate::fields::{as_key, file_at, name_at, small_at};
use crate::lists::as_groups;
use crate::printer_faults::{bed_fault, printhead_fault, tool_fault};
use crate::user_bodies::{optional_groups, optional_key};
use octo_api_commands::{are_texts, is_text_at, text_at};
use octo_api_routes::{BodyFault, Form, Member};
use serde_json::Value;

// A member that isn't read is missing or wrong.
pub(crate) fn unread_member(member: Member, body: &Value) -> BodyFault
    ensures { result ≡ unread_member member (view body.now) }
{
    if body.get(member.name()).is_some() {
        return BodyFault::Wrong { member };
    }
    BodyFault::Missing { member }
}

fn connection_fault(body: &Value) -> BodyFault
    ensures { result ≡ connection_fault (view body.now) }
{
    if is_text_at(body, "command", "connect") {
        return BodyFault::Wrong {
            member: Member::Port,
        };
    }
    unread_member(Member::Command, body)
}

// Of a body with these `commands`.
fn commands_fault(body: &Value, found: &Value) -> BodyFault
    ensures { result ≡ commands_fault (view body.now) (view found.now) }
{
    if body.get("command").is_some() {
        return BodyFault::Both;
    }
    if are_texts(found) {
        return BodyFault::Wrong {
            member: Member::Parameters,
        };
    }
    BodyFault::Wrong {
        member: Member::Commands,
    }
}

// Of a body with commands.
fn lines_fault(body: &Value) -> BodyFault
    ensures { result ≡ lines_fault (view body.now) }
{
    if let Some(found) = body.get("commands") {
        return commands_fault(body, found);
    }
    if text_at(body, "command").is_some() {
        return BodyFault::Wrong {
            member: Member::Parameters,
        };
    }
    unread_member(Member::Command, body)
}

fn job_fault(body: &Value) -> BodyFault
    ensures { result ≡ job_fault (view body.now) }
{
    if is_text_at(body, "command", "pause") {
        return BodyFault::Wrong {
            member: Member::Action,
        };
    }
    unread_member(Member::Command, body)
}

fn selection_fault(body: &Value) -> BodyFault
    ensures { result ≡ selection_fault (view body.now) }
{
    if is_text_at(body, "command", "select") {
        return BodyFault::Wrong {
            member: Member::Print,
        };
    }
    unread_member(Member::Command, body)
}

fn user_fault(body: &Value) -> BodyFault
    ensures { result ≡ user_fault (view body.now) }
{
    if name_at(body, "name").is_none() {
        return unread_member(Member::Name, body);
    }
    if body.get("key").and_then(as_key).is_none() {
        return unread_member(Member::Key, body);
    }
    if body.get("groups").and_then(as_groups).is_none() {
        return unread_member(Member::Groups, body);
    }
    BodyFault::Wrong {
        member: Member::Active,
    }
}

fn change_fault(body: &Value) -> BodyFault
    ensures { result ≡ change_fault (view body.now) }
{
    if optional_key(body).is_none() {
        return BodyFault::Wrong {
            member: Member::Key,
        };
    }
    if optional_groups(body).is_none() {
        return BodyFault::Wrong {
            member: Member::Groups,
        };
    }
    BodyFault::Wrong {
        member: Member::Active,
    }
}

fn entry_fault(body: &Value) -> BodyFault
    ensures { result ≡ entry_fault (view body.now) }
{
    if name_at(body, "name").is_none() {
        return unread_member(Member::Name, body);
    }
    if file_at(body, "file").is_none() {
        return unread_member(Member::File, body);
    }
    if small_at(body, "priority", 0, 0).is_none() {
        return BodyFault::Wrong {
            member: Member::Priority,
        };
    }
    if small_at(body, "copies", 1, 1).is_none() {
        return BodyFault::Wrong {
            member: Member::Copies,
        };
    }
    BodyFault::Wrong {
        member: Member::Material,
    }
}

fn login_fault(body: &Value) -> BodyFault
    ensures { result ≡ login_fault (view body.now) }
{
    if has_password(body) {
        return BodyFault::Password;
    }
    BodyFault::Missing {
        member: Member::Passive,
    }
}

// What is wrong with an object that isn't what a form takes.
fn members_fault(form: &Form, body: &Value) -> BodyFault
    ensures { result ≡ members_fault form.now (view body.now) }
{
    match form {
        Form::Connection => connection_fault(body),
        Form::Tool => tool_fault(body),
        Form::Bed => bed_fault(body),
        Form::Lines => lines_fault(body),
        Form::Job => job_fault(body),
        Form::SelectFile { .. } => selection_fault(body),
        Form::PutUser => user_fault(body),
        Form::ChangeUser { .. } => change_fault(body),
        Form::PutEntry => entry_fault(body),
        Form::Login => login_fault(body),
        Form::Printhead => printhead_fault(body),
    }
}

// What is wrong with JSON that isn't what a form takes.
pub(crate) fn fault_in(form: &Form, body: &Value) -> BodyFault
    ensures { result ≡ fault_in form.now (view body.now) }
{
    if body.is_object() {
        return members_fault(form, body);
    }
    BodyFault::NoObject
}
