//! What answers show, as replies.
ghost use Rattle.std.specs.Prelude.{◌≡◌, IfOk};
ghost use Rattle.serde_json.specs.View.{view, members_view};
ghost use Rattle.octo_api_refusals.specs.Objects.{primitive_data};
ghost use Rattle.octo_api_replies.specs.Pages.{version_data, caller_data, login_data, current_data, options_data, text_or_null, connection_data, selected_data, printed_data, progress_data, course_members, job_data};
ghost use Rattle.octo_api_refusals.specs.Refused.{json_reply};

use crate::items::names_value;
use crate::texts::state_text;
use byte_text::Name;
use job_desk::State;
use octo_api_refusals::{
    Members, OK, Primitive, json_reply, members_of, object_of, object_reply, object_reply_with,
    object_with, pair, with_member,
};
use octo_asks::{Progress, ShownFile};
use octo_http::HttpReply;
use serde_json::Value;
use std::alloc::{AllocError, Global};

// The version. Source: OctoPrint's REST API, version information.
pub(crate) fn version_reply(alloc: Global) -> Result<HttpReply, AllocError>
    ensures { IfOk result (λ reply. reply ≡ json_reply 200 version_data) }
{
    object_reply(
        alloc,
        OK,
        &[
            ("api", Primitive::Text("0.1")),
            ("server", Primitive::Text("profile-1")),
            ("text", Primitive::Text("OctoPrint profile-1")),
        ],
    )
}

fn text_or_null(text: &Option<Name>) -> Primitive<'_>
    ensures { primitive_data result ≡ text_or_null text.now }
{
    match text {
        Some(text) => Primitive::Text(text.as_str()),
        None => Primitive::Null,
    }
}

// Whom a key names. Source: OctoPrint's REST API, general information.
#[tactic(auto, using(crate::proofs::Whole::texts_whole))]
pub(crate) fn caller_reply(
    alloc: Global,
    name: &Option<Name>,
    groups: &[Name],
) -> Result<HttpReply, AllocError>
    ensures { IfOk result (λ reply. reply ≡ json_reply 200 (caller_data name.now groups.now)) }
{
    let groups = names_value(alloc, groups)?;
    object_reply_with(alloc, OK, &[("name", text_or_null(name))], "groups", groups)
}

// What a login shows of the caller: there is no session. Source: OctoPrint's REST API, general information.
#[tactic(auto, using(crate::proofs::Whole::texts_whole))]
pub(crate) fn login_reply(
    alloc: Global,
    name: &Option<Name>,
    groups: &[Name],
) -> Result<HttpReply, AllocError>
    ensures { IfOk result (λ reply. reply ≡ json_reply 200 (login_data name.now groups.now)) }
{
    let groups = names_value(alloc, groups)?;
    object_reply_with(
        alloc,
        OK,
        &[
            ("active", Primitive::Flag(true)),
            ("name", text_or_null(name)),
            ("session", Primitive::Null),
        ],
        "groups",
        groups,
    )
}

// The port and the state.
fn current_value(alloc: Global, port: &Option<Name>, state: State) -> Result<Value, AllocError>
    ensures { IfOk result (λ value. view value ≡ current_data port.now state) }
{
    object_of(
        alloc,
        &[
            ("port", text_or_null(port)),
            ("state", Primitive::Text(state_text(state))),
        ],
    )
}

// The ports to choose from.
fn options_value(alloc: Global, ports: &[Name]) -> Result<Value, AllocError>
    ensures { IfOk result (λ value. view value ≡ options_data ports.now) }
{
    let ports = names_value(alloc, ports)?;
    object_with(alloc, &[], "ports", ports)
}

fn connection_value(
    alloc: Global,
    port: &Option<Name>,
    state: State,
    ports: &[Name],
) -> Result<Value, AllocError>
    ensures { IfOk result (λ value. view value ≡ connection_data port.now state ports.now) }
{
    let current = current_value(alloc, port, state)?;
    let options = options_value(alloc, ports)?;
    pair(alloc, "current", current, "options", options)
}

// The connection. Source: OctoPrint's REST API, connection handling.
#[tactic(auto, using(crate::proofs::Whole::connection_whole))]
pub(crate) fn connection_reply(
    alloc: Global,
    port: &Option<Name>,
    state: State,
    ports: &[Name],
) -> Result<HttpReply, AllocError>
    ensures { IfOk result (λ reply. reply
        ≡ json_reply 200 (connection_data port.now state ports.now)) }
{
    let value = connection_value(alloc, port, state, ports)?;
    json_reply(alloc, OK, value)
}

// The selected file, nulls without one.
fn selected_value(alloc: Global, file: &Option<ShownFile>) -> Result<Value, AllocError>
    ensures { IfOk result (λ value. view value ≡ selected_data file.now) }
{
    match file {
        Some(file) => object_of(
            alloc,
            &[
                ("name", Primitive::Text(file.name.as_str())),
                ("origin", Primitive::Text("local")),
                ("size", Primitive::Count(file.size)),
            ],
        ),
        None => object_of(
            alloc,
            &[
                ("name", Primitive::Null),
                ("origin", Primitive::Null),
                ("size", Primitive::Null),
            ],
        ),
    }
}

// What a job prints.
fn printed_value(alloc: Global, file: &Option<ShownFile>) -> Result<Value, AllocError>
    ensures { IfOk result (λ value. view value ≡ printed_data file.now) }
{
    let file = selected_value(alloc, file)?;
    object_with(alloc, &[], "file", file)
}

// The progress of an active print, nulls without one.
fn progress_value(alloc: Global, progress: Option<Progress>) -> Result<Value, AllocError>
    ensures { IfOk result (λ value. view value ≡ progress_data progress) }
{
    match progress {
        Some(progress) => object_of(
            alloc,
            &[
                ("completion", Primitive::Count(progress.completion.into())),
                ("filepos", Primitive::Count(progress.place.into())),
            ],
        ),
        None => object_of(
            alloc,
            &[
                ("completion", Primitive::Null),
                ("filepos", Primitive::Null),
            ],
        ),
    }
}

// How far a job is: its progress and the state.
fn course_members(
    alloc: Global,
    progress: Option<Progress>,
    state: State,
) -> Result<Members, AllocError>
    ensures { IfOk result (λ members. members_view members.entries
        ≡ course_members progress state) }
{
    let members = members_of(alloc, &[("state", Primitive::Text(state_text(state)))])?;
    let progress = progress_value(alloc, progress)?;
    with_member(alloc, members, "progress", progress)
}

fn job_value(
    alloc: Global,
    file: &Option<ShownFile>,
    progress: Option<Progress>,
    state: State,
) -> Result<Value, AllocError>
    ensures { IfOk result (λ value. view value ≡ job_data file.now progress state) }
{
    let job = printed_value(alloc, file)?;
    let members = course_members(alloc, progress, state)?;
    Ok(Value::Object(with_member(alloc, members, "job", job)?))
}

// The job. Source: OctoPrint's REST API, job operations.
#[tactic(auto, using(crate::proofs::Whole::job_whole))]
pub(crate) fn job_reply(
    alloc: Global,
    file: &Option<ShownFile>,
    progress: Option<Progress>,
    state: State,
) -> Result<HttpReply, AllocError>
    ensures { IfOk result (λ reply. reply ≡ json_reply 200 (job_data file.now progress state)) }
{
    let value = job_value(alloc, file, progress, state)?;
    json_reply(alloc, OK, value)
}
