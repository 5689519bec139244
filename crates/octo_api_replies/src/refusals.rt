//! Refusals as replies.
ghost use Rattle.std.specs.Prelude.{◌≡◌, codes, true, Some, IfOk};
ghost use Rattle.gcode_lines.specs.declared.fault.FileFault.TheVariants as fault;
ghost use Rattle.serde_json.specs.Data.{string, object, no_members, member, put as with_member};
ghost use Rattle.octo_api_replies.specs.Refusals.{bad_line_data, too_hot_data, too_hot_line_data, name_taken_data, full_data};
ghost use Rattle.octo_api_refusals.specs.Refused.{json_reply};
ghost use Rattle.octo_api_replies.specs.Replies.{refusal, bad_file_reply, reply_of, is_named, is_refusal};

use crate::lists::ToJson;
use crate::texts::{KEEPER_FAULT, permission_text, state_text};
use crate::written::{new_text, written_reply};
use gcode_lines::FileFault;
use octo_api_refusals::{
    BAD_REQUEST, CONFLICT, FORBIDDEN, INSUFFICIENT_STORAGE, NOT_FOUND, Primitive,
    SERVICE_UNAVAILABLE, empty_reply, object_reply,
};
use octo_asks::{Answer, ShownEntry};
use octo_http::HttpReply;
use std::alloc::{AllocError, Global};

// A refusal by its name alone.
fn refusal(alloc: Global, status: u16, name: &str) -> Result<HttpReply, AllocError>
    ensures { IfOk result (λ reply. reply ≡ refusal status name.now) }
{
    object_reply(alloc, status, &[("error", Primitive::Text(name))])
}

// A refusal with a text that says more, under its key.
fn noted_refusal(
    alloc: Global,
    status: u16,
    name: &str,
    key: &str,
    text: &str,
) -> Result<HttpReply, AllocError>
    ensures { IfOk result (λ reply. reply ≡ json_reply status (object (
        with_member key.now (string text.now)
        (member (codes "error") (string name.now) no_members)))) }
{
    object_reply(
        alloc,
        status,
        &[
            ("error", Primitive::Text(name)),
            (key, Primitive::Text(text)),
        ],
    )
}

// A line of a file that is refused.
fn bad_line(alloc: Global, fault: &str, line: u32) -> Result<HttpReply, AllocError>
    ensures { IfOk result (λ reply. reply ≡ json_reply 400 (bad_line_data fault.now line)) }
{
    object_reply(
        alloc,
        BAD_REQUEST,
        &[
            ("error", Primitive::Text("BadFile")),
            ("fault", Primitive::Text(fault)),
            ("line", Primitive::Count(line.into())),
        ],
    )
}

// A file of too many bytes.
fn too_large(alloc: Global, bytes: u64) -> Result<HttpReply, AllocError>
    ensures { IfOk result (λ reply. reply ≡ bad_file_reply (fault.TooLarge bytes)) }
{
    object_reply(
        alloc,
        BAD_REQUEST,
        &[
            ("bytes", Primitive::Count(bytes)),
            ("error", Primitive::Text("BadFile")),
            ("fault", Primitive::Text("TooLarge")),
        ],
    )
}

// A file that has no job.
fn bad_file(alloc: Global, fault: FileFault) -> Result<HttpReply, AllocError>
    ensures { IfOk result (λ reply. reply ≡ bad_file_reply fault) }
{
    match fault {
        FileFault::TooLong { line } => bad_line(alloc, "TooLong", line),
        FileFault::ControlByte { line } => bad_line(alloc, "ControlByte", line),
        FileFault::TooLarge { bytes } => too_large(alloc, bytes),
        FileFault::NoMemory => Ok(empty_reply(alloc, INSUFFICIENT_STORAGE)),
    }
}

// A command that is too hot.
fn too_hot(alloc: Global, asked: u64, limit: u16) -> Result<HttpReply, AllocError>
    ensures { IfOk result (λ reply. reply ≡ json_reply 400 (too_hot_data asked limit)) }
{
    object_reply(
        alloc,
        BAD_REQUEST,
        &[
            ("asked", Primitive::Count(asked)),
            ("error", Primitive::Text("TooHot")),
            ("limit", Primitive::Count(limit.into())),
        ],
    )
}

// A file with a command that is too hot.
fn too_hot_line(alloc: Global, line: u32, asked: u64, limit: u16) -> Result<HttpReply, AllocError>
    ensures { IfOk result (λ reply. reply ≡ json_reply 409 (too_hot_line_data line asked limit)) }
{
    object_reply(
        alloc,
        CONFLICT,
        &[
            ("asked", Primitive::Count(asked)),
            ("error", Primitive::Text("TooHotLine")),
            ("limit", Primitive::Count(limit.into())),
            ("line", Primitive::Count(line.into())),
        ],
    )
}

// A name that is held by an entry of the queue.
fn name_of_entry(alloc: Global, entry: &ShownEntry) -> Result<HttpReply, AllocError>
    ensures { IfOk result (λ reply. reply ≡ json_reply 409 (name_taken_data (Some entry.now))) }
{
    let mut text = new_text(alloc)?;
    text.begin_object()?;
    text.key("error")?;
    text.string("NameTaken")?;
    text.key("kept")?;
    entry.write_json(&mut text)?;
    text.end_object()?;
    Ok(written_reply(CONFLICT, text))
}

// A name that is held, with the entry of the queue that holds it.
fn name_taken(alloc: Global, kept: &Option<ShownEntry>) -> Result<HttpReply, AllocError>
    ensures { IfOk result (λ reply. reply ≡ json_reply 409 (name_taken_data kept.now)) }
{
    match kept {
        Some(entry) => name_of_entry(alloc, entry),
        None => refusal(alloc, CONFLICT, "NameTaken"),
    }
}

// A limit that is reached.
fn full(alloc: Global, count: u32) -> Result<HttpReply, AllocError>
    ensures { IfOk result (λ reply. reply ≡ json_reply 409 (full_data count)) }
{
    object_reply(
        alloc,
        CONFLICT,
        &[
            ("count", Primitive::Count(count.into())),
            ("error", Primitive::Text("Full")),
        ],
    )
}

// The reply to a refusal that has no fields.
fn named_refusal(alloc: Global, answer: &Answer) -> Result<HttpReply, AllocError>
    requires { is_named answer.now ≡ true }
    ensures { IfOk result (λ reply. reply ≡ reply_of answer.now) }
{
    match answer {
        Answer::BadPort => refusal(alloc, BAD_REQUEST, "BadPort"),
        Answer::BadCommand => refusal(alloc, BAD_REQUEST, "BadCommand"),
        Answer::NoFile => refusal(alloc, NOT_FOUND, "NoFile"),
        Answer::NoUser => refusal(alloc, NOT_FOUND, "NoUser"),
        Answer::NoEntry => refusal(alloc, NOT_FOUND, "NoEntry"),
        Answer::NoneSelected => refusal(alloc, CONFLICT, "NoneSelected"),
        Answer::FileBusy => refusal(alloc, CONFLICT, "FileBusy"),
        Answer::ArrivalsUsed => refusal(alloc, CONFLICT, "ArrivalsUsed"),
        Answer::KeeperFault => refusal(alloc, SERVICE_UNAVAILABLE, KEEPER_FAULT),
        Answer::ShelfFault => refusal(alloc, SERVICE_UNAVAILABLE, "ShelfFault"),
        Answer::Closed => refusal(alloc, SERVICE_UNAVAILABLE, "Closed"),
        Answer::NoMemory => Ok(empty_reply(alloc, INSUFFICIENT_STORAGE)),
        _ => unreachable!(),
    }
}

pub(crate) fn refusal_reply(alloc: Global, answer: &Answer) -> Result<HttpReply, AllocError>
    requires { is_refusal answer.now ≡ true }
    ensures { IfOk result (λ reply. reply ≡ reply_of answer.now) }
{
    match answer {
        Answer::Denied { permission } => {
            let permission = permission_text(*permission);
            noted_refusal(alloc, FORBIDDEN, "Denied", "permission", permission)
        }
        Answer::BadGroup { group } => {
            noted_refusal(alloc, BAD_REQUEST, "BadGroup", "group", group.as_str())
        }
        Answer::BadFile { fault } => bad_file(alloc, *fault),
        Answer::TooHot { asked, limit } => too_hot(alloc, *asked, *limit),
        Answer::WrongState { state } => {
            noted_refusal(alloc, CONFLICT, "WrongState", "state", state_text(*state))
        }
        Answer::TooHotLine { line, asked, limit } => too_hot_line(alloc, *line, *asked, *limit),
        Answer::NameTaken { kept } => name_taken(alloc, kept),
        Answer::KeyTaken { name } => noted_refusal(
            alloc,
            CONFLICT,
            "KeyTaken",
            "name",
            name.as_str(),
        ),
        Answer::Full { count } => full(alloc, *count),
        _ => named_refusal(alloc, answer),
    }
}
