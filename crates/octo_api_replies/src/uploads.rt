//! Replies to uploads. Source: OctoPrint's REST API, file operations.
ghost use Rattle.std.specs.Prelude.{◌≡◌, IfOk};
ghost use Rattle.serde_json.specs.View.{view};
ghost use Rattle.octo_asks.specs.declared.answer.Answer.TheVariants as answer;
ghost use Rattle.octo_api_refusals.specs.Refused.{json_reply};
ghost use Rattle.octo_api_replies.specs.Pages.{stored_place, uploaded_data, print_refusal_data, unprinted_data, stored_data};
ghost use Rattle.octo_api_replies.specs.Replies.{stored_reply, location_line, reply_of};

use crate::texts::{KEEPER_FAULT, permission_text, state_text};
use byte_text::{Name, append};
use octo_api_refusals::{
    CREATED, INSUFFICIENT_STORAGE, Primitive, SERVICE_UNAVAILABLE, json_reply, members_of,
    object_of, object_reply_with, object_with, with_member,
};
use octo_asks::{PrintRefusal, StoredCause};
use octo_http::{FieldLines, HttpReply};
use serde_json::Value;
use std::alloc::{AllocError, Global};

// Where a file was stored.
fn stored_place(alloc: Global, name: &Name) -> Result<Value, AllocError>
    ensures { IfOk result (λ value. view value ≡ stored_place name.now) }
{
    let name = name.as_str();
    let place = object_of(
        alloc,
        &[
            ("name", Primitive::Text(name)),
            ("origin", Primitive::Text("local")),
            ("path", Primitive::Text(name)),
        ],
    )?;
    object_with(alloc, &[], "local", place)
}

// The field with the path of a file that was stored. Source: RFC 9110, section 10.2.2.
fn location_line(name: &Name) -> FieldLines
    ensures { result.items ≡ location_line name.now }
{
    let mut line = FieldLines::new();
    append(&mut line, b"Location: /api/files/local/");
    append(&mut line, name.as_bytes());
    append(&mut line, b"\r\n");
    line
}

// An upload, without its field.
fn uploaded_page(
    alloc: Global,
    name: &Name,
    select: bool,
    print: bool,
) -> Result<HttpReply, AllocError>
    ensures { IfOk result (λ reply. reply
        ≡ json_reply 201 (uploaded_data name.now select print)) }
{
    let files = stored_place(alloc, name)?;
    object_reply_with(
        alloc,
        CREATED,
        &[
            ("done", Primitive::Flag(true)),
            ("effectivePrint", Primitive::Flag(print)),
            ("effectiveSelect", Primitive::Flag(select)),
        ],
        "files",
        files,
    )
}

// An upload. Source: OctoPrint's REST API, file operations.
pub(crate) fn uploaded_reply(
    alloc: Global,
    name: &Name,
    select: bool,
    print: bool,
) -> Result<HttpReply, AllocError>
    ensures { IfOk result (λ reply. reply ≡ reply_of (answer.Uploaded name.now select print)) }
{
    let mut reply = uploaded_page(alloc, name, select, print)?;
    reply.fields = location_line(name);
    Ok(reply)
}

// What the print of an upload is refused for.
fn print_refusal_value(alloc: Global, refusal: PrintRefusal) -> Result<Value, AllocError>
    ensures { IfOk result (λ value. view value ≡ print_refusal_data refusal) }
{
    match refusal {
        PrintRefusal::Denied { permission } => object_of(
            alloc,
            &[
                ("error", Primitive::Text("Denied")),
                (
                    "permission",
                    Primitive::Text(permission_text(Some(permission))),
                ),
            ],
        ),
        PrintRefusal::WrongState { state } => object_of(
            alloc,
            &[
                ("error", Primitive::Text("WrongState")),
                ("state", Primitive::Text(state_text(state))),
            ],
        ),
        PrintRefusal::TooHotLine { line, asked, limit } => object_of(
            alloc,
            &[
                ("asked", Primitive::Count(asked)),
                ("error", Primitive::Text("TooHotLine")),
                ("limit", Primitive::Count(limit.into())),
                ("line", Primitive::Count(line.into())),
            ],
        ),
        PrintRefusal::Full { count } => object_of(
            alloc,
            &[
                ("count", Primitive::Count(count.into())),
                ("error", Primitive::Text("Full")),
            ],
        ),
    }
}

// An upload whose print, which was asked for, is refused, without its field.
fn unprinted_page(
    alloc: Global,
    name: &Name,
    select: bool,
    refusal: PrintRefusal,
) -> Result<HttpReply, AllocError>
    ensures { IfOk result (λ reply. reply
        ≡ json_reply 201 (unprinted_data name.now select refusal)) }
{
    let members = members_of(
        alloc,
        &[
            ("done", Primitive::Flag(true)),
            ("effectivePrint", Primitive::Flag(false)),
            ("effectiveSelect", Primitive::Flag(select)),
        ],
    )?;
    let members = with_member(alloc, members, "files", stored_place(alloc, name)?)?;
    let refused = print_refusal_value(alloc, refusal)?;
    let members = with_member(alloc, members, "printRefused", refused)?;
    json_reply(alloc, CREATED, Value::Object(members))
}

// An upload whose print, which was asked for, is refused.
pub(crate) fn unprinted_reply(
    alloc: Global,
    name: &Name,
    select: bool,
    refusal: PrintRefusal,
) -> Result<HttpReply, AllocError>
    ensures { IfOk result (λ reply. reply
        ≡ reply_of (answer.Unprinted name.now select refusal)) }
{
    let mut reply = unprinted_page(alloc, name, select, refusal)?;
    reply.fields = location_line(name);
    Ok(reply)
}

// An upload whose print was not started for this cause.
fn not_started(
    alloc: Global,
    status: u16,
    name: &Name,
    cause: &str,
) -> Result<HttpReply, AllocError>
    ensures { IfOk result (λ reply. reply
        ≡ json_reply status (stored_data name.now cause.now)) }
{
    let files = stored_place(alloc, name)?;
    object_reply_with(
        alloc,
        status,
        &[
            ("done", Primitive::Flag(true)),
            ("effectivePrint", Primitive::Flag(false)),
            ("effectiveSelect", Primitive::Flag(true)),
            ("error", Primitive::Text(cause)),
        ],
        "files",
        files,
    )
}

// An upload whose print was not started.
pub(crate) fn stored_reply(
    alloc: Global,
    name: &Name,
    cause: StoredCause,
) -> Result<HttpReply, AllocError>
    ensures { IfOk result (λ reply. reply ≡ stored_reply name.now cause) }
{
    match cause {
        StoredCause::KeeperFault => not_started(alloc, SERVICE_UNAVAILABLE, name, KEEPER_FAULT),
        StoredCause::NoMemory => not_started(alloc, INSUFFICIENT_STORAGE, name, "NoMemory"),
    }
}
