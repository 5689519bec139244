//! Replies to messages that are no request.
ghost use Rattle.std.specs.Prelude.{◌≡◌, option_map, IfOk};
ghost use Rattle.octo_api_refusals.specs.Refused.{empty_reply, body_status, body_error, direct_status, fault_status, reasoned, direct_reply, fault_reply, IsDirectReply, IsFaultReply};

use crate::methods::allow_line;
use crate::objects::Primitive;
use crate::reasons::{body_reason, media_reason, method_reason};
use crate::status::{
    BAD_REQUEST, CONTENT_TOO_LARGE, FORBIDDEN, HEADER_FIELDS_TOO_LARGE, INSUFFICIENT_STORAGE,
    LENGTH_REQUIRED, METHOD_NOT_ALLOWED, NOT_FOUND, REQUEST_TIMEOUT, UNSUPPORTED_MEDIA_TYPE,
};
use crate::written::object_reply;
use octo_api_routes::{BodyFault, Direct, Methods};
use octo_http::{FieldLines, HttpReply, MessageFault, NO_CONTENT, ReplyKind};
use octo_outside::Blob;
use std::alloc::{AllocError, Global};

/// A reply without a body; takes no memory.
pub fn empty_reply(alloc: Global, status: u16) -> HttpReply
    ensures { result ≡ empty_reply status }
{
    HttpReply {
        status,
        kind: ReplyKind::Empty,
        fields: FieldLines::new(),
        body: Blob::new(alloc),
    }
}

// The status of a body that isn't taken.
fn body_status(fault: BodyFault) -> u16
    ensures { result ≡ body_status fault }
{
    match fault {
        BodyFault::Password => FORBIDDEN,
        _ => BAD_REQUEST,
    }
}

// The name of the refusal.
fn body_error(fault: BodyFault) -> &'static str
    ensures { result.now ≡ body_error fault }
{
    match fault {
        BodyFault::Password => "NoPassword",
        _ => "BadBody",
    }
}

// The status of a message that is no request.
fn direct_status(direct: &Direct) -> u16
    ensures { result ≡ direct_status direct.now }
{
    match direct {
        Direct::BadBody { fault } => body_status(*fault),
        Direct::NoRoute => NOT_FOUND,
        Direct::BadMethod { .. } => METHOD_NOT_ALLOWED,
        Direct::Options { .. } => NO_CONTENT,
        Direct::NoLength => LENGTH_REQUIRED,
        Direct::BadMedia { .. } => UNSUPPORTED_MEDIA_TYPE,
        Direct::NoMemory => INSUFFICIENT_STORAGE,
    }
}

// The status of an input that is no message, `None` if the peer has gone.
fn fault_status(fault: &MessageFault) -> Option<u16>
    ensures { result ≡ fault_status fault.now }
{
    match fault {
        MessageFault::BadHead | MessageFault::BadChunk => Some(BAD_REQUEST),
        MessageFault::HeadTooLarge => Some(HEADER_FIELDS_TOO_LARGE),
        MessageFault::BodyTooLarge => Some(CONTENT_TOO_LARGE),
        MessageFault::Slow { .. } => Some(REQUEST_TIMEOUT),
        MessageFault::NoMemory => Some(INSUFFICIENT_STORAGE),
        MessageFault::Ended | MessageFault::ReadFault => None,
    }
}

// A refusal with its reason.
fn reasoned(alloc: Global, status: u16, name: &str, reason: &str) -> Result<HttpReply, AllocError>
    ensures { IfOk result (λ reply. reply ≡ reasoned status name.now reason.now) }
{
    object_reply(
        alloc,
        status,
        &[
            ("error", Primitive::Text(name)),
            ("reason", Primitive::Text(reason)),
        ],
    )
}

// The reply to a method that a path doesn't take: it names those that the path takes.
fn method_reply(alloc: Global, allowed: Methods) -> Result<HttpReply, AllocError>
    ensures { IfOk result (λ reply. reply ≡ direct_reply (Direct.BadMethod allowed)) }
{
    let reason = method_reason(alloc, allowed)?;
    let mut reply = reasoned(alloc, METHOD_NOT_ALLOWED, "BadMethod", reason.as_str())?;
    reply.fields = allow_line(allowed);
    Ok(reply)
}

// The reply to a message that only asks for the methods of a path. Source: RFC 9110, section 9.3.7.
fn options_reply(alloc: Global, allowed: Methods) -> HttpReply
    ensures { result ≡ direct_reply (Direct.Options allowed) }
{
    let mut reply = empty_reply(alloc, NO_CONTENT);
    reply.fields = allow_line(allowed);
    reply
}

// The reply to a message that is no request, with its reason.
fn direct_reply(alloc: Global, direct: &Direct) -> Result<HttpReply, AllocError>
    ensures { IfOk result (λ reply. reply ≡ direct_reply direct.now) }
{
    match direct {
        Direct::BadBody { fault } => {
            let reason = body_reason(alloc, *fault)?;
            reasoned(
                alloc,
                body_status(*fault),
                body_error(*fault),
                reason.as_str(),
            )
        }
        Direct::NoRoute => reasoned(alloc, NOT_FOUND, "NoRoute", "there is no such path"),
        Direct::BadMethod { allowed } => method_reply(alloc, *allowed),
        Direct::Options { allowed } => Ok(options_reply(alloc, *allowed)),
        Direct::NoLength => reasoned(
            alloc,
            LENGTH_REQUIRED,
            "NoLength",
            "the body has neither a Content-Length nor chunks",
        ),
        Direct::BadMedia { fault } => {
            let reason = media_reason(alloc, fault)?;
            reasoned(alloc, UNSUPPORTED_MEDIA_TYPE, "BadMedia", reason.as_str())
        }
        Direct::NoMemory => Ok(out_of_memory(alloc)),
    }
}

// The reply to an input that is no message, with its reason; `None` if the peer has gone.
fn fault_reply(alloc: Global, fault: &MessageFault) -> Result<Option<HttpReply>, AllocError>
    ensures { IfOk result (λ reply. reply ≡ fault_reply fault.now) }
{
    let reply = match fault {
        MessageFault::BadHead => reasoned(
            alloc,
            BAD_REQUEST,
            "BadHead",
            "the head is malformed, or its fields contradict each other",
        )?,
        MessageFault::BadChunk => reasoned(
            alloc,
            BAD_REQUEST,
            "BadChunk",
            "a chunk of the body is malformed or too long",
        )?,
        MessageFault::HeadTooLarge => reasoned(
            alloc,
            HEADER_FIELDS_TOO_LARGE,
            "HeadTooLarge",
            "the head has more than 16384 bytes or more than 64 fields",
        )?,
        MessageFault::BodyTooLarge => reasoned(
            alloc,
            CONTENT_TOO_LARGE,
            "BodyTooLarge",
            "the body has more than 68157440 bytes",
        )?,
        MessageFault::Slow { .. } => reasoned(
            alloc,
            REQUEST_TIMEOUT,
            "Slow",
            "the message did not come in time",
        )?,
        MessageFault::NoMemory => out_of_memory(alloc),
        MessageFault::Ended | MessageFault::ReadFault => return Ok(None),
    };
    Ok(Some(reply))
}

// The reply to an input that is no message, by its status alone; `None` if the peer has gone.
fn bare_fault_reply(alloc: Global, fault: &MessageFault) -> Option<HttpReply>
    ensures { result ≡ option_map empty_reply (fault_status fault.now) }
{
    match fault_status(fault) {
        Some(status) => Some(empty_reply(alloc, status)),
        None => None,
    }
}

/// The reply if memory ran out; takes no memory. Source: RFC 4918, section 11.5.
pub fn out_of_memory(alloc: Global) -> HttpReply
    ensures { result ≡ empty_reply 507 }
{
    empty_reply(alloc, INSUFFICIENT_STORAGE)
}

/// The reply to a message that is no request: JSON with the refusal's name and its reason. If memory runs out, it has the
/// status and no body. Source: RFC 9110, section 15.5, and RFC 4918, section 11.5, for 507.
pub fn direct_bytes(alloc: Global, direct: &Direct) -> HttpReply
    ensures { IsDirectReply direct.now result }
{
    match direct_reply(alloc, direct) {
        Ok(reply) => reply,
        Err(AllocError) => empty_reply(alloc, direct_status(direct)),
    }
}

/// The reply to an input that is no message, `None` if the peer has gone: JSON with the fault's name and its reason. If
/// memory runs out, it has the status and no body. Source: RFC 9110, section 15.5, and RFC 6585, section 5.
pub fn fault_bytes(alloc: Global, fault: &MessageFault) -> Option<HttpReply>
    ensures { IsFaultReply fault.now result }
{
    match fault_reply(alloc, fault) {
        Ok(reply) => reply,
        Err(AllocError) => bare_fault_reply(alloc, fault),
    }
}
