//! The reply to each answer.
ghost use Rattle.std.specs.Prelude.{◌≡◌, false, IfOk};
ghost use Rattle.octo_api_replies.specs.Replies.{bytes_reply, reply_of, is_file};

use crate::fixed::settings_reply;
use crate::pages::{caller_reply, connection_reply, job_reply, version_reply};
use crate::printer::printer_reply;
use crate::refusals::refusal_reply;
use crate::uploads::{stored_reply, unprinted_reply, uploaded_reply};
use crate::written::{item_reply, list_reply};
use octo_api_refusals::{CREATED, OK, empty_reply};
use octo_asks::Answer;
use octo_http::{FieldLines, HttpReply, NO_CONTENT, ReplyKind};
use octo_outside::Blob;
use std::alloc::{AllocError, Global};

// A reply with the bytes of a file.
fn bytes_reply(bytes: Blob) -> HttpReply
    ensures { result ≡ bytes_reply bytes }
{
    HttpReply {
        status: OK,
        kind: ReplyKind::Bytes,
        fields: FieldLines::new(),
        body: bytes,
    }
}

// The reply to an answer that shows one thing or nothing.
fn page_reply(alloc: Global, answer: &Answer) -> Result<HttpReply, AllocError>
    requires { is_file answer.now ≡ false }
    ensures { IfOk result (λ reply. reply ≡ reply_of answer.now) }
{
    match answer {
        Answer::Version => version_reply(alloc),
        Answer::Caller { name, groups } => caller_reply(alloc, name, groups.as_slice()),
        Answer::Accepted => Ok(empty_reply(alloc, NO_CONTENT)),
        Answer::Connection { port, state, ports } => {
            connection_reply(alloc, port, *state, ports.as_slice())
        }
        Answer::Printer { state, tool, bed } => printer_reply(alloc, *state, *tool, *bed),
        Answer::Limits { tool, bed } => settings_reply(alloc, *tool, *bed),
        Answer::Job {
            file,
            progress,
            state,
        } => job_reply(alloc, file, *progress, *state),
        Answer::Files { files } => list_reply(alloc, "files", files.as_slice()),
        Answer::File { file } => item_reply(alloc, OK, file),
        Answer::Uploaded {
            name,
            select,
            print,
        } => uploaded_reply(alloc, name, *select, *print),
        Answer::Unprinted {
            name,
            select,
            refusal,
        } => unprinted_reply(alloc, name, *select, *refusal),
        Answer::Stored { name, cause } => stored_reply(alloc, name, *cause),
        Answer::Users { users } => list_reply(alloc, "users", users.as_slice()),
        Answer::User { user } => item_reply(alloc, CREATED, user),
        Answer::Entries { entries } => list_reply(alloc, "entries", entries.as_slice()),
        Answer::OneEntry { entry } => item_reply(alloc, CREATED, entry),
        Answer::TakenEntry { entry } => item_reply(alloc, OK, entry),
        Answer::Prints { prints } => list_reply(alloc, "prints", prints.as_slice()),
        _ => refusal_reply(alloc, answer),
    }
}

/// The reply to an answer. Fails if out of memory. Source: OctoPrint's REST API; RFC 9110, section 15, for the statuses.
pub fn to_bytes(alloc: Global, answer: Answer) -> Result<HttpReply, AllocError>
    ensures { IfOk result (λ reply. reply ≡ reply_of answer) }
{
    match answer {
        Answer::Download { bytes } => Ok(bytes_reply(bytes)),
        other => page_reply(alloc, &other),
    }
}
