//! Replies with compact JSON.
ghost use Rattle.std.specs.Prelude.{◌≡◌, false, IfOk};
ghost use Rattle.serde_json.specs.Data.{object, no_members, put as with_member};
ghost use Rattle.serde_json.specs.View.{view};
ghost use Rattle.serde_json.specs.Written.{has_float};
ghost use Rattle.octo_api_refusals.specs.Objects.{with_rows, object_of};
ghost use Rattle.octo_api_refusals.specs.Refused.{json_reply};

use crate::objects::{Primitive, object_of, object_with};
use octo_http::{FieldLines, HttpReply, ReplyKind};
use octo_outside::Blob;
use serde_json::Value;
use std::alloc::{AllocError, Global};

/// A reply with compact JSON. Fails if out of memory.
pub fn json_reply(alloc: Global, status: u16, value: Value) -> Result<HttpReply, AllocError>
    requires { has_float (view value) ≡ false }
    ensures { IfOk result (λ reply. reply ≡ json_reply status (view value)) }
{
    let text = value.to_vec(alloc)?;
    Ok(HttpReply {
        status,
        kind: ReplyKind::Json,
        fields: FieldLines::new(),
        body: Blob::from_vec(text),
    })
}

/// A reply with an object of these rows. Fails if out of memory.
#[tactic(auto, using(crate::proofs::Whole::rows_whole))]
pub fn object_reply(
    alloc: Global,
    status: u16,
    rows: &[(&str, Primitive)],
) -> Result<HttpReply, AllocError>
    ensures { IfOk result (λ reply. reply ≡ json_reply status (object_of rows.now)) }
{
    let value = object_of(alloc, rows)?;
    json_reply(alloc, status, value)
}

/// A reply with an object of these rows and one more member, which may be an object or a list. Fails if out of memory.
#[tactic(auto, using(crate::proofs::Whole::put_whole, crate::proofs::Whole::rows_whole))]
pub fn object_reply_with(
    alloc: Global,
    status: u16,
    rows: &[(&str, Primitive)],
    name: &str,
    value: Value,
) -> Result<HttpReply, AllocError>
    requires { has_float (view value) ≡ false }
    ensures { IfOk result (λ reply. reply ≡ json_reply status (object (
        with_member name.now (view value) (with_rows rows.now no_members)))) }
{
    let all = object_with(alloc, rows, name, value)?;
    json_reply(alloc, status, all)
}
