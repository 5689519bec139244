//! Replies with one thing, or with a list, whose JSON is written as the reply has it: a list of many things takes no memory beside its
//! text.
ghost use Rattle.std.specs.Prelude.{◌≡◌, [], map, IfOk};
ghost use Rattle.serde_json.specs.Data.{Data};
ghost use Rattle.octo_api_refusals.specs.Refused.{json_reply};
ghost use Rattle.octo_api_replies.specs.Pages.{list_data};
ghost use Rattle.octo_api_replies.specs.Tokens.{tokens_of};

use crate::lists::{ToJson, write_list};
use json::Writer;
use octo_api_refusals::OK;
use octo_http::{FieldLines, HttpReply, ReplyKind};
use octo_outside::Blob;
use std::alloc::{AllocError, Global};

// The bytes for which a text has room at first.
const FIRST_ROOM: usize = 128;

// A text that has nothing yet.
pub(crate) fn new_text(alloc: Global) -> Result<Writer, AllocError>
    ensures before { IfOk result (λ text. text.before ≡ []) }
    ensures tokens { IfOk result (λ text. text.tokens ≡ []) }
{
    Ok(Writer::new(Vec::with_capacity(alloc, FIRST_ROOM)?))
}

// A reply with the text of a value.
#[tactic(auto, using(crate::proofs::Tokens::text_of_tokens))]
pub(crate) fn written_reply(status: u16, text: Writer) -> HttpReply
    ensures { (value : Data) → text.before ≡ [] → text.tokens ≡ tokens_of value
        → result ≡ json_reply status value }
{
    HttpReply {
        status,
        kind: ReplyKind::Json,
        fields: FieldLines::new(),
        body: Blob::from_vec(text.into_inner()),
    }
}

// A reply with one thing.
pub(crate) fn item_reply<T: ToJson>(
    alloc: Global,
    status: u16,
    item: &T,
) -> Result<HttpReply, AllocError>
    ensures { IfOk result (λ reply. reply ≡ json_reply status (T.json item.now)) }
{
    let mut text = new_text(alloc)?;
    item.write_json(&mut text)?;
    Ok(written_reply(status, text))
}

// A reply with a list under a name.
pub(crate) fn list_reply<T: ToJson>(
    alloc: Global,
    name: &str,
    items: &[T],
) -> Result<HttpReply, AllocError>
    ensures { IfOk result (λ reply. reply
        ≡ json_reply 200 (list_data name.now (map T.json items.now))) }
{
    let mut text = new_text(alloc)?;
    text.begin_object()?;
    text.key(name)?;
    write_list(&mut text, items)?;
    text.end_object()?;
    Ok(written_reply(OK, text))
}
