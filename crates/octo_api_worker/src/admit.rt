//! Whether a message is read further: one that asks for something with a long body, or for a download, only if its key names
//! somebody. So a stranger's message takes little memory, and no file is read for it.
ghost use Rattle.std.specs.Prelude.{◌≡◌, List, [], ℕ, unwrap_or, true, false, IfOk, IfSome, IfNone};
ghost use Rattle.octo_outside.specs.Recorded.{Adds};
ghost use Rattle.octo_http.specs.declared.head.Head.{Head};
ghost use Rattle.octo_api_routes.specs.Wants.{wanted_of};
ghost use Rattle.octo_asks.specs.History.{History};
ghost use Rattle.octo_asks.specs.declared.answer.Answer.TheVariants as answer;
ghost use Rattle.octo_api_worker.specs.Origins.{listed};
ghost use Rattle.octo_api_worker.specs.Served.{needs_key_for, needs_key, whom_ask, IsFirstAsk, refusal_of, Admits, RepliesWith, IsTurnedAway};

use crate::origins::{listed, origin_lines};
use crate::reply::{Replied, WorkerReply, reply_to};
use byte_text::Name;
use http::Method;
use octo_api_routes::{Routes, Shown, Target, Wanted, target_of, wanted_of};
use octo_asks::{Answer, Ask, Asker, Closed, Request};
use octo_http::{Head, is_long};
use octo_outside::{Blob, NameList};
use std::alloc::{AllocError, Global};

// Whether a method asks something of a target that is read further only if the key names somebody.
fn needs_key_for(method: &Method, target: &Target, long: bool) -> bool
    ensures { result ≡ needs_key_for long (wanted_of method.now target.now) }
{
    match wanted_of(method.as_str(), target) {
        None => false,
        Some(
            Wanted::Nothing {
                request: Request::Download { .. },
            },
        ) => true,
        Some(_) => long,
    }
}

// Whether a message is read further only if its key names somebody.
fn needs_key(alloc: Global, routes: &Routes, head: &Head) -> Result<bool, AllocError>
    ensures { IfOk result (λ needs. needs ≡ needs_key head.now) }
{
    match target_of(alloc, routes, head.path.as_slice()) {
        Ok(Some(target)) => Ok(needs_key_for(&head.method, &target, is_long(head.framing))),
        Ok(None) => Ok(false),
        Err(_) => Err(AllocError),
    }
}

// A copy of a key, empty if there is none.
fn key_of(alloc: Global, key: &Option<Blob>) -> Result<Blob, AllocError>
    ensures { IfOk result (λ copy. copy ≡ unwrap_or key.now []) }
{
    match key {
        Some(key) => {
            let copy = Blob::from_slice(alloc, key.as_slice())?;
            Ok(copy)
        }
        None => Ok(Blob::new(alloc)),
    }
}

// The ask whom a key names.
fn whom_ask(alloc: Global, key: &Option<Blob>) -> Result<Ask, AllocError>
    ensures { IfOk result (λ ask. ask ≡ whom_ask key.now) }
{
    let key = key_of(alloc, key)?;
    Ok(Ask {
        key,
        request: Request::Caller,
    })
}

// The ask that comes before a message is read further, `None` if none does.
fn first_ask(alloc: Global, routes: &Routes, head: &Head) -> Result<Option<Ask>, AllocError>
    ensures { IfOk result (IsFirstAsk head.now) }
{
    if !needs_key(alloc, routes, head)? {
        return Ok(None);
    }
    let ask = whom_ask(alloc, &head.key)?;
    Ok(Some(ask))
}

// The answer with which a message is refused, `None` if its key names somebody.
fn refusal_of(answer: Answer) -> Option<Answer>
    ensures { result ≡ refusal_of answer }
{
    match answer {
        Answer::Caller { name: Some(_), .. } => None,
        Answer::Caller { name: None, .. } => Some(Answer::Denied { permission: None }),
        other => Some(other),
    }
}

// The reply with an answer, for pages of this origin.
fn reply_with(alloc: Global, origin: &Option<Name>, answer: Answer) -> WorkerReply
    ensures { (origins : List (List ℕ)) → (head : Head)
        → origin.now ≡ listed origins head.origin → RepliesWith origins head answer result }
{
    WorkerReply::Api {
        reply: reply_to(alloc, Shown::Whole, answer),
        more: origin_lines(origin),
    }
}

// Asks whom a key names. Returns the reply to its caller if that isn't known to be somebody.
fn ask_whom<A: Asker>(
    alloc: Global,
    asker: &mut A,
    origin: &Option<Name>,
    ask: Ask,
) -> Option<Replied>
    ensures known { IfNone result ((head : Head) → needs_key head ≡ true
        → ask ≡ whom_ask head.key
        → (first : History) × Admits head first
        × Adds (A.state asker.old).mine (A.state asker.new).mine first) }
    ensures turned { IfSome result (λ replied. (origins : List (List ℕ)) → (head : Head)
        → origin.now ≡ listed origins head.origin → needs_key head ≡ true → ask ≡ whom_ask head.key
        → (calls : History)
        × IsTurnedAway origins head replied.reply replied.is_open calls
        × Adds (A.state asker.old).mine (A.state asker.new).mine calls) }
    ensures closed { IfSome result
        (λ replied. replied.is_open ≡ false → (A.state asker.new).saw_close ≡ true) }
    ensures seen { (A.state asker.old).saw_close ≡ true → (A.state asker.new).saw_close ≡ true }
    ensures place { (A.state asker.new).place ≡ (A.state asker.old).place }
{
    match asker.ask(ask) {
        Ok(answer) => match refusal_of(answer) {
            Some(refusal) => Some(Replied {
                reply: reply_with(alloc, origin, refusal),
                is_open: true,
            }),
            None => None,
        },
        Err(Closed) => Some(Replied {
            reply: reply_with(alloc, origin, Answer::Closed),
            is_open: false,
        }),
    }
}

// The reply to a message that isn't read further, since its key isn't known to name somebody.
pub(crate) fn turn_away<A: Asker>(
    alloc: Global,
    routes: &Routes,
    origins: &NameList,
    asker: &mut A,
    head: &Head,
) -> Option<Replied>
    ensures known { IfNone result ((first : History) × Admits head.now first
        × Adds (A.state asker.old).mine (A.state asker.new).mine first) }
    ensures turned { IfSome result (λ replied. (calls : History)
        × IsTurnedAway origins.now head.now replied.reply replied.is_open calls
        × Adds (A.state asker.old).mine (A.state asker.new).mine calls) }
    ensures closed { IfSome result
        (λ replied. replied.is_open ≡ false → (A.state asker.new).saw_close ≡ true) }
    ensures seen { (A.state asker.old).saw_close ≡ true → (A.state asker.new).saw_close ≡ true }
    ensures place { (A.state asker.new).place ≡ (A.state asker.old).place }
{
    let origin = listed(origins, &head.origin);
    match first_ask(alloc, routes, head) {
        Ok(None) => None,
        Ok(Some(ask)) => ask_whom(alloc, asker, &origin, ask),
        Err(AllocError) => Some(Replied {
            reply: reply_with(alloc, &origin, Answer::NoMemory),
            is_open: true,
        }),
    }
}
