//! The reply to a message, and the call that it leads to.
ghost use Rattle.std.specs.Prelude.{◌≡◌, ℕ, List, Ok, IfOk, true, false};
ghost use Rattle.octo_outside.specs.Recorded.{Adds};
ghost use Rattle.octo_http.specs.declared.message.Message.{Message};
ghost use Rattle.octo_api_requests.specs.Requests.{MessageReadsAs};
ghost use Rattle.octo_api_requests.specs.Callers.{IsCallers};
ghost use Rattle.octo_asks.specs.History.{History};
ghost use Rattle.octo_api_routes.specs.Shown.{shown_of};
ghost use Rattle.octo_api_worker.specs.Pages.{page_of};
ghost use Rattle.octo_api_worker.specs.Origins.{listed};
ghost use Rattle.octo_api_worker.specs.Served.{IsReply, IsOfApi, IsReplied};

use crate::origins::{direct_lines, listed, origin_lines};
use crate::page::{Page, page_of};
use crate::staging::ask_staged;
use byte_text::Name;
use octo_api_refusals::{direct_bytes, out_of_memory};
use octo_api_replies::shown_bytes;
use octo_api_requests::request_by;
use octo_api_routes::{Routes, Shown, shown_of};
use octo_asks::{Answer, Ask, Asker, Closed};
use octo_http::{FieldLines, HttpReply, Message};
use octo_keeper::Stager;
use octo_outside::NameList;
use std::alloc::{AllocError, Global};

// A reply that is to be written.
#[derive(Drop)]
pub(crate) enum WorkerReply {
    // That of a path of the page.
    Page { page: Page },
    // That of the REST API, and the fields that let pages of the message's origin read it.
    Api { reply: HttpReply, more: FieldLines },
}

#[derive(Drop)]
pub(crate) struct Replied {
    pub reply: WorkerReply,
    // Whether the host hasn't ended.
    pub is_open: bool,
}

// The reply to an answer, of which its path shows this, or 507 if memory ran out.
pub(crate) fn reply_to(alloc: Global, shown: Shown, answer: Answer) -> HttpReply
    ensures { IsReply shown answer result }
{
    match shown_bytes(alloc, shown, answer) {
        Ok(reply) => reply,
        Err(AllocError) => out_of_memory(alloc),
    }
}

// Asks, and returns the reply to the answer, for pages of this origin.
fn reply_to_ask<A: Asker, P: Stager>(
    alloc: Global,
    asker: &mut A,
    stager: &mut P,
    shown: Shown,
    origin: &Option<Name>,
    ask: Ask,
) -> Replied
    ensures replied { (origins : List (List ℕ)) → (message : Message)
        → shown ≡ shown_of message.path → origin.now ≡ listed origins message.origin
        → IsOfApi message → MessageReadsAs message (Ok ask) → IsCallers ask.request
        → (calls : History) × Adds (A.state asker.old).mine (A.state asker.new).mine calls
        × IsReplied origins message result.reply result.is_open calls }
    ensures closed { result.is_open ≡ false → (A.state asker.new).saw_close ≡ true }
    ensures seen { (A.state asker.old).saw_close ≡ true → (A.state asker.new).saw_close ≡ true }
    ensures place { (A.state asker.new).place ≡ (A.state asker.old).place }
{
    match ask_staged(alloc, asker, stager, ask) {
        Ok(answer) => Replied {
            reply: WorkerReply::Api {
                reply: reply_to(alloc, shown, answer),
                more: origin_lines(origin),
            },
            is_open: true,
        },
        Err(Closed) => Replied {
            reply: WorkerReply::Api {
                reply: reply_to(alloc, shown, Answer::Closed),
                more: origin_lines(origin),
            },
            is_open: false,
        },
    }
}

// Asks what a message of the REST API says, if it says a request, and returns the reply. The path shows this of an answer,
// and pages of this origin may read it.
fn reply_to_shown<A: Asker, P: Stager>(
    alloc: Global,
    routes: &Routes,
    asker: &mut A,
    stager: &mut P,
    shown: Shown,
    origin: &Option<Name>,
    message: Message,
) -> Replied
    ensures replied { (origins : List (List ℕ)) → shown ≡ shown_of message.path
        → origin.now ≡ listed origins message.origin → IsOfApi message → (calls : History)
        × Adds (A.state asker.old).mine (A.state asker.new).mine calls
        × IsReplied origins message result.reply result.is_open calls }
    ensures closed { result.is_open ≡ false → (A.state asker.new).saw_close ≡ true }
    ensures seen { (A.state asker.old).saw_close ≡ true → (A.state asker.new).saw_close ≡ true }
    ensures place { (A.state asker.new).place ≡ (A.state asker.old).place }
{
    match request_by(alloc, routes, message) {
        Ok(ask) => reply_to_ask(alloc, asker, stager, shown, origin, ask),
        Err(direct) => Replied {
            reply: WorkerReply::Api {
                reply: direct_bytes(alloc, &direct),
                more: direct_lines(origin, &direct),
            },
            is_open: true,
        },
    }
}

// What the reply to a message shows of an answer.
fn shown_for(alloc: Global, routes: &Routes, message: &Message) -> Result<Shown, AllocError>
    ensures { IfOk result (λ shown. shown ≡ shown_of message.now.path) }
{
    shown_of(alloc, routes, message.path.as_slice())
}

// The same for each message of the REST API.
fn reply_to_request<A: Asker, P: Stager>(
    alloc: Global,
    routes: &Routes,
    origins: &NameList,
    asker: &mut A,
    stager: &mut P,
    message: Message,
) -> Replied
    ensures replied { IsOfApi message → (calls : History)
        × Adds (A.state asker.old).mine (A.state asker.new).mine calls
        × IsReplied origins.now message result.reply result.is_open calls }
    ensures closed { result.is_open ≡ false → (A.state asker.new).saw_close ≡ true }
    ensures seen { (A.state asker.old).saw_close ≡ true → (A.state asker.new).saw_close ≡ true }
    ensures place { (A.state asker.new).place ≡ (A.state asker.old).place }
{
    let origin = listed(origins, &message.origin);
    match shown_for(alloc, routes, &message) {
        Ok(shown) => reply_to_shown(alloc, routes, asker, stager, shown, &origin, message),
        Err(AllocError) => Replied {
            reply: WorkerReply::Api {
                reply: out_of_memory(alloc),
                more: origin_lines(&origin),
            },
            is_open: true,
        },
    }
}

// What of the page a message is for, `None` if it is one of the REST API.
fn page_for(message: &Message) -> Option<Page>
    ensures { result ≡ page_of message.now.method message.now.path }
{
    page_of(message.method.as_str(), message.path.as_slice())
}

// The reply to a message: a path of the page is replied to without asking.
pub(crate) fn reply_to_message<A: Asker, P: Stager>(
    alloc: Global,
    routes: &Routes,
    origins: &NameList,
    asker: &mut A,
    stager: &mut P,
    message: Message,
) -> Replied
    ensures replied { (calls : History)
        × Adds (A.state asker.old).mine (A.state asker.new).mine calls
        × IsReplied origins.now message result.reply result.is_open calls }
    ensures closed { result.is_open ≡ false → (A.state asker.new).saw_close ≡ true }
    ensures seen { (A.state asker.old).saw_close ≡ true → (A.state asker.new).saw_close ≡ true }
    ensures place { (A.state asker.new).place ≡ (A.state asker.old).place }
{
    match page_for(&message) {
        Some(page) => Replied {
            reply: WorkerReply::Page { page },
            is_open: true,
        },
        None => reply_to_request(alloc, routes, origins, asker, stager, message),
    }
}
