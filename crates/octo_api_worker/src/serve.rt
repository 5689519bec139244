//! One connection: a message, and its reply.
ghost use Rattle.std.specs.Prelude.{◌≡◌, ◌≤◌, ◌++◌, ℕ, List, true, false};
ghost use Rattle.octo_outside.specs.Recorded.{Adds};
ghost use Rattle.octo_http.specs.Reply.{with_fields, reply_head, reply_bytes};
ghost use Rattle.octo_asks.specs.History.{History};
ghost use Rattle.octo_api_worker.specs.Served.{Sends, Admits, IsServed, HasBegun, HasServed, AsksForMessage, AsksOnce, AreFaultBytes, is_head, worker_bytes};

use crate::admit::turn_away;
use crate::page::page_bytes;
use crate::reply::{WorkerReply, reply_to_message};
use crate::terms::Terms;
use http::Method;
use octo_api_refusals::fault_bytes;
use octo_api_routes::Routes;
use octo_asks::Asker;
use octo_http::{
    Begun, FieldLines, HttpReply, MessageFault, read_begin, read_rest, write_head, write_reply,
};
use octo_keeper::Stager;
use octo_outside::{Conn, Failed, send_all};
use std::alloc::Global;

// Writes a reply with more fields, and ignores a failure: the connection counts it, and nobody is left who could be answered.
fn write_reply_or_ignore<C: Conn>(conn: &mut C, reply: &HttpReply, more: &FieldLines)
    ensures written { Sends (C.state conn.old).written (C.state conn.new).written
        (C.state conn.old).faults (C.state conn.new).faults
        (reply_bytes (with_fields more.now.items reply.now)) }
    ensures left { (C.state conn.new).left ≡ (C.state conn.old).left }
    ensures quiets { (C.state conn.new).quiets ≡ (C.state conn.old).quiets }
    ensures counted { (C.state conn.old).faults ≤ (C.state conn.new).faults }
{
    match write_reply(conn, reply, more) {
        Ok(()) | Err(Failed) => {}
    }
}

// Writes a reply with more fields and without its body, and ignores a failure too.
fn write_head_or_ignore<C: Conn>(conn: &mut C, reply: &HttpReply, more: &FieldLines)
    ensures written { Sends (C.state conn.old).written (C.state conn.new).written
        (C.state conn.old).faults (C.state conn.new).faults
        (reply_head (with_fields more.now.items reply.now)) }
    ensures left { (C.state conn.new).left ≡ (C.state conn.old).left }
    ensures quiets { (C.state conn.new).quiets ≡ (C.state conn.old).quiets }
    ensures counted { (C.state conn.old).faults ≤ (C.state conn.new).faults }
{
    match write_head(conn, reply, more) {
        Ok(()) | Err(Failed) => {}
    }
}

// Writes bytes, and ignores a failure too.
fn send_or_ignore<C: Conn>(conn: &mut C, bytes: &[u8])
    ensures written { Sends (C.state conn.old).written (C.state conn.new).written
        (C.state conn.old).faults (C.state conn.new).faults bytes.now }
    ensures left { (C.state conn.new).left ≡ (C.state conn.old).left }
    ensures quiets { (C.state conn.new).quiets ≡ (C.state conn.old).quiets }
    ensures counted { (C.state conn.old).faults ≤ (C.state conn.new).faults }
{
    match send_all(conn, bytes) {
        Ok(()) | Err(Failed) => {}
    }
}

// Whether a method asks for the head of a reply alone. Source: RFC 9110, section 9.3.2.
fn is_head(method: &Method) -> bool
    ensures { result ≡ is_head method.now }
{
    method.as_str() == "HEAD"
}

// Writes the reply of the REST API.
fn write_api_reply<C: Conn>(conn: &mut C, reply: &HttpReply, more: &FieldLines, head_alone: bool)
    ensures written { Sends (C.state conn.old).written (C.state conn.new).written
        (C.state conn.old).faults
        (C.state conn.new).faults (worker_bytes head_alone (WorkerReply.Api reply.now more.now)) }
    ensures left { (C.state conn.new).left ≡ (C.state conn.old).left }
    ensures quiets { (C.state conn.new).quiets ≡ (C.state conn.old).quiets }
    ensures counted { (C.state conn.old).faults ≤ (C.state conn.new).faults }
{
    if head_alone {
        write_head_or_ignore(conn, reply, more);
        return;
    }
    write_reply_or_ignore(conn, reply, more);
}

// Writes the reply to a message, without the body if its head alone is asked for.
fn write_worker_reply<C: Conn>(conn: &mut C, reply: &WorkerReply, head_alone: bool)
    ensures written { Sends (C.state conn.old).written (C.state conn.new).written
        (C.state conn.old).faults (C.state conn.new).faults (worker_bytes head_alone reply.now) }
    ensures left { (C.state conn.new).left ≡ (C.state conn.old).left }
    ensures quiets { (C.state conn.new).quiets ≡ (C.state conn.old).quiets }
    ensures counted { (C.state conn.old).faults ≤ (C.state conn.new).faults }
{
    match reply {
        WorkerReply::Page { page } => send_or_ignore(conn, page_bytes(*page)),
        WorkerReply::Api { reply, more } => write_api_reply(conn, reply, more, head_alone),
    }
}

// Writes the reply to a fault, if the peer is still there.
fn refuse<C: Conn>(alloc: Global, conn: &mut C, fault: &MessageFault)
    ensures written { (bytes : List ℕ) × AreFaultBytes fault.now bytes
        × Sends (C.state conn.old).written (C.state conn.new).written
        (C.state conn.old).faults (C.state conn.new).faults bytes }
    ensures left { (C.state conn.new).left ≡ (C.state conn.old).left }
    ensures quiets { (C.state conn.new).quiets ≡ (C.state conn.old).quiets }
    ensures counted { (C.state conn.old).faults ≤ (C.state conn.new).faults }
{
    match fault_bytes(alloc, fault) {
        Some(reply) => write_reply_or_ignore(conn, &reply, &FieldLines::new()),
        None => {}
    }
}

// Reads the rest of a message, asks what it says and writes the reply. Returns whether the host hasn't ended.
fn serve_rest<C: Conn, A: Asker, P: Stager>(
    alloc: Global,
    routes: &Routes,
    conn: &mut C,
    asker: &mut A,
    stager: &mut P,
    terms: &Terms,
    begun: Begun,
) -> bool
    ensures served { (input : List ℕ) → (first : History)
        → HasBegun terms.now input (C.state conn.old) begun
        → Admits begun.head first
        → (calls : History) × Adds (A.state asker.old).mine (A.state asker.new).mine calls
        × IsServed terms.now input (C.state conn.new) result
        (first ++ calls) }
    ensures once { AsksForMessage (A.state asker.old).mine (A.state asker.new).mine }
    ensures closed { result ≡ false → (A.state asker.new).saw_close ≡ true }
    ensures seen { (A.state asker.old).saw_close ≡ true → (A.state asker.new).saw_close ≡ true }
    ensures place { (A.state asker.new).place ≡ (A.state asker.old).place }
{
    match read_rest(alloc, conn, begun) {
        Ok(message) => {
            let head_alone = is_head(&message.method);
            let replied = reply_to_message(alloc, routes, &terms.origins, asker, stager, message);
            write_worker_reply(conn, &replied.reply, head_alone);
            replied.is_open
        }
        Err(fault) => {
            refuse(alloc, conn, &fault);
            true
        }
    }
}

// Serves a connection whose message has begun: if it needs a key, it is read further only if the caller is known.
fn serve_begun<C: Conn, A: Asker, P: Stager>(
    alloc: Global,
    routes: &Routes,
    conn: &mut C,
    asker: &mut A,
    stager: &mut P,
    terms: &Terms,
    begun: Begun,
) -> bool
    ensures served { (input : List ℕ)
        → HasBegun terms.now input (C.state conn.old) begun
        → (calls : History) × Adds (A.state asker.old).mine (A.state asker.new).mine calls
        × IsServed terms.now input (C.state conn.new) result
        calls }
    ensures once { AsksOnce (A.state asker.old).mine (A.state asker.new).mine }
    ensures closed { result ≡ false → (A.state asker.new).saw_close ≡ true }
    ensures seen { (A.state asker.old).saw_close ≡ true → (A.state asker.new).saw_close ≡ true }
    ensures place { (A.state asker.new).place ≡ (A.state asker.old).place }
{
    match turn_away(alloc, routes, &terms.origins, asker, &begun.head) {
        Some(replied) => {
            let head_alone = is_head(&begun.head.method);
            write_worker_reply(conn, &replied.reply, head_alone);
            replied.is_open
        }
        None => serve_rest(alloc, routes, conn, asker, stager, terms, begun),
    }
}

/// Reads one message of a connection, asks what it says and writes the reply. Returns whether the host hasn't ended. The page for
/// browsers is shown without asking. A message whose body has more than 4,096 bytes or is in chunks, or that asks for a download, is
/// read further only if its key names somebody, which is asked first; else the reply is 403, and the rest of the input is left. The
/// file of an upload is given to the stager before the host is asked.
///
/// It waits through as many quiet reads as the terms say. If memory runs out, the reply to a request is 507, and that to a refused
/// message or a fault has no body. The reply to a HEAD of the REST API has no body either.
pub fn serve_conn<C: Conn, A: Asker, P: Stager>(
    alloc: Global,
    routes: &Routes,
    conn: &mut C,
    asker: &mut A,
    stager: &mut P,
    terms: &Terms,
) -> bool
    ensures served { HasServed terms.now (C.state conn.old)
        (C.state conn.new)
        (A.state asker.old).mine (A.state asker.new).mine result }

    // Whatever the connection records, it leads to at most one call, of a caller's request, after at most one that asks whom
    // the key names.
    ensures once { AsksOnce (A.state asker.old).mine (A.state asker.new).mine }

    // Only a host that has ended is seen to have, and what was seen stays.
    ensures closed { result ≡ false → (A.state asker.new).saw_close ≡ true }
    ensures seen { (A.state asker.old).saw_close ≡ true → (A.state asker.new).saw_close ≡ true }
    ensures place { (A.state asker.new).place ≡ (A.state asker.old).place }
{
    match read_begin(alloc, conn, terms.patience) {
        Ok(begun) => serve_begun(alloc, routes, conn, asker, stager, terms, begun),
        Err(no_head) => {
            refuse(alloc, conn, &no_head);
            true
        }
    }
}
