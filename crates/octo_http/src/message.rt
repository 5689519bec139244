//! One message of a connection.
ghost use Rattle.std.specs.Prelude.{◌≡◌, ◌<◌, ℕ, List, Some, Ok, Err, OnOk, OnErr, IsErr, IfOk, IfErr, IsErrOf};
ghost use Rattle.octo_outside.specs.Recorded.{Adds, AddsPrefix, Counts};
ghost use Rattle.octo_http.specs.Head.{HeadFault};
ghost use Rattle.octo_http.specs.Stops.{IsFaultOf};
ghost use Rattle.octo_http.specs.Message.{has_body, is_long, continue_line, continue_due, message_of, IsOfHead, Begins, Answers, Writes, IsPatient, HasWaited};

use crate::body::read_body;
use crate::chunks::MOST_BODY;
use crate::intake::Intake;
use crate::read_head::read_head;
use crate::{Framing, Head, MessageFault};
use http::Method;
use octo_outside::{Blob, Conn, Failed, send_all};
use std::alloc::Global;

// How many bytes a body may have that isn't long.
const SHORT: u64 = 4096;

/// A message. Source: RFC 9112.
#[derive(Drop)]
pub struct Message {
    pub method: Method,
    /// The target up to `?`.
    pub path: Blob,
    /// The caller's key: the first X-Api-Key, else the key of an `Authorization: Bearer`, else the `apikey` of the query.
    pub key: Option<Blob>,
    /// The origin of the page that sends the message, as the first Origin names it. Source: RFC 6454, section 7.
    pub origin: Option<Blob>,
    /// The body's type, as Content-Type names it.
    pub kind: Option<Blob>,
    /// Whether a length or chunks were given.
    pub sized: bool,
    /// Whether the body is said to have a coding other than identity.
    pub encoded: bool,
    pub body: Blob,
}

/// A message whose head was read, and what was read after it.
#[derive(Drop)]
pub struct Begun {
    /// What the head says.
    pub head: Head,
    intake: Intake,
}

// Whether there is a body to read.
fn has_body(framing: Framing) -> bool
    ensures { result ≡ has_body framing }
{
    match framing {
        Framing::NoBody => false,
        Framing::Length(length) => length > 0 && length <= MOST_BODY,
        Framing::Chunked => true,
    }
}

/// Whether a body is long: it has more than 4,096 bytes, or is in chunks.
pub fn is_long(framing: Framing) -> bool
    ensures { result ≡ is_long framing }
{
    match framing {
        Framing::NoBody => false,
        Framing::Length(length) => length > SHORT,
        Framing::Chunked => true,
    }
}

// What is written before the body is read: `100 Continue`, if the client waits for it. Source: RFC 9110, section 10.1.1.
fn continue_due(head: &Head) -> &'static [u8]
    ensures { result.now ≡ continue_due head.now }
{
    if head.expects && has_body(head.framing) {
        b"HTTP/1.1 100 Continue\r\n\r\n"
    } else {
        b""
    }
}

// Sends `100 Continue`, if the client waits for it.
fn send_continue<C: Conn>(conn: &mut C, head: &Head) -> Result<(), Failed>
    ensures ok { OnOk result
        (Adds (C.state conn.old).written (C.state conn.new).written (continue_due head.now)) }
    ensures err { OnErr result
        (AddsPrefix (C.state conn.old).written (C.state conn.new).written (continue_due head.now)) }
    ensures left { (C.state conn.new).left ≡ (C.state conn.old).left }
    ensures quiets { (C.state conn.new).quiets ≡ (C.state conn.old).quiets }
    ensures counts { Counts (IsErr result) (C.state conn.old).faults (C.state conn.new).faults }
{
    send_all(conn, continue_due(head))?;
    Ok(())
}

// The message of a head and a body.
fn message_of(head: Head, body: Blob) -> Message
    ensures { result ≡ message_of head body }
{
    let Head {
        method,
        path,
        key,
        origin,
        kind,
        encoded,
        expects: _,
        framing,
    } = head;
    Message {
        method,
        path,
        key,
        origin,
        kind,
        sized: framing != Framing::NoBody,
        encoded,
        body,
    }
}

/// Reads the head of a message. It waits through at most `patience` quiet reads.
///
/// Fails by each [`MessageFault`] but `BodyTooLarge` and `BadChunk`.
pub fn read_begin<C: Conn>(
    alloc: Global,
    conn: &mut C,
    patience: u32,
) -> Result<Begun, MessageFault>
    // What the input begins with, or why it begins with no head.
    ensures begun { IfOk result (λ begun. (input : List ℕ) → (C.state conn.old).left ≡ Some input
        → Begins input (C.state conn.new).left begun) }
    ensures stopped { IfErr result (λ fault. (input : List ℕ) → (C.state conn.old).left ≡ Some input
        → IsFaultOf HeadFault input (C.state conn.new).left fault) }
    ensures written { (C.state conn.new).written ≡ (C.state conn.old).written }

    // Counts.
    ensures patience { IfOk result (λ begun. begun.intake.patience ≡ patience) }
    ensures waited { IfOk result (λ begun. HasWaited (C.state conn.old).quiets begun (C.state conn.new).quiets) }
    ensures patient { IfErr result (λ fault. IsPatient patience (C.state conn.old).quiets
        (C.state conn.new).quiets (Err fault)) }
    ensures counts { Counts (IsErrOf result MessageFault.ReadFault)
        (C.state conn.old).faults (C.state conn.new).faults }
{
    let mut intake = Intake::new(alloc, patience);
    let head = read_head(alloc, &mut intake, conn)?;
    Ok(Begun { head, intake })
}

/// Reads the body of a message that has begun. `100 Continue` is written before, if the client waits for it. What follows the
/// message isn't looked at.
///
/// Fails by each [`MessageFault`] but `BadHead` and `HeadTooLarge`.
pub fn read_rest<C: Conn>(
    alloc: Global,
    conn: &mut C,
    begun: Begun,
) -> Result<Message, MessageFault>
    ensures answer { (input : List ℕ) → Begins input (C.state conn.old).left begun
        → Writes (C.state conn.old).written (C.state conn.new).written
        (Answers input (C.state conn.new).left result) }
    ensures head { IfOk result (λ m. IsOfHead begun.head m) }
    ensures bounded { AddsPrefix (C.state conn.old).written (C.state conn.new).written continue_line }

    // Counts.
    ensures patient { (before : ℕ) → HasWaited before begun (C.state conn.old).quiets
        → IsPatient begun.intake.patience before (C.state conn.new).quiets result }
    ensures counts { Counts (IsErrOf result MessageFault.ReadFault)
        (C.state conn.old).faults (C.state conn.new).faults }
{
    let Begun { head, intake } = begun;
    let mut intake = intake;
    match send_continue(conn, &head) {
        Ok(()) => {}
        Err(Failed) => return Err(MessageFault::ReadFault),
    }
    let body = read_body(alloc, &mut intake, conn, head.framing)?;
    Ok(message_of(head, body))
}

/// Reads one message: its head, and then its body. It waits through at most `patience` quiet reads; what follows the message
/// isn't looked at.
///
/// Fails by each [`MessageFault`]: a head or a chunk that is malformed, a head or a body that is too large, an input that ends or
/// stays quiet, a connection that fails, or no memory.
pub fn read_message<C: Conn>(
    alloc: Global,
    conn: &mut C,
    patience: u32,
) -> Result<Message, MessageFault>
    // What the input says is answered, and `100 Continue` is written before the body is read.
    ensures answer { (input : List ℕ) → (C.state conn.old).left ≡ Some input
        → Writes (C.state conn.old).written (C.state conn.new).written
        (Answers input (C.state conn.new).left result) }
    ensures bounded { AddsPrefix (C.state conn.old).written (C.state conn.new).written continue_line }

    // Counts.
    ensures patient { IsPatient patience (C.state conn.old).quiets (C.state conn.new).quiets result }
    ensures counts { Counts (IsErrOf result MessageFault.ReadFault)
        (C.state conn.old).faults (C.state conn.new).faults }
{
    let begun = read_begin(alloc, conn, patience)?;
    read_rest(alloc, conn, begun)
}
