//! Replies, compared with what an independent model of the interface wrote: those that a host doesn't show to a peer.
//! scripts/process/api/replies.txt has the others.
mod unseen;
mod written;

use byte_text::Name;
use octo_api_replies::to_bytes;
use octo_asks::{Answer, ShownEntry};
use octo_http::ReplyKind;
use octo_outside::Blob;
use std::alloc::{AllocError, Global};
use std::process::Abort;
use std::test::Fail;

// Whether the answer's reply has this status, kind and body.
fn is_reply(
    alloc: Global,
    answer: Answer,
    wanted: (u16, ReplyKind, &[u8]),
) -> Result<bool, AllocError> {
    let reply = to_bytes(alloc, answer)?;
    Ok((reply.status, reply.kind, reply.body.as_slice()) == wanted)
}

// The answer's reply has this status, kind and body.
fn has_reply(
    rt: &impl Abort,
    alloc: Global,
    answer: Answer,
    wanted: (u16, ReplyKind, &[u8]),
) -> Result<(), Fail> {
    assert!(rt; is_reply(alloc, answer, wanted)?);
    Ok(())
}

// The answer's reply is JSON with this status and body.
fn shows(
    rt: &impl Abort,
    alloc: Global,
    answer: Answer,
    status: u16,
    body: &str,
) -> Result<(), Fail> {
    let wanted = (status, ReplyKind::Json, body.as_bytes());
    assert!(rt; is_reply(alloc, answer, wanted)?, "{body}");
    Ok(())
}

// An entry of the queue.
fn entry() -> ShownEntry {
    ShownEntry {
        user: Name::of_short("ana"),
        name: Name::of_short("job-1"),
        file: Name::of_short("a.gcode"),
        priority: 5,
        copies: 1,
        left: 1,
        material: Name::of_short("any"),
    }
}

// The JSON of that entry.
const ENTRY: &str =
    "{\"copies\":1,\"file\":\"a.gcode\",\"left\":1,\"material\":\"any\",\"name\":\"job-1\",\"priority\":5,\"user\":\"ana\"}";

// A reply of each kind.
#[test]
fn ample(rt: HostRuntime) -> Result<(), Fail> {
    let alloc = rt.alloc();
    let taken = Answer::TakenEntry { entry: entry() };
    shows(&rt, alloc, taken, 200, ENTRY)?;
    let bytes = Blob::from_slice(alloc, b"G28\n")?;
    let wanted = (200, ReplyKind::Bytes, b"G28\n".as_slice());
    has_reply(&rt, alloc, Answer::Download { bytes }, wanted)?;
    let wanted = (204, ReplyKind::Empty, b"".as_slice());
    has_reply(&rt, alloc, Answer::Accepted, wanted)?;
    let wanted = (507, ReplyKind::Empty, b"".as_slice());
    has_reply(&rt, alloc, Answer::NoMemory, wanted)
}
