//! Replies as a client reads them, to the byte.
mod no_request;

use super::*;
use crate::tests::conn_of;
use octo_asks::StoredCause;
use octo_http::{FieldLines, HttpReply, write_reply};

// Whether a reply puts these bytes on a connection.
fn is_written(alloc: Global, reply: &HttpReply, bytes: &str) -> Result<bool, AllocError> {
    let mut conn = conn_of(alloc, b"")?;
    let is_sent = write_reply(&mut conn, reply, &FieldLines::new()).is_ok();
    Ok(is_sent && conn.written() == Some(bytes.as_bytes()))
}

// The bytes that a reply puts on a connection.
fn puts(rt: &impl Abort, alloc: Global, reply: &HttpReply, bytes: &str) -> Result<(), Fail> {
    assert!(rt; is_written(alloc, reply, bytes)?, "{bytes}");
    Ok(())
}

// The bytes that the reply to an answer puts on a connection.
fn replies(rt: &impl Abort, alloc: Global, answer: Answer, bytes: &str) -> Result<(), Fail> {
    let reply = to_bytes(alloc, answer)?;
    puts(rt, alloc, &reply, bytes)
}

// Memory runs out, for an answer and as a print is recorded.
#[test]
fn no_memory(rt: HostRuntime) -> Result<(), Fail> {
    let alloc = rt.alloc();
    replies(
        &rt,
        alloc,
        Answer::NoMemory,
        "HTTP/1.1 507 Insufficient Storage\r\nConnection: close\r\nContent-Length: 0\r\n\r\n",
    )?;
    replies(
        &rt,
        alloc,
        Answer::Stored {
            name: Name::of_short("a.gcode"),
            cause: StoredCause::NoMemory,
        },
        "HTTP/1.1 507 Insufficient Storage\r\nConnection: close\r\nContent-Length: 149\r\n\
Content-Type: application/json\r\n\r\n{\"done\":true,\"effectivePrint\":false,\"effectiveSelect\":true,\"error\":\"NoMemory\",\"files\":{\"local\":{\"name\":\"a.gcode\",\"origin\":\"local\",\"path\":\"a.gcode\"}}}",
    )
}
