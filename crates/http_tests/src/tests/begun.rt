//! A message whose head is read first, and how many calls of its connection a body and a reply take.
use super::cuts::{LEAVE, UPLOAD};
use super::{PATIENCE, has_value, has_written};
use octo_http::{
    FieldLines, Framing, HttpReply, MessageFault, ReplyKind, is_long, read_begin, read_message,
    read_rest, write_reply,
};
use octo_outside::{Blob, CallList, MemoryConn, calls_of};
use std::alloc::{AllocError, Global};
use std::process::Abort;
use std::test::Fail;

// A connection of this input, of which the call of this number fails.
fn failing_conn(alloc: Global, input: &[u8], number: u64) -> Result<MemoryConn, AllocError> {
    MemoryConn::new(
        alloc,
        input,
        CallList::new(alloc),
        calls_of(alloc, &[number])?,
    )
}

// The head is known before `100 Continue` is written, and the body is read after it.
#[test]
fn head_then_body(rt: HostRuntime) -> Result<(), Fail> {
    let alloc = rt.alloc();
    let mut conn = failing_conn(alloc, UPLOAD, 3)?;
    let begun = read_begin(alloc, &mut conn, PATIENCE)?;
    assert!(rt; has_value(&begun.head.key, b"k") && has_written(&conn, b""));
    let message = read_rest(alloc, &mut conn, begun)?;
    assert!(rt; message.body.len() == 142 && has_written(&conn, LEAVE));
    Ok(())
}

const LONG: [(Framing, bool); 6] = [
    (Framing::NoBody, false),
    (Framing::Length(0), false),
    (Framing::Length(4096), false),
    (Framing::Length(4097), true),
    (Framing::Length(99_999_999_999), true),
    (Framing::Chunked, true),
];

#[test]
fn long_bodies(rt: HostRuntime) -> Result<(), Fail> {
    for (framing, long) in LONG {
        assert_eq!(rt; is_long(framing), long);
    }
    Ok(())
}

// This number of bytes.
fn bytes_of(alloc: Global, count: usize) -> Result<Blob, AllocError> {
    let mut bytes = Blob::new(alloc);
    for _ in 0..count {
        bytes.append(b"a")?;
    }
    Ok(bytes)
}

// A message with a body of 100,000 bytes.
fn long_message(alloc: Global) -> Result<Blob, AllocError> {
    let mut input = Blob::from_slice(alloc, b"POST / HTTP/1.1\r\nContent-Length: 100000\r\n\r\n")?;
    input.append(bytes_of(alloc, 100_000)?.as_slice())?;
    Ok(input)
}

// Whether a long message is read although the call of this number fails.
fn reads_long(alloc: Global, number: u64) -> Result<bool, AllocError> {
    let mut conn = failing_conn(alloc, long_message(alloc)?.as_slice(), number)?;
    Ok(read_message(alloc, &mut conn, PATIENCE).is_ok())
}

// A long body is read by up to 65,536 bytes: three reads are enough here.
#[test]
fn reads_of_a_long_body(rt: HostRuntime) -> Result<(), Fail> {
    let alloc = rt.alloc();
    assert!(rt; !reads_long(alloc, 3)?);
    assert!(rt; reads_long(alloc, 4)?);
    Ok(())
}

// Whether a reply with a body of this length is written by one call.
fn is_one_call(alloc: Global, count: usize) -> Result<bool, AllocError> {
    let mut conn = failing_conn(alloc, b"", 2)?;
    let reply = HttpReply {
        status: 200,
        kind: ReplyKind::Bytes,
        fields: FieldLines::new(),
        body: bytes_of(alloc, count)?,
    };
    Ok(write_reply(&mut conn, &reply, &FieldLines::new()).is_ok())
}

// A reply with a body of up to 4,096 bytes is written by one call.
fn writes_at_once(rt: &impl Abort, alloc: Global) -> Result<(), Fail> {
    assert!(rt; is_one_call(alloc, 0)?);
    assert!(rt; is_one_call(alloc, 4096)?);
    assert!(rt; !is_one_call(alloc, 4097)?);
    Ok(())
}

#[test]
fn writes_of_a_reply(rt: HostRuntime) -> Result<(), Fail> {
    writes_at_once(&rt, rt.alloc())
}

// An input that ends in the head, and one that ends in the body.
#[test]
fn ends(rt: HostRuntime) -> Result<(), Fail> {
    let alloc = rt.alloc();
    let mut conn = failing_conn(alloc, &UPLOAD[..100], 9)?;
    assert!(rt; read_begin(alloc, &mut conn, PATIENCE).err() == Some(MessageFault::Ended));
    let mut conn = failing_conn(alloc, &UPLOAD[..200], 9)?;
    let begun = read_begin(alloc, &mut conn, PATIENCE)?;
    assert!(rt; read_rest(alloc, &mut conn, begun).err() == Some(MessageFault::Ended));
    Ok(())
}
