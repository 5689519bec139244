//! What is read of an input, whole and byte by byte, what its pieces are, and what is replied.
mod begun;
mod chunks;
mod cuts;
mod heads;
mod keys;
mod lengths;
mod limits;
mod parts;
mod pieces;
mod replies;
mod slow;

use octo_http::{Message, MessageFault, read_message};
use octo_outside::{Blob, ByteConn, CallList, MemoryConn};
use std::alloc::{AllocError, Global};
use std::process::Abort;
use std::test::Fail;

// How many quiet reads a reader waits for.
const PATIENCE: u32 = 3;

// A connection of this input, none of whose calls fails or finds nothing.
fn conn_of(alloc: Global, input: &[u8]) -> Result<MemoryConn, AllocError> {
    MemoryConn::new(alloc, input, CallList::new(alloc), CallList::new(alloc))
}

// Whether this was written on a connection.
fn has_written(conn: &MemoryConn, text: &[u8]) -> bool {
    match conn.written() {
        Some(written) => written == text,
        None => false,
    }
}

// What is read of an input.
fn read(alloc: Global, input: &[u8]) -> Result<Result<Message, MessageFault>, AllocError> {
    let mut conn = conn_of(alloc, input)?;
    Ok(read_message(alloc, &mut conn, PATIENCE))
}

// What is read of an input that comes byte by byte.
fn read_bytes(alloc: Global, input: &[u8]) -> Result<Result<Message, MessageFault>, AllocError> {
    let mut conn = ByteConn::new(conn_of(alloc, input)?);
    Ok(read_message(alloc, &mut conn, PATIENCE))
}

// A `POST` whose head goes on with this text.
fn post(alloc: Global, text: &str) -> Result<Blob, AllocError> {
    let mut input = Blob::from_slice(alloc, b"POST / HTTP/1.1\r\n")?;
    input.append(text.as_bytes())?;
    Ok(input)
}

// Why a `POST` that goes on with this text isn't read, whole and byte by byte.
fn faults(
    alloc: Global,
    text: &str,
) -> Result<(Option<MessageFault>, Option<MessageFault>), AllocError> {
    let input = post(alloc, text)?;
    let whole = read(alloc, input.as_slice())?.err();
    Ok((whole, read_bytes(alloc, input.as_slice())?.err()))
}

// No `POST` that goes on with one of these texts is read, whole or byte by byte, and that is why.
fn refuses(
    rt: &impl Abort,
    alloc: Global,
    texts: &[&str],
    fault: MessageFault,
) -> Result<(), Fail> {
    for text in texts {
        assert!(rt;
            faults(alloc, text)? == (Some(fault), Some(fault)),
            "{text}"
        );
    }
    Ok(())
}

// Whether a message was read that has this body.
fn has_body(read: Result<Message, MessageFault>, body: &str) -> bool {
    match read {
        Ok(message) => message.body.as_slice() == body.as_bytes(),
        Err(_) => false,
    }
}

// Whether a `POST` that goes on with this text is read, whole and byte by byte, and has this body.
fn has_bodies(alloc: Global, text: &str, body: &str) -> Result<(bool, bool), AllocError> {
    let input = post(alloc, text)?;
    let whole = has_body(read(alloc, input.as_slice())?, body);
    Ok((whole, has_body(read_bytes(alloc, input.as_slice())?, body)))
}

// Each `POST` that goes on with the left text is read, whole and byte by byte, and has the body on its right.
fn reads(rt: &impl Abort, alloc: Global, rows: &[(&str, &str)]) -> Result<(), Fail> {
    for (text, body) in rows {
        assert!(rt; has_bodies(alloc, text, body)? == (true, true), "{text}");
    }
    Ok(())
}

// Whether a field was given, with this value.
fn has_value(field: &Option<Blob>, value: &[u8]) -> bool {
    match field {
        Some(given) => given.as_slice() == value,
        None => false,
    }
}
