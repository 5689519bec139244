//! Messages that end at each of their places.
use super::{PATIENCE, conn_of, has_written, read};
use octo_http::{MessageFault, read_message};
use std::alloc::{AllocError, Global};
use std::process::Abort;
use std::test::Fail;

/// An upload that waits for `100 Continue` before it sends its body of 142 bytes.
pub const UPLOAD: &[u8] =
    b"POST /api/files/local?x=1 HTTP/1.1\r\nX-Api-Key: k\r\nExpect: 100-Continue\r\n\
Content-Type: multipart/form-data; boundary=XY\r\nContent-Length: 142\r\n\r\n\
--XY\r\nContent-Disposition: form-data; name=\"file\"; filename=\"a.gcode\"\r\n\
Content-Type: application/octet-stream\r\n\r\nG28 ; --XY\r\nG1 X10\n\r\n--XY--\r\n";

// How many bytes of it come before the end of its target.
const UPLOAD_TARGET: usize = 25;

// How many bytes its head has.
const UPLOAD_HEAD: usize = 143;

// A file in chunks, with an extension and a trailer.
const CHUNKS: &[u8] = b"PUT / HTTP/1.1\r\nTransfer-Encoding: chunked\r\n\r\n\
4;x=y\r\nG28\n\r\n7\r\nG1 X10\n\r\n0\r\nX: a\r\n\r\n";

// How many bytes of it come before the end of its target.
const CHUNKS_TARGET: usize = 5;

/// What is written before the body is read.
pub const LEAVE: &[u8] = b"HTTP/1.1 100 Continue\r\n\r\n";

// An input that ends before its last byte is a message that ended; within its target it may be none.
fn ends(rt: &impl Abort, alloc: Global, input: &[u8], target: usize) -> Result<(), Fail> {
    for end in 0..input.len() {
        let fault = read(alloc, &input[..end])?.err();
        let is_none = end <= target && fault == Some(MessageFault::BadHead);
        assert!(rt;
            is_none || fault == Some(MessageFault::Ended),
            "cut at {end}: {fault:?}"
        );
    }
    Ok(())
}

#[test]
fn upload(rt: HostRuntime) -> Result<(), Fail> {
    ends(&rt, rt.alloc(), UPLOAD, UPLOAD_TARGET)
}

#[test]
fn chunks(rt: HostRuntime) -> Result<(), Fail> {
    ends(&rt, rt.alloc(), CHUNKS, CHUNKS_TARGET)
}

// Whether a reader of these bytes writes that.
fn writes(alloc: Global, input: &[u8], text: &[u8]) -> Result<bool, AllocError> {
    let mut conn = conn_of(alloc, input)?;
    let _ = read_message(alloc, &mut conn, PATIENCE);
    Ok(has_written(&conn, text))
}

// `100 Continue` is written as soon as the head has come, and not before.
#[test]
fn leave(rt: HostRuntime) -> Result<(), Fail> {
    let alloc = rt.alloc();
    assert!(rt; writes(alloc, &UPLOAD[..UPLOAD_HEAD - 1], b"")?);
    assert!(rt; writes(alloc, &UPLOAD[..UPLOAD_HEAD], LEAVE)?);
    assert!(rt; writes(alloc, UPLOAD, LEAVE)?);
    Ok(())
}

#[test]
fn version(rt: HostRuntime) -> Result<(), Fail> {
    let fault = read(rt.alloc(), b"GET /api/job HT")?.err();
    assert!(rt; fault == Some(MessageFault::Ended));
    assert!(rt; writes(rt.alloc(), b"GET /api/job HT", b"")?);
    Ok(())
}
