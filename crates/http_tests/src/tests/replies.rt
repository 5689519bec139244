//! A message whose sender waits for `100 Continue`, and a reply.
use super::cuts::UPLOAD;
use super::{PATIENCE, conn_of, has_value, has_written, read};
use byte_text::append;
use octo_http::{FieldLines, HttpReply, ReplyKind, read_message, write_head, write_reply};
use octo_outside::{Blob, MemoryConn};
use std::alloc::{AllocError, Global};
use std::test::Fail;

#[test]
fn message(rt: HostRuntime) -> Result<(), Fail> {
    let message = read(rt.alloc(), UPLOAD)??;
    assert!(rt; message.method.as_str() == "POST");
    assert!(rt; message.path.as_slice() == b"/api/files/local".as_slice());
    assert!(rt; message.sized && !message.encoded);
    assert!(rt; has_value(&message.key, b"k"));
    assert!(rt; has_value(&message.kind, b"multipart/form-data; boundary=XY"));
    Ok(())
}

// How many bytes the body of the next message has.
fn body_length(alloc: Global, conn: &mut MemoryConn) -> Result<usize, Fail> {
    Ok(read_message(alloc, conn, PATIENCE)?.body.len())
}

// The reply that the printer is printing.
fn is_printing(alloc: Global) -> Result<HttpReply, AllocError> {
    let body = Blob::from_slice(alloc, b"{\"error\":\"WrongState\",\"state\":\"Printing\"}")?;
    Ok(HttpReply {
        status: 409,
        kind: ReplyKind::Json,
        fields: FieldLines::new(),
        body,
    })
}

// A reply with two further fields.
#[test]
fn further_fields(rt: HostRuntime) -> Result<(), Fail> {
    let alloc = rt.alloc();
    let mut conn = conn_of(alloc, b"")?;
    let mut reply = is_printing(alloc)?;
    reply.fields = FieldLines::new();
    append(&mut reply.fields, b"Allow: GET\r\nX: y\r\n");
    assert_eq!(rt; write_reply(&mut conn, &reply, &FieldLines::new()), Ok(()));
    let written = b"HTTP/1.1 409 Conflict\r\nConnection: close\r\nContent-Length: 41\r\n\
Content-Type: application/json\r\nAllow: GET\r\nX: y\r\n\r\n{\"error\":\"WrongState\",\"state\":\"Printing\"}";
    assert!(rt; has_written(&conn, written));
    Ok(())
}

// Fields that are sent before the reply's own.
#[test]
fn fields_before_others(rt: HostRuntime) -> Result<(), Fail> {
    let alloc = rt.alloc();
    let mut conn = conn_of(alloc, b"")?;
    let mut reply = is_printing(alloc)?;
    reply.fields = FieldLines::new();
    append(&mut reply.fields, b"Allow: GET\r\n");
    let mut more = FieldLines::new();
    append(&mut more, b"Vary: Origin\r\n");
    assert_eq!(rt; write_head(&mut conn, &reply, &more), Ok(()));
    let written = b"HTTP/1.1 409 Conflict\r\nConnection: close\r\nContent-Length: 41\r\n\
Content-Type: application/json\r\nVary: Origin\r\nAllow: GET\r\n\r\n";
    assert!(rt; has_written(&conn, written));
    Ok(())
}

// The same without its body, as `HEAD` gets it.
#[test]
fn head_alone(rt: HostRuntime) -> Result<(), Fail> {
    let alloc = rt.alloc();
    let mut conn = conn_of(alloc, b"")?;
    assert_eq!(rt;
        write_head(&mut conn, &is_printing(alloc)?, &FieldLines::new()),
        Ok(())
    );
    let written = b"HTTP/1.1 409 Conflict\r\nConnection: close\r\nContent-Length: 41\r\n\
Content-Type: application/json\r\n\r\n";
    assert!(rt; has_written(&conn, written));
    Ok(())
}

// `100 Continue` is written before the body is read, and the reply after it.
#[test]
fn leave_and_reply(rt: HostRuntime) -> Result<(), Fail> {
    let alloc = rt.alloc();
    let mut conn = conn_of(alloc, UPLOAD)?;
    assert_eq!(rt; body_length(alloc, &mut conn)?, 142);
    assert_eq!(rt;
        write_reply(&mut conn, &is_printing(alloc)?, &FieldLines::new()),
        Ok(())
    );
    let written =
        b"HTTP/1.1 100 Continue\r\n\r\nHTTP/1.1 409 Conflict\r\nConnection: close\r\nContent-Length: 41\r\n\
Content-Type: application/json\r\n\r\n{\"error\":\"WrongState\",\"state\":\"Printing\"}";
    assert!(rt; has_written(&conn, written));
    Ok(())
}
