//! A head, and the parts of a chunked body.
use super::has_value;
use octo_http::{Framing, Head, MessageFault, Part, look, look_part};
use std::alloc::Global;
use std::test::Fail;

const UPLOAD: &[u8] =
    b"POST /api/files/local?x=1 HTTP/1.1\r\nAuthorization: bearer k\r\nExpect: 100-Continue\r\n\
Content-Type: text/plain\r\nTransfer-Encoding: Chunked\r\n\r\n5;a=b\r\nhello\r\n0\r\nA: b\r\n\r\n";

// The head is found once its last byte is there.
#[test]
fn whole_head(rt: HostRuntime) -> Result<(), Fail> {
    let alloc = rt.alloc();
    assert!(rt; look(alloc, &UPLOAD[..138])?.is_none());
    let found = look(alloc, UPLOAD)?.ok_or(MessageFault::Ended)?;
    assert_eq!(rt; found.length, 139);
    Ok(())
}

// The upload's head.
fn head(alloc: Global) -> Result<Head, Fail> {
    let found = look(alloc, UPLOAD)?.ok_or(MessageFault::Ended)?;
    Ok(found.head)
}

#[test]
fn fields(rt: HostRuntime) -> Result<(), Fail> {
    let head = head(rt.alloc())?;
    assert!(rt; head.method.as_str() == "POST");
    assert!(rt; head.path.as_slice() == b"/api/files/local".as_slice());
    assert!(rt; has_value(&head.key, b"k") && has_value(&head.kind, b"text/plain"));
    assert!(rt; head.expects && !head.encoded);
    assert_eq!(rt; head.framing, Framing::Chunked);
    Ok(())
}

#[test]
fn parts(rt: HostRuntime) -> Result<(), Fail> {
    let bytes = &UPLOAD[139..];
    assert_eq!(rt; look_part(Part::Line, bytes), Ok(Some((5, 7))));
    assert_eq!(rt; look_part(Part::LineEnd, &bytes[12..14]), Ok(Some((0, 2))));
    assert_eq!(rt; look_part(Part::Line, &bytes[14..]), Ok(Some((0, 3))));
    assert_eq!(rt; look_part(Part::Trailers, &bytes[17..]), Ok(Some((0, 8))));
    assert_eq!(rt; look_part(Part::Trailers, &bytes[17..24]), Ok(None));
    assert_eq!(rt; look_part(Part::Line, b"x"), Err(MessageFault::BadChunk));
    Ok(())
}
