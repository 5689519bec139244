//! Chunks that aren't chunks, and those that are.
use super::{reads, refuses};
use octo_http::MessageFault;
use std::test::Fail;

// Sizes with a sign, a blank or a prefix, without a digit and of 17 digits; lines and chunks that don't end with CR LF.
#[test]
fn bad_chunks(rt: HostRuntime) -> Result<(), Fail> {
    let texts = [
        "Transfer-Encoding: chunked\r\n\r\n+3\r\nabc\r\n0\r\n\r\n",
        "Transfer-Encoding: chunked\r\n\r\n 3\r\nabc\r\n0\r\n\r\n",
        "Transfer-Encoding: chunked\r\n\r\n0x3\r\nabc\r\n0\r\n\r\n",
        "Transfer-Encoding: chunked\r\n\r\n\r\nabc\r\n0\r\n\r\n",
        "Transfer-Encoding: chunked\r\n\r\n00000000000000003\r\nabc\r\n0\r\n\r\n",
        "Transfer-Encoding: chunked\r\n\r\n3\nabc\r\n0\r\n\r\n",
        "Transfer-Encoding: chunked\r\n\r\n3\r\nabcd\r\n0\r\n\r\n",
        "Transfer-Encoding: chunked\r\n\r\n3\r\nabc\n0\r\n\r\n",
    ];
    refuses(&rt, rt.alloc(), texts.as_slice(), MessageFault::BadChunk)
}

#[test]
fn large_chunks(rt: HostRuntime) -> Result<(), Fail> {
    let texts = [
        "Transfer-Encoding: chunked\r\n\r\nFFFFFFFF\r\n",
        "Transfer-Encoding: chunked\r\n\r\n1\r\na\r\n4100000\r\n",
    ];
    refuses(
        &rt,
        rt.alloc(),
        texts.as_slice(),
        MessageFault::BodyTooLarge,
    )
}

// An extension and a trailer; several chunks, and a byte after the message; a size of 16 digits.
#[test]
fn good_chunks(rt: HostRuntime) -> Result<(), Fail> {
    let rows = [
        (
            "Transfer-Encoding: Chunked\r\n\r\n3;x=y\r\nabc\r\n0\r\nX: a\r\n\r\n",
            "abc",
        ),
        (
            "Transfer-Encoding: chunked\r\n\r\n3\r\nabc\r\n0a\r\n0123456789\r\n0\r\n\r\nX",
            "abc0123456789",
        ),
        (
            "Transfer-Encoding: chunked\r\n\r\n0000000000000003\r\nabc\r\n0\r\n\r\n",
            "abc",
        ),
    ];
    reads(&rt, rt.alloc(), rows.as_slice())
}
