//! Heads that two readers could take for different messages.
use super::{reads, refuses};
use octo_http::MessageFault;
use std::test::Fail;

// A length beside chunks, and codings other than chunks alone.
#[test]
fn framings(rt: HostRuntime) -> Result<(), Fail> {
    let texts = [
        "Content-Length: 3\r\nTransfer-Encoding: chunked\r\n\r\n0\r\n\r\n",
        "Transfer-Encoding: chunked\r\nContent-Length: 5\r\n\r\n0\r\n\r\n",
        "Transfer-Encoding: gzip, chunked\r\n\r\n0\r\n\r\n",
        "Transfer-Encoding: chunked, identity\r\n\r\n0\r\n\r\n",
        "Transfer-Encoding: identity\r\n\r\n",
        "Transfer-Encoding: chunked\r\nTransfer-Encoding: chunked\r\n\r\n0\r\n\r\n",
    ];
    refuses(&rt, rt.alloc(), texts.as_slice(), MessageFault::BadHead)
}

// Blanks at names, folded lines, and control bytes in values.
#[test]
fn fields(rt: HostRuntime) -> Result<(), Fail> {
    let texts = [
        "Transfer-Encoding : chunked\r\n\r\n0\r\n\r\n",
        "Content-Length : 3\r\n\r\nabc",
        " Content-Length: 3\r\n\r\nabc",
        "X: a\r\n b\r\n\r\n",
        "Content-Length:\r\n 3\r\n\r\nabc",
        "X: a\0b\r\n\r\n",
        "X: a\rContent-Length: 3\r\n\r\nabc",
    ];
    refuses(&rt, rt.alloc(), texts.as_slice(), MessageFault::BadHead)
}

// Line feeds alone end lines of a head.
#[test]
fn line_feeds(rt: HostRuntime) -> Result<(), Fail> {
    let rows = [("X: a\nContent-Length: 3\n\nabc", "abc")];
    reads(&rt, rt.alloc(), rows.as_slice())?;
    let texts = ["X: a\nContent-Length: 3\nTransfer-Encoding: chunked\n\nabc"];
    refuses(&rt, rt.alloc(), texts.as_slice(), MessageFault::BadHead)
}
