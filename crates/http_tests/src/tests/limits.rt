//! Heads, chunk lines and trailers at their limits, and one byte or field over them.
use super::{reads, refuses};
use octo_http::MessageFault;
use std::alloc::{AllocError, Global};
use std::process::Abort;
use std::test::Fail;

// A text, another one repeated, and a third one.
fn repeated(
    alloc: Global,
    head: &str,
    part: &str,
    count: usize,
    tail: &str,
) -> Result<String, AllocError> {
    let parts = part.repeat(alloc, count)?;
    format!(in alloc; "{head}{parts}{tail}")
}

// A `POST` that goes on with a head, a repeated part and a tail is read and has this body; with the part once more it isn't
// read, and that is why.
fn at_most(
    rt: &impl Abort,
    alloc: Global,
    texts: (&str, &str, &str),
    count: usize,
    body: &str,
    fault: MessageFault,
) -> Result<(), Fail> {
    let (head, part, tail) = texts;
    {
        let most = repeated(alloc, head, part, count, tail)?;
        reads(rt, alloc, &[(most.as_str(), body)])?;
    }
    let more = repeated(alloc, head, part, count.saturating_add(1), tail)?;
    refuses(rt, alloc, &[more.as_str()], fault)
}

// A head of 16,384 bytes, the first line's 17 included, and one of 64 fields.
#[test]
fn heads(rt: HostRuntime) -> Result<(), Fail> {
    let bytes = ("X: ", "a", "\r\n\r\n");
    at_most(
        &rt,
        rt.alloc(),
        bytes,
        16_360,
        "",
        MessageFault::HeadTooLarge,
    )?;
    let fields = ("", "X: a\r\n", "\r\n");
    at_most(&rt, rt.alloc(), fields, 64, "", MessageFault::HeadTooLarge)
}

// A head of 16,385 bytes without an end; one of 16,383, whose end may still come, ends with its input.
#[test]
fn heads_without_an_end(rt: HostRuntime) -> Result<(), Fail> {
    let alloc = rt.alloc();
    for (count, fault) in [
        (16_365, MessageFault::HeadTooLarge),
        (16_363, MessageFault::Ended),
    ] {
        let head = repeated(alloc, "X: ", "a", count, "")?;
        refuses(&rt, alloc, &[head.as_str()], fault)?;
    }
    Ok(())
}

// A chunk's line of 1,024 bytes with its line end, and trailers of 16,384 bytes with the empty line.
#[test]
fn chunks(rt: HostRuntime) -> Result<(), Fail> {
    let line = (
        "Transfer-Encoding: chunked\r\n\r\n1;",
        "a",
        "\r\nb\r\n0\r\n\r\n",
    );
    at_most(&rt, rt.alloc(), line, 1_020, "b", MessageFault::BadChunk)?;
    let trailers = (
        "Transfer-Encoding: chunked\r\n\r\n0\r\nX: ",
        "a",
        "\r\n\r\n",
    );
    at_most(
        &rt,
        rt.alloc(),
        trailers,
        16_377,
        "",
        MessageFault::BadChunk,
    )
}
