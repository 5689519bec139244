//! Lengths that contradict themselves or each other, and those that don't.
use super::{reads, refuses};
use octo_http::MessageFault;
use std::test::Fail;

// Two lengths, signs, a prefix, 19 digits and none.
#[test]
fn bad_lengths(rt: HostRuntime) -> Result<(), Fail> {
    let texts = [
        "Content-Length: 3\r\nContent-Length: 4\r\n\r\nabcd",
        "Content-Length: 19\r\nContent-Length: 019\r\n\r\n",
        "Content-Length: 3, 3\r\n\r\nabc",
        "Content-Length: +3\r\n\r\nabc",
        "Content-Length: -3\r\n\r\nabc",
        "Content-Length: 0x3\r\n\r\nabc",
        "Content-Length: 0000000000000000003\r\n\r\nabc",
        "Content-Length: \r\n\r\nabc",
    ];
    refuses(&rt, rt.alloc(), texts.as_slice(), MessageFault::BadHead)
}

// One length twice, 18 digits, and no body.
#[test]
fn good_lengths(rt: HostRuntime) -> Result<(), Fail> {
    let rows = [
        ("Content-Length: 3\r\nContent-Length: 3\r\n\r\nabcd", "abc"),
        ("Content-Length: 000000000000000003\r\n\r\nabcd", "abc"),
        ("Content-Length: 0\r\n\r\nabc", ""),
        ("\r\nabc", ""),
    ];
    reads(&rt, rt.alloc(), rows.as_slice())
}

// The longest body, which isn't all there, and one that is a byte longer.
#[test]
fn most(rt: HostRuntime) -> Result<(), Fail> {
    let texts = ["Content-Length: 68157441\r\n\r\n"];
    refuses(
        &rt,
        rt.alloc(),
        texts.as_slice(),
        MessageFault::BodyTooLarge,
    )?;
    let texts = ["Content-Length: 68157440\r\n\r\nabc"];
    refuses(&rt, rt.alloc(), texts.as_slice(), MessageFault::Ended)
}
