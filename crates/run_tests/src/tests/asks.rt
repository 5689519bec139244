//! Lists of asks.
use byte_text::Name;
use octo_asks::{Ask, AskList, BlobList, Request, Upload};
use octo_outside::Blob;
use std::alloc::Global;
use std::process::Abort;
use test_makers::ROOT;

fn push(
    rt: &impl Abort,
    alloc: Global,
    asks: &mut AskList,
    worker: u8,
    key: &[u8],
    request: Request,
) {
    let key = Blob::from_slice(alloc, key).expect(rt, "no memory");
    assert!(rt; asks.push((worker, Ask { key, request })).is_ok());
}

// An ask of worker 1.
pub(super) fn add(
    rt: &impl Abort,
    alloc: Global,
    asks: &mut AskList,
    key: &[u8],
    request: Request,
) {
    push(rt, alloc, asks, 1, key, request);
}

// All four workers leave.
pub(super) fn leave(rt: &impl Abort, alloc: Global, asks: &mut AskList) {
    for worker in 0..4 {
        push(rt, alloc, asks, worker, b"", Request::Leave);
    }
}

// That many asks for the version, each of which is followed by a turn of the link.
pub(super) fn versions(rt: &impl Abort, alloc: Global, asks: &mut AskList, count: u64) {
    for _ in 0..count {
        add(rt, alloc, asks, ROOT, Request::Version);
    }
}

// The line that stops the printer.
pub(super) fn stop(rt: &impl Abort, alloc: Global) -> Request {
    let mut texts = BlobList::new(alloc);
    let text = Blob::from_slice(alloc, b"M112").expect(rt, "no memory");
    assert!(rt; texts.push(text).is_ok());
    Request::Lines { texts }
}

// To store a file, to print it, and perhaps to select it.
pub(super) fn put_file(rt: &impl Abort, alloc: Global, select: bool, bytes: &[u8]) -> Request {
    Request::PutFile {
        name: Name::from_text("a.gcode").expect(rt, "a long name"),
        file: Upload::read(alloc, bytes).expect(rt, "no memory"),
        select,
        print: true,
    }
}
