//! Floors whose objects fail, at each call in turn.
use super::bench::{PART, SETTINGS, WORDS, run};
use super::objects::Fault;
use std::alloc::Global;
use std::process::Abort;
use std::sync::Wait;
use std::thread::Threads;

// The command doesn't begin: it ends with status 9 and this text, and nothing was sent over a link.
fn assert_not_begun<R: Threads + Wait + Clone + Send + Sync + Drop + Abort>(
    rt: &R,
    alloc: Global,
    fault: Fault,
    text: &str,
) {
    let bench = run(rt, alloc, WORDS, SETTINGS, PART, fault);
    bench.assert_ended(rt, 9, false, text);
    assert_eq!(rt; bench.links.a.sends(), 0);
    assert_eq!(rt; bench.links.b.sends(), 0);
    bench.end();
}

// The tables can't be loaded, or the files can't be listed.
#[test]
fn nothing_begins(rt: HostRuntime) {
    assert_not_begun(&rt, rt.alloc(), Fault::Keeper(1), "keeper failed\n");
    assert_not_begun(&rt, rt.alloc(), Fault::Shelf(3), "shelf failed\n");
}

// The floor runs, and ends with this status and text.
fn assert_failed<R: Threads + Wait + Clone + Send + Sync + Drop + Abort>(
    rt: &R,
    alloc: Global,
    fault: Fault,
    code: u8,
    text: &str,
) {
    let bench = run(rt, alloc, WORDS, SETTINGS, PART, fault);
    bench.assert_ended(rt, code, true, text);
    bench.end();
}

// The first commit of a floor begins the first copy of job-1 as record 1, the second job-2 as record 2. Then record 1 ends, and the
// second copy of job-1 begins as record 3; record 2 ends, and at last record 3.
#[test]
fn first_commit_fails(rt: HostRuntime) {
    let text = "floor: 0 prints, 0 done, 0 failed, 3 left\nkeeper failed\n";
    assert_failed(&rt, rt.alloc(), Fault::Keeper(2), 9, text);
}

#[test]
fn second_start_fails(rt: HostRuntime) {
    let text = "floor: 1 prints, 1 done, 0 failed, 2 left\nkeeper failed\n";
    assert_failed(&rt, rt.alloc(), Fault::Keeper(3), 9, text);
}

#[test]
fn first_end_fails(rt: HostRuntime) {
    let text = "floor: 2 prints, 2 done, 0 failed, 1 left\nkeeper failed\n";
    assert_failed(&rt, rt.alloc(), Fault::Keeper(4), 9, text);
}

#[test]
fn third_start_fails(rt: HostRuntime) {
    let text = "floor: 2 prints, 2 done, 0 failed, 1 left\nkeeper failed\n";
    assert_failed(&rt, rt.alloc(), Fault::Keeper(5), 9, text);
}

// Each print was started and ended; only the records don't say so.
#[test]
fn later_ends_fail(rt: HostRuntime) {
    let text = "floor: 3 prints, 3 done, 0 failed, 0 left\nkeeper failed\n";
    assert_failed(&rt, rt.alloc(), Fault::Keeper(6), 9, text);
    assert_failed(&rt, rt.alloc(), Fault::Keeper(7), 9, text);
}

// The file of each print is read before it begins.
#[test]
fn first_read_fails(rt: HostRuntime) {
    let text = "floor: 0 prints, 0 done, 0 failed, 3 left\nshelf failed\n";
    assert_failed(&rt, rt.alloc(), Fault::Shelf(4), 9, text);
}

#[test]
fn second_read_fails(rt: HostRuntime) {
    let text = "floor: 1 prints, 1 done, 0 failed, 2 left\nshelf failed\n";
    assert_failed(&rt, rt.alloc(), Fault::Shelf(5), 9, text);
}

#[test]
fn third_read_fails(rt: HostRuntime) {
    let text = "floor: 2 prints, 2 done, 0 failed, 1 left\nshelf failed\n";
    assert_failed(&rt, rt.alloc(), Fault::Shelf(6), 9, text);
}

#[test]
fn output_fails(rt: HostRuntime) {
    assert_failed(&rt, rt.alloc(), Fault::Sink(1), 8, "");
}
