//! Runs and how they end.
use super::*;

// One call, and all four workers leave.
#[test]
fn version_and_leaves(rt: HostRuntime) {
    let mut asks = AskList::new(rt.alloc());
    add(&rt, rt.alloc(), &mut asks, ROOT, Request::Version);
    leave(&rt, rt.alloc(), &mut asks);
    let ran = Ran::over(&rt, rt.alloc(), asks, &[]);
    assert_eq!(rt; ran.calls(), 1);
    assert_eq!(rt; ran.entries().len(), 6);
    assert!(rt; matches!(ran.entry(0), Some(SeenEntry::Call(1, 100, Seen::Version))));
    assert!(rt; matches!(ran.entry(4), Some(SeenEntry::Call(3, _, Seen::Accepted))));
    assert!(rt; matches!(ran.entry(5), Some(SeenEntry::Close)));
    ran.end();
}

// An accepted shutdown ends the run at once; one that is denied doesn't.
#[test]
fn shutdown(rt: HostRuntime) {
    let mut asks = AskList::new(rt.alloc());
    add(
        &rt,
        rt.alloc(),
        &mut asks,
        b"a-key-of-nobody",
        Request::Shutdown,
    );
    add(&rt, rt.alloc(), &mut asks, ROOT, Request::Shutdown);
    add(&rt, rt.alloc(), &mut asks, ROOT, Request::Version);
    let ran = Ran::over(&rt, rt.alloc(), asks, &[]);
    assert_eq!(rt; ran.calls(), 2);
    assert_eq!(rt; ran.entries().len(), 3);
    assert!(rt; matches!(ran.entry(0), Some(SeenEntry::Call(_, _, Seen::Denied))));
    assert!(rt; matches!(ran.entry(1), Some(SeenEntry::Call(_, _, Seen::Accepted))));
    assert!(rt; matches!(ran.entry(2), Some(SeenEntry::Close)));
    ran.end();
}
