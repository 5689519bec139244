//! A host that connects by itself.
use super::*;
use job_desk::{LinkFact, State};

// At the beginning, at once; nobody's ask comes before. It is no call that counts.
#[test]
fn at_the_beginning(rt: HostRuntime) {
    let mut asks = AskList::new(rt.alloc());
    add(&rt, rt.alloc(), &mut asks, ROOT, Request::GetConnection);
    leave(&rt, rt.alloc(), &mut asks);
    let ran = Ran::connecting(&rt, rt.alloc(), asks, "p", 10);
    assert_eq!(rt; ran.calls(), 1);
    assert!(rt; matches!(ran.entry(0), Some(SeenEntry::Call(4, 100, Seen::Accepted))));
    assert!(rt; matches!(ran.entry(1), Some(SeenEntry::Note(LinkFact::Opened))));
    assert!(rt; ran.own_moments() == [100, 0]);
    assert!(rt; ran.shows(State::Operational));
    ran.end();
}

// While there is no such port: after 10 seconds, then after twice that, at most after 5 minutes. Each error is seen a second later here.
#[test]
fn after_errors(rt: HostRuntime) {
    let mut asks = AskList::new(rt.alloc());
    leave(&rt, rt.alloc(), &mut asks);
    let ran = Ran::connecting(&rt, rt.alloc(), asks, "q", 310);
    let wanted = [
        100, 11_100, 32_100, 73_100, 154_100, 315_100, 616_100, 917_100,
    ];
    assert!(rt; ran.own_moments() == wanted);
    ran.end();
}

// Not once someone has asked to disconnect.
#[test]
fn not_after_a_disconnect(rt: HostRuntime) {
    let mut asks = AskList::new(rt.alloc());
    add(&rt, rt.alloc(), &mut asks, ROOT, Request::Disconnect);
    leave(&rt, rt.alloc(), &mut asks);
    let ran = Ran::connecting(&rt, rt.alloc(), asks, "q", 5);
    assert!(rt; ran.own_moments() == [100, 0]);
    ran.end();
}

// Nor once someone has stopped the printer, which leaves the desk in Error.
#[test]
fn not_after_a_stop(rt: HostRuntime) {
    let mut asks = AskList::new(rt.alloc());
    add(&rt, rt.alloc(), &mut asks, ROOT, stop(&rt, rt.alloc()));
    add(&rt, rt.alloc(), &mut asks, ROOT, Request::GetConnection);
    leave(&rt, rt.alloc(), &mut asks);
    let ran = Ran::connecting(&rt, rt.alloc(), asks, "p", 30);
    assert!(rt; ran.own_moments() == [100, 0]);
    assert!(rt; ran.shows(State::Fault));
    ran.end();
}

// Once someone connects, it looks after errors again, and begins with the shortest wait.
#[test]
fn again_after_a_connect(rt: HostRuntime) {
    let mut asks = AskList::new(rt.alloc());
    add(&rt, rt.alloc(), &mut asks, ROOT, Request::Disconnect);
    let port = None;
    add(&rt, rt.alloc(), &mut asks, ROOT, Request::Connect { port });
    leave(&rt, rt.alloc(), &mut asks);
    let ran = Ran::connecting(&rt, rt.alloc(), asks, "q", 5);
    assert!(rt; ran.own_moments() == [100, 20_100, 0]);
    ran.end();
}

// Without the setting it asks for none.
#[test]
fn not_by_default(rt: HostRuntime) {
    let mut asks = AskList::new(rt.alloc());
    leave(&rt, rt.alloc(), &mut asks);
    let ran = Ran::over(&rt, rt.alloc(), asks, &[]);
    assert!(rt; ran.own_moments() == [0]);
    ran.end();
}
