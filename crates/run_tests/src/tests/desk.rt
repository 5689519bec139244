//! A desk with its printer.
use job_desk::State;
use marlin_reply::Temps;
use octo_asks::Answer;
use octo_house::HostDesk;
use octo_outside::Blob;
use printer_link::{FateList, MemoryLink};
use std::alloc::Global;
use std::process::Abort;
use test_makers::{link_at, plain_session, ports};

fn desk(rt: &impl Abort, alloc: Global) -> HostDesk {
    HostDesk {
        alloc,
        session: plain_session(alloc, 30_000).expect(rt, "no memory"),
        ports: ports(alloc, "p").expect(rt, "no memory"),
        temps: Temps {
            tool: None,
            bed: None,
        },
    }
}

fn turn(rt: &impl Abort, desk: &mut HostDesk, link: &mut MemoryLink) {
    assert!(rt; link.is_up() == desk.session.up());
    desk.session.turn(link, 7);
}

// Turns until the desk is operational, 50 at most.
fn make_ready(rt: &impl Abort, desk: &mut HostDesk, link: &mut MemoryLink) {
    for _ in 0..50 {
        if desk.session.desk().state() == State::Operational {
            return;
        }
        turn(rt, desk, link);
    }
    panic!(rt; "not operational");
}

// The number of ports that are shown, and the state.
fn connection_of(desk: &HostDesk) -> Option<(usize, State)> {
    match desk.connection() {
        Answer::Connection { state, ports, .. } => Some((ports.as_slice().len(), state)),
        _ => None,
    }
}

fn is_accepted(answer: Answer) -> bool {
    matches!(answer, Answer::Accepted)
}

// A desk that is connected.
fn ready_desk(rt: &impl Abort, alloc: Global) -> HostDesk {
    let mut desk = desk(rt, alloc);
    let mut link = link_at(alloc, "p", FateList::new(alloc)).expect(rt, "no memory");
    assert!(rt; is_accepted(desk.connect(&None)));
    make_ready(rt, &mut desk, &mut link);
    desk
}

// A desk that is connected, without a file.
#[test]
fn ample_desk(rt: HostRuntime) {
    let desk = ready_desk(&rt, rt.alloc());
    assert!(rt; connection_of(&desk) == Some((1, State::Operational)));
    assert!(rt; matches!(desk.job(), Answer::Job { file: None, .. }));
}

// A desk that is connected takes a line and heats.
#[test]
fn ample_commands(rt: HostRuntime) {
    let lines = [Blob::from_slice(rt.alloc(), b"M105").expect(&rt, "no memory")];
    let mut desk = ready_desk(&rt, rt.alloc());
    assert!(rt; is_accepted(desk.lines(&lines)));
    assert!(rt; is_accepted(desk.heat_tool(200)) && is_accepted(desk.heat_bed(60)));
}
