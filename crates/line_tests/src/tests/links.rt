//! Calls of a link in memory, each with what its printer executed.
use byte_text::{Line, MOST_LINE_BYTES, Name, ReplyLine};
use octo_outside::{NameList, calls_of};
use printer_link::{Fate, FateList, Heard, Link, LinkFault, MemoryLink, Schedule};
use printer_model::ExecutedLine;
use std::alloc::Global;
use std::process::Abort;
use std::test::Fail;

// A call of a link with what it answers.
#[derive(Clone, Copy)]
enum Call {
    Dial(&'static str, Result<(), LinkFault>),
    Send(&'static str, Result<(), LinkFault>),
    Hear(&'static str),
    Quiet,
    HangUp,
}

fn make_call(rt: &impl Abort, link: &mut MemoryLink, call: Call) {
    match call {
        Call::Dial(name, want) => {
            assert!(rt; !link.is_up());
            assert!(rt; link.dial(name) == want);
        }
        Call::Send(text, want) => send(rt, link, text, want),
        Call::Hear(text) => check_recv(rt, link, Heard::Line, text),
        Call::Quiet => check_recv(rt, link, Heard::Nothing, ""),
        Call::HangUp => link.hang_up(),
    }
}

fn make_calls(rt: &impl Abort, link: &mut MemoryLink, calls: &[Call]) {
    for call in calls {
        make_call(rt, link, *call);
    }
}

fn send(rt: &impl Abort, link: &mut MemoryLink, text: &str, want: Result<(), LinkFault>) {
    assert!(rt; link.is_up());
    let line = Line::try_from(text.as_bytes()).expect(rt, "a short line");
    assert!(rt; line.len() <= MOST_LINE_BYTES && link.send(&line) == want);
}

fn check_recv(rt: &impl Abort, link: &mut MemoryLink, want: Heard, text: &str) {
    assert!(rt; link.is_up());
    let mut reply = ReplyLine::new();
    assert!(rt; link.recv(&mut reply) == Ok(want) && reply.as_slice() == text.as_bytes());
}

// The listed ports: `p` alone.
fn ports(alloc: Global) -> Result<NameList, Fail> {
    let name = Name::of("p")?;
    let mut names = NameList::new(alloc);
    names.push(name)?;
    Ok(names)
}

// What a link does at each call.
#[derive(Clone, Copy)]
struct Faults {
    fates: &'static [Fate],
    fail_at: &'static [u64],
    restart_at: &'static [u64],
    // The replies that are lost; if there are any, the acknowledgements are numbered.
    lost: &'static [u64],
}

const NO_FAULTS: Faults = Faults {
    fates: &[],
    fail_at: &[],
    restart_at: &[],
    lost: &[],
};

// A link to one listed port `p` and a printer of 4 buffer slots, whose last number is 4 at first.
fn memory_link(alloc: Global, faults: Faults) -> Result<MemoryLink, Fail> {
    let schedule = Schedule {
        names: ports(alloc)?,
        last: 4,
        slots: 4,
        numbered: !faults.lost.is_empty(),
        fates: FateList::from_items(Vec::from_slice(alloc, faults.fates)?),
        slow: 0,
        fail_at: calls_of(alloc, faults.fail_at)?,
        restart_at: calls_of(alloc, faults.restart_at)?,
        lost: calls_of(alloc, faults.lost)?,
    };
    Ok(MemoryLink::new(alloc, schedule)?)
}

fn check_lines(rt: &impl Abort, lines: &[ExecutedLine], wanted: &[(u32, &str)]) {
    assert_eq!(rt; lines.len(), wanted.len());
    for (line, (number, text)) in lines.iter().zip(wanted) {
        assert_eq!(rt; line.number, Some(*number));
        assert_eq!(rt; line.text.as_slice(), text.as_bytes());
    }
}

fn check_executed(rt: &impl Abort, link: &MemoryLink, session: u32, wanted: &[(u32, &str)]) {
    match link.executed(session) {
        Ok(executed) => check_lines(rt, executed.as_slice(), wanted),
        Err(_) => panic!(rt; "no memory"),
    }
}

// Two commands, and one more over the second link.
const WHOLE: [Call; 13] = [
    Call::Dial("q", Err(LinkFault::NoPort)),
    Call::Dial("p", Ok(())),
    Call::Send("N0 M110 N1*124", Ok(())),
    Call::Hear("ok"),
    Call::Send("N2 G28*17", Ok(())),
    Call::Hear("ok"),
    Call::Send("N3 G1 X10*82", Ok(())),
    Call::Hear("ok"),
    Call::Quiet,
    Call::HangUp,
    Call::Dial("p", Ok(())),
    Call::Send("N4 G28*23", Ok(())),
    Call::Hear("ok"),
];

// The second line is corrupted, the third lost; the tenth call fails. A name that isn't listed beats a failing call.
const LOSSES: [Call; 11] = [
    Call::Dial("p", Ok(())),
    Call::Send("N0 M110 N1*124", Ok(())),
    Call::Hear("ok"),
    Call::Send("N2 G28*17", Ok(())),
    Call::Hear("Error:checksum mismatch, Last Line: 1"),
    Call::Hear("Resend: 2"),
    Call::Hear("ok"),
    Call::Send("N2 G28*17", Ok(())),
    Call::Quiet,
    Call::Send("N2 G28*17", Err(LinkFault::Failed)),
    Call::Dial("q", Err(LinkFault::NoPort)),
];

// The printer restarts at the third call of `recv`, with the second command on its way.
const RESTART: [Call; 10] = [
    Call::Dial("p", Ok(())),
    Call::Send("N0 M110 N1*124", Ok(())),
    Call::Hear("ok"),
    Call::Send("N2 G28*17", Ok(())),
    Call::Hear("ok"),
    Call::Send("N3 G1 X10*82", Ok(())),
    Call::Hear("start"),
    Call::Hear("Error:Line Number is not Last Line Number+1, Last Line: 0"),
    Call::Hear("Resend: 1"),
    Call::Hear("ok"),
];

// Of six replies the second, the fourth and the last are lost: the `ok` of a line, a `Resend`, and an `ok` again.
const LOST_REPLIES: [Call; 11] = [
    Call::Dial("p", Ok(())),
    Call::Send("N0 M110 N1*124", Ok(())),
    Call::Hear("ok N0 P15 B3"),
    Call::Send("N2 G28*17", Ok(())),
    Call::Quiet,
    Call::Send("N3 G1 X10*83", Ok(())),
    Call::Hear("Error:checksum mismatch, Last Line: 2"),
    Call::Hear("ok"),
    Call::Quiet,
    Call::Send("N3 G1 X10*82", Ok(())),
    Call::Quiet,
];

#[test]
fn link_loses_replies(rt: HostRuntime) -> Result<(), Fail> {
    let faults = Faults {
        lost: &[2, 4, 6],
        ..NO_FAULTS
    };
    let mut link = memory_link(rt.alloc(), faults)?;
    make_calls(&rt, &mut link, &LOST_REPLIES);
    check_executed(&rt, &link, 1, &[(2, "G28"), (3, "G1 X10")]);
    assert_eq!(&rt; (link.sends(), link.losses()), (4, 0));
    Ok(())
}

#[test]
fn printer_restarts(rt: HostRuntime) -> Result<(), Fail> {
    let faults = Faults {
        restart_at: &[3],
        ..NO_FAULTS
    };
    let mut link = memory_link(rt.alloc(), faults)?;
    make_calls(&rt, &mut link, &RESTART);
    check_executed(&rt, &link, 1, &[(2, "G28")]);
    Ok(())
}

#[test]
fn link_follows_calls(rt: HostRuntime) -> Result<(), Fail> {
    let mut link = memory_link(rt.alloc(), NO_FAULTS)?;
    make_calls(&rt, &mut link, &WHOLE);
    check_executed(&rt, &link, 0, &[]);
    check_executed(&rt, &link, 1, &[(2, "G28"), (3, "G1 X10")]);
    check_executed(&rt, &link, 2, &[(4, "G28")]);
    assert_eq!(&rt; (link.sends(), link.losses()), (4, 0));
    Ok(())
}

#[test]
fn link_loses_and_fails(rt: HostRuntime) -> Result<(), Fail> {
    let faults = Faults {
        fates: &[Fate::Whole, Fate::Garbled, Fate::Lost],
        fail_at: &[10, 11],
        ..NO_FAULTS
    };
    let mut link = memory_link(rt.alloc(), faults)?;
    make_calls(&rt, &mut link, &LOSSES);
    check_executed(&rt, &link, 1, &[]);
    assert_eq!(&rt; (link.sends(), link.losses()), (3, 2));
    Ok(())
}

// The calls that fail.
const FAILING: [u64; 6] = [1, 4, 6, 7, 20, 33];

// Makes the next call, and says whether it fails: it dials if the link is down, else it sends at each fifth call, and receives at
// the others.
fn fails(rt: &impl Abort, link: &mut MemoryLink, call: u64) -> bool {
    if !link.is_up() {
        return link.dial("p").is_err();
    }
    if call % 5 == 0 {
        let line = Line::try_from(b"N0 M110 N1*124".as_slice()).expect(rt, "a short line");
        assert!(rt; line.len() <= MOST_LINE_BYTES);
        return link.send(&line).is_err();
    }
    link.recv(&mut ReplyLine::new()).is_err()
}

// The listed calls fail, whichever they are: two that dial, three that receive, one that sends. No other does.
#[test]
fn listed_calls_fail(rt: HostRuntime) -> Result<(), Fail> {
    let faults = Faults {
        fail_at: &FAILING,
        ..NO_FAULTS
    };
    let mut link = memory_link(rt.alloc(), faults)?;
    for call in 1..61 {
        let fails = fails(&rt, &mut link, call);
        assert_eq!(&rt; fails, FAILING.contains(&call));
    }
    Ok(())
}

// Each call that allocates; allocation succeeds.
#[test]
fn ample(rt: HostRuntime) -> Result<(), Fail> {
    let faults = Faults {
        fates: &[Fate::Lost],
        fail_at: &[2],
        restart_at: &[1],
        lost: &[1],
    };
    let link = memory_link(rt.alloc(), faults)?;
    check_executed(&rt, &link, 1, &[]);
    Ok(())
}
