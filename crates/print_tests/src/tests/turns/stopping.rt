//! The line that stops the printer.
use super::*;
use gcode_lines::one_command;
use printer_link::Fate;

// The first line after the hello is lost, so that no reply comes and the window of one line stays full.
const LOST: [Fate; 2] = [Fate::Whole, Fate::Lost];

const FULL: [Row; 2] = [
    (Ask::Nothing, Gives::Issues(&["M107"])),
    (Ask::Nothing, Gives::Nothing),
];

// The next turn issues the line and no other, and the one after it hangs up.
const STOPPED: [Row; 2] = [
    (Ask::Nothing, Gives::Issues(&["M112"])),
    (Ask::Nothing, Gives::Stopped),
];

fn stop(rt: &impl Abort, session: &mut Session) -> Result<(), Fail> {
    let line = one_command(b"M112")?;
    assert!(rt; session.manual(&[line]).is_ok());
    Ok(())
}

// What waits is dropped with the link, and the print has failed.
fn stops(rt: &impl Abort, session: &mut Session, link: &mut MemoryLink) -> Result<(), Fail> {
    stop(rt, session)?;
    do_rows(rt, session, link, &STOPPED);
    assert_eq!(rt; session.desk().state(), State::Fault);
    assert!(rt; !link.is_up());
    Ok(())
}

// The printer is silent, and the window is full.
#[test]
fn stop_at_a_full_window(rt: HostRuntime) -> Result<(), Fail> {
    let wire = Wire {
        fates: &LOST,
        ..SOUND
    };
    let mut link = link_of(rt.alloc(), &wire)?;
    let mut session = start_session(&rt, rt.alloc(), &mut link)?;
    do_rows(&rt, &mut session, &mut link, &FULL);
    stops(&rt, &mut session, &mut link)?;
    assert_eq!(rt; session.acked(), 0);
    Ok(())
}

// A line that waits for the `ok` of the one before it isn't issued any more.
#[test]
fn stop_before_a_script_line(rt: HostRuntime) -> Result<(), Fail> {
    let mut link = link_failing(rt.alloc(), None)?;
    let mut session = start_session(&rt, rt.alloc(), &mut link)?;
    do_rows(&rt, &mut session, &mut link, &FULL[..1]);
    stops(&rt, &mut session, &mut link)?;
    assert_eq!(rt; check_first(&rt, &link, &["M107"]), 1);
    Ok(())
}

// A link is made, and the hello isn't sent yet.
const LINKED: [Row; 1] = [(Ask::Nothing, Gives::Finds(LinkFact::Opened))];

// The next turn sends the line, the hello before it if that is still to be sent, and the one after it hangs up. No print ends.
const STOPPED_EARLY: [Row; 2] = [
    (Ask::Nothing, Gives::Issues(&["M112"])),
    (Ask::Nothing, Gives::Finds(LinkFact::Closed)),
];

// The `ok` of the hello comes first.
const STOPPED_READY: [Row; 3] = [
    (Ask::Nothing, Gives::Finds(LinkFact::Ready)),
    (Ask::Nothing, Gives::Issues(&["M112"])),
    (Ask::Nothing, Gives::Finds(LinkFact::Closed)),
];

// Stops after these turns of a session, which goes on so.
fn stops_early(
    rt: &impl Abort,
    alloc: Global,
    link: &mut MemoryLink,
    first: &[Row],
    then: &[Row],
) -> Result<(), Fail> {
    let mut session = session_to(rt, alloc, "p")?;
    let line = one_command(b"M112")?;
    assert!(rt; session.manual(&[line]).is_err());
    do_rows(rt, &mut session, link, first);
    stop(rt, &mut session)?;
    do_rows(rt, &mut session, link, then);
    assert_eq!(rt; session.desk().state(), State::Fault);
    assert!(rt; !link.is_up() && session.acked() == 0);
    Ok(())
}

// Before a link is made the line is refused; then it is sent before the hello is acknowledged.
#[test]
fn stop_before_the_hello(rt: HostRuntime) -> Result<(), Fail> {
    let mut link = link_failing(rt.alloc(), None)?;
    stops_early(&rt, rt.alloc(), &mut link, &LINKED, &STOPPED_EARLY)
}

// The hello is lost, so that it is never acknowledged.
#[test]
fn stop_after_a_lost_hello(rt: HostRuntime) -> Result<(), Fail> {
    let wire = Wire {
        fates: &[Fate::Lost],
        ..SOUND
    };
    let mut link = link_of(rt.alloc(), &wire)?;
    stops_early(&rt, rt.alloc(), &mut link, &OPENING[..2], &STOPPED_EARLY)
}

// In the turn in which the hello is acknowledged nothing is issued.
#[test]
fn stop_as_the_hello_is_acknowledged(rt: HostRuntime) -> Result<(), Fail> {
    let mut link = link_failing(rt.alloc(), None)?;
    stops_early(&rt, rt.alloc(), &mut link, &OPENING[..2], &STOPPED_READY)
}
