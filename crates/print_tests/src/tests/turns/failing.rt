//! Turns over a link of whose calls one fails, and to a port that isn't listed.
use super::*;

// The call of the link that fails, and the turns up to it.
const FAILING: [(u64, &[Row]); 4] = [
    (1, &[(Ask::Nothing, Gives::Finds(LinkFact::Failed))]),
    (
        2,
        &[
            (Ask::Nothing, Gives::Finds(LinkFact::Opened)),
            (Ask::Nothing, Gives::Finds(LinkFact::Failed)),
        ],
    ),
    (
        3,
        &[
            (Ask::Nothing, Gives::Finds(LinkFact::Opened)),
            (Ask::Nothing, Gives::Finds(LinkFact::Failed)),
        ],
    ),
    (
        4,
        &[
            (Ask::Nothing, Gives::Finds(LinkFact::Opened)),
            (Ask::Nothing, Gives::Nothing),
            (Ask::Nothing, Gives::Finds(LinkFact::Failed)),
        ],
    ),
];

// The same in the turn after the start of a print.
const FAILING_IN_PRINT: [(u64, Row); 2] = [
    (5, (Ask::Nothing, Gives::Breaks(&[]))),
    (6, (Ask::Nothing, Gives::Breaks(&["M107"]))),
];

fn check_failed(rt: &impl Abort, session: &mut Session, link: &mut MemoryLink) {
    assert_eq!(rt; session.desk().state(), State::Fault);
    assert!(rt; !session.up() && !link.is_up());
    do_row(rt, session, link, (Ask::Nothing, Gives::Nothing));
}

// The turns of a session to this port over this link, of which the last one fails.
fn fails_in(
    rt: &impl Abort,
    alloc: Global,
    link: &mut MemoryLink,
    port: &str,
    rows: &[Row],
) -> Result<(), Fail> {
    let mut session = session_to(rt, alloc, port)?;
    do_rows(rt, &mut session, link, rows);
    check_failed(rt, &mut session, link);
    Ok(())
}

#[test]
fn failing_calls(rt: HostRuntime) -> Result<(), Fail> {
    for (call, rows) in FAILING {
        let mut link = link_failing(rt.alloc(), Some(call))?;
        fails_in(&rt, rt.alloc(), &mut link, "p", rows)?;
    }
    Ok(())
}

// The first turn of a print over this link fails.
fn fails_in_print(
    rt: &impl Abort,
    alloc: Global,
    link: &mut MemoryLink,
    row: Row,
) -> Result<(), Fail> {
    let mut session = start_session(rt, alloc, link)?;
    do_row(rt, &mut session, link, row);
    check_failed(rt, &mut session, link);
    Ok(())
}

#[test]
fn failing_calls_in_a_print(rt: HostRuntime) -> Result<(), Fail> {
    for (call, row) in FAILING_IN_PRINT {
        let mut link = link_failing(rt.alloc(), Some(call))?;
        fails_in_print(&rt, rt.alloc(), &mut link, row)?;
    }
    Ok(())
}

// No call of a session takes memory; this one makes the parts that it needs, and dials a port that isn't listed.
#[test]
fn ample(rt: HostRuntime) -> Result<(), Fail> {
    let mut link = link_failing(rt.alloc(), None)?;
    let row = (Ask::Nothing, Gives::Finds(LinkFact::NoPort));
    fails_in(&rt, rt.alloc(), &mut link, "q", &[row])
}
