//! Prints over a link of whose calls one fails, over one that loses a reply, and over a prompt one.
ghost use Rattle.std.specs.Prelude.{◌≡◌, false};
ghost use Rattle.printer_link.specs.Memory.{link_world};

use super::*;
use octo_outside::calls_of;
use test_makers::LossyLink;

// The call of the link that fails, and how many lines were sent and executed before it.
#[derive(Clone, Copy)]
struct Failing {
    call: u64,
    sends: u64,
    ran: usize,
}

// The calls of a print of two lines: the dial, a `recv`, the hello, two of `recv` (the first one returns its `ok`), the two
// lines, and a `recv` for each `ok`, before which the printer runs the line.
const CALLS: [Failing; 9] = [
    Failing {
        call: 1,
        sends: 0,
        ran: 0,
    },
    Failing {
        call: 2,
        sends: 0,
        ran: 0,
    },
    Failing {
        call: 3,
        sends: 0,
        ran: 0,
    },
    Failing {
        call: 4,
        sends: 1,
        ran: 0,
    },
    Failing {
        call: 5,
        sends: 1,
        ran: 0,
    },
    Failing {
        call: 6,
        sends: 1,
        ran: 0,
    },
    Failing {
        call: 7,
        sends: 2,
        ran: 0,
    },
    Failing {
        call: 8,
        sends: 3,
        ran: 0,
    },
    Failing {
        call: 9,
        sends: 3,
        ran: 1,
    },
];

// The link failed, and is down.
fn check_failed(rt: &impl Abort, printed: &Printed) {
    assert!(rt; printed.end == PrintEnd::LinkFailed && !printed.link.is_up());
}

// Two lines over a link whose call of this number fails.
fn failing_at(number: u64) -> Asked {
    Asked {
        file: "G28\nG1 X10\n",
        wire: Wire {
            fails_at: Some(number),
            ..SOUND
        },
        ..PLAIN
    }
}

fn check_row(rt: &impl Abort, printed: &Printed, row: Failing) {
    check_failed(rt, printed);
    let ran = check_first(rt, &printed.link, &["G28", "G1 X10"]);
    assert_eq!(rt; (printed.link.sends(), ran), (row.sends, row.ran));
}

// Each call of the link fails in turn.
#[test]
fn each_call_failing(rt: HostRuntime) -> Result<(), Fail> {
    for row in CALLS {
        let printed = print_plainly(rt.alloc(), &failing_at(row.call))?;
        check_row(&rt, &printed, row);
    }
    Ok(())
}

// There is no tenth call.
#[test]
fn no_call_failing(rt: HostRuntime) -> Result<(), Fail> {
    let end = PrintEnd::Done;
    comes_to(&rt, rt.alloc(), failing_at(10), end, 3, &["G28", "G1 X10"])
}

// Four lines, the second of which is lost, over a link whose call of this number fails.
fn losing(number: u64) -> Asked {
    Asked {
        file: FOUR_LINES,
        wire: Wire {
            fates: &[W, W, L, W],
            fails_at: Some(number),
            ..SOUND
        },
        ..PLAIN
    }
}

// Whether the print is done; if it isn't, its link failed.
fn is_done(rt: &impl Abort, printed: &Printed) -> bool {
    if printed.end == PrintEnd::Done {
        check_print(rt, printed, PrintEnd::Done, 8, &FOUR);
        return true;
    }
    check_failed(rt, printed);
    check_first(rt, &printed.link, &FOUR);
    false
}

// Each call of the link fails in turn in a print that sends three lines again, until no call is left that could fail.
#[test]
fn each_call_failing_after_a_loss(rt: HostRuntime) -> Result<(), Fail> {
    for number in 1..=100 {
        if is_done(&rt, &print_plainly(rt.alloc(), &losing(number))?) {
            return Ok(());
        }
    }
    Err("never done")?
}

// Three commands in 35 turns, by a clock whose every rest makes a poll for temperatures due.
#[test]
fn enough_turns(rt: HostRuntime) -> Result<(), Fail> {
    let asked = Asked {
        file: "G28\nG1 X10\nG1 X20\n",
        rest: 6_000,
        turns: 35,
        ..PLAIN
    };
    let printed = print_plainly(rt.alloc(), &asked)?;
    assert_eq!(rt; printed.end, PrintEnd::Done);
    Ok(())
}

// A window of one line, and the `ok` of the only command is lost.
fn print_without_an_ok(alloc: Global, link: &mut LossyLink) -> Result<PrintEnd, Fail>
    requires { (link_world link.old).linked ≡ false }
{
    let asked = Asked {
        rest: 1_000,
        ..PLAIN
    };
    let mut session = plain_session(alloc, Scripts::new(alloc), 1)?;
    print_over(alloc, &mut session, link, &asked)
}

// The command is sent again after each of twenty limits. In each limit but the first the printer asks for the line after it.
#[test]
fn lost_ok(rt: HostRuntime) -> Result<(), Fail> {
    let lost = calls_of(rt.alloc(), &[2])?;
    let mut link = LossyLink::new(link_of(rt.alloc(), &SOUND)?, lost);
    let end = print_without_an_ok(rt.alloc(), &mut link)?;
    assert_eq!(rt; end, PrintEnd::Ended(SessionEnd::LostOk { limits: 20 }));
    assert_eq!(rt; link.link().sends(), 22);
    check_first(&rt, link.link(), &["G28"]);
    Ok(())
}
