//! Prints over links that lose replies.
ghost use Rattle.std.specs.Prelude.{◌≤◌};

use super::super::makers::{check_commands, losing_link, session_of};
use super::*;
use octo_outside::calls_of;
use test_makers::LossyLink;

// A file of six commands.
const SIX_LINES: &str = "G28\nG1 X1\nG1 X2\nG1 X3\nG1 X4\nG1 X5\n";

// Its commands.
const SIX: [&str; 6] = ["G28", "G1 X1", "G1 X2", "G1 X3", "G1 X4", "G1 X5"];

// Its print, by a clock whose every rest takes two seconds.
const SIX_ASKED: Asked = Asked {
    file: SIX_LINES,
    rest: 2_000,
    ..PLAIN
};

// The same, of whose lines the third is lost, and the fifth corrupted.
const HARMED: Asked = Asked {
    wire: Wire {
        fates: &[W, W, W, L, W, G],
        ..SOUND
    },
    ..SIX_ASKED
};

// Prints over a printer whose `ok`s have numbers, in a window of this number of lines, and with this number of milliseconds between
// two polls. These of the replies are lost.
fn print_surely(
    alloc: Global,
    asked: &Asked,
    window: u8,
    poll: u64,
    lost: &[u64],
) -> Result<Printed, Fail>
    requires open_window { 1 ≤ window }
    requires small_window { window ≤ 16 }
    requires some_poll { 1 ≤ poll }
{
    let mut session = session_of(alloc, Scripts::new(alloc), window, poll, true)?;
    let mut link = losing_link(alloc, &asked.wire, lost)?;
    let end = print_over(alloc, &mut session, &mut link, asked)?;
    Ok(Printed { end, link })
}

// Two commands.
const TWO: Asked = Asked {
    file: "G28\nG1 X10\n",
    rest: 1_000,
    ..PLAIN
};

// The lines that a printer runs if the `ok` of the second command is lost: the host probes.
const PROBED: [&str; 3] = ["G28", "G1 X10", "M400"];

// The `ok` of the last line is lost: the probe's `ok` names a line after it, so nothing is sent again.
#[test]
fn last_ok_lost(rt: HostRuntime) -> Result<(), Fail> {
    let printed = print_surely(rt.alloc(), &TWO, 4, 5_000, &[3])?;
    check_print(&rt, &printed, PrintEnd::Done, 4, &PROBED);
    Ok(())
}

// The same with the limit before the next poll: the line is sent again, and the printer asks for the one after it. That acknowledges
// nothing.
#[test]
fn last_ok_lost_for_a_limit(rt: HostRuntime) -> Result<(), Fail> {
    let printed = print_surely(rt.alloc(), &TWO, 4, 40_000, &[3])?;
    check_print(&rt, &printed, PrintEnd::Done, 5, &PROBED);
    Ok(())
}

// The same, of whose lines the first, the hello, is lost.
const UNGREETED: Asked = Asked {
    wire: Wire {
        fates: &[L],
        ..SOUND
    },
    ..TWO
};

// The `ok` of the first hello is lost, and the second hello has one.
#[test]
fn first_ok_lost(rt: HostRuntime) -> Result<(), Fail> {
    let printed = print_surely(rt.alloc(), &TWO, 4, 5_000, &[1])?;
    check_print(&rt, &printed, PrintEnd::Done, 4, &["G28", "G1 X10"]);
    Ok(())
}

// The first hello is lost.
#[test]
fn first_hello_lost(rt: HostRuntime) -> Result<(), Fail> {
    let printed = print_surely(rt.alloc(), &UNGREETED, 4, 5_000, &[])?;
    check_print(&rt, &printed, PrintEnd::Done, 4, &["G28", "G1 X10"]);
    Ok(())
}

// The `ok`s of all five hellos are lost.
#[test]
fn no_hello_acknowledged(rt: HostRuntime) -> Result<(), Fail> {
    let printed = print_surely(rt.alloc(), &TWO, 4, 5_000, &[1, 2, 3, 4, 5])?;
    let end = PrintEnd::Ended(SessionEnd::NoAnswer { silent: 5 });
    check_print(&rt, &printed, end, 5, &[]);
    Ok(())
}

// A print of the six commands is done, and the printer ran each once.
fn check_done(rt: &impl Abort, printed: &Printed) {
    assert_eq!(rt; printed.end, PrintEnd::Done);
    assert_eq!(rt; check_commands(rt, &printed.link, &SIX), SIX.len());
}

// Any two of the first nine replies are lost, or one.
fn lose_pairs(rt: &impl Abort, alloc: Global, window: u8) -> Result<(), Fail>
    requires open_window { 1 ≤ window }
    requires small_window { window ≤ 16 }
{
    for first in 1..10 {
        for second in first..10 {
            let lost = [first, second];
            check_done(rt, &print_surely(alloc, &SIX_ASKED, window, 5_000, &lost)?);
        }
    }
    Ok(())
}

// They are, in windows of one to four lines.
#[test]
fn oks_lost(rt: HostRuntime) -> Result<(), Fail> {
    lose_pairs(&rt, rt.alloc(), 1)?;
    lose_pairs(&rt, rt.alloc(), 2)?;
    lose_pairs(&rt, rt.alloc(), 3)?;
    lose_pairs(&rt, rt.alloc(), 4)
}

// Each reply is lost in turn, also those of a refusal: an error, a Resend and an `ok`.
fn lose_each(rt: &impl Abort, alloc: Global, window: u8) -> Result<(), Fail>
    requires open_window { 1 ≤ window }
    requires small_window { window ≤ 16 }
{
    for lost in 1..31 {
        check_done(rt, &print_surely(alloc, &HARMED, window, 5_000, &[lost])?);
    }
    Ok(())
}

// They are, in windows of one to four lines.
#[test]
fn replies_of_refusals_lost(rt: HostRuntime) -> Result<(), Fail> {
    lose_each(&rt, rt.alloc(), 1)?;
    lose_each(&rt, rt.alloc(), 2)?;
    lose_each(&rt, rt.alloc(), 3)?;
    lose_each(&rt, rt.alloc(), 4)
}

// A print has run the first of the commands, each once, and all of them if it is done. Else it ended for a missing `ok`, because
// nobody answered, or because the printer asked for an acknowledged line.
fn check_honest(rt: &impl Abort, end: PrintEnd, link: &MemoryLink) {
    let ran = check_commands(rt, link, &SIX);
    match end {
        PrintEnd::Done => assert_eq!(rt; ran, SIX.len()),
        PrintEnd::Ended(SessionEnd::LostOk { limits }) => assert_eq!(rt; limits, 20),
        PrintEnd::Ended(SessionEnd::NoAnswer { silent }) => assert_eq!(rt; silent, 5),
        PrintEnd::Ended(SessionEnd::AskedBack { .. }) => {}
        _ => panic!(rt; "another end"),
    }
}

// A print whose sender counts `ok`s, in a window of this number of lines. These of the replies are lost as they are received.
fn print_counting(
    rt: &impl Abort,
    alloc: Global,
    asked: &Asked,
    window: u8,
    lost: &[u64],
) -> Result<(), Fail>
    requires open_window { 1 ≤ window }
    requires small_window { window ≤ 16 }
{
    let mut session = session_of(alloc, Scripts::new(alloc), window, 5_000, false)?;
    let mut link = LossyLink::new(link_of(alloc, &asked.wire)?, calls_of(alloc, lost)?);
    let end = print_over(alloc, &mut session, &mut link, asked)?;
    check_honest(rt, end, link.link());
    Ok(())
}

// The two prints by a clock whose every rest takes ten seconds: a host that counts `ok`s may wait for ten minutes.
const SIX_AWAITED: Asked = Asked {
    rest: 10_000,
    ..SIX_ASKED
};

const HARMED_AWAITED: Asked = Asked {
    rest: 10_000,
    ..HARMED
};

// Without numbers each print comes to an end of which one of the first nine replies is lost, or two.
fn lose_counted(rt: &impl Abort, alloc: Global, window: u8) -> Result<(), Fail>
    requires open_window { 1 ≤ window }
    requires small_window { window ≤ 16 }
{
    for first in 1..10 {
        for second in first..10 {
            print_counting(rt, alloc, &SIX_AWAITED, window, &[first, second])?;
        }
    }
    Ok(())
}

// They do, in windows of one to four lines.
#[test]
fn counted_oks_lost(rt: HostRuntime) -> Result<(), Fail> {
    lose_counted(&rt, rt.alloc(), 1)?;
    lose_counted(&rt, rt.alloc(), 2)?;
    lose_counted(&rt, rt.alloc(), 3)?;
    lose_counted(&rt, rt.alloc(), 4)
}

// The same if the line loses and corrupts lines too, and each reply is lost in turn.
#[test]
fn counted_replies_of_refusals_lost(rt: HostRuntime) -> Result<(), Fail> {
    for lost in 1..31 {
        print_counting(&rt, rt.alloc(), &HARMED_AWAITED, 1, &[lost])?;
        print_counting(&rt, rt.alloc(), &HARMED_AWAITED, 2, &[lost])?;
        print_counting(&rt, rt.alloc(), &HARMED_AWAITED, 3, &[lost])?;
        print_counting(&rt, rt.alloc(), &HARMED_AWAITED, 4, &[lost])?;
    }
    Ok(())
}
