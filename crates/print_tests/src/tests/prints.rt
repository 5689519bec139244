//! Whole prints.
ghost use Rattle.std.specs.Prelude.{◌≡◌, false};
ghost use Rattle.octo_session_print.specs.Ends.{IsNew};
ghost use Rattle.printer_link.specs.Suits.{SuitsAs};

mod ends;
mod losses;
mod scripts;

use super::makers::{SOUND, Wire, check_first, link_of, plain_session, scripts_of};
use byte_text::Name;
use gcode_lines::read_commands;
use job_desk::Scripts;
use octo_outside::MemoryClock;
use octo_session::{Session, SessionEnd};
use octo_session_print::{PrintEnd, run_print};
use printer_link::{Fate, Link, MemoryLink};
use std::alloc::Global;
use std::process::Abort;
use std::test::Fail;

const W: Fate = Fate::Whole;

const L: Fate = Fate::Lost;

const G: Fate = Fate::Garbled;

// A file of four commands.
const FOUR_LINES: &str = "G28\nG1 X10\nG1 X20\nG1 X30\n";

// Its commands.
const FOUR: [&str; 4] = ["G28", "G1 X10", "G1 X20", "G1 X30"];

// How a print ended, and the link as it left it.
#[derive(Drop)]
struct Printed {
    end: PrintEnd,
    link: MemoryLink,
}

// What is printed, and over which link.
#[derive(Clone, Copy)]
struct Asked {
    file: &'static str,
    // How many milliseconds each rest of the clock adds.
    rest: u64,
    turns: u64,
    wire: Wire,
}

// One command over a line without faults.
const PLAIN: Asked = Asked {
    file: "G28\n",
    rest: 1,
    turns: 1_000,
    wire: SOUND,
};

// Prints in this session, over port p of this link.
fn print_over<L: Link>(
    alloc: Global,
    session: &mut Session,
    link: &mut L,
    asked: &Asked,
) -> Result<PrintEnd, Fail>
    requires new { IsNew session.old }
    requires down { (L.state link.old).up ≡ false }
    requires suits { SuitsAs session.old.sender.numbered (L.state link.old).past
        (L.state link.old).kind.oks }
{
    let port = Name::of("p")?;
    let name = Name::of("a.gcode")?;
    let job = read_commands(alloc, asked.file.as_bytes())?;
    let mut clock = MemoryClock::new(0, asked.rest);
    Ok(run_print(session, link, &mut clock, &port, &name, job, asked.turns))
}

fn print(alloc: Global, scripts: Scripts, asked: &Asked) -> Result<Printed, Fail> {
    let mut session = plain_session(alloc, scripts, 4)?;
    let mut link = link_of(alloc, &asked.wire)?;
    let end = print_over(alloc, &mut session, &mut link, asked)?;
    Ok(Printed { end, link })
}

fn print_plainly(alloc: Global, asked: &Asked) -> Result<Printed, Fail> {
    print(alloc, Scripts::new(alloc), asked)
}

// How a print ended, the number of lines sent, the hello included, and the lines that the printer ran.
fn check_print(rt: &impl Abort, printed: &Printed, end: PrintEnd, sends: u64, texts: &[&str]) {
    assert_eq!(rt; (printed.end, printed.link.sends()), (end, sends));
    assert!(rt; !printed.link.is_up());
    assert_eq!(rt; check_first(rt, &printed.link, texts), texts.len());
}

// The same of a print without scripts.
fn comes_to(
    rt: &impl Abort,
    alloc: Global,
    asked: Asked,
    end: PrintEnd,
    sends: u64,
    texts: &[&str],
) -> Result<(), Fail> {
    let printed = print_plainly(alloc, &asked)?;
    check_print(rt, &printed, end, sends, texts);
    Ok(())
}

// A line without faults; seven turns are enough.
#[test]
fn whole(rt: HostRuntime) -> Result<(), Fail> {
    let asked = Asked {
        file: "G28\nG1 X10\n",
        turns: 7,
        ..PLAIN
    };
    comes_to(
        &rt,
        rt.alloc(),
        asked,
        PrintEnd::Done,
        3,
        &["G28", "G1 X10"],
    )
}

// Six turns are one too few, though all was executed.
#[test]
fn turns_used(rt: HostRuntime) -> Result<(), Fail> {
    let asked = Asked {
        file: "G28\nG1 X10\n",
        turns: 6,
        ..PLAIN
    };
    let end = PrintEnd::TurnsUsed { turns: 6 };
    comes_to(&rt, rt.alloc(), asked, end, 3, &["G28", "G1 X10"])
}

// An empty file is printed too.
#[test]
fn empty(rt: HostRuntime) -> Result<(), Fail> {
    let asked = Asked { file: "", ..PLAIN };
    comes_to(&rt, rt.alloc(), asked, PrintEnd::Done, 1, &[])
}

// The third line is lost: the last three are sent again, in a window of four lines.
#[test]
fn lost(rt: HostRuntime) -> Result<(), Fail> {
    let asked = Asked {
        file: FOUR_LINES,
        wire: Wire {
            fates: &[W, W, L, W],
            ..SOUND
        },
        ..PLAIN
    };
    comes_to(&rt, rt.alloc(), asked, PrintEnd::Done, 8, &FOUR)
}

// A corrupted line is sent again.
#[test]
fn corrupted(rt: HostRuntime) -> Result<(), Fail> {
    let asked = Asked {
        wire: Wire {
            fates: &[W, G],
            ..SOUND
        },
        ..PLAIN
    };
    comes_to(&rt, rt.alloc(), asked, PrintEnd::Done, 3, &["G28"])
}

// A corrupted hello is sent again.
#[test]
fn hello_corrupted(rt: HostRuntime) -> Result<(), Fail> {
    let asked = Asked {
        wire: Wire {
            fates: &[G],
            ..SOUND
        },
        ..PLAIN
    };
    comes_to(&rt, rt.alloc(), asked, PrintEnd::Done, 3, &["G28"])
}

// A lost hello isn't sent again: nobody answers for five limits of 30 seconds. Each quiet turn rests for a second, so that 152
// turns are enough.
#[test]
fn hello_lost(rt: HostRuntime) -> Result<(), Fail> {
    let asked = Asked {
        wire: Wire {
            fates: &[L],
            ..SOUND
        },
        rest: 1_000,
        turns: 152,
        ..PLAIN
    };
    let end = PrintEnd::Ended(SessionEnd::NoAnswer { silent: 5 });
    comes_to(&rt, rt.alloc(), asked, end, 1, &[])
}

// Losses and corrupted lines at a printer that runs a line at each third call of `recv`.
#[test]
fn slow_printer(rt: HostRuntime) -> Result<(), Fail> {
    let asked = Asked {
        file: "G28\nG1 X1\nG1 X2\nG1 X3\nG1 X4\nG1 X5\n",
        wire: Wire {
            fates: &[W, W, G, L, W, W, G],
            slow: 2,
            ..SOUND
        },
        ..PLAIN
    };
    let texts = ["G28", "G1 X1", "G1 X2", "G1 X3", "G1 X4", "G1 X5"];
    comes_to(&rt, rt.alloc(), asked, PrintEnd::Done, 13, &texts)
}

// Equal lines, numbered acknowledgements.
#[test]
fn numbered(rt: HostRuntime) -> Result<(), Fail> {
    let asked = Asked {
        file: "G1 X1\nG1 X1\nG1 X1\nG1 X1\nG1 X1\n",
        wire: Wire {
            numbered: true,
            fates: &[W, L, G, L, W],
            ..SOUND
        },
        ..PLAIN
    };
    comes_to(&rt, rt.alloc(), asked, PrintEnd::Done, 10, &["G1 X1"; 5])
}

// The sixth call of the link fails: the one for the first line.
#[test]
fn failing(rt: HostRuntime) -> Result<(), Fail> {
    let asked = Asked {
        wire: Wire {
            fails_at: Some(6),
            ..SOUND
        },
        ..PLAIN
    };
    comes_to(&rt, rt.alloc(), asked, PrintEnd::LinkFailed, 1, &[])
}

// The printer restarts after its first line.
#[test]
fn restarted(rt: HostRuntime) -> Result<(), Fail> {
    let asked = Asked {
        file: "G28\nG1 X10\n",
        wire: Wire {
            restarts_at: Some(5),
            ..SOUND
        },
        ..PLAIN
    };
    let end = PrintEnd::Ended(SessionEnd::Restarted);
    comes_to(&rt, rt.alloc(), asked, end, 3, &["G28"])
}

// The third line is too hot: nothing is sent.
#[test]
fn too_hot(rt: HostRuntime) -> Result<(), Fail> {
    let asked = Asked {
        file: "G28\nM104 S200\nM109 R260\n",
        ..PLAIN
    };
    let end = PrintEnd::TooHot {
        line: 3,
        asked: 260,
        limit: 250,
    };
    comes_to(&rt, rt.alloc(), asked, end, 0, &[])
}

// The port isn't listed.
#[test]
fn no_port(rt: HostRuntime) -> Result<(), Fail> {
    let asked = Asked {
        wire: Wire {
            listed: false,
            ..SOUND
        },
        ..PLAIN
    };
    comes_to(&rt, rt.alloc(), asked, PrintEnd::NoPort, 0, &[])
}
