//! Files, fates and summaries of demos.
ghost use Rattle.std.specs.Prelude.{◌≤◌};
ghost use Rattle.octo_commands_print.specs.declared.file.TheConstants.{MOST_COMMANDS};

use octo_commands_print::{
    Demo, DemoCounts, Draws, demo_file, demo_job, demo_schedule, run_demo, summary,
};
use octo_outside::calls_of;
use octo_session_print::PrintEnd;
use printer_link::Fate;
use std::alloc::Global;
use std::process::Abort;
use std::test::Fail;

#[test]
fn first_draws(rt: HostRuntime) {
    let mut numbers = Draws::new(1);
    let wanted = [
        16838, 5758, 10113, 17515, 31051, 5627, 23010, 7419, 16212, 4086,
    ];
    for draw in wanted {
        assert_eq!(rt; numbers.draw(), draw);
    }
}

// Whether a fate has that letter: W whole, L lost, G corrupted.
fn is_letter(fate: Fate, letter: u8) -> bool {
    match fate {
        Fate::Whole => letter == b'W',
        Fate::Lost => letter == b'L',
        Fate::Garbled => letter == b'G',
    }
}

fn check_fates(rt: &impl Abort, fates: &[Fate], letters: &[u8]) {
    for (fate, letter) in fates.iter().zip(letters) {
        assert!(rt; is_letter(*fate, *letter));
    }
}

// The first fates of a demo have these letters, and this is the number of all.
fn has_fates(
    rt: &impl Abort,
    alloc: Global,
    seed: u32,
    commands: u32,
    letters: &[u8],
    count: usize,
) -> Result<(), Fail>
    requires { commands ≤ MOST_COMMANDS }
{
    let schedule = demo_schedule(alloc, seed, commands, None)?;
    check_fates(rt, schedule.fates.as_slice(), letters);
    assert_eq!(rt; schedule.fates.as_slice().len(), count);
    Ok(())
}

fn is_file(
    rt: &impl Abort,
    alloc: Global,
    seed: u32,
    commands: u32,
    text: &str,
) -> Result<(), Fail> {
    let file = demo_file(alloc, seed, commands)?;
    assert!(rt; file.as_slice() == text.as_bytes());
    Ok(())
}

// The job of three commands by seed 1.
fn is_job(rt: &impl Abort, alloc: Global) -> Result<(), Fail> {
    let job = demo_job(alloc, 1, 3)?;
    assert_eq!(rt; job.count(), 3);
    assert!(rt; job.text() == THREE_COMMANDS.as_bytes());
    Ok(())
}

const THREE_COMMANDS: &str = "G1 E38\nG1 E158\nG1 Y113\n";

// The calls that take memory, each once.
#[test]
fn ample(rt: HostRuntime) -> Result<(), Fail> {
    is_file(&rt, rt.alloc(), 1, 3, THREE_COMMANDS)?;
    is_job(&rt, rt.alloc())?;
    has_fates(&rt, rt.alloc(), 1, 3, b"WWGWLWWW", 1013)?;
    comes_to(&rt, rt.alloc(), 1, 3, (3, 8, 2))
}

#[test]
fn summary_of_counts(rt: HostRuntime) {
    let counts = DemoCounts {
        executed: 3,
        sent: 8,
        faults: 2,
    };
    let text = summary(1, 3, &counts, 0);
    let wanted = b"demo seed 1 commands 3\nexecuted 3\nsent 8\nfaults 2\nstatus 0\n";
    assert!(rt; text.as_slice() == wanted.as_slice());
}

// After two lines that are harmed the next one is whole, whatever its draw.
#[test]
fn third_is_whole(rt: HostRuntime) -> Result<(), Fail> {
    has_fates(&rt, rt.alloc(), 133, 0, b"WLLWWWLWWWGWW", 1001)
}

#[test]
fn all_commands(rt: HostRuntime) -> Result<(), Fail> {
    let wanted = "G4 P47\nG4 P7\nG1 Y165\nG1 X112\nG1 E22\n";
    is_file(&rt, rt.alloc(), 3, 5, wanted)
}

// The printer of a demo has the line number 4 at first. The hello sets another one, so nothing else shows it.
#[test]
fn first_number(rt: HostRuntime) -> Result<(), Fail> {
    let demo = run_demo(rt.alloc(), 1, 3, None)?;
    assert_eq!(&rt; demo.link.first_number(), 4);
    Ok(())
}

// The demo of a seed executes, sends and loses these numbers of lines, and is printed.
fn comes_to(
    rt: &impl Abort,
    alloc: Global,
    seed: u32,
    commands: u32,
    wanted: (u64, u64, u64),
) -> Result<(), Fail>
    requires seed { seed ≤ 2147483647 }
    requires commands { commands ≤ MOST_COMMANDS }
{
    let demo = run_demo(alloc, seed, commands, None)?;
    check_demo(rt, &demo, wanted)
}

// A demo was printed, and its printer ran, got and missed these numbers of lines.
fn check_demo(rt: &impl Abort, demo: &Demo, wanted: (u64, u64, u64)) -> Result<(), Fail> {
    assert_eq!(rt; demo.end, PrintEnd::Done);
    let counts = demo.counts()?;
    assert_eq!(rt; (counts.executed, counts.sent, counts.faults), wanted);
    Ok(())
}

// The same of a demo that loses these replies.
fn loses(
    rt: &impl Abort,
    alloc: Global,
    lost: &[u64],
    wanted: (u64, u64, u64),
) -> Result<(), Fail> {
    let demo = run_demo(alloc, 1, 3, Some(calls_of(alloc, lost)?))?;
    check_demo(rt, &demo, wanted)
}

// A demo without a lost reply over a printer whose `ok`s have numbers, and demos that lose some.
#[test]
fn lost_replies(rt: HostRuntime) -> Result<(), Fail> {
    loses(&rt, rt.alloc(), &[], (3, 8, 2))?;
    loses(&rt, rt.alloc(), &[2], (3, 8, 2))?;
    loses(&rt, rt.alloc(), &[3], (4, 10, 2))
}

#[test]
fn short_demos(rt: HostRuntime) -> Result<(), Fail> {
    comes_to(&rt, rt.alloc(), 1, 0, (0, 1, 0))?;
    comes_to(&rt, rt.alloc(), 1, 3, (3, 8, 2))?;
    comes_to(&rt, rt.alloc(), 2, 1, (1, 2, 0))?;
    comes_to(&rt, rt.alloc(), 3, 10, (11, 19, 4))
}

#[test]
fn long_demos(rt: HostRuntime) -> Result<(), Fail> {
    comes_to(&rt, rt.alloc(), 42, 100, (101, 168, 26))?;
    comes_to(&rt, rt.alloc(), 2_147_483_647, 57, (57, 105, 19))?;
    comes_to(&rt, rt.alloc(), 7, 1000, (1001, 1793, 330))
}
