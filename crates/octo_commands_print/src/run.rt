//! The run of a demo.
ghost use Rattle.std.specs.Prelude.{◌≡◌, ◌≤◌, false, [], IfOk};
ghost use Rattle.job_desk.specs.Data.{new_desk};
ghost use Rattle.send_window.specs.Data.{new_sender, IsSound};
ghost use Rattle.octo_session_print.specs.Ends.{IsNew};
ghost use Rattle.job_desk.specs.Scripts.{no_scripts};
ghost use Rattle.printer_link.specs.Memory.{link_kind, link_world};
ghost use Rattle.printer_link.specs.Suits.{Suits};
ghost use Rattle.octo_commands_print.specs.Run.{IsDemo, IsPrint, counts_of, demo_limits};
ghost use Rattle.octo_commands_print.specs.declared.file.TheConstants.{MOST_COMMANDS};

use crate::job::demo_job;
use crate::report::DemoCounts;
use crate::schedule::demo_schedule;
use byte_text::Name;
use gcode_lines::Job;
use job_desk::{Desk, Scripts};
use octo_outside::{CallList, MemoryClock};
use octo_session::Session;
use octo_session_print::{PrintEnd, run_print};
use printer_link::MemoryLink;
use send_window::Sender;
use std::alloc::{AllocError, Global};
use temp_rules::Limits;

const WINDOW: u8 = 4;

// How long an answer may take, and when a poll is due, in milliseconds.
const LIMIT: u64 = 30_000;

const POLL: u64 = 5_000;

// How long a rest takes, in milliseconds.
const REST: u64 = 100;

const TURNS: u64 = 1_000_000_000;

/// A demo that was run.
#[derive(Drop)]
pub struct Demo {
    /// The link as the run left it.
    pub link: MemoryLink,
    /// How the print ended.
    pub end: PrintEnd,
}

// A session without scripts, by whether `ok`s count by their numbers.
fn plain_session(alloc: Global, numbered: bool) -> Result<Session, AllocError>
    ensures new { IfOk result IsNew }
    ensures desk { IfOk result
        (λ session. session.desk ≡ new_desk no_scripts demo_limits 5000 numbered) }
    ensures sender { IfOk result (λ session. session.sender ≡ new_sender 4 numbered 30000) }
{
    let limits = Limits {
        tool: 300,
        bed: 120,
    };
    let desk = Desk::new(alloc, Scripts::new(alloc), limits, POLL, numbered)?;
    let sender = Sender::new(alloc, WINDOW, numbered, LIMIT)?;
    Ok(Session::new(desk, sender))
}

// Prints a job over a link to which nothing happened before, in a session of its own.
fn print_over(
    alloc: Global,
    link: &mut MemoryLink,
    numbered: bool,
    job: Job,
) -> Result<PrintEnd, AllocError>
    requires new { link.old.story.past ≡ [] }
    requires suits { Suits numbered link.old.story.oks }
    requires down { (link_world link.old).linked ≡ false }
    ensures { IfOk result (IsPrint numbered (link_kind link.old) job link.new) }
{
    let mut session = plain_session(alloc, numbered)?;
    Ok(run_print(
        &mut session,
        link,
        &mut MemoryClock::new(0, REST),
        &Name::of_short("demo"),
        &Name::of_short("file"),
        job,
        TURNS,
    ))
}

/// Prints the file of a demo over a link in memory of its own, for a seed of at most 2,147,483,647 and at most 200,000
/// commands. The printer has 4 buffer slots and the last line number 4; the window is 4, and a rest takes 100 ms. If lost
/// replies are listed, counted from 1 as they join the wire from the printer, its `ok`s have numbers, by which the sender counts.
/// Fails if out of memory, also if it is the link's.
pub fn run_demo(
    alloc: Global,
    seed: u32,
    commands: u32,
    lost: Option<CallList>,
) -> Result<Demo, AllocError>
    requires seed { seed ≤ 2147483647 }
    requires commands { commands ≤ MOST_COMMANDS }
    ensures { IfOk result (IsDemo seed commands lost) }
{
    let numbered = lost.is_some();
    let job = demo_job(alloc, seed, commands)?;
    let mut link = MemoryLink::new(alloc, demo_schedule(alloc, seed, commands, lost)?)?;
    let end = print_over(alloc, &mut link, numbered, job)?;
    if end == PrintEnd::LinkFailed {
        return Err(AllocError);
    }
    Ok(Demo { link, end })
}

impl Demo {
    /// What happened on the link. Fails if out of memory.
    pub fn counts(&self) -> Result<DemoCounts, AllocError>
        ensures { IfOk result (λ counts. counts ≡ counts_of self.now.link) }
    {
        Ok(DemoCounts {
            executed: self.link.executed(1)?.as_slice().len() as u64,
            sent: self.link.sends(),
            faults: self.link.losses(),
        })
    }
}
