//! The links, scripts and sessions with which the tests begin, and what a printer ran.
ghost use Rattle.std.specs.Prelude.{◌≡◌, ◌≤◌, true, false, IfOk};
ghost use Rattle.printer_link.specs.Memory.{link_world};
ghost use Rattle.octo_session_print.specs.Ends.{IsNew};

use byte_text::Name;
use gcode_lines::one_command;
use job_desk::{Desk, Limits, Point, Scripts};
use octo_outside::{CallList, NameList, calls_of};
use octo_session::Session;
use printer_link::{Fate, FateList, MemoryLink, Schedule};
use send_window::Sender;
use std::alloc::{AllocError, Global};
use std::process::Abort;
use std::test::Fail;

// What a link in memory lists, loses and fails at.
#[derive(Clone, Copy)]
pub(super) struct Wire {
    // Whether port p is listed.
    pub(super) listed: bool,
    pub(super) numbered: bool,
    pub(super) fates: &'static [Fate],
    pub(super) slow: u32,
    pub(super) fails_at: Option<u64>,
    pub(super) restarts_at: Option<u64>,
}

// A wire without faults.
pub(super) const SOUND: Wire = Wire {
    listed: true,
    numbered: false,
    fates: &[],
    slow: 0,
    fails_at: None,
    restarts_at: None,
};

// The listed ports: p, or none.
fn ports(alloc: Global, listed: bool) -> Result<NameList, Fail> {
    let name = Name::of("p")?;
    let mut names = NameList::new(alloc);
    if listed {
        names.push(name)?;
    }
    Ok(names)
}

fn calls(alloc: Global, call: Option<u64>) -> Result<CallList, AllocError> {
    match call {
        Some(number) => calls_of(alloc, &[number]),
        None => Ok(CallList::new(alloc)),
    }
}

// What a printer with four slots, whose last line had the number 4, does, and that these of its replies are lost.
fn schedule_of(alloc: Global, wire: &Wire, numbered: bool, lost: &[u64]) -> Result<Schedule, Fail>
    ensures numbered { IfOk result (λ schedule. schedule.numbered ≡ numbered) }
    ensures lost { IfOk result (λ schedule. schedule.lost ≡ lost.now) }
    ensures slots { IfOk result (λ schedule. schedule.slots ≡ 4) }
{
    Ok(Schedule {
        names: ports(alloc, wire.listed)?,
        last: 4,
        slots: 4,
        numbered,
        fates: FateList::from_items(Vec::from_slice(alloc, wire.fates)?),
        slow: wire.slow,
        fail_at: calls(alloc, wire.fails_at)?,
        restart_at: calls(alloc, wire.restarts_at)?,
        lost: calls_of(alloc, lost)?,
    })
}

// A link to such a printer that loses no reply.
pub(super) fn link_of(alloc: Global, wire: &Wire) -> Result<MemoryLink, Fail>
    ensures down { IfOk result (λ link. (link_world link).linked ≡ false) }
    ensures plain { IfOk result (λ link. link.story.oks.lost ≡ false) }
{
    Ok(MemoryLink::new(alloc, schedule_of(alloc, wire, wire.numbered, &[])?)?)
}

// A link to such a printer whose `ok`s have numbers. These of its replies are lost, counted from 1 as they join the wire.
pub(super) fn losing_link(alloc: Global, wire: &Wire, lost: &[u64]) -> Result<MemoryLink, Fail>
    ensures down { IfOk result (λ link. (link_world link).linked ≡ false) }
    ensures numbered { IfOk result (λ link. link.story.oks.numbered ≡ true) }
{
    Ok(MemoryLink::new(alloc, schedule_of(alloc, wire, true, lost)?)?)
}

// Adds a line to the script of this point.
fn add(rt: &impl Abort, scripts: &mut Scripts, point: Point, text: &str) {
    match one_command(text.as_bytes()) {
        Ok(text) => assert!(rt; scripts.add(point, &text).is_ok()),
        Err(_) => panic!(rt; "no command"),
    }
}

// Scripts of these lines, in their order.
pub(super) fn scripts_of(
    rt: &impl Abort,
    alloc: Global,
    lines: &[(Point, &'static str)],
) -> Scripts {
    let mut scripts = Scripts::new(alloc);
    for line in lines {
        let (point, text) = *line;
        add(rt, &mut scripts, point, text);
    }
    scripts
}

// A session with these scripts, a window of this number of lines, 1 to 16, and this number of milliseconds between two polls, at
// which nothing was done yet, by whether `ok`s count by their numbers.
pub(super) fn session_of(
    alloc: Global,
    scripts: Scripts,
    window: u8,
    poll: u64,
    numbered: bool,
) -> Result<Session, AllocError>
    requires open_window { 1 ≤ window }
    requires small_window { window ≤ 16 }
    requires some_poll { 1 ≤ poll }
    ensures new { IfOk result (λ session. IsNew session) }
    ensures unstarted { IfOk result (λ session. session.desk.greatest ≡ 0) }
    ensures numbered { IfOk result (λ session. session.sender.numbered ≡ numbered) }
{
    let limits = Limits {
        tool: 250,
        bed: 100,
    };
    let desk = Desk::new(alloc, scripts, limits, poll, numbered)?;
    let sender = Sender::new(alloc, window, numbered, 30_000)?;
    Ok(Session::new(desk, sender))
}

// One whose sender counts `ok`s.
pub(super) fn plain_session(
    alloc: Global,
    scripts: Scripts,
    window: u8,
) -> Result<Session, AllocError>
    requires open_window { 1 ≤ window }
    requires small_window { window ≤ 16 }
    ensures new { IfOk result (λ session. IsNew session) }
    ensures unstarted { IfOk result (λ session. session.desk.greatest ≡ 0) }
    ensures counts { IfOk result (λ session. session.sender.numbered ≡ false) }
{
    session_of(alloc, scripts, window, 5_000, false)
}

// What the printer ran are the first of these lines. Returns how many it ran.
pub(super) fn check_first(rt: &impl Abort, link: &MemoryLink, texts: &[&str]) -> usize {
    match link.executed(1) {
        Ok(lines) => {
            assert!(rt; lines.as_slice().len() <= texts.len());
            for (line, text) in lines.as_slice().iter().zip(texts) {
                assert_eq!(rt; line.text.as_slice(), text.as_bytes());
            }
            lines.as_slice().len()
        }
        Err(_) => panic!(rt; "no memory"),
    }
}

// What the printer ran, but for polls and probes, are the first of these lines. Returns how many it ran.
pub(super) fn check_commands(rt: &impl Abort, link: &MemoryLink, texts: &[&str]) -> usize {
    let Ok(lines) = link.executed(1) else {
        panic!(rt; "no memory");
    };
    let mut count = 0;
    for line in lines.as_slice() {
        let text = line.text.as_slice();
        if text != b"M105".as_slice() && text != b"M400".as_slice() {
            let Some(wanted) = texts.get(count) else {
                panic!(rt; "a line more");
            };
            assert_eq!(rt; text, wanted.as_bytes());
            count += 1;
        }
    }
    count
}
