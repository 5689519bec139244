//! The parts of a floor in memory.
ghost use Rattle.std.specs.Prelude.{◌≡◌, ◌+◌, [], All, length, false, IfSome};
ghost use Rattle.octo_floor_bay.specs.Bay.{IsNewSession};
ghost use Rattle.octo_session_print.specs.Ends.{IsNew};
ghost use Rattle.test_makers.specs.Links.{AreDown, IsDown};

use crate::house::shelf_of;
use crate::lists::{calls, ports};
use crate::shop::{EntryRow, Wires};
use byte_text::Name;
use job_desk::{Desk, Limits, Scripts};
use octo_floor::{Links, SessionList};
use octo_keeper::{MemoryShelf, Shelf};
use octo_outside::NameList;
use octo_session::Session;
use print_queue::{EntryList, Queue};
use printer_link::{FateList, MemoryLink, Schedule};
use send_window::Sender;
use std::alloc::Global;

/// The port of each printer.
pub const PORT: &str = "p";

/// A session that hasn't begun, of a printer that takes 250 and 100 degrees, with a window of four lines. A line that isn't acknowledged
/// within a second is sent again. None if out of memory.
pub fn session_of(alloc: Global, numbered: bool) -> Option<Session>
    ensures new { IfSome result IsNewSession }
    ensures fresh { IfSome result IsNew }
    ensures numbered { IfSome result (λ session. session.sender.numbered ≡ numbered) }
{
    let limits = Limits {
        tool: 250,
        bed: 100,
    };
    let desk = Desk::new(alloc, Scripts::new(alloc), limits, 5_000, numbered).ok()?;
    let sender = Sender::new(alloc, 4, numbered, 1_000).ok()?;
    sender.ready();
    Some(Session::new(desk, sender))
}

// These sessions, and one more.
fn with_session(alloc: Global, sessions: SessionList, numbered: bool) -> Option<SessionList>
    requires { All IsNewSession sessions }
    ensures new { IfSome result (All IsNewSession) }
    ensures count { IfSome result (λ grown. length grown ≡ length sessions + 1) }
{
    let mut sessions = sessions;
    sessions.push(session_of(alloc, numbered)?).ok()?;
    Some(sessions)
}

// This number of sessions.
pub(crate) fn sessions(alloc: Global, count: usize, numbered: bool) -> Option<SessionList>
    ensures new { IfSome result (All IsNewSession) }
    ensures count { IfSome result (λ sessions. length sessions ≡ count) }
{
    let mut sessions = SessionList::new(alloc);
    for _ in 0..count {
        sessions = with_session(alloc, sessions, numbered)?;
    }
    Some(sessions)
}

// The ports of this number of printers.
pub(crate) fn ports_of(alloc: Global, count: usize) -> Option<NameList>
    ensures { IfSome result (λ ports. length ports ≡ count) }
{
    let mut names = NameList::new(alloc);
    for _ in 0..count {
        names.push(Name::of_short(PORT)).ok()?;
    }
    Some(names)
}

// These names in a list.
pub(crate) fn names(alloc: Global, texts: &[&str]) -> Option<NameList>
    ensures { IfSome result (λ names. length names ≡ length texts.now) }
{
    let mut names = NameList::new(alloc);
    for text in texts {
        names.push(Name::from_text(text)?).ok()?;
    }
    Some(names)
}

fn fates(alloc: Global, wires: &Wires) -> Option<FateList> {
    let mut fates = FateList::new(alloc);
    for fate in wires.fates {
        fates.push(*fate).ok()?;
    }
    Some(fates)
}

/// A link to a printer with four buffer slots, which lists `PORT`. These calls of it fail. None if out of memory.
pub fn link_of(alloc: Global, wires: &Wires, fails: &[u64]) -> Option<MemoryLink>
    ensures down { IfSome result IsDown }
    ensures lost { IfSome result (λ link. wires.now.lost.now ≡ []
        → link.story.oks.lost ≡ false) }
    ensures numbered { IfSome result (λ link. link.story.oks.numbered ≡ wires.now.numbered) }
{
    let schedule = Schedule {
        names: ports(alloc, PORT)?,
        last: 0,
        slots: 4,
        numbered: wires.numbered,
        fates: fates(alloc, wires)?,
        slow: 0,
        fail_at: calls(alloc, fails)?,
        restart_at: calls(alloc, &[])?,
        lost: calls(alloc, wires.lost)?,
    };
    MemoryLink::new(alloc, schedule).ok()
}

type TwoLinks = (MemoryLink, MemoryLink);

// Two links. These calls of the second one fail.
fn two_links(alloc: Global, wires: &Wires, fails: &[u64]) -> Option<TwoLinks>
    ensures first { IfSome result (λ two. IsDown two.0) }
    ensures second { IfSome result (λ two. IsDown two.1) }
{
    let first = link_of(alloc, wires, &[])?;
    let Some(second) = link_of(alloc, wires, fails) else {
        drop(first);
        return None;
    };
    Some((first, second))
}

// Four links. These calls of the second one fail.
fn four_links(alloc: Global, wires: &Wires, fails: &[u64]) -> Option<(TwoLinks, TwoLinks)>
    ensures a { IfSome result (λ four. IsDown four.0.0) }
    ensures b { IfSome result (λ four. IsDown four.0.1) }
    ensures c { IfSome result (λ four. IsDown four.1.0) }
    ensures d { IfSome result (λ four. IsDown four.1.1) }
{
    let first = two_links(alloc, wires, fails)?;
    let Some(second) = two_links(alloc, wires, &[]) else {
        drop(first);
        return None;
    };
    Some((first, second))
}

// The links of a floor.
pub(crate) fn links(alloc: Global, wires: &Wires) -> Option<Links<MemoryLink>>
    ensures { IfSome result AreDown }
{
    let first = four_links(alloc, wires, wires.fails)?;
    let Some(second) = four_links(alloc, wires, &[]) else {
        drop(first);
        return None;
    };
    let ((a, b), (c, d)) = first;
    let ((e, f), (g, h)) = second;
    Some(Links {
        a,
        b,
        c,
        d,
        e,
        f,
        g,
        h,
    })
}

// Puts an entry into a queue.
fn put(queue: &mut Queue, row: &EntryRow) -> Option<()> {
    let (name, file, priority, copies, material) = row;
    if *priority > 100 {
        return None;
    }
    if *copies < 1 {
        return None;
    }
    if *copies > 100 {
        return None;
    }
    let name = Name::from_text(name)?;
    let file = Name::from_text(file)?;
    let material = Name::from_text(material)?;
    let user = Name::of_short("ana");
    queue
        .put(&user, &name, &file, *priority, *copies, &material)
        .ok()?;
    Some(())
}

// A queue of these entries, in which they arrive one after another.
pub(crate) fn queue(alloc: Global, rows: &[EntryRow]) -> Option<Queue> {
    let mut queue = Queue::new(alloc);
    for row in rows {
        put(&mut queue, row)?;
    }
    Some(queue)
}

// The entries of a queue, as a keeper has them.
pub(crate) fn entries(alloc: Global, queue: &Queue) -> Option<EntryList> {
    let mut entries = EntryList::new(alloc);
    for entry in queue.entries() {
        entries.push(entry.copy()).ok()?;
    }
    Some(entries)
}

// A shelf of these files. These calls of it fail, counted from 1; each file takes one call to be put.
pub(crate) fn shelf(alloc: Global, files: &[(&str, &[u8])], fails: &[u64]) -> Option<MemoryShelf> {
    let mut shelf = shelf_of(alloc, fails)?;
    for (name, bytes) in files {
        let _ = shelf.put(alloc, &Name::from_text(name)?, bytes, None);
    }
    Some(shelf)
}
