//! A link in memory, and sessions with its printer.
ghost use Rattle.std.specs.Prelude.{◌≡◌, ◌≤◌, IfSome, false, true};
ghost use Rattle.printer_link.specs.Memory.{link_world};
ghost use Rattle.send_window.specs.Data.{new_sender, IsSound};
ghost use Rattle.test_makers.specs.Objects.{plain_desk, plain_session, link_at};

use crate::lists::ports;
use job_desk::{Desk, Limits, Scripts};
use octo_outside::CallList;
use octo_session::Session;
use printer_link::{FateList, MemoryLink, Schedule};
use send_window::Sender;
use std::alloc::Global;

/// A link to a printer with 4 buffer slots, whose `ok`s have numbers. The first lines that are sent have these fates, and all later ones
/// arrive whole.
pub fn link_at(alloc: Global, port: &str, fates: FateList) -> Option<MemoryLink>
    ensures link { IfSome result (λ link. link ≡ link_at port.now fates) }
    ensures down { IfSome result (λ link. (link_world link).linked ≡ false) }
    ensures plain { IfSome result (λ link. link.story.oks.lost ≡ false) }
    ensures numbered { IfSome result (λ link. link.story.oks.numbered ≡ true) }
{
    let schedule = Schedule {
        names: ports(alloc, port)?,
        last: 0,
        slots: 4,
        numbered: true,
        fates,
        slow: 0,
        fail_at: CallList::new(alloc),
        restart_at: CallList::new(alloc),
        lost: CallList::new(alloc),
    };
    MemoryLink::new(alloc, schedule).ok()
}

/// A new desk without scripts. Its limits are 250 and 100 degrees, and it asks for the temperatures every 5 seconds.
pub fn plain_desk(alloc: Global) -> Option<Desk>
    ensures { IfSome result (λ desk. desk ≡ plain_desk) }
{
    let limits = Limits {
        tool: 250,
        bed: 100,
    };
    Desk::new(alloc, Scripts::new(alloc), limits, 5_000, false).ok()
}

/// A new sender with a window of 4 lines, and this time limit in milliseconds, at least 1.
pub fn plain_sender(alloc: Global, limit: u64) -> Option<Sender>
    requires { 1 ≤ limit }
    ensures new { IfSome result (λ sender. sender ≡ new_sender 4 false limit) }
    ensures sound { IfSome result IsSound }
{
    let sender = Sender::new(alloc, 4, false, limit).ok()?;
    sender.ready();
    Some(sender)
}

/// A session that hasn't begun, of such a desk and such a sender.
pub fn plain_session(alloc: Global, limit: u64) -> Option<Session>
    requires { 1 ≤ limit }
    ensures session { IfSome result (λ session. session ≡ plain_session limit) }
    ensures sound { IfSome result (λ session. IsSound session.sender) }
{
    Some(Session::new(plain_desk(alloc)?, plain_sender(alloc, limit)?))
}
