//! The links of the program.
ghost use Rattle.std.specs.Prelude.{◌≡◌, false};

use crate::host_log::HostLog;
use crate::showing::{PrintView, UNSEEN, with_progress};
use octo_floor::Links;
use octo_log_link::{LoggedLink, ProgressLink};
use octo_outside::SystemClock;
use octo_outside_bell::Ear;
use printer_link_ports::SystemPorts;
use printer_link_socket::PortLink;

// A link to ports of the system, with its progress and its log.
pub(crate) type HostLink = LoggedLink<
    ProgressLink<PortLink<SystemPorts<HostRuntime>>, HostLog, SystemClock<HostRuntime>>,
    HostLog,
>;

// A link that isn't connected yet, whose print is shown in this way.
pub(crate) fn host_link(
    system: &HostRuntime,
    view: PrintView,
    boot_ms: Option<u16>,
    ear: &Ear,
    is_logged: bool,
) -> HostLink
    ensures { result.link.link.up ≡ false }
{
    let ports = SystemPorts::new(*system, system.alloc());
    let port_link = PortLink::with_ear(ports, boot_ms, ear.copy());
    let print_link = with_progress(system, view, port_link);
    LoggedLink::new(print_link, HostLog::new(system, is_logged))
}

// One of a floor's links.
fn floor_link(system: &HostRuntime, boot_ms: Option<u16>, ear: &Ear) -> HostLink
    ensures { result.link.link.up ≡ false }
{
    host_link(system, UNSEEN, boot_ms, ear, false)
}

// The links of a floor, none of which is connected yet.
pub(crate) fn host_links(system: &HostRuntime, boot_ms: Option<u16>, ear: &Ear) -> Links<HostLink>
    ensures a { result.a.link.link.up ≡ false }
    ensures b { result.b.link.link.up ≡ false }
    ensures c { result.c.link.link.up ≡ false }
    ensures d { result.d.link.link.up ≡ false }
    ensures e { result.e.link.link.up ≡ false }
    ensures f { result.f.link.link.up ≡ false }
    ensures g { result.g.link.link.up ≡ false }
    ensures h { result.h.link.link.up ≡ false }
{
    Links {
        a: floor_link(system, boot_ms, ear),
        b: floor_link(system, boot_ms, ear),
        c: floor_link(system, boot_ms, ear),
        d: floor_link(system, boot_ms, ear),
        e: floor_link(system, boot_ms, ear),
        f: floor_link(system, boot_ms, ear),
        g: floor_link(system, boot_ms, ear),
        h: floor_link(system, boot_ms, ear),
    }
}

// Drops the links of a floor one by one: as a whole they would be the largest part of a caller's proof.
pub(crate) fn drop_links(links: Links<HostLink>) {
    let Links {
        a,
        b,
        c,
        d,
        e,
        f,
        g,
        h,
    } = links;
    drop(a);
    drop(b);
    drop(c);
    drop(d);
    drop(e);
    drop(f);
    drop(g);
    drop(h);
}
