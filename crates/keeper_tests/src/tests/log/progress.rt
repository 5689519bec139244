//! What is shown of a print's progress.
ghost use Rattle.std.specs.Prelude.{◌≡◌, ◌≤◌, true, false, length};
ghost use Rattle.printer_link.specs.Memory.{link_world};

use super::{new_log, new_memory_link};
use byte_text::{ReplyLine, bounded_text};
use octo_log_link::{ProgressLink, Showing};
use octo_outside::{MemoryClock, MemorySink};
use printer_link::{Heard, Link, MemoryLink};
use std::alloc::Global;
use std::process::Abort;

type TestLink = ProgressLink<MemoryLink, MemorySink, MemoryClock>;

// A print of two commands, shown in this way.
fn new_link(rt: &impl Abort, alloc: Global, showing: Showing) -> TestLink
    ensures { (link_world result.link).linked ≡ false }
{
    let link = new_memory_link(rt, alloc);
    let clock = MemoryClock::new(5000, 0);
    ProgressLink::new(link, new_log(alloc), clock, showing, Some(2))
}

// Sends a line, and receives its reply.
fn exchange<L: Link>(rt: &impl Abort, link: &mut L, text: &[u8])
    requires up { (L.state link.old).up ≡ true }
    requires short { length text.now ≤ 95 }
    ensures { (L.state link.new).up ≡ true }
{
    assert!(rt; link.send(&bounded_text(text)).is_ok());
    assert!(rt; link.recv(&mut ReplyLine::new()) == Ok(Heard::Line));
}

// The hello and two commands.
fn print_two<L: Link>(rt: &impl Abort, link: &mut L)
    requires { (L.state link.old).up ≡ true }
{
    exchange(rt, link, b"N0 M110 N1*124");
    exchange(rt, link, b"N2 G28*17");
    exchange(rt, link, b"N3 G1 X5*102");
    link.hang_up();
}

// A line for each tenth that is acknowledged.
#[test]
fn tenths(rt: HostRuntime) {
    let mut link = new_link(&rt, rt.alloc(), Showing::Tenths);
    assert!(rt; link.dial("p").is_ok());
    print_two(&rt, &mut link);
    let wanted: &[u8] =
        b"50%, 1 of 2 sent, 1 acknowledged, 0 again, 0 s, 0 s left\n100%, 2 of 2 sent, 2 acknowledged, 0 again, 0 s, 0 s left\n";
    assert!(rt; link.log().written() == Some(wanted));
}

// In place, the first line is shown at once, and the last one at the end.
#[test]
fn in_place(rt: HostRuntime) {
    let mut link = new_link(&rt, rt.alloc(), Showing::InPlace);
    assert!(rt; link.dial("p").is_ok());
    print_two(&rt, &mut link);
    let wanted: &[u8] =
        b"\r\x1b[?7l0%, 0 of 2 sent, 0 acknowledged, 0 again, 0 s, 0 s left\x1b[K\x1b[?7h\r\x1b[?7l100%, 2 of 2 sent, 2 acknowledged, 0 again, 0 s, 0 s left\x1b[K\x1b[?7h\n";
    assert!(rt; link.log().written() == Some(wanted));
}

// Nothing is shown.
#[test]
fn unshown(rt: HostRuntime) {
    let mut link = new_link(&rt, rt.alloc(), Showing::Off);
    assert!(rt; link.dial("p").is_ok());
    print_two(&rt, &mut link);
    assert!(rt; link.log().written() == Some(b""));
}
