//! What the log of a host gets of the calls of a keeper, a shelf and a link.
ghost use Rattle.std.specs.Prelude.{◌≡◌, false};
ghost use Rattle.printer_link.specs.Memory.{link_world};

mod causes;
mod pending;
mod progress;
mod refusals;

use super::keeper::only;
use byte_text::Name;
use octo_keeper::{Change, Keeper, MemoryKeeper, MemoryShelf, Shelf, Tables};
use octo_log::{LoggedKeeper, LoggedShelf, log_serving, log_stopped};
use octo_log_link::LoggedLink;
use octo_outside::{CallList, MemoryClock, MemorySink, NameList};
use print_queue::{Ending, Outcome, PrintRow};
use printer_link::{FateList, Link, LinkFault, MemoryLink, Schedule};
use std::alloc::Global;
use std::process::Abort;

// A log that doesn't fail.
fn new_log(alloc: Global) -> MemorySink {
    MemorySink::new(alloc, CallList::new(alloc))
}

fn name(rt: &impl Abort, text: &str) -> Name {
    Name::from_text(text).expect(rt, "a long name")
}

// A link to a printer at the port `p`.
fn new_memory_link(rt: &impl Abort, alloc: Global) -> MemoryLink
    ensures { (link_world result).linked ≡ false }
{
    let mut names = NameList::new(alloc);
    assert!(rt; names.push(name(rt, "p")).is_ok());
    let schedule = Schedule {
        names,
        last: 0,
        slots: 4,
        numbered: false,
        fates: FateList::new(alloc),
        slow: 0,
        fail_at: CallList::new(alloc),
        restart_at: CallList::new(alloc),
        lost: CallList::new(alloc),
    };
    MemoryLink::new(alloc, schedule).expect(rt, "no memory")
}

// The second print: 3 commands of a file, for ana.
fn second_print(rt: &impl Abort) -> Change {
    Change::Begin {
        ended: Some(Ending {
            print: 1,
            outcome: Outcome::Cancelled,
        }),
        print: PrintRow {
            number: 2,
            user: name(rt, "ana"),
            file: name(rt, "a.gcode"),
            commands: 3,
            outcome: Outcome::Active,
        },
        taken: None,
    }
}

// A print that begins after the end of another one, an end that can't be stored at first, and the next one.
#[test]
fn logged_prints(rt: HostRuntime) {
    let alloc = rt.alloc();
    let inner = MemoryKeeper::new(Tables::empty(alloc), only(&rt, alloc, 2));
    let mut keeper = LoggedKeeper::new(inner, new_log(alloc), MemoryClock::new(1500, 0));
    let done = Change::End(Ending {
        print: 2,
        outcome: Outcome::Done,
    });
    assert!(rt; keeper.commit(alloc, &second_print(&rt)).is_ok());
    assert!(rt; keeper.commit(alloc, &done).is_err());
    assert!(rt; keeper.commit(alloc, &done).is_ok());
    let wanted: &[u8] =
        b"print 1: cancelled\nprint 2: begun, a.gcode, 3 commands, for ana\ndatabase: a change can't be stored\nprint 2: done after 0 s\n";
    assert!(rt; keeper.log().written() == Some(wanted));
}

// A backup that can't be made, and one that is.
#[test]
fn logged_backups(rt: HostRuntime) {
    let alloc = rt.alloc();
    let inner = MemoryKeeper::new(Tables::empty(alloc), only(&rt, alloc, 1));
    let mut keeper = LoggedKeeper::new(inner, new_log(alloc), MemoryClock::new(1500, 0));
    assert!(rt; keeper.backup(alloc).is_err());
    assert!(rt; keeper.backup(alloc).is_ok());
    let wanted: &[u8] = b"database: it can't be backed up\ndatabase: backed up\n";
    assert!(rt; keeper.log().written() == Some(wanted));
}

// A file that is stored, and one that can't be deleted.
#[test]
fn logged_files(rt: HostRuntime) {
    let alloc = rt.alloc();
    let inner = MemoryShelf::new(alloc, only(&rt, alloc, 2));
    let mut shelf = LoggedShelf::new(inner, new_log(alloc));
    let file = name(&rt, "a\nb.gcode");
    assert!(rt; shelf.put(alloc, &file, b"G28\n", None).is_ok());
    assert!(rt; shelf.remove(alloc, &file).is_err());
    let wanted: &[u8] = b"file a?b.gcode: stored\nfile a?b.gcode: it can't be deleted\n";
    assert!(rt; shelf.log().written() == Some(wanted));
}

// A link to a port that isn't listed, and one that is made and closed.
#[test]
fn logged_link(rt: HostRuntime) {
    let alloc = rt.alloc();
    let mut link = LoggedLink::new(new_memory_link(&rt, alloc), new_log(alloc));
    assert!(rt; link.dial("q") == Err(LinkFault::NoPort));
    assert!(rt; link.dial("p") == Ok(()));
    link.hang_up();
    link.hang_up();
    let wanted: &[u8] = b"printer: no port q\nprinter: connected to p\nprinter: disconnected\n";
    assert!(rt; link.log().written() == Some(wanted));
}

// The first line of a host, and its last one.
#[test]
fn first_and_last(rt: HostRuntime) {
    let mut log = new_log(rt.alloc());
    log_serving(&mut log, &name(&rt, "127.0.0.1:5000"));
    log_stopped(&mut log);
    assert!(rt; log.written() == Some(b"serving at http://127.0.0.1:5000\nstopped\n"));
}
