//! Whole hosts, by their settings, and keepers that were opened. Out of memory, a test stops.
ghost use Rattle.std.specs.Prelude.{◌≡◌, false, true};
ghost use Rattle.printer_link.specs.Memory.{link_world};

use octo_keeper::{Keeper, KeeperFault, MemoryKeeper, MemoryShelf};
use octo_outside::{CallList, MemoryClock, MemoryConn, MemorySink, MemorySource};
use octo_outside_doors::{Doors, MemoryDoor};
use octo_serve_command::{HostEnd, HostReport, Opened, host, write_host_report};
use printer_link::{FateList, MemoryLink};
use std::alloc::Global;
use std::process::Abort;
use std::sync::Wait;
use std::thread::Threads;
use test_makers::{calls, door_of, keeper_of, link_at, no_rows, shelf_of};

// The admin's key is rootxkeyx0000000.
const SETTINGS: &[u8] =
    b"[printer]\nports = [\"p\"]\n[limits]\n[admin]\nname = \"root\"\nkey_sha256 = \"470dc872b1b47dac8456c9f0800583d1176d1a2f194b626000379d1d7d7fc920\"\n";

const SHUTDOWN: &[u8] =
    b"POST /api/system/commands/core/shutdown HTTP/1.1\r\nX-Api-Key: rootxkeyx0000000\r\n\r\n";

const VERSION: &[u8] = b"GET /api/version HTTP/1.1\r\nX-Api-Key: rootxkeyx0000000\r\n\r\n";

// A host's surroundings, and which of their calls fail.
#[derive(Clone, Copy)]
struct Row {
    settings: &'static [u8],
    inputs: &'static [&'static [u8]],
    source_fails: &'static [u64],
    keeper_fails: &'static [u64],
    shelf_fails: &'static [u64],
    door_fails: &'static [u64],
    code: u8,
    text: &'static [u8],
    replies: &'static [u8],
}

// Two calls, the second of which shuts the host down.
const SHUT: Row = Row {
    settings: SETTINGS,
    inputs: &[VERSION, SHUTDOWN],
    source_fails: &[],
    keeper_fails: &[],
    shelf_fails: &[],
    door_fails: &[],
    code: 0,
    text: b"served 2 calls\n",
    replies: b"200 204 ",
};

// A host that doesn't begin.
const UNSERVED: Row = Row {
    replies: b"",
    ..SHUT
};

fn put(rt: &impl Abort, files: &mut MemorySource, name: &str, bytes: &[u8]) {
    assert!(rt; files.put(name, bytes).is_ok());
}

// A source whose file s has the settings.
fn files(rt: &impl Abort, alloc: Global, row: &Row) -> MemorySource {
    let fails = calls(alloc, row.source_fails).expect(rt, "no memory");
    let mut files = MemorySource::new(alloc, fails);
    put(rt, &mut files, "s", row.settings);
    files
}

fn door(rt: &impl Abort, alloc: Global, inputs: &[&[u8]], fails: &[u64]) -> MemoryDoor {
    door_of(alloc, inputs, fails).expect(rt, "no memory")
}

// Doors, at the first of which the row's connections come.
fn doors(rt: &impl Abort, alloc: Global, row: &Row) -> Doors<MemoryDoor> {
    Doors {
        a: door(rt, alloc, row.inputs, row.door_fails),
        b: door(rt, alloc, &[], &[]),
        c: door(rt, alloc, &[], &[]),
        d: door(rt, alloc, &[], &[]),
    }
}

fn link(rt: &impl Abort, alloc: Global) -> MemoryLink
    ensures down { (link_world result).linked ≡ false }
    ensures plain { result.story.oks.lost ≡ false }
    ensures numbered { result.story.oks.numbered ≡ true }
{
    link_at(alloc, "p", FateList::new(alloc)).expect(rt, "no memory")
}

fn keeper(rt: &impl Abort, alloc: Global, fails: &[u64]) -> MemoryKeeper {
    keeper_of(alloc, no_rows(alloc), fails).expect(rt, "no memory")
}

fn shelf(rt: &impl Abort, alloc: Global, fails: &[u64]) -> MemoryShelf {
    shelf_of(alloc, fails).expect(rt, "no memory")
}

// What a host works with.
struct HostBench {
    files: MemorySource,
    link: MemoryLink,
    clock: MemoryClock,
    keeper: MemoryKeeper,
    shelf: MemoryShelf,
    doors: Doors<MemoryDoor>,
}

impl HostBench {
    // That of a row, whose connections come at its first door.
    fn of(rt: &impl Abort, alloc: Global, row: &Row) -> HostBench
        ensures down { (link_world result.link).linked ≡ false }
        ensures plain { result.link.story.oks.lost ≡ false }
        ensures numbered { result.link.story.oks.numbered ≡ true }
    {
        HostBench {
            files: files(rt, alloc, row),
            link: link(rt, alloc),
            clock: MemoryClock::new(0, 1),
            keeper: keeper(rt, alloc, row.keeper_fails),
            shelf: shelf(rt, alloc, row.shelf_fails),
            doors: doors(rt, alloc, row),
        }
    }

    fn host<R: Threads + Wait + Clone + Send + Sync + Drop>(
        &mut self,
        rt: &R,
        alloc: Global,
    ) -> HostEnd
        requires down { (link_world self.old.link).linked ≡ false }
        requires plain { self.old.link.story.oks.lost ≡ false }
        requires numbered { self.old.link.story.oks.numbered ≡ true }
    {
        host(
            rt,
            alloc,
            &mut self.files,
            "s",
            &mut self.link,
            &mut self.clock,
            &mut self.keeper,
            &mut self.shelf,
            &mut self.doors,
            MemorySink::new(alloc, CallList::new(alloc)),
        )
    }

    // Drops its parts one by one. A test in which they go out of scope would have to prove their drops itself.
    fn end(self) {
        let HostBench {
            files,
            link,
            clock,
            keeper,
            shelf,
            doors,
        } = self;
        drop(files);
        drop(link);
        drop(clock);
        drop(keeper);
        drop(shelf);
        drop(doors);
    }
}

fn write(rt: &impl Abort, out: &mut MemorySink, report: &HostReport) {
    assert!(rt; write_host_report(out, report).is_ok());
}

fn assert_text(rt: &impl Abort, alloc: Global, report: &HostReport, text: &[u8]) {
    let mut out = MemorySink::new(alloc, CallList::new(alloc));
    write(rt, &mut out, report);
    assert_eq!(rt; out.written().unwrap_or(&[]), text);
    drop(out);
}

// The end of a host is that of the row.
fn assert_end(rt: &impl Abort, alloc: Global, ended: HostEnd, row: &Row) {
    assert_text(rt, alloc, &ended.report, row.text);
    assert_eq!(rt; ended.report.code(), row.code);
    assert_eq!(rt; ended.history.is_some(), row.code == 0 || row.code == 12);
    drop(ended);
}

// The status of a connection's reply; `-` without one.
fn status_of(conn: &MemoryConn) -> &[u8] {
    conn.written().unwrap_or(b"").get(9..12).unwrap_or(b"-")
}

// The statuses of the replies at a door, in order.
fn statuses(rt: &impl Abort, alloc: Global, door: &MemoryDoor) -> Vec<u8> {
    let mut texts = Vec::new(alloc);
    for conn in door.served().unwrap_or(&[]) {
        assert!(rt; texts.extend_from_slice(status_of(conn)).is_ok());
        assert!(rt; texts.push(b' ').is_ok());
    }
    texts
}

fn assert_replies(rt: &impl Abort, alloc: Global, door: &MemoryDoor, wanted: &[u8]) {
    let texts = statuses(rt, alloc, door);
    assert_eq!(rt; texts.as_slice(), wanted);
    drop(texts);
}

// A host by a row.
fn assert_row<R: Threads + Wait + Clone + Send + Sync + Drop + Abort>(
    rt: &R,
    alloc: Global,
    row: &Row,
) {
    let mut bench = HostBench::of(rt, alloc, row);
    let ended = bench.host(rt, alloc);
    assert_end(rt, alloc, ended, row);
    assert_replies(rt, alloc, &bench.doors.a, row.replies);
    bench.end();
}

#[test]
fn ample(rt: HostRuntime) {
    assert_row(&rt, rt.alloc(), &SHUT);
}

// The settings are refused, or can't be read; the tables or the files can't.
const REFUSED: [Row; 4] = [
    Row {
        settings: b"[printer]\n",
        code: 7,
        text: b"settings: printer.ports: missing\n",
        ..UNSERVED
    },
    Row {
        source_fails: &[1],
        code: 4,
        text: b"source failed\n",
        ..UNSERVED
    },
    Row {
        keeper_fails: &[1],
        code: 9,
        text: b"keeper failed\n",
        ..UNSERVED
    },
    Row {
        shelf_fails: &[1],
        code: 9,
        text: b"shelf failed\n",
        ..UNSERVED
    },
];

#[test]
fn unserved(rt: HostRuntime) {
    for row in &REFUSED {
        assert_row(&rt, rt.alloc(), row);
    }
}

// A door that fails at once, and one that fails after a call: the others serve on until they end.
const AT_ONCE: Row = Row {
    door_fails: &[1],
    code: 12,
    text: b"served 0 calls\ndoor failed\n",
    replies: b"",
    ..SHUT
};

const LATER: Row = Row {
    door_fails: &[2],
    code: 12,
    text: b"served 1 calls\ndoor failed\n",
    replies: b"200 ",
    ..SHUT
};

#[test]
fn a_door_that_fails(rt: HostRuntime) {
    assert_row(&rt, rt.alloc(), &AT_ONCE);
    assert_row(&rt, rt.alloc(), &LATER);
}

// Why the tables of a keeper aren't loaded.
fn load_fault<K: Keeper>(alloc: Global, keeper: &mut K) -> Option<KeeperFault> {
    keeper.load(alloc).err()
}

// Whether a keeper was opened.
fn was_opened(keeper: Opened<MemoryKeeper>) -> bool {
    let kept = keeper.into_keeper().ok();
    let is_some = kept.is_some();
    drop(kept);
    is_some
}

// A keeper that wasn't opened returns the fault of its opening.
fn assert_unopened(rt: &impl Abort, alloc: Global, fault: KeeperFault) {
    let mut unopened: Opened<MemoryKeeper> = Opened::new(Err(fault));
    assert!(rt; load_fault(alloc, &mut unopened) == Some(fault));
    assert!(rt; unopened.backup(alloc) == Err(fault));
    assert!(rt; !was_opened(unopened));
}

// One that was opened returns its tables.
fn assert_opened(rt: &impl Abort, alloc: Global) {
    let mut opened = Opened::new(Ok(keeper(rt, alloc, &[])));
    assert!(rt; load_fault(alloc, &mut opened).is_none());
    assert!(rt; opened.backup(alloc) == Ok(()));
    assert!(rt; was_opened(opened));
}

#[test]
fn opened_keepers(rt: HostRuntime) {
    assert_unopened(&rt, rt.alloc(), KeeperFault::Failed);
    assert_unopened(&rt, rt.alloc(), KeeperFault::NoMemory);
    assert_opened(&rt, rt.alloc());
}
