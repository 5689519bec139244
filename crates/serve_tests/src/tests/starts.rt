//! Two workers ask at once to start a print.
ghost use Rattle.std.specs.Prelude.{◌≡◌, true, false};
ghost use Rattle.octo_house.specs.State.{session_of};
ghost use Rattle.octo_house_run.specs.Runs.{IsFresh};

use super::late_door::{LateDoor, gate};
use super::*;
use byte_text::Name;
use octo_asks::{Request, Upload};
use octo_outside_doors::Doors;
use std::alloc::Global;
use std::process::Abort;

const START: &[u8] =
    b"POST /api/job HTTP/1.1\r\nX-Api-Key: root-key-0123456789\r\nContent-Type: application/json\r\nContent-Length: 19\r\n\r\n{\"command\":\"start\"}";

const JOB: &[u8] = b"GET /api/job HTTP/1.1\r\nX-Api-Key: root-key-0123456789\r\n\r\n";

const PRINTING: &[u8] =
    b"409 Conflict\r\nConnection: close\r\nContent-Length: 41\r\nContent-Type: application/json\r\n\r\n{\"error\":\"WrongState\",\"state\":\"Printing\"}";

// More commands than a window holds.
const FILE: &[u8] = b"G28\nG1 X5\nG1 X10\nG1 X15\nG1 X20\nG1 X25\nG1 X30\n";

// A request that puts a file and selects it.
fn put_file(rt: &impl Abort, alloc: Global) -> Request {
    Request::PutFile {
        name: Name::from_text("a.gcode").expect(rt, "a long name"),
        file: Upload::read(alloc, FILE).expect(rt, "no memory"),
        select: true,
        print: false,
    }
}

// A host whose file is selected, and whose port is being connected.
fn connecting(rt: &impl Abort, alloc: Global) -> Bench
    ensures fresh { IsFresh (session_of result.house) }
    ensures plain { result.link.story.oks.lost ≡ false }
    ensures numbered { result.link.story.oks.numbered ≡ true }
{
    let mut bench = Bench::new(rt, alloc, 100);
    bench.ask(rt, put_file(rt, alloc));
    bench.ask(rt, Request::Connect { port: None });
    bench
}

// What the first worker is asked.
const FIRST: [&[u8]; 13] = [
    VERSION, VERSION, VERSION, VERSION, VERSION, VERSION, VERSION, VERSION, VERSION, VERSION,
    START, JOB, SHUTDOWN,
];

// Doors at which two workers ask to start a print, at once after ten calls of the one. Each call is followed by a turn of
// the link, so that the printer is operational by then.
fn starting_doors<R: Abort + Copy + Drop>(rt: &R, alloc: Global) -> Doors<LateDoor<R>> {
    let gate = gate(rt, alloc);
    let doors = Doors {
        a: LateDoor::new(rt, alloc, &gate, &FIRST, false, 10),
        b: LateDoor::new(rt, alloc, &gate, &[START], true, 0),
        c: LateDoor::new(rt, alloc, &gate, &[], false, 0),
        d: LateDoor::new(rt, alloc, &gate, &[], false, 0),
    };
    drop(gate);
    doors
}

fn is_started(reply: &[u8]) -> bool {
    has_status(reply, "204")
}

// Whether one worker's print was started, and the other one found it started.
fn is_one_started(one: &[u8], two: &[u8]) -> bool {
    (is_started(one) && two.ends_with(PRINTING)) || (is_started(two) && one.ends_with(PRINTING))
}

// Two workers ask at once to start the print, whose lines are lost. The first one's is started, the other one finds it
// started, and a look at the job finds it printing. A shutdown is refused meanwhile. The host goes on until the print has
// failed, since the printer doesn't answer.
#[test]
fn two_starts(rt: HostRuntime) {
    let mut bench = connecting(&rt, rt.alloc());
    let mut doors = starting_doors(&rt, rt.alloc());
    let served = bench.serve(&rt, &mut doors);
    let first = doors.a.door();
    let started = is_one_started(reply_at(first, 10), reply_at(doors.b.door(), 0));
    let printing = reply_at(first, 11).ends_with(b"\"state\":\"Printing\"}");
    let refused = reply_at(first, 12).ends_with(PRINTING);
    end_doors(doors);
    bench.end();
    assert_eq!(rt; served, (14, true));
    assert!(rt; started);
    assert!(rt; printing);
    assert!(rt; refused);
}
