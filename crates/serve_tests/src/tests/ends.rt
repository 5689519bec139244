//! Workers at work at once, and how a host ends.
use super::*;
use octo_outside_doors::{Door, Doors, MemoryDoor};
use std::alloc::Global;
use std::process::Abort;
use std::sync::Wait;
use std::thread::Threads;
use std::time::Clock;
use test_makers::door_of;

// Serves at these doors with a host whose link loses no line; returns the number of calls, and whether no door failed.
fn serve_at<R: Threads + Wait + Abort + Clock + Copy + Send + Sync + Drop, D: Door + Send + Drop>(
    rt: &R,
    alloc: Global,
    doors: &mut Doors<D>,
) -> (u64, bool) {
    let mut bench = Bench::new(rt, alloc, 0);
    let served = bench.serve(rt, doors);
    bench.end();
    served
}

// The connection at one door is read only once that at another was answered, whichever workers they have.
#[test]
fn two_at_once(rt: HostRuntime) {
    let mut doors = gates(&rt, rt.alloc(), VERSION, VERSION);
    let served = serve_at(&rt, rt.alloc(), &mut doors);
    let first = has_status(doors.a.reply(), "200");
    let second = has_status(doors.b.reply(), "200");
    end_doors(doors);
    assert_eq!(rt; served, (2, true));
    assert!(rt; first && second);
}

#[test]
fn two_at_once_exchanged(rt: HostRuntime) {
    let Doors { a, b, c, d } = gates(&rt, rt.alloc(), VERSION, VERSION);
    let mut doors = Doors { a: b, b: a, c, d };
    let served = serve_at(&rt, rt.alloc(), &mut doors);
    let first = has_status(doors.a.reply(), "200");
    let second = has_status(doors.b.reply(), "200");
    end_doors(doors);
    assert_eq!(rt; served, (2, true));
    assert!(rt; first && second);
}

// A shutdown that is accepted ends the host. The connection that waits meanwhile is refused, or left where it is if its worker
// begins only afterwards.
#[test]
fn shutdown(rt: HostRuntime) {
    let mut doors = gates(&rt, rt.alloc(), VERSION, SHUTDOWN);
    let served = serve_at(&rt, rt.alloc(), &mut doors);
    let accepted = has_status(doors.b.reply(), "204");
    let late = doors.a.reply();
    let refused = late.is_empty() || has_status(late, "503");
    end_doors(doors);
    assert_eq!(rt; served, (1, true));
    assert!(rt; accepted);
    assert!(rt; refused);
}

fn door(rt: &impl Abort, alloc: Global, inputs: &[&[u8]], fails: &[u64]) -> MemoryDoor {
    door_of(alloc, inputs, fails).expect(rt, "no memory")
}

fn failing_doors(rt: &impl Abort, alloc: Global) -> Doors<MemoryDoor> {
    Doors {
        a: door(rt, alloc, &[VERSION, VERSION], &[]),
        b: door(rt, alloc, &[VERSION], &[1]),
        c: door(rt, alloc, &[], &[]),
        d: door(rt, alloc, &[VERSION], &[]),
    }
}

// A door whose first call fails: the others are served.
#[test]
fn failing_door(rt: HostRuntime) {
    let mut doors = failing_doors(&rt, rt.alloc());
    let served = serve_at(&rt, rt.alloc(), &mut doors);
    let two = has_served(&doors.a, 2);
    let none = has_served(&doors.b, 0);
    let one = has_served(&doors.d, 1);
    end_doors(doors);
    assert_eq!(rt; served, (3, false));
    assert_eq!(rt; (two, none, one), (true, true, true));
}
