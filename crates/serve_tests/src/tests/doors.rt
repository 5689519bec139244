//! Doors in memory, and what was replied at them.
use super::gate_door::GateDoor;
use octo_outside_doors::{Doors, MemoryDoor};
use std::alloc::Global;
use std::process::Abort;

// Drops the doors one by one, as `Bench::end` does its parts.
pub(super) fn end_doors<D: Drop>(doors: Doors<D>) {
    let Doors { a, b, c, d } = doors;
    drop(a);
    drop(b);
    drop(c);
    drop(d);
}

// Two connections, of which the first is read only once the second was given back.
pub(super) fn gates<R: Abort + Copy + Drop>(
    rt: &R,
    alloc: Global,
    one: &[u8],
    two: &[u8],
) -> Doors<GateDoor<R>> {
    GateDoor::four(rt, alloc, one, two)
}

// The status of a reply.
fn status(reply: &[u8]) -> &[u8] {
    reply.get(9..12).unwrap_or(b"-")
}

// Whether the reply has this status.
pub(super) fn has_status(reply: &[u8], wanted: &str) -> bool {
    status(reply) == wanted.as_bytes()
}

// Whether this number of connections was given back, each with a reply of status 200.
pub(super) fn has_served(door: &MemoryDoor, count: usize) -> bool {
    let conns = door.served().unwrap_or(&[]);
    for conn in conns {
        if !has_status(conn.written().unwrap_or(b""), "200") {
            return false;
        }
    }
    conns.len() == count
}

// The reply to the connection at this place, counted from 0.
pub(super) fn reply_at(door: &MemoryDoor, place: usize) -> &[u8] {
    match door.served().unwrap_or(&[]).get(place) {
        Some(conn) => conn.written().unwrap_or(b""),
        None => b"",
    }
}
