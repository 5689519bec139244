//! Connections in memory, and a door at which they come.
ghost use Rattle.std.specs.Prelude.{◌≡◌, ◌+◌, [], length, All, IfSome, Some};
ghost use Rattle.octo_outside_doors.specs.Memory.{IsUntouched};

use crate::lists::calls;
use octo_outside::{CallList, MemoryConn};
use octo_outside_doors::{ConnList, MemoryDoor};
use std::alloc::Global;

/// A connection with this input, none of whose calls fails.
pub fn conn_of(alloc: Global, input: &[u8]) -> Option<MemoryConn>
    ensures untouched { IfSome result IsUntouched }
    ensures input { IfSome result (λ conn. conn.left ≡ input.now) }
{
    MemoryConn::new(alloc, input, CallList::new(alloc), CallList::new(alloc)).ok()
}

fn with_conn(alloc: Global, conns: ConnList, input: &[u8]) -> Option<ConnList>
    requires { All IsUntouched conns }
    ensures untouched { IfSome result (All IsUntouched) }
    ensures count { IfSome result (λ grown. length grown ≡ length conns + 1) }
{
    let mut conns = conns;
    conns.push(conn_of(alloc, input)?).ok()?;
    Some(conns)
}

/// Connections with these inputs, in their order.
pub fn conns_of(alloc: Global, inputs: &[&[u8]]) -> Option<ConnList>
    ensures untouched { IfSome result (All IsUntouched) }
    ensures count { IfSome result (λ conns. length conns ≡ length inputs.now) }
{
    let mut conns = ConnList::new(alloc);
    for input in inputs {
        conns = with_conn(alloc, conns, input)?;
    }
    Some(conns)
}

/// A door at which connections with these inputs come. These calls of it fail, counted from 1.
pub fn door_of(alloc: Global, inputs: &[&[u8]], fails: &[u64]) -> Option<MemoryDoor>
    ensures coming { IfSome result (λ door. length door.coming ≡ length inputs.now) }
    ensures served { IfSome result (λ door. door.served ≡ Some []) }
    ensures fails { IfSome result (λ door. door.fail_at ≡ fails.now) }
{
    Some(MemoryDoor::new(
        alloc,
        conns_of(alloc, inputs)?,
        CallList::new(alloc),
        calls(alloc, fails)?,
    ))
}
