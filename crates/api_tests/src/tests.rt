//! Paths, messages and answers, and a worker that turns messages into replies.
ghost use Rattle.std.specs.Prelude.{IfOk};
ghost use Rattle.octo_outside_doors.specs.Memory.{IsUntouched};

mod replies;
mod requests;
mod routes;
mod worker;

use octo_outside::{CallList, MemoryConn};
use std::alloc::{AllocError, Global};

// A connection of this input, none of whose calls fails or finds nothing.
fn conn_of(alloc: Global, input: &[u8]) -> Result<MemoryConn, AllocError>
    ensures { IfOk result IsUntouched }
{
    MemoryConn::new(alloc, input, CallList::new(alloc), CallList::new(alloc))
}
