//! A body in chunks.
ghost use Rattle.std.specs.Prelude.{◌≡◌, ◌<◌, ◌≤◌, ◌++◌, ℕ, List, [], length, Ok, Err, Result, IfOk, IfErr};
ghost use Rattle.octo_http.specs.Input.{Took, Waits};
ghost use Rattle.octo_http.specs.Stops.{Stops, HasCause};
ghost use Rattle.octo_http.specs.Chunks.{Chunked, IsChunkFault, most_body};
ghost use Rattle.octo_http.specs.Taken.{AddsChunk};

use crate::fill::fill;
use crate::intake::Intake;
use crate::read_part::read_part;
use crate::{MessageFault, Part};
use octo_outside::{Blob, Conn};
use std::alloc::Global;

// How many bytes a body may have: a file of the most bytes, and 1 MiB for the form round it.
pub(crate) const MOST_BODY: u64 = 68_157_440;

// What was taken of a body in chunks.
#[derive(Clone, Copy, Debug, PartialEq, Eq)]
pub(crate) enum Added {
    Chunk,
    // The last chunk, which is empty, and the trailers.
    Last,
}

// Reads a chunk into the body and takes it, or the last one with the trailers.
fn read_chunk<C: Conn>(
    intake: &mut Intake,
    conn: &mut C,
    body: &mut Blob,
) -> Result<Added, MessageFault>
    requires { length body.old ≤ most_body }
    ensures chunk { IfOk result (λ added. (taken : List ℕ) × AddsChunk body.old body.new added taken
        × Took intake.old.bytes (C.state conn.old).left intake.new.bytes (C.state conn.new).left taken) }
    ensures stops { IfErr result
        (Stops (IsChunkFault body.old) intake.old.bytes (C.state conn.old).left (C.state conn.new).left) }

    // Counts, and what stays.
    ensures caused { IfErr result (HasCause intake.new (C.state conn.old).faults (C.state conn.new).faults) }
    ensures waits { Waits intake.old intake.new (C.state conn.old).faults (C.state conn.new).faults
        (C.state conn.old).quiets (C.state conn.new).quiets }
    ensures written { (C.state conn.new).written ≡ (C.state conn.old).written }
{
    let size = read_part(intake, conn, Part::Line)?;
    if size == 0 {
        read_part(intake, conn, Part::Trailers)?;
        return Ok(Added::Last);
    }
    if size > MOST_BODY - body.len() as u64 {
        return Err(MessageFault::BodyTooLarge);
    }
    fill(intake, conn, body, size as usize)?;
    read_part(intake, conn, Part::LineEnd)?;
    Ok(Added::Chunk)
}

// Reads a body in chunks and takes it.
pub(crate) fn read_chunks<C: Conn>(
    alloc: Global,
    intake: &mut Intake,
    conn: &mut C,
) -> Result<Blob, MessageFault>
    ensures body { IfOk result
        (λ body. (taken : List ℕ) × ((more : List ℕ) → Chunked [] (taken ++ more) (Ok body))
        × Took intake.old.bytes (C.state conn.old).left intake.new.bytes (C.state conn.new).left taken) }
    ensures stops { IfErr result
        (Stops (IsChunkFault []) intake.old.bytes (C.state conn.old).left (C.state conn.new).left) }

    // Counts, and what stays.
    ensures caused { IfErr result (HasCause intake.new (C.state conn.old).faults (C.state conn.new).faults) }
    ensures waits { Waits intake.old intake.new (C.state conn.old).faults (C.state conn.new).faults
        (C.state conn.old).quiets (C.state conn.new).quiets }
    ensures written { (C.state conn.new).written ≡ (C.state conn.old).written }
{
    let mut body = Blob::new(alloc);
    'chunks: loop {
        match read_chunk(intake, conn, &mut body)? {
            Added::Chunk => {}
            Added::Last => return Ok(body),
        }
    }
}
