//! The body of a message.
ghost use Rattle.std.specs.Prelude.{◌≡◌, ◌++◌, ℕ, List, Ok, IfOk, IfErr};
ghost use Rattle.octo_http.specs.Input.{Took, Waits};
ghost use Rattle.octo_http.specs.Stops.{Stops, HasCause};
ghost use Rattle.octo_http.specs.Message.{ReadsBody, IsBodyFault};

use crate::chunks::{MOST_BODY, read_chunks};
use crate::fill::fill;
use crate::intake::Intake;
use crate::{Framing, MessageFault};
use octo_outside::{Blob, Conn};
use std::alloc::Global;

// Reads a body of this number of bytes and takes it.
fn read_length<C: Conn>(
    alloc: Global,
    intake: &mut Intake,
    conn: &mut C,
    length: u64,
) -> Result<Blob, MessageFault>
    ensures body { IfOk result
        (λ body. (taken : List ℕ)
        × ((more : List ℕ) → ReadsBody (Framing.Length length) (taken ++ more) (Ok body))
        × Took intake.old.bytes (C.state conn.old).left intake.new.bytes (C.state conn.new).left taken) }
    ensures stops { IfErr result
        (Stops (IsBodyFault (Framing.Length length)) intake.old.bytes (C.state conn.old).left
        (C.state conn.new).left) }

    // Counts, and what stays.
    ensures caused { IfErr result (HasCause intake.new (C.state conn.old).faults (C.state conn.new).faults) }
    ensures waits { Waits intake.old intake.new (C.state conn.old).faults (C.state conn.new).faults
        (C.state conn.old).quiets (C.state conn.new).quiets }
    ensures written { (C.state conn.new).written ≡ (C.state conn.old).written }
{
    if length > MOST_BODY {
        return Err(MessageFault::BodyTooLarge);
    }
    let mut body = Blob::new(alloc);
    fill(intake, conn, &mut body, length as usize)?;
    Ok(body)
}

// Reads the body of a message and takes it.
pub(crate) fn read_body<C: Conn>(
    alloc: Global,
    intake: &mut Intake,
    conn: &mut C,
    framing: Framing,
) -> Result<Blob, MessageFault>
    ensures body { IfOk result
        (λ body. (taken : List ℕ) × ((more : List ℕ) → ReadsBody framing (taken ++ more) (Ok body))
        × Took intake.old.bytes (C.state conn.old).left intake.new.bytes (C.state conn.new).left taken) }
    ensures stops { IfErr result
        (Stops (IsBodyFault framing) intake.old.bytes (C.state conn.old).left (C.state conn.new).left) }

    // Counts, and what stays.
    ensures caused { IfErr result (HasCause intake.new (C.state conn.old).faults (C.state conn.new).faults) }
    ensures waits { Waits intake.old intake.new (C.state conn.old).faults (C.state conn.new).faults
        (C.state conn.old).quiets (C.state conn.new).quiets }
    ensures written { (C.state conn.new).written ≡ (C.state conn.old).written }
{
    match framing {
        Framing::NoBody => Ok(Blob::new(alloc)),
        Framing::Length(length) => read_length(alloc, intake, conn, length),
        Framing::Chunked => {
            let body = read_chunks(alloc, intake, conn)?;
            Ok(body)
        }
    }
}
