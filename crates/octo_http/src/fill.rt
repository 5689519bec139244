//! Reading a given number of bytes.
ghost use Rattle.std.specs.Prelude.{◌≡◌, ◌≤◌, ◌++◌, ℕ, List, length, take, drop, min, IfOk, OnOk, IfErr, OnErr};
ghost use Rattle.octo_http.specs.Input.{Took, Waits};
ghost use Rattle.octo_http.specs.Stops.{Stops, HasCause, IsShort};

use crate::MessageFault;
use crate::intake::{Came, Intake};
use octo_outside::{Blob, Conn};
use std::alloc::AllocError;

// Takes up to this number of the bytes at hand into the body.
fn move_bytes(intake: &mut Intake, body: &mut Blob, most: usize) -> Result<usize, AllocError>
    ensures count { IfOk result (λ n. n ≡ min most (length intake.old.bytes)) }
    ensures body { IfOk result (λ n. body.new ≡ body.old ++ take n intake.old.bytes) }
    ensures taken { IfOk result
        (λ n. intake.new ≡ record intake.old { bytes = drop n intake.old.bytes }) }
    ensures err { OnErr result (intake.new ≡ intake.old) }
{
    let bytes = intake.bytes();
    let n = most.min(bytes.len());
    body.append(&bytes[..n])?;
    intake.take(n);
    Ok(n)
}

// Takes the next `count` bytes into the body.
pub(crate) fn fill<C: Conn>(
    intake: &mut Intake,
    conn: &mut C,
    body: &mut Blob,
    count: usize,
) -> Result<(), MessageFault>
    ensures ok { OnOk result
        ((taken : List ℕ) × (length taken ≡ count) × (body.new ≡ body.old ++ taken)
        × Took intake.old.bytes (C.state conn.old).left intake.new.bytes (C.state conn.new).left taken) }
    ensures stops { IfErr result
        (Stops (IsShort count) intake.old.bytes (C.state conn.old).left (C.state conn.new).left) }

    // Counts, and what stays.
    ensures caused { IfErr result (HasCause intake.new (C.state conn.old).faults (C.state conn.new).faults) }
    ensures waits { Waits intake.old intake.new (C.state conn.old).faults (C.state conn.new).faults
        (C.state conn.old).quiets (C.state conn.new).quiets }
    ensures written { (C.state conn.new).written ≡ (C.state conn.old).written }
{
    let mut due = count;
    let mut came = Came::Quiet;
    'filling: loop {
        due -= move_bytes(intake, body, due)?;
        if due == 0 {
            return Ok(());
        }
        intake.go_on(came)?;
        came = intake.fetch_due(conn, due)?;
    }
}
