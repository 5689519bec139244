//! Reading the head of a message.
ghost use Rattle.std.specs.Prelude.{◌≡◌, ◌≢◌, ◌<◌, ◌≤◌, ◌++◌, ℕ, List, length, IfOk, IfErr, IfSome, IfNone, OnErr};
ghost use Rattle.octo_http.specs.Input.{Took, Waits};
ghost use Rattle.octo_http.specs.Stops.{Stops, HasCause, Refuses, Lacks};
ghost use Rattle.octo_http.specs.Head.{IsHead, HeadFault, most_head};
ghost use Rattle.octo_http.specs.Taken.{TakesHead};

use crate::intake::{Came, Intake};
use crate::looks::{Looks, front_of};
use crate::{Head, MessageFault, look};
use octo_outside::Conn;
use std::alloc::Global;

// How many bytes a head may have.
const MOST_HEAD: usize = 16384;

// Takes a head from the bytes at hand, if they begin with one and it's time to look.
fn try_head(
    alloc: Global,
    intake: &mut Intake,
    looks: &mut Looks,
    came: Came,
) -> Result<Option<Head>, MessageFault>
    ensures head { IfOk result (λ found. IfSome found (TakesHead intake.old intake.new)) }
    ensures none { IfOk result
        (λ found. IfNone found (Lacks HeadFault most_head intake.new.bytes came)) }
    ensures same { IfOk result (λ found. IfNone found (intake.new ≡ intake.old)) }
    ensures refused { IfErr result (Refuses HeadFault intake.old.bytes) }
    ensures err { OnErr result (intake.new ≡ intake.old) }
{
    let bytes = intake.bytes();
    if !looks.is_due(bytes, came, b"\r\n\r\n", MOST_HEAD) {
        return Ok(None);
    }
    match look(alloc, front_of(bytes, MOST_HEAD))? {
        Some(found) => {
            intake.take(found.length);
            Ok(Some(found.head))
        }
        None if bytes.len() >= MOST_HEAD => Err(MessageFault::HeadTooLarge),
        None => Ok(None),
    }
}

// Reads the head of a message and takes it.
pub(crate) fn read_head<C: Conn>(
    alloc: Global,
    intake: &mut Intake,
    conn: &mut C,
) -> Result<Head, MessageFault>
    ensures head { IfOk result (λ head. (taken : List ℕ) × IsHead taken head
        × Took intake.old.bytes (C.state conn.old).left intake.new.bytes (C.state conn.new).left taken) }
    ensures stops { IfErr result
        (Stops HeadFault intake.old.bytes (C.state conn.old).left (C.state conn.new).left) }

    // Counts, and what stays.
    ensures caused { IfErr result (HasCause intake.new (C.state conn.old).faults (C.state conn.new).faults) }
    ensures waits { Waits intake.old intake.new (C.state conn.old).faults (C.state conn.new).faults
        (C.state conn.old).quiets (C.state conn.new).quiets }
    ensures written { (C.state conn.new).written ≡ (C.state conn.old).written }
{
    let mut looks = Looks::new();
    let mut came = Came::Quiet;
    'reading: loop {
        match try_head(alloc, intake, &mut looks, came)? {
            Some(head) => return Ok(head),
            None => {}
        }
        intake.go_on(came)?;
        came = intake.fetch(conn)?;
    }
}
