//! Reading the parts round the bytes of a chunked body.
ghost use Rattle.std.specs.Prelude.{◌≡◌, ◌++◌, ℕ, List, length, IfOk, IfErr, IfSome, IfNone, OnErr};
ghost use Rattle.octo_http.specs.Input.{Took, Waits};
ghost use Rattle.octo_http.specs.Stops.{Stops, HasCause, Refuses, Lacks};
ghost use Rattle.octo_http.specs.Part.{most_of, IsPart, PartFault};
ghost use Rattle.octo_http.specs.Taken.{TakesPart};

use crate::intake::{Came, Intake};
use crate::looks::{Looks, front_of};
use crate::{MessageFault, Part, look_part};
use octo_outside::Conn;

// Takes a part from the bytes at hand, if they begin with it and it's time to look.
fn try_part(
    intake: &mut Intake,
    looks: &mut Looks,
    came: Came,
    part: Part,
) -> Result<Option<u64>, MessageFault>
    ensures found { IfOk result (λ found. IfSome found (TakesPart part intake.old intake.new)) }
    ensures none { IfOk result
        (λ found. IfNone found (Lacks (PartFault part) (most_of part) intake.new.bytes came)) }
    ensures same { IfOk result (λ found. IfNone found (intake.new ≡ intake.old)) }
    ensures refused { IfErr result (Refuses (PartFault part) intake.old.bytes) }
    ensures err { OnErr result (intake.new ≡ intake.old) }
{
    let bytes = intake.bytes();
    let most = part.most();
    if !looks.is_due(bytes, came, part.mark(), most) {
        return Ok(None);
    }
    match look_part(part, front_of(bytes, most))? {
        Some((number, length)) => {
            intake.take(length);
            Ok(Some(number))
        }
        None if bytes.len() >= most => Err(MessageFault::BadChunk),
        None => Ok(None),
    }
}

// Reads a part and takes it; a chunk's line has the chunk's size.
pub(crate) fn read_part<C: Conn>(
    intake: &mut Intake,
    conn: &mut C,
    part: Part,
) -> Result<u64, MessageFault>
    ensures part { IfOk result (λ n. (taken : List ℕ) × IsPart part taken n
        × Took intake.old.bytes (C.state conn.old).left intake.new.bytes (C.state conn.new).left taken) }
    ensures stops { IfErr result
        (Stops (PartFault part) intake.old.bytes (C.state conn.old).left (C.state conn.new).left) }

    // Counts, and what stays.
    ensures caused { IfErr result (HasCause intake.new (C.state conn.old).faults (C.state conn.new).faults) }
    ensures waits { Waits intake.old intake.new (C.state conn.old).faults (C.state conn.new).faults
        (C.state conn.old).quiets (C.state conn.new).quiets }
    ensures written { (C.state conn.new).written ≡ (C.state conn.old).written }
{
    let mut looks = Looks::new();
    let mut came = Came::Quiet;
    'reading: loop {
        match try_part(intake, &mut looks, came, part)? {
            Some(number) => return Ok(number),
            None => {}
        }
        intake.go_on(came)?;
        came = intake.fetch(conn)?;
    }
}
