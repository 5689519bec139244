//! A log of events.
ghost use Rattle.std.specs.Prelude.{◌≡◌, [], ◌∷◌, IfOk};

use octo_floor_bay::EventLog;
use std::alloc::{AllocError, Global};
use std::test::Fail;

// A log of two numbers, the first one first.
fn log_of_two(alloc: Global) -> Result<EventLog<u32>, AllocError>
    ensures { IfOk result (λ log. log ≡ 7 ∷ 8 ∷ []) }
{
    let mut log = EventLog::new(alloc)?;
    log.add(&7);
    log.add(&8);
    Ok(log)
}

#[test]
fn two_events_are_added(rt: HostRuntime) -> Result<(), Fail> {
    log_of_two(rt.alloc())?;
    Ok(())
}
