//! The stagers of the four workers.
ghost use Rattle.std.specs.Prelude.{◌≡◌, IfOk};

use octo_keeper::Shelf;
use std::alloc::AllocError;

// A stager for each worker.
#[derive(Drop)]
pub(crate) struct Stagers<P: Drop> {
    pub a: P,
    pub b: P,
    pub c: P,
    pub d: P,
}

// Stagers of a shelf, each with a part of its own. Fails if out of memory.
pub(crate) fn stagers_of<S: Shelf>(shelf: &S) -> Result<Stagers<S::Stager>, AllocError>
    ensures a { IfOk result (λ stagers. S.Stager.number stagers.a ≡ 0) }
    ensures b { IfOk result (λ stagers. S.Stager.number stagers.b ≡ 1) }
    ensures c { IfOk result (λ stagers. S.Stager.number stagers.c ≡ 2) }
    ensures d { IfOk result (λ stagers. S.Stager.number stagers.d ≡ 3) }
{
    Ok(Stagers {
        a: shelf.stager(0)?,
        b: shelf.stager(1)?,
        c: shelf.stager(2)?,
        d: shelf.stager(3)?,
    })
}
