//! An ask that waits at a counter in memory.
ghost use Rattle.std.specs.Prelude.{◌≡◌};

use crate::Ask;

/// A worker's ask, and a copy of it for the history.
#[derive(Drop)]
pub struct Asked {
    pub worker: u8,
    pub ask: Ask,
    pub copy: Ask,
    ghost same: { copy ≡ ask },
}
