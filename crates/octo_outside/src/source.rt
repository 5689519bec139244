//! Where files are read from.
ghost use Rattle.std.specs.Prelude.{◌≡◌, ℕ, ◌+◌, ◌<◌, ◌≤◌, ◌↔◌, List, [], ◌∷◌, ◌++◌, Option, Some, None, true, length, take, drop, IfOk, OnOk, OnErr, IfSome, IsOk, IsErr, IsErrOf, IsTrue};
ghost use Rattle.octo_outside.specs.Recorded.{Counts};
ghost use Rattle.octo_outside.specs.Traits.{Files, Begins, Reads, HoldsOver};
ghost use Rattle.octo_outside.specs.declared.source.ReadAll.TheVariants as fault;

use crate::{Blob, CallList, Failed};
use std::alloc::{AllocError, Global};
use std::marker::Model;
use thiserror::Error;

/// Files by their names.
pub trait Source {
    /// What each name holds, if recorded.
    ghost files: { Self → Option Files };

    /// What is left to read of the chosen name, if recorded.
    ghost left: { Self → Option (List ℕ) };

    /// How many calls failed.
    ghost faults: { Self → ℕ };

    /// Begins at the start of that name. A missing name is a fault; then nothing is left.
    fn choose(&mut self, name: &str) -> Result<(), Failed>
        ensures ok { OnOk result
            (IfSome (files self.old) (λ all. Begins all name.now (left self.new))) }
        ensures err { OnErr result (IfSome (left self.new) (λ rest. rest ≡ [])) }
        ensures files { files self.new ≡ files self.old }
        ensures counts { Counts (IsErr result) (faults self.old) (faults self.new) };

    /// Reads the next bytes of the chosen name, and 0 if nothing is left. A failed read leaves what is left.
    fn read(&mut self, into: &mut [u8]) -> Result<usize, Failed>
        requires { 0 < length into.old }
        ensures ok { IfOk result
            (λ n. IfSome (left self.old) (λ before. Reads before n into.new (left self.new))) }
        ensures bound { IfOk result (λ n. n ≤ length into.new) }
        ensures err { OnErr result (left self.new ≡ left self.old) }
        ensures files { files self.new ≡ files self.old }
        ensures counts { Counts (IsErr result) (faults self.old) (faults self.new) };
}

/// Why a file could not be read whole.
#[derive(Clone, Copy, Debug, PartialEq, Eq, Error)]
pub enum ReadAll {
    /// A call of the source failed.
    #[error("it can't be read")]
    Failed,
    /// The name holds more bytes than were allowed.
    #[error("it is too long")]
    TooLong,
    /// There is no memory for the bytes.
    #[error("out of memory")]
    NoMemory,
}

impl From<Failed> for ReadAll {
    ghost from_gives = { λ _ e. e ≡ fault.Failed };

    fn from(_: Failed) -> Self {
        ReadAll::Failed
    }
}

impl From<AllocError> for ReadAll {
    ghost from_gives = { λ _ e. e ≡ fault.NoMemory };

    fn from(_: AllocError) -> Self {
        ReadAll::NoMemory
    }
}

// How many bytes one read asks for.
const CHUNK: usize = 16384;

/// Reads all that a name holds, at most `most` bytes. `Failed` if a call of the source fails, as for a missing name; `TooLong` if the name
/// holds more; `NoMemory` if memory runs out.
pub fn read_all<F: Source>(
    alloc: Global,
    files: &mut F,
    name: &str,
    most: usize,
) -> Result<Blob, ReadAll>
    ensures ok { IfOk result
        (λ blob. IfSome (F.files files.old) (λ all. all name.now ≡ Some blob)) }
    ensures fits { IfOk result (λ blob. length blob ≤ most) }
    ensures too_long { IsErrOf result fault.TooLong
        → IfSome (F.files files.old) (λ all. HoldsOver (all name.now) most) }
    ensures absent { IfSome (F.files files.old)
        (λ all. all name.now ≡ None → IsErrOf result fault.Failed) }
    ensures files { F.files files.new ≡ F.files files.old }
    ensures counts { Counts (IsErrOf result fault.Failed)
        (F.faults files.old) (F.faults files.new) }
{
    files.choose(name)?;
    let mut blob = Blob::new(alloc);
    let mut chunk = [0; CHUNK];
    while blob.len() <= most {
        let n = files.read(&mut chunk)?;
        if n == 0 {
            return Ok(blob);
        }
        blob.append(&chunk[..n])?;
    }
    Err(ReadAll::TooLong)
}
