//! Where bytes are written.
ghost use Rattle.std.specs.Prelude.{◌≡◌, ℕ, ◌+◌, ◌<◌, ◌≤◌, List, [], ◌∷◌, ◌++◌, Option, Some, None, true, length, take, IfOk, OnOk, OnErr, IsErr, IsTrue, MatchResult, ◌↔◌};
ghost use Rattle.octo_outside.specs.Recorded.{Became, Adds, AddsPrefix, Counts};
ghost use Rattle.octo_outside.specs.Memory.{SinkData, one_more, is_listed};

use crate::{Blob, CallList, Calls, Failed};
use std::alloc::Global;
use std::io::Print;
use std::marker::Model;

/// A place for output.
pub trait Sink {
    /// What was written, if recorded.
    ghost written: { Self → Option (List ℕ) };

    /// How many calls failed.
    ghost faults: { Self → ℕ };

    /// Takes 1 to all of the bytes, a prefix. After a failed call nothing was taken.
    fn write(&mut self, bytes: &[u8]) -> Result<usize, Failed>
        requires { 0 < length bytes.now }
        ensures ok { IfOk result
            (λ n. Adds (written self.old) (written self.new) (take n bytes.now)) }
        ensures some { IfOk result (λ n. (0 < n) × (n ≤ length bytes.now)) }
        ensures err { OnErr result (Adds (written self.old) (written self.new) []) }
        ensures counts { Counts (IsErr result) (faults self.old) (faults self.new) };
}

/// Writes all the bytes; after a failed call a prefix of them was written.
pub fn write_all<S: Sink>(sink: &mut S, bytes: &[u8]) -> Result<(), Failed>
    ensures ok { OnOk result (Adds (S.written sink.old) (S.written sink.new) bytes.now) }
    ensures err { OnErr result (AddsPrefix (S.written sink.old) (S.written sink.new) bytes.now) }
    ensures counts { Counts (IsErr result) (S.faults sink.old) (S.faults sink.new) }
{
    let mut done = 0;
    while done < bytes.len() {
        done += sink.write(&bytes[done..])?;
    }
    Ok(())
}

/// A sink that keeps what was written.
#[derive(Drop)]
pub struct MemorySink {
    written: Blob,
    calls: Calls,
}

impl Model for MemorySink {
    ghost Value = { SinkData };

    ghost view = { λ s. record {
      written = s.written;
      calls = s.calls.made;
      faults = s.calls.faults;
      fail_at = s.calls.fail_at;
    } };
}

impl MemorySink {
    /// An empty sink whose calls with these numbers, from 1, fail; takes no memory.
    pub fn new(alloc: Global, fail_at: CallList) -> Self
        ensures { result ≡ record { written = []; calls = 0; faults = 0; fail_at = fail_at } }
    {
        MemorySink {
            written: Blob::new(alloc),
            calls: Calls::new(fail_at),
        }
    }

    /// What was written.
    pub fn written(&self) -> Option<&[u8]>
        ensures { (bytes : _) × (result ≡ Some bytes) × (bytes.now ≡ self.now.written) }
    {
        Some(self.written.as_slice())
    }
}

impl Sink for MemorySink {
    ghost written = { λ s. Some s.written };

    ghost faults = { λ s. s.faults };

    fn write(&mut self, bytes: &[u8]) -> Result<usize, Failed>
        requires { 0 < length bytes.now }
        ensures all { IfOk result (λ n. n ≡ length bytes.now) }
        ensures kept { OnOk result (self.new ≡ record self.old {
          written = self.old.written ++ bytes.now;
          calls = one_more self.old.calls;
        }) }
        ensures refused { OnErr result (self.new ≡ record self.old {
          calls = one_more self.old.calls;
          faults = one_more self.old.faults;
        }) }
        ensures fails { IsTrue (is_listed self.old.fail_at (one_more self.old.calls))
            → IsErr result }
        ensures ok { IfOk result
            (λ n. Adds (Some self.old.written) (Some self.new.written) (take n bytes.now)) }
        ensures some { IfOk result (λ n. (0 < n) × (n ≤ length bytes.now)) }
        ensures err { OnErr result (Adds (Some self.old.written) (Some self.new.written) []) }
        ensures counts { Counts (IsErr result) self.old.faults self.new.faults }
    {
        if self.calls.begin() || self.written.append(bytes).is_err() {
            self.calls.fail();
            return Err(Failed);
        }
        Ok(bytes.len())
    }
}

/// The standard output. It does not record what was written.
#[derive(Drop)]
pub struct StdSink<R: Drop> {
    rt: R,
    faults: u64,
}

impl<R: Drop> StdSink<R> {
    /// The standard output of this runtime.
    pub fn new(rt: R) -> Self
        ensures { result.faults ≡ 0 }
    {
        StdSink { rt, faults: 0 }
    }
}

impl<R: Print + Drop> Sink for StdSink<R> {
    ghost written = { λ _. None };

    ghost faults = { λ s. s.faults };

    fn write(&mut self, bytes: &[u8]) -> Result<usize, Failed> {
        if let Ok(n) = self.rt.write_some(bytes)
            && n > 0
        {
            return Ok(n);
        }
        self.faults = self.faults.saturating_add(1);
        Err(Failed)
    }
}
