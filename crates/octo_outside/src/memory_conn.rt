//! A connection in memory, some of whose calls fail or find nothing yet.
use crate::{Blob, CallList, Calls, Conn, Failed, Got};
use std::alloc::{AllocError, Global};
use std::marker::Model;

/// A connection that returns an input and keeps what was written. The peer has closed after the input.
#[derive(Drop)]
pub struct MemoryConn {
    input: Blob,
    // How many bytes of the input are left.
    unread: usize,
    written: Blob,
    calls: Calls,
    quiets: u64,
    quiet_at: CallList,
}

impl Model for MemoryConn {
    ghost use Rattle.std.specs.Prelude.{◌≤◌, length};
    ghost use Rattle.octo_outside.specs.Memory.{ConnData, last_of};

    ghost Value = { ConnData };

    ghost view = { λ c. record {
      left = last_of c.unread c.input;
      written = c.written;
      calls = c.calls.made;
      faults = c.calls.faults;
      quiets = c.quiets;
      quiet_at = c.quiet_at;
      fail_at = c.calls.fail_at;
    } };

    ghost invariant = { λ c. c.unread ≤ length c.input };
}

impl MemoryConn {
    ghost use Rattle.std.specs.Prelude.{◌≡◌, ◌<◌, ◌≤◌, [], ◌++◌, Some, IfOk, drop, length, min, take};
    ghost use Rattle.octo_outside.specs.Memory.{ConnData, one_more, is_listed};

    /// A connection with this input. Of its calls, counted from 1, those of `fail_at` fail, and those of `quiet_at` find
    /// nothing yet if something is left. Fails if out of memory.
    pub fn new(
        alloc: Global,
        input: &[u8],
        quiet_at: CallList,
        fail_at: CallList,
    ) -> Result<Self, AllocError>
        ensures { IfOk result
            (λ c. c ≡ record {
              left = input.now;
              written = [];
              calls = 0;
              faults = 0;
              quiets = 0;
              quiet_at = quiet_at;
              fail_at = fail_at;
            }) }
    {
        let input = Blob::from_slice(alloc, input)?;
        let unread = input.len();
        Ok(MemoryConn {
            input,
            unread,
            written: Blob::new(alloc),
            calls: Calls::new(fail_at),
            quiets: 0,
            quiet_at,
        })
    }

    /// What was written.
    pub fn written(&self) -> Option<&[u8]>
        ensures { (bytes : _) × (result ≡ Some bytes) × (bytes.now ≡ self.now.written) }
    {
        Some(self.written.as_slice())
    }

    // What is left to read.
    fn rest(&self) -> &[u8]
        ensures { result.now ≡ self.now.left }
    {
        let bytes = self.input.as_slice();
        &bytes[bytes.len() - self.unread..]
    }

    // Counts n bytes as read.
    fn advance(&mut self, n: usize)
        requires { n ≤ length self.old.left }
        ensures { self.new ≡ record self.old { left = drop n self.old.left } }
    {
        self.unread -= n;
    }

    // A read found nothing yet.
    fn count_quiet(&mut self)
        ensures counts { self.new ≡ record self.old { quiets = one_more self.old.quiets } }
        ensures counted { self.old.quiets ≤ self.new.quiets }
    {
        self.quiets = self.quiets.saturating_add(1);
    }

    // Whether this call is one of those that find nothing yet.
    fn is_quiet(&self) -> bool
        ensures { result ≡ is_listed self.now.quiet_at self.now.calls }
    {
        self.calls.is_latest_in(&self.quiet_at)
    }

    // Copies the next bytes, at least one.
    fn give(&mut self, into: &mut [u8]) -> usize
        requires room { 0 < length into.old }
        requires some { 0 < length self.old.left }
        ensures most { result ≡ min (length into.old) (length self.old.left) }
        ensures next { take result into.new ≡ take result self.old.left }
        ensures after { self.new ≡ record self.old { left = drop result self.old.left } }
    {
        let rest = self.rest();
        let n = into.len().min(rest.len());
        into[..n].copy_from_slice(&rest[..n]);
        self.advance(n);
        n
    }
}

impl Conn for MemoryConn {
    ghost use Rattle.std.specs.Prelude.{◌≡◌, ◌<◌, ◌≤◌, ◌↔◌, ◌++◌, [], Some, true, false, length, min, take, IfOk, OnOk, OnErr, IsErr, IsTrue};
    ghost use Rattle.octo_outside.specs.Recorded.{Adds, Counts};
    ghost use Rattle.octo_outside.specs.Traits.{Receives, IsWithin, quiets_after};
    ghost use Rattle.octo_outside.specs.Memory.{ConnData, next_got, after_got, one_more, is_listed};

    ghost state = { λ c. record {
      left = Some c.left;
      written = Some c.written;
      faults = c.faults;
      quiets = c.quiets;
    } };

    fn read(&mut self, into: &mut [u8]) -> Result<Got, Failed>
        requires { 0 < length into.old }

        // What it returns, and the connection after it.
        ensures fails { IsErr result
            ↔ (is_listed self.old.fail_at (one_more self.old.calls) ≡ true) }
        ensures got { IfOk result (λ got. got ≡ next_got self.old (length into.old)) }
        ensures refused { OnErr result (self.new ≡ record self.old {
          calls = one_more self.old.calls;
          faults = one_more self.old.faults;
        }) }
        ensures after { IfOk result (λ got. self.new ≡ after_got self.old got) }

        // What is left to read and what was written.
        ensures ok { IfOk result (λ got. Receives self.old.left got into.new (Some self.new.left)) }
        ensures bound { IfOk result (λ got. IsWithin got (length into.new)) }
        ensures err { OnErr result (self.new.left ≡ self.old.left) }
        ensures written { self.new.written ≡ self.old.written }

        // Counts.
        ensures quiet { IfOk result (λ got. self.new.quiets ≡ quiets_after self.old.quiets got) }
        ensures quiet_err { OnErr result (self.new.quiets ≡ self.old.quiets) }
        ensures quiets_counted { self.old.quiets ≤ self.new.quiets }
        ensures counts { Counts (IsErr result) self.old.faults self.new.faults }
    {
        if self.calls.begin() {
            self.calls.fail();
            return Err(Failed);
        }
        if self.unread == 0 {
            return Ok(Got::Ended);
        }
        if self.is_quiet() {
            self.count_quiet();
            return Ok(Got::Quiet);
        }
        Ok(Got::Bytes(self.give(into)))
    }

    fn write(&mut self, bytes: &[u8]) -> Result<usize, Failed>
        requires { 0 < length bytes.now }
        ensures all { IfOk result (λ n. n ≡ length bytes.now) }
        ensures kept { OnOk result (self.new ≡ record self.old {
          written = self.old.written ++ bytes.now;
          calls = one_more self.old.calls;
        }) }
        ensures refused { OnErr result (self.new ≡ record self.old {
          calls = one_more self.old.calls;
          faults = one_more self.old.faults;
        }) }
        ensures fails { IsTrue (is_listed self.old.fail_at (one_more self.old.calls))
            → IsErr result }
        ensures ok { IfOk result (λ n. (0 < n) × (n ≤ length bytes.now)
            × Adds (Some self.old.written) (Some self.new.written) (take n bytes.now)) }
        ensures err { OnErr result (Adds (Some self.old.written) (Some self.new.written) []) }
        ensures left { self.new.left ≡ self.old.left }
        ensures quiets { self.new.quiets ≡ self.old.quiets }
        ensures counts { Counts (IsErr result) self.old.faults self.new.faults }
    {
        if self.calls.begin() || self.written.append(bytes).is_err() {
            self.calls.fail();
            return Err(Failed);
        }
        Ok(bytes.len())
    }
}
