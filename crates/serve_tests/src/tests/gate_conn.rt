//! A connection in memory whose input comes only once a gate is open.
ghost use Rattle.std.specs.Prelude.{◌≡◌, ◌≤◌, None, ⊤};
ghost use Rattle.octo_outside.specs.Memory.{one_more};
ghost use Rattle.octo_outside.specs.Recorded.{Counts};

use arrayvec::ArrayVec;
use octo_outside::{Conn, Failed, Got, MemoryConn};
use std::sync::Arc;
use std::sync::atomic::{AtomicBool, Ordering};
use std::thread;
use std::time::{Clock, Duration};

// How long a read rests while the gate is closed, in milliseconds.
const REST: u64 = 1;

// How many bytes a connection takes.
const MOST_WRITTEN: usize = 1024;

// A connection that returns an input and keeps up to 1,024 bytes of what is written. It records
// neither for a contract.
//
// If it has a gate, a read rests for a millisecond and finds nothing yet until the gate is open.
#[derive(Drop)]
pub(super) struct GateConn<R: Drop> {
    pub(super) rt: R,
    pub(super) input: MemoryConn,
    pub(super) written: ArrayVec<u8, MOST_WRITTEN>,
    pub(super) gate: Option<Arc<AtomicBool>>,
    pub(super) faults: u64,
    pub(super) quiets: u64,
}

impl<R: Drop> GateConn<R> {
    // Whether the gate is closed.
    fn waits(&self) -> bool {
        match &self.gate {
            Some(gate) => !gate.load(Ordering::SeqCst),
            None => false,
        }
    }

    // A call fails.
    fn fail(&mut self) -> Failed
        ensures quiets { self.new.quiets ≡ self.old.quiets }
        ensures counts { Counts ⊤ self.old.faults self.new.faults }
    {
        self.faults = self.faults.saturating_add(1);
        Failed
    }

    // A read found nothing yet.
    fn count_quiet(&mut self)
        ensures counts { self.new.quiets ≡ one_more self.old.quiets }
        ensures counted { self.old.quiets ≤ self.new.quiets }
        ensures faults { self.new.faults ≡ self.old.faults }
    {
        self.quiets = self.quiets.saturating_add(1);
    }
}

impl<R: Clock + Drop> Conn for GateConn<R> {
    ghost state = { λ c. record {
      left = None;
      written = None;
      faults = c.faults;
      quiets = c.quiets;
    } };

    fn read(&mut self, into: &mut [u8]) -> Result<Got, Failed> {
        if self.waits() {
            thread::sleep(&self.rt, Duration::from_millis(REST));
            self.count_quiet();
            return Ok(Got::Quiet);
        }
        match self.input.read(into) {
            Ok(Got::Bytes(n)) => Ok(Got::Bytes(n)),
            Ok(Got::Ended) => Ok(Got::Ended),
            Ok(Got::Quiet) => {
                self.count_quiet();
                Ok(Got::Quiet)
            }
            Err(Failed) => Err(self.fail()),
        }
    }

    fn write(&mut self, bytes: &[u8]) -> Result<usize, Failed> {
        match self.written.try_extend_from_slice(bytes) {
            Ok(()) => Ok(bytes.len()),
            Err(_) => Err(self.fail()),
        }
    }
}
