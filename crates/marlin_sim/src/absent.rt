//! A connection that doesn't exist: it fails at every call.
ghost use Rattle.std.specs.Prelude.{◌≡◌, None, ⊤};
ghost use Rattle.octo_outside.specs.Recorded.{Counts};

use octo_outside::{Conn, Failed, Got};

/// The connection of a program that has none. Each call fails and counts.
#[derive(Drop)]
pub struct AbsentConn {
    faults: u64,
}

impl AbsentConn {
    /// Nothing was asked of it yet.
    pub fn new() -> Self
        ensures { result.faults ≡ 0 }
    {
        AbsentConn { faults: 0 }
    }

    fn fail(&mut self) -> Failed
        ensures counts { Counts ⊤ self.old.faults self.new.faults }
    {
        self.faults = self.faults.saturating_add(1);
        Failed
    }
}

impl Conn for AbsentConn {
    ghost use Rattle.std.specs.Prelude.{◌≡◌, ◌<◌, [], None, length, take, IfOk, IsErr};
    ghost use Rattle.octo_outside.specs.Recorded.{Adds, Counts};
    ghost use Rattle.octo_outside.specs.Traits.{IsWithin};

    ghost state = { λ c. record { left = None; written = None; faults = c.faults; quiets = 0 } };

    fn read(&mut self, _into: &mut [u8]) -> Result<Got, Failed>
        requires { 0 < length _into.old }
        ensures absent { IsErr result }
        ensures bound { IfOk result (λ got. IsWithin got (length _into.new)) }
        ensures counts { Counts (IsErr result) self.old.faults self.new.faults }
    {
        Err(self.fail())
    }

    fn write(&mut self, _bytes: &[u8]) -> Result<usize, Failed>
        requires { 0 < length _bytes.now }
        ensures absent { IsErr result }
        ensures counts { Counts (IsErr result) self.old.faults self.new.faults }
    {
        Err(self.fail())
    }
}
