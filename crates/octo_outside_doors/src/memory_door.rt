//! A door in memory, some of whose calls fail or find nothing yet.
use crate::{Door, Knock};
use octo_outside::{CallList, Calls, Failed, ItemList, MemoryConn};
use octo_outside_bell::Bell;
use std::alloc::Global;
use std::collections::VecDeque;
use std::marker::Model;

/// Connections in memory.
pub type ConnList = ItemList<MemoryConn>;

/// A door that returns connections in memory and keeps those that are given back.
#[derive(Drop)]
pub struct MemoryDoor {
    coming: VecDeque<MemoryConn>,
    served: ConnList,
    // Whether each connection that was given back is kept: none was lost because memory ran out.
    keeps_all: bool,
    calls: Calls,
    has_failed: bool,
    quiet_at: CallList,
}

impl Model for MemoryDoor {
    ghost use Rattle.std.specs.Prelude.{◌≡◌, [], true, Some, None, if◌then◌else◌, All};
    ghost use Rattle.octo_outside_doors.specs.Memory.{DoorData, IsUntouched};

    ghost Value = { DoorData };

    ghost view = { λ d. record {
      coming = d.coming.items;
      served = (if d.keeps_all then Some d.served else None);
      calls = d.calls.made;
      faults = d.calls.faults;
      has_failed = d.has_failed;
      quiet_at = d.quiet_at;
      fail_at = d.calls.fail_at;
    } };

    ghost invariant = { λ d. All IsUntouched d.coming.items
        × (d.has_failed ≡ true → d.coming.items ≡ []) };
}

impl MemoryDoor {
    ghost use Rattle.std.specs.Prelude.{◌≡◌, [], false, true, Some, All, ⊤};
    ghost use Rattle.std.specs.Option.{option_copied};
    ghost use Rattle.octo_outside.specs.Recorded.{Counts};
    ghost use Rattle.octo_outside.specs.Memory.{is_listed, one_more};
    ghost use Rattle.octo_outside_doors.specs.Memory.{DoorData, IsUntouched};

    /// A door at which these connections come. Of its calls of `accept`, counted from 1, those of `fail_at` fail, and
    /// those of `quiet_at` find nothing yet if a connection is to come. Takes no memory.
    pub fn new(alloc: Global, conns: ConnList, quiet_at: CallList, fail_at: CallList) -> Self
        requires { All IsUntouched conns }
        ensures { result
            ≡ record {
              coming = conns;
              served = Some [];
              calls = 0;
              faults = 0;
              has_failed = false;
              quiet_at = quiet_at;
              fail_at = fail_at;
            } }
    {
        MemoryDoor {
            coming: VecDeque::from_vec(conns.into_items()),
            served: ConnList::new(alloc),
            keeps_all: true,
            calls: Calls::new(fail_at),
            has_failed: false,
            quiet_at,
        }
    }

    /// The connections that were given back, in order; `None` after one found no memory.
    pub fn served(&self) -> Option<&[MemoryConn]>
        ensures { option_copied result ≡ self.now.served }
    {
        if self.keeps_all {
            return Some(self.served.as_slice());
        }
        None
    }

    // Whether this call is one of those that find nothing yet.
    fn is_quiet(&self) -> bool
        ensures { result ≡ is_listed self.now.quiet_at self.now.calls }
    {
        self.calls.is_latest_in(&self.quiet_at)
    }

    // A call fails: nothing comes any more.
    fn fail(&mut self) -> Failed
        ensures after { self.new ≡ record self.old {
          coming = [];
          faults = one_more self.old.faults;
          has_failed = true;
        } }
        ensures counts { Counts ⊤ self.old.faults self.new.faults }
    {
        self.calls.fail();
        self.coming.clear();
        self.has_failed = true;
        Failed
    }
}

impl Door for MemoryDoor {
    ghost use Rattle.std.specs.Prelude.{◌≡◌, ◌↔◌, ◌⊎◌, [], ◌∷◌, ◌++◌, true, ◌||◌, Some, None, map, option_map, is_err, IfOk, OnOk, OnErr, IsErr, IsOkAnd};
    ghost use Rattle.octo_outside.specs.Recorded.{Adds, Counts};
    ghost use Rattle.octo_outside.specs.Memory.{ConnData};
    ghost use Rattle.octo_outside_doors.specs.Doors.{Comes, IsNew, IsEnded};
    ghost use Rattle.octo_outside_doors.specs.Memory.{DoorData, conn_state, inputs_of, fails_next, after_failure, next_knock, after_knock};

    type Conn = MemoryConn;

    ghost state = { λ d. record {
      coming = Some (inputs_of d.coming);
      served = option_map (map conn_state) d.served;
      faults = d.faults;
      has_failed = d.has_failed;
    } };

    fn accept(&mut self) -> Result<Knock<MemoryConn>, Failed>
        ensures fails { IsErr result ↔ (fails_next self.old ≡ true) }
        ensures next { IfOk result (λ knock. knock ≡ next_knock self.old) }
        ensures moves { IfOk result (λ knock. self.new ≡ after_knock self.old knock) }
        ensures refused { OnErr result (self.new ≡ after_failure self.old) }

        ensures ok { IfOk result (λ knock.
            Comes conn_state (inputs_of self.old.coming) knock (Some (inputs_of self.new.coming))) }
        ensures fresh { IfOk result
            (λ knock. IsNew conn_state knock) }
        ensures err { OnErr result (self.new.coming ≡ []) }
        ensures has_failed { self.new.has_failed ≡ (self.old.has_failed || is_err result) }
        ensures after { self.old.has_failed ≡ true → IsOkAnd result IsEnded }
        ensures served { self.new.served ≡ self.old.served }
        ensures counts { Counts (IsErr result) self.old.faults self.new.faults }
        ensures steady { OnOk result (self.new.faults ≡ self.old.faults) }
    {
        if self.calls.begin() && !self.has_failed {
            return Err(self.fail());
        }
        if !self.coming.is_empty() && self.is_quiet() {
            return Ok(Knock::Quiet);
        }
        match self.coming.pop_front() {
            Some(conn) => Ok(Knock::Conn(conn)),
            None => Ok(Knock::Ended),
        }
    }

    fn finish(&mut self, conn: MemoryConn)
        ensures kept { (self.new ≡ record self.old {
          served = option_map (λ conns. conns ++ conn ∷ []) self.old.served;
        })
            ⊎ (self.new ≡ record self.old { served = None }) }
        ensures served { Adds (option_map (map conn_state) self.old.served)
            (option_map (map conn_state) self.new.served) (conn_state conn ∷ []) }
        ensures coming { self.new.coming ≡ self.old.coming }
        ensures has_failed { self.new.has_failed ≡ self.old.has_failed }
        ensures faults { self.new.faults ≡ self.old.faults }
    {
        match self.served.push(conn) {
            Ok(()) => {}
            Err(_) => self.keeps_all = false,
        }
    }

    fn bell(&self) -> Bell {
        Bell::silent()
    }
}
