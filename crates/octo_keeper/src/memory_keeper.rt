//! A keeper in memory, some of whose calls fail.
use crate::checks::are_sound;
use crate::{Change, Keeper, KeeperFault, Tables};
use octo_outside::{CallList, Calls};
use std::alloc::Global;
use std::marker::Model;

/// Tables in memory.
#[derive(Drop)]
pub struct MemoryKeeper {
    tables: Tables,
    saved: Option<Tables>,
    calls: Calls,
}

impl Model for MemoryKeeper {
    ghost use Rattle.octo_keeper.specs.Memory.{KeeperData};

    ghost Value = { KeeperData };

    ghost view = { λ k. record { tables = k.tables; saved = k.saved; calls = k.calls } };
}

impl MemoryKeeper {
    ghost use Rattle.std.specs.Prelude.{◌≡◌, None, Some, option_map};

    /// A keeper of these tables whose calls with these numbers, from 1, fail; takes no memory.
    pub fn new(tables: Tables, fail_at: CallList) -> Self
        ensures { result
            ≡ record {
              tables = tables;
              saved = None;
              calls = record { made = 0; faults = 0; fail_at = fail_at };
            } }
    {
        MemoryKeeper {
            tables,
            saved: None,
            calls: Calls::new(fail_at),
        }
    }

    /// The tables.
    pub fn tables(&self) -> Option<&Tables>
        ensures { (tables : _) × (result ≡ Some tables) × (tables.now ≡ self.now.tables) }
    {
        Some(&self.tables)
    }

    /// The tables of the last backup.
    pub fn saved(&self) -> Option<&Tables>
        ensures { option_map (λ saved. saved.now) result ≡ self.now.saved }
    {
        self.saved.as_ref()
    }
}

impl Keeper for MemoryKeeper {
    ghost use Rattle.std.specs.Prelude.{◌≡◌, ◌↔◌, ◌⊎◌, ◌||◌, true, false, not, Some, IfOk, OnOk, OnErr, IsErrOf};
    ghost use Rattle.octo_outside.specs.Recorded.{Counts};
    ghost use Rattle.octo_outside.specs.Memory.{one_more, is_listed};
    ghost use Rattle.octo_keeper.specs.declared.keeper.KeeperFault.TheVariants as fault;
    ghost use Rattle.octo_keeper.specs.Tables.{changed, AreSound};
    ghost use Rattle.octo_keeper.specs.Memory.{KeeperData, fails_next, after_call};
    ghost use Rattle.octo_keeper.specs.Sound.{are_sound};

    ghost state = { λ k. record {
      tables = Some k.tables;
      saved = k.saved;
      faults = k.calls.faults;
    } };

    fn load(&mut self, alloc: Global) -> Result<Tables, KeeperFault>
        ensures ok { IfOk result (λ loaded. loaded ≡ self.old.tables) }
        ensures sound { IfOk result AreSound }
        ensures stays { self.new.tables ≡ self.old.tables }
        ensures saved { self.new.saved ≡ self.old.saved }
        ensures calls { self.new.calls ≡ after_call
            (fails_next self.old.calls || not (are_sound self.old.tables)) self.old.calls }

        ensures fails { IsErrOf result fault.Failed
            ↔ ((is_listed self.old.calls.fail_at (one_more self.old.calls.made) ≡ true)
            ⊎ (are_sound self.old.tables ≡ false)) }
        ensures counts { Counts (IsErrOf result fault.Failed)
            self.old.calls.faults self.new.calls.faults }
    {
        if self.calls.begin() {
            self.calls.fail();
            return Err(KeeperFault::Failed);
        }
        if !are_sound(alloc, &self.tables) {
            self.calls.fail();
            return Err(KeeperFault::Failed);
        }
        Ok(self.tables.copy(alloc)?)
    }

    fn commit(&mut self, alloc: Global, change: &Change) -> Result<(), KeeperFault>
        ensures ok { OnOk result (self.new.tables ≡ changed change.now self.old.tables) }
        ensures err { OnErr result (self.new.tables ≡ self.old.tables) }
        ensures saved { self.new.saved ≡ self.old.saved }
        ensures calls { self.new.calls ≡ after_call (fails_next self.old.calls) self.old.calls }

        ensures fails { IsErrOf result fault.Failed
            ↔ (is_listed self.old.calls.fail_at (one_more self.old.calls.made) ≡ true) }
        ensures counts { Counts (IsErrOf result fault.Failed)
            self.old.calls.faults self.new.calls.faults }
    {
        if self.calls.begin() {
            self.calls.fail();
            return Err(KeeperFault::Failed);
        }
        self.tables.change(alloc, change)?;
        Ok(())
    }

    fn backup(&mut self, alloc: Global) -> Result<(), KeeperFault>
        ensures ok { OnOk result (self.new.saved ≡ Some self.old.tables) }
        ensures err { OnErr result (self.new.saved ≡ self.old.saved) }
        ensures stays { self.new.tables ≡ self.old.tables }
        ensures calls { self.new.calls ≡ after_call (fails_next self.old.calls) self.old.calls }

        ensures fails { IsErrOf result fault.Failed
            ↔ (is_listed self.old.calls.fail_at (one_more self.old.calls.made) ≡ true) }
        ensures counts { Counts (IsErrOf result fault.Failed)
            self.old.calls.faults self.new.calls.faults }
    {
        if self.calls.begin() {
            self.calls.fail();
            return Err(KeeperFault::Failed);
        }
        self.saved = Some(self.tables.copy(alloc)?);
        Ok(())
    }
}
