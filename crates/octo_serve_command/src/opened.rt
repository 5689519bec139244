//! A keeper that was opened, or couldn't be.
ghost use Rattle.std.specs.Prelude.{◌≡◌};
ghost use Rattle.octo_outside.specs.Recorded.{Counts};

use octo_keeper::{Change, Keeper, KeeperFault, Tables};
use std::alloc::Global;

/// A keeper that was opened, or the fault of opening it, which each call then returns.
#[derive(Drop)]
pub struct Opened<K: Keeper + Drop> {
    keeper: Result<K, KeeperFault>,
    faults: u64,
}

impl<K: Keeper + Drop> Opened<K> {
    /// What opening it came to.
    pub fn new(keeper: Result<K, KeeperFault>) -> Self
        ensures { result ≡ record { keeper = keeper; faults = 0 } }
    {
        Opened { keeper, faults: 0 }
    }

    /// The keeper again, or why it wasn't opened.
    pub fn into_keeper(self) -> Result<K, KeeperFault>
        ensures { result ≡ self.keeper }
    {
        let Opened { keeper, faults: _ } = self;
        keeper
    }

    // Counts a call of a keeper that wasn't opened; running out of memory is no fault of it.
    fn refuse(&mut self, fault: KeeperFault) -> KeeperFault
        ensures same { result ≡ fault }
        ensures keeper { self.new.keeper ≡ self.old.keeper }
        ensures counts { Counts (fault ≡ KeeperFault.Failed) self.old.faults self.new.faults }
        ensures steady { (fault ≡ KeeperFault.Failed → ⊥) → self.new.faults ≡ self.old.faults }
    {
        if fault == KeeperFault::Failed {
            self.faults = self.faults.saturating_add(1);
        }
        fault
    }
}

impl<K: Keeper + Drop> Keeper for Opened<K> {
    ghost use Rattle.octo_serve_command.specs.Opened.{opened_state};

    ghost state = { λ o. opened_state K.state o.keeper o.faults };

    fn load(&mut self, alloc: Global) -> Result<Tables, KeeperFault> {
        match &mut self.keeper {
            Ok(keeper) => keeper.load(alloc),
            Err(fault) => {
                let fault = *fault;
                Err(self.refuse(fault))
            }
        }
    }

    fn commit(&mut self, alloc: Global, change: &Change) -> Result<(), KeeperFault> {
        match &mut self.keeper {
            Ok(keeper) => keeper.commit(alloc, change),
            Err(fault) => {
                let fault = *fault;
                Err(self.refuse(fault))
            }
        }
    }

    fn backup(&mut self, alloc: Global) -> Result<(), KeeperFault> {
        match &mut self.keeper {
            Ok(keeper) => keeper.backup(alloc),
            Err(fault) => {
                let fault = *fault;
                Err(self.refuse(fault))
            }
        }
    }
}
