//! The keeper over a database.
use crate::adopt::settle_schema;
use crate::load::load_tables;
use crate::write::commit_change;
use octo_keeper::{Change, Keeper, KeeperFault, Tables};
use sqlite::{Alter, Connection};
use std::alloc::Global;

/// What keeps the tables of a host in a database. It doesn't record them: what the rows are is up to the database.
///
/// A name of a group has no space in it, since the names of a user's groups are one text there.
#[derive(Drop)]
pub struct SqlKeeper<S: Alter + Drop> {
    connection: Connection<S>,
    faults: u64,
}

/// Why a database wasn't adopted, with its connection.
#[derive(Drop)]
pub struct NotAdopted<S: Alter + Drop> {
    pub fault: KeeperFault,
    pub connection: Connection<S>,
}

impl<S: Alter + Drop> SqlKeeper<S> {
    ghost use Rattle.std.specs.Prelude.{◌≡◌, IfOk, IfErr, IsErrOf};
    ghost use Rattle.sqlite.specs.Held.{state};
    ghost use Rattle.sqlite.specs.State.{HasCleanDisk};
    ghost use Rattle.octo_keeper_sql.specs.Kept.{IsAtomic, IsUndone};
    ghost use Rattle.octo_keeper_sql.specs.Settled.{FailsToAdopt, Settled, Settles};
    ghost use Rattle.octo_outside.specs.Recorded.{Counts};
    ghost use Rattle.octo_keeper.specs.declared.keeper.KeeperFault.TheVariants as fault;

    /// Takes a database over. An empty one gets its tables, one of the schema before is upgraded, each in one transaction; one of
    /// another schema, and one whose transaction is open, is a fault. Fails if the database does, or if out of memory.
    pub fn adopt(
        alloc: Global,
        mut connection: Connection<S>,
    ) -> Result<SqlKeeper<S>, NotAdopted<S>>
        ensures fresh { IfOk result (λ keeper. keeper.faults ≡ 0) }
        ensures settled { IfOk result (λ keeper. HasCleanDisk (state S.Store keeper.connection)
            → Settles S.Store connection keeper.connection) }
        ensures failed { IfErr result (λ refused. refused.fault ≡ fault.Failed
            → HasCleanDisk (state S.Store refused.connection)
            → FailsToAdopt S.Store connection refused.connection) }
        ensures undone { IfErr result (λ refused.
            IsUndone (state S.Store connection) (state S.Store refused.connection)) }
        ensures adopted { IfOk result
            (λ keeper. IsAtomic S.Store (Settled S.Store) connection keeper.connection) }
        ensures refused { IfErr result
            (λ refused. IsAtomic S.Store (Settled S.Store) connection refused.connection) }
    {
        match settle_schema(alloc, &mut connection) {
            Ok(()) => Ok(SqlKeeper {
                connection,
                faults: 0,
            }),
            Err(fault) => Err(NotAdopted { fault, connection }),
        }
    }

    /// The connection to the database; takes no memory.
    pub fn into_connection(self) -> Connection<S>
        ensures { result ≡ self.connection }
    {
        let SqlKeeper {
            connection,
            faults: _,
        } = self;
        connection
    }

    /// Counts a fault, if a call was one, also one in which the database had no part; running out of memory isn't.
    pub fn count<T: Drop>(&mut self, done: Result<T, KeeperFault>) -> Result<T, KeeperFault>
        ensures same { result ≡ done }
        ensures stays { self.new.connection ≡ self.old.connection }
        ensures counts { Counts (IsErrOf result fault.Failed) self.old.faults self.new.faults }
        ensures steady { (IsErrOf result fault.Failed → ⊥) → self.new.faults ≡ self.old.faults }
    {
        if matches!(done, Err(KeeperFault::Failed)) {
            self.faults = self.faults.saturating_add(1);
        }
        done
    }
}

impl<S: Alter + Drop> Keeper for SqlKeeper<S> {
    ghost use Rattle.std.specs.Prelude.{◌≡◌, ◌⊎◌, false, None, IfOk, OnOk, OnErr, IsErrOf};
    ghost use Rattle.std.specs.List.{All};
    ghost use Rattle.sqlite.specs.Held.{state};
    ghost use Rattle.sqlite.specs.State.{HasCleanDisk};
    ghost use Rattle.octo_outside.specs.Recorded.{Counts};
    ghost use Rattle.octo_keeper.specs.Tables.{AreSound};
    ghost use Rattle.octo_keeper.specs.declared.keeper.KeeperFault.TheVariants as fault;
    ghost use Rattle.octo_keeper_sql.specs.Holds.{HasGroups};
    ghost use Rattle.octo_keeper_sql.specs.Kept.{IsAtomic, IsUndone};
    ghost use Rattle.octo_keeper_sql.specs.Loads.{FailsToLoad, IsUnsound, LacksMemory, Loads};
    ghost use Rattle.octo_keeper_sql.specs.Statements.{Commits, FailsToWrite, RanInTurn, statements};

    ghost state = { λ k. record { tables = None; saved = None; faults = k.faults } };

    fn load(&mut self, alloc: Global) -> Result<Tables, KeeperFault>
        ensures sound { IfOk result AreSound }
        ensures rows { IfOk result (λ tables. HasCleanDisk (state S.Store self.new.connection)
            → Loads S.Store tables self.old.connection self.new.connection) }
        ensures groups { IfOk result (λ tables. All HasGroups tables.users) }
        ensures failed { IsErrOf result fault.Failed
            → HasCleanDisk (state S.Store self.new.connection)
            → FailsToLoad S.Store self.old.connection self.new.connection
            ⊎ IsUnsound S.Store self.old.connection self.new.connection }
        ensures memory { IsErrOf result fault.NoMemory
            → HasCleanDisk (state S.Store self.new.connection)
            → LacksMemory S.Store self.old.connection self.new.connection }

        // Of each disk: a disk that returned something else than was written stays one, and no transaction is left open.
        ensures clean { HasCleanDisk (state S.Store self.new.connection)
            → HasCleanDisk (state S.Store self.old.connection) }
        ensures ended { self.old.connection.in_transaction ≡ false
            → self.new.connection.in_transaction ≡ false }

        ensures counts { Counts (IsErrOf result fault.Failed) self.old.faults self.new.faults }
        ensures steady { (IsErrOf result fault.Failed → ⊥) → self.new.faults ≡ self.old.faults }
    {
        let loaded = load_tables(alloc, &mut self.connection);
        self.count(loaded)
    }

    fn commit(&mut self, alloc: Global, change: &Change) -> Result<(), KeeperFault>
        ensures written { OnOk result (HasCleanDisk (state S.Store self.new.connection)
            → Commits S.Store (statements change.now) self.old.connection self.new.connection) }
        ensures failed { IsErrOf result fault.Failed
            → HasCleanDisk (state S.Store self.new.connection)
            → FailsToWrite S.Store (statements change.now)
            self.old.connection self.new.connection }
        ensures nothing { OnErr result
            (IsUndone (state S.Store self.old.connection) (state S.Store self.new.connection)) }
        ensures atomic { IsAtomic S.Store (RanInTurn S.Store (statements change.now))
            self.old.connection self.new.connection }

        ensures counts { Counts (IsErrOf result fault.Failed) self.old.faults self.new.faults }
        ensures steady { (IsErrOf result fault.Failed → ⊥) → self.new.faults ≡ self.old.faults }
    {
        let done = commit_change(alloc, &mut self.connection, change);
        self.count(done)
    }

    // A store has no place for a copy. Over files there is one beside them, and their keeper writes it.
    fn backup(&mut self, _: Global) -> Result<(), KeeperFault>
        ensures refused { IsErrOf result fault.Failed }
        ensures stays { self.new.connection ≡ self.old.connection }
        ensures counts { Counts (IsErrOf result fault.Failed) self.old.faults self.new.faults }
        ensures steady { (IsErrOf result fault.Failed → ⊥) → self.new.faults ≡ self.old.faults }
    {
        self.count(Err(KeeperFault::Failed))
    }
}
