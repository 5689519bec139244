//! The keeper over a database file.
#![tactic(auto)]

ghost use Rattle.std.specs.Prelude.{◌≡◌, codes, None, IfOk, IsErrOf};
ghost use Rattle.sqlite.specs.Files.{file_state};
ghost use Rattle.sqlite.specs.State.{HasCleanDisk};
ghost use Rattle.octo_keeper.specs.declared.keeper.KeeperFault.TheVariants as fault;

mod backup;

use backup::back_up;
use byte_text::Name;
use octo_keeper::{Change, Keeper, KeeperFault, Tables};
use octo_keeper_sql::{SqlKeeper, fault_of};
use sqlite::{Connection, File, FileStore};
use std::alloc::Global;
use std::fs::OpenOptions;
use std::os::unix::fs::OpenOptionsExt;

// Who may use a new database: its owner. Its log gets the mode of the database.
const DATABASE_MODE: u32 = 0o600;

/// What keeps the tables of a host in a database file and the log beside it. It loads and commits as `SqlKeeper` does, with the
/// same clauses. A backup is one file, `PATH.backup`, which has what was committed, for its owner alone. It is written beside that
/// name, checked, synced and renamed, so it is whole or the former one, also after a kill or a loss of power.
/// Source: POSIX.1-2017, `rename` and `fsync`.
///
/// It is a type of its own, so that the proofs above this crate read nothing of SQLite's types.
#[derive(Drop)]
pub struct FileKeeper {
    rt: HostRuntime,
    path: Name,
    database: SqlKeeper<FileStore<File>>,
}

impl Keeper for FileKeeper {
    ghost use Rattle.std.specs.Prelude.{◌≡◌, ◌⊎◌, None, IfOk, OnOk, OnErr, IsErrOf};
    ghost use Rattle.std.specs.List.{All};
    ghost use Rattle.sqlite.specs.Files.{file_state, over_files};
    ghost use Rattle.sqlite.specs.State.{HasCleanDisk};
    ghost use Rattle.octo_outside.specs.Recorded.{Counts};
    ghost use Rattle.octo_keeper.specs.Calls.{Commits as KeeperCommits};
    ghost use Rattle.octo_keeper.specs.Tables.{AreSound};
    ghost use Rattle.octo_keeper.specs.declared.keeper.KeeperFault.TheVariants as fault;
    ghost use Rattle.octo_keeper_sql.specs.Holds.{HasGroups};
    ghost use Rattle.octo_keeper_sql.specs.Kept.{IsAtomic, IsUndone};
    ghost use Rattle.octo_keeper_sql.specs.Loads.{FailsToLoad, IsUnsound, LacksMemory, Loads};
    ghost use Rattle.octo_keeper_sql.specs.Statements.{Commits, FailsToWrite, RanInTurn, statements};

    ghost state = { λ k. record { tables = None; saved = None; faults = k.database.faults } };

    fn load(&mut self, alloc: Global) -> Result<Tables, KeeperFault>
        ensures sound { IfOk result AreSound }
        ensures rows { IfOk result (λ tables.
            HasCleanDisk (file_state self.new.database.connection) → Loads over_files tables
            self.old.database.connection self.new.database.connection) }
        ensures groups { IfOk result (λ tables. All HasGroups tables.users) }
        ensures failed { IsErrOf result fault.Failed
            → HasCleanDisk (file_state self.new.database.connection)
            → FailsToLoad over_files self.old.database.connection self.new.database.connection
            ⊎ IsUnsound over_files self.old.database.connection self.new.database.connection }
        ensures memory { IsErrOf result fault.NoMemory
            → HasCleanDisk (file_state self.new.database.connection)
            → LacksMemory over_files self.old.database.connection self.new.database.connection }

        ensures counts { Counts (IsErrOf result fault.Failed)
            self.old.database.faults self.new.database.faults }
        ensures steady { (IsErrOf result fault.Failed → ⊥)
            → self.new.database.faults ≡ self.old.database.faults }
    {
        self.database.load(alloc)
    }

    fn commit(&mut self, alloc: Global, change: &Change) -> Result<(), KeeperFault>
        ensures written { OnOk result (HasCleanDisk (file_state self.new.database.connection)
            → Commits over_files (statements change.now)
            self.old.database.connection self.new.database.connection) }
        ensures failed { IsErrOf result fault.Failed
            → HasCleanDisk (file_state self.new.database.connection)
            → FailsToWrite over_files (statements change.now)
            self.old.database.connection self.new.database.connection }
        ensures nothing { OnErr result (IsUndone
            (file_state self.old.database.connection) (file_state self.new.database.connection)) }
        ensures atomic { IsAtomic over_files (RanInTurn over_files (statements change.now))
            self.old.database.connection self.new.database.connection }

        // What every keeper says.
        ensures commits { KeeperCommits
            (record { tables = None; saved = None; faults = self.old.database.faults })
            change.now result
            (record { tables = None; saved = None; faults = self.new.database.faults }) }
    {
        self.database.commit(alloc, change)
    }

    fn backup(&mut self, _: Global) -> Result<(), KeeperFault>
        ensures stays { self.new.database.connection ≡ self.old.database.connection }

        ensures counts { Counts (IsErrOf result fault.Failed)
            self.old.database.faults self.new.database.faults }
        ensures steady { (IsErrOf result fault.Failed → ⊥)
            → self.new.database.faults ≡ self.old.database.faults }
    {
        let done = back_up(&self.rt, &self.path);
        self.database.count(done)
    }
}

// Makes the file of that path if it is missing, so that only its owner may read or write it. If it can't be made, opening it says
// so. SQLite has other meanings for two kinds of paths, which aren't opened.
fn make_private(rt: &HostRuntime, path: &str) {
    if path == ":memory:" || path.starts_with("file:") {
        return;
    }
    let _ = OpenOptions::new()
        .write(true)
        .create_new(true)
        .mode(DATABASE_MODE)
        .open(rt, path);
}

// Opens the database file of that path and adopts it.
fn open_database(rt: &HostRuntime, path: &str) -> Result<SqlKeeper<FileStore<File>>, KeeperFault>
    ensures fresh { IfOk result (λ database. database.faults ≡ 0) }
    ensures guarded { IfOk result (λ database.
        HasCleanDisk (file_state database.connection)
        → (file_state database.connection).IsShielded) }
    ensures unlimited { IfOk result (λ database. database.connection.step_limit ≡ None) }
    ensures memory { path.now ≡ codes ":memory:" → IsErrOf result fault.Failed }
{
    make_private(rt, path);
    let connection = match Connection::open(rt, path) {
        Ok(connection) => connection,
        Err(error) => return Err(fault_of(error)),
    };
    match SqlKeeper::adopt(rt.alloc(), connection) {
        Ok(database) => Ok(database),
        Err(refused) => Err(refused.fault),
    }
}

/// Opens the database file of that path and adopts it; a missing file is made, for its owner alone. The file is locked until the
/// keeper is dropped: another program that has it open is a fault, and so are a path that is no database and `:memory:`.
///
/// `FILE` and `FILE-wal` belong together: the log holds what was committed and isn't in the file yet.
/// Source: SQLite file format, sections 1 and 4.
pub fn open_keeper(rt: &HostRuntime, path: &Name) -> Result<FileKeeper, KeeperFault>
    ensures fresh { IfOk result (λ keeper. keeper.database.faults ≡ 0) }
    // Each later read is tested against a digest, and no query is cut short.
    ensures guarded { IfOk result (λ keeper.
        HasCleanDisk (file_state keeper.database.connection)
        → (file_state keeper.database.connection).IsShielded) }
    ensures unlimited { IfOk result (λ keeper. keeper.database.connection.step_limit ≡ None) }
    ensures memory { path.now ≡ codes ":memory:" → IsErrOf result fault.Failed }
{
    match open_database(rt, path.as_str()) {
        Ok(database) => Ok(FileKeeper {
            rt: *rt,
            path: path.copy(),
            database,
        }),
        Err(fault) => Err(fault),
    }
}

/// Closes the database; what its log holds is copied into the file. If that fails the log keeps it, and the next opening reads
/// it. Nothing that was committed is lost either way.
pub fn close_keeper(keeper: FileKeeper) {
    let FileKeeper {
        rt: _,
        path: _,
        database,
    } = keeper;
    let _ = database.into_connection().close();
}
