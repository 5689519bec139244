//! Disks in memory that stop after a number of calls, and databases on them.
use octo_keeper::{Keeper, Tables};
use octo_keeper_sql::SqlKeeper;
use sqlite::{Alter, Connection, FileStore, Files, Options};
use sqlite_disk::{Crash, Disk, Fuse, Memory};
use std::alloc::Global;
use std::test::Fail;

// More calls than a test makes.
const ALL: u64 = 1_000_000;

/// An empty file and its log, one of which stops after this number of calls.
pub fn files(alloc: Global, log_stops: bool, calls: u64) -> Files<Fuse<Memory>> {
    let (log, db) = if log_stops {
        (calls, ALL)
    } else {
        (ALL, calls)
    };
    Files {
        log: Fuse::new(Memory::new(alloc), log),
        db: Fuse::new(Memory::new(alloc), db),
    }
}

/// Opens the database; if a disk stops, the files are handed back.
pub fn open<D: Disk + Drop>(
    alloc: Global,
    files: Files<D>,
) -> Result<Connection<FileStore<D>>, Files<D>> {
    if !files.may_be_used() {
        return Err(files);
    }
    match Connection::open_files(alloc, files, Options::new(7)) {
        Ok(database) => Ok(database),
        Err((_, left)) => Err(left.into_files()),
    }
}

/// The files as the machine finds them after it stopped.
pub fn files_after_stop<D: Disk + Drop>(database: Connection<FileStore<D>>) -> Files<D> {
    database.into_store().close()
}

/// Opens the database after a stop, with disks that go on.
pub fn open_again<D: Crash + Drop>(
    alloc: Global,
    stopped: Files<D>,
) -> Result<Connection<FileStore<D>>, Fail> {
    let mut files = stopped;
    files.log.crash();
    files.db.crash();
    match open(alloc, files) {
        Ok(database) => Ok(database),
        Err(_) => Err("not opened again".into()),
    }
}

/// The tables of a database that is adopted again.
pub fn tables_of<S: Alter + Drop>(alloc: Global, database: Connection<S>) -> Result<Tables, Fail> {
    match SqlKeeper::adopt(alloc, database) {
        Ok(keeper) => load(alloc, keeper),
        Err(_) => Err("not adopted again".into()),
    }
}

fn load<K: Keeper + Drop>(alloc: Global, keeper: K) -> Result<Tables, Fail> {
    let mut keeper = keeper;
    match keeper.load(alloc) {
        Ok(tables) => Ok(tables),
        Err(_) => Err("not read".into()),
    }
}
