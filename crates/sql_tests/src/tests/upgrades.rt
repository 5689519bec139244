//! A database of the schema before, whose disk stops while it is adopted.
use super::disks::{files, files_after_stop, open, open_again, tables_of};
use super::queries::{batch, number};
use octo_keeper::Tables;
use octo_keeper_sql::SqlKeeper;
use print_queue::QueueEntry;
use sqlite::{Alter, Connection, Error, FileStore, Files};
use sqlite_disk::{Crash, Disk};
use std::alloc::Global;
use std::test::Fail;

const BEFORE: &str =
    "CREATE TABLE meta (schema INTEGER NOT NULL); INSERT INTO meta VALUES (1); CREATE TABLE users (name TEXT PRIMARY KEY, digest BLOB NOT NULL UNIQUE, groups TEXT NOT NULL, active INTEGER NOT NULL); CREATE TABLE queue (user TEXT NOT NULL, name TEXT NOT NULL, file TEXT NOT NULL, priority INTEGER NOT NULL, arrival INTEGER NOT NULL UNIQUE, PRIMARY KEY (user, name)); CREATE TABLE prints (number INTEGER PRIMARY KEY, user TEXT NOT NULL, file TEXT NOT NULL, commands INTEGER NOT NULL, outcome INTEGER NOT NULL); INSERT INTO queue VALUES ('ana', 'job-1', 'a.gcode', 5, 3), ('ben', 'job-1', 'b.gcode', 5, 1)";

// How far a run comes before its disk stops.
#[derive(Clone, Copy, PartialEq, Eq)]
enum Reached {
    Nothing,
    // The rows of the schema before are written.
    Written,
    Adopted,
}

// How far a run comes, and the files after it.
fn run<D: Disk + Drop>(alloc: Global, files: Files<D>) -> (Reached, Files<D>) {
    match open(alloc, files) {
        Ok(database) => write_then_adopt(alloc, database),
        Err(files) => (Reached::Nothing, files),
    }
}

fn write_then_adopt<D: Disk + Drop>(
    alloc: Global,
    database: Connection<FileStore<D>>,
) -> (Reached, Files<D>) {
    let mut database = database;
    if batch(&mut database, BEFORE).is_ok() {
        return adopt(alloc, database);
    }
    (Reached::Nothing, files_after_stop(database))
}

fn adopt<D: Disk + Drop>(alloc: Global, database: Connection<FileStore<D>>) -> (Reached, Files<D>) {
    match SqlKeeper::adopt(alloc, database) {
        Ok(keeper) => (Reached::Adopted, files_after_stop(keeper.into_connection())),
        Err(refused) => (Reached::Written, files_after_stop(refused.connection)),
    }
}

fn is_upgraded(entry: &QueueEntry, user: &str, file: &str, arrival: u32) -> bool {
    entry.user.as_str() == user
        && entry.name.as_str() == "job-1"
        && entry.file.as_str() == file
        && entry.priority == 5
        && entry.copies == 1
        && entry.left == 1
        && entry.material.as_str() == "any"
        && entry.arrival == arrival
}

fn are_both_upgraded(tables: &Tables) -> bool {
    match tables.queue.as_slice() {
        [first, second] => {
            is_upgraded(first, "ben", "b.gcode", 1) && is_upgraded(second, "ana", "a.gcode", 3)
        }
        _ => false,
    }
}

// The database is of the one schema or of the other, with both rows.
fn has_both<S: Alter>(database: &mut Connection<S>, is_adopted: bool) -> Result<bool, Error> {
    let schema = number(database, "SELECT schema FROM meta")?;
    match schema {
        1 => Ok(!is_adopted && number(database, "SELECT count(*) FROM queue")? == 2),
        2 => Ok(number(database, "SELECT count(*) FROM entries")? == 2),
        _ => Ok(false),
    }
}

// A database that has both rows, adopted again.
fn look_at_rows<S: Alter + Drop>(
    alloc: Global,
    database: Connection<S>,
    is_adopted: bool,
) -> Result<(), Fail> {
    let mut database = database;
    if !has_both(&mut database, is_adopted)? {
        return Err("rows are lost".into());
    }
    if are_both_upgraded(&tables_of(alloc, database)?) {
        return Ok(());
    }
    Err("rows are changed".into())
}

// How far a run comes, whose database is opened and looked at after it.
fn look_after_run<D: Crash + Drop>(alloc: Global, files: Files<D>) -> Result<Reached, Fail> {
    let (reached, files) = run(alloc, files);
    let database = open_again(alloc, files)?;
    if reached != Reached::Nothing {
        look_at_rows(alloc, database, reached == Reached::Adopted)?;
    }
    Ok(reached)
}

// The disk stops at each call, until a run ends without a stop.
fn stop_at_each_call(alloc: Global, log_stops: bool) -> Result<(), Fail> {
    for calls in 0..200 {
        if look_after_run(alloc, files(alloc, log_stops, calls))? == Reached::Adopted {
            return Ok(());
        }
    }
    Err("each run was stopped".into())
}

#[test]
fn the_log_stops_in_an_upgrade(rt: HostRuntime) -> Result<(), Fail> {
    stop_at_each_call(rt.alloc(), true)
}

#[test]
fn the_file_stops_in_an_upgrade(rt: HostRuntime) -> Result<(), Fail> {
    stop_at_each_call(rt.alloc(), false)
}
