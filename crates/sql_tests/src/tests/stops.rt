//! A print that begins with a copy of an entry, on a disk that stops.
use super::disks::{files, files_after_stop, open, open_again, tables_of};
use super::rows::{begin, entry};
use octo_keeper::{Change, Keeper, Tables};
use octo_keeper_sql::SqlKeeper;
use print_queue::Outcome;
use sqlite::{Connection, FileStore, Files};
use sqlite_disk::{Crash, Disk};
use std::alloc::Global;
use std::test::Fail;

// An entry of two copies is put, and a print of the first begins.
fn changes() -> Result<[Change; 2], Fail> {
    let put = Change::PutEntry(entry("ana", "job-1", 5, 2, 1)?);
    let taken = entry("ana", "job-1", 5, 2, 1)?;
    Ok([put, begin(1, None, Some(taken))?])
}

// How many of the changes are made before one fails.
fn make<K: Keeper>(alloc: Global, keeper: &mut K, changes: &[Change]) -> u8 {
    let mut made: u8 = 0;
    for change in changes {
        if keeper.commit(alloc, change).is_err() {
            return made;
        }
        made = made.saturating_add(1);
    }
    made
}

// How many of the changes a run makes, and the files after it.
fn run<D: Disk + Drop>(alloc: Global, files: Files<D>, changes: &[Change]) -> (u8, Files<D>) {
    match open(alloc, files) {
        Ok(database) => run_over(alloc, database, changes),
        Err(files) => (0, files),
    }
}

fn run_over<D: Disk + Drop>(
    alloc: Global,
    database: Connection<FileStore<D>>,
    changes: &[Change],
) -> (u8, Files<D>) {
    match SqlKeeper::adopt(alloc, database) {
        Ok(keeper) => run_with(alloc, keeper, changes),
        Err(refused) => (0, files_after_stop(refused.connection)),
    }
}

fn run_with<D: Disk + Drop>(
    alloc: Global,
    keeper: SqlKeeper<FileStore<D>>,
    changes: &[Change],
) -> (u8, Files<D>) {
    let mut keeper = keeper;
    let made = make(alloc, &mut keeper, changes);
    (made, files_after_stop(keeper.into_connection()))
}

// How many of the two changes the rows show; 9 if they show a part of one.
fn changes_in(tables: &Tables) -> u8 {
    match (tables.queue.as_slice(), tables.prints.as_slice()) {
        ([], []) => 0,
        ([entry], []) if entry.left == 2 => 1,
        ([entry], [print]) if entry.left == 1 && print.outcome == Outcome::Active => 2,
        _ => 9,
    }
}

// How many of the two changes a run makes, and how many the rows show after it.
fn made_and_shown<D: Crash + Drop>(
    alloc: Global,
    files: Files<D>,
    changes: &[Change],
) -> Result<(u8, u8), Fail> {
    let (made, files) = run(alloc, files, changes);
    let tables = tables_of(alloc, open_again(alloc, files)?)?;
    Ok((made, changes_in(&tables)))
}

// The rows are those before the change that was stopped, or those after it.
fn stop_at_each_call(alloc: Global, log_stops: bool, changes: &[Change]) -> Result<(), Fail> {
    for calls in 0..200 {
        let (made, shown) = made_and_shown(alloc, files(alloc, log_stops, calls), changes)?;
        if shown < made || made.saturating_add(1) < shown {
            return Err("a change is lost or kept by half".into());
        }
        if made == 2 {
            return Ok(());
        }
    }
    Err("each run was stopped".into())
}

#[test]
fn the_log_stops(rt: HostRuntime) -> Result<(), Fail> {
    stop_at_each_call(rt.alloc(), true, &changes()?)
}

#[test]
fn the_file_stops(rt: HostRuntime) -> Result<(), Fail> {
    stop_at_each_call(rt.alloc(), false, &changes()?)
}
