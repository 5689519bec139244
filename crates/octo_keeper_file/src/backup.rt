//! A copy of a database while it is open.
ghost use Rattle.std.specs.Prelude.{◌≡◌, ◌≤◌, ◌++◌, length};

use crate::DATABASE_MODE;
use arrayvec::ArrayString;
use byte_text::Name;
use octo_keeper::KeeperFault;
use octo_keeper_sql::fault_of;
use sqlite::Connection;
use std::fs::OpenOptions;
use std::io::ErrorKind;
use std::os::unix::fs::OpenOptionsExt;
use std::{fs, io};

// The path of a database, of at most 100 bytes, with an ending.
type BesidePath = ArrayString<116>;

// The path of a file beside a database.
fn beside(path: &Name, ending: &str) -> BesidePath
    requires { length ending.now ≤ 16 }
    ensures { result.bytes ≡ path.now ++ ending.now }
{
    let mut beside = BesidePath::new();
    beside.push_str(path.as_str());
    beside.push_str(ending);
    beside
}

// What came of calls of the system: out of memory only if the system says so.
fn by_system(done: io::Result<()>) -> Result<(), KeeperFault> {
    match done {
        Ok(()) => Ok(()),
        Err(error) if error.kind() == ErrorKind::OutOfMemory => Err(KeeperFault::NoMemory),
        Err(_) => Err(KeeperFault::Failed),
    }
}

// Copies a file into a new one, for its owner alone.
fn copy_file(rt: &HostRuntime, from: &str, to: &str) -> io::Result<()> {
    let mut source = fs::open(rt, from)?;
    let mut copy = OpenOptions::new()
        .write(true)
        .create_new(true)
        .mode(DATABASE_MODE)
        .open(rt, to)?;
    io::copy(&mut source, &mut copy)?;
    Ok(())
}

// Copies a database and its log, which lies beside the file itself also if the path is a link to it.
fn copy_both(rt: &HostRuntime, path: &str, part: &str, part_log: &str) -> io::Result<()> {
    let file = fs::canonicalize(rt, path)?;
    let log = format!(in rt.alloc(); "{}-wal", file.as_str())?;
    copy_file(rt, file.as_str(), part)?;
    copy_file(rt, log.as_str(), part_log)
}

// Copies the log of a database into its file. Opening it checks the whole database.
fn empty_log(rt: &HostRuntime, path: &str) -> Result<(), KeeperFault> {
    let connection = match Connection::open(rt, path) {
        Ok(connection) => connection,
        Err(error) => return Err(fault_of(error)),
    };
    match connection.close() {
        Ok(()) => Ok(()),
        Err(error) => Err(fault_of(error)),
    }
}

// Has the disk take a file and then its name, in place of the former file of that name.
fn replace(rt: &HostRuntime, part: &str, path: &str) -> io::Result<()> {
    fs::open(rt, part)?.sync_all()?;
    fs::rename(rt, part, path)?;
    let mut folder = fs::canonicalize(rt, path)?;
    folder.pop();
    fs::open(rt, folder.as_str())?.sync_all()
}

// Copies a database into one file beside it, and gives that its name once it is whole.
fn write_copy(
    rt: &HostRuntime,
    path: &Name,
    part: &str,
    part_log: &str,
) -> Result<(), KeeperFault> {
    by_system(copy_both(rt, path.as_str(), part, part_log))?;
    empty_log(rt, part)?;
    by_system(fs::remove_file(rt, part_log))?;
    by_system(replace(rt, part, beside(path, ".backup").as_str()))
}

// Removes what a backup that failed or was cut short left.
fn remove_parts(rt: &HostRuntime, part: &str, part_log: &str) {
    let _ = fs::remove_file(rt, part_log);
    let _ = fs::remove_file(rt, part);
}

// Copies an open database, between whose changes this is, to `PATH.backup`. That file is the former one until it is this one, whole
// and on the disk; after a kill `PATH.backup.part` may be left, which the next backup removes. A log beside the former copy is a
// fault: another program uses it as a database, or was killed while it did, and that log would spoil the new copy.
pub(crate) fn back_up(rt: &HostRuntime, path: &Name) -> Result<(), KeeperFault> {
    if !matches!(
        fs::exists(rt, beside(path, ".backup-wal").as_str()),
        Ok(false)
    ) {
        return Err(KeeperFault::Failed);
    }
    let part = beside(path, ".backup.part");
    let part_log = beside(path, ".backup.part-wal");
    remove_parts(rt, part.as_str(), part_log.as_str());
    let done = write_copy(rt, path, part.as_str(), part_log.as_str());
    if done.is_err() {
        remove_parts(rt, part.as_str(), part_log.as_str());
    }
    done
}
