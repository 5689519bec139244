//! Single files of a folder.
ghost use Rattle.std.specs.Prelude.{◌≡◌, ◌↔◌, false, None, Ok, Err, IsOk};
ghost use Rattle.std.specs.IoError.{error_kind};
ghost use Rattle.octo_access.specs.FileNames.{is_file_name};
ghost use Rattle.octo_keeper.specs.declared.shelf.ShelfFault.TheVariants as fault;

use crate::fetching::mark_of;
use crate::paths::{PART, former_in, part_in, path_in, removed_in};
use byte_text::Name;
use gcode_lines::MOST_FILE_BYTES;
use octo_access::is_file_name;
use octo_keeper::{Fetched, ShelfFault};
use octo_outside::{Blob, FileSource, ReadAll, read_all};
use std::alloc::Global;
use std::fs::{Metadata, OpenFile, OpenOptions};
use std::io::{ErrorKind, Write};
use std::os::unix::fs::OpenOptionsExt;
use std::rt::Files;
use std::{fs, io};

// Who may use a new file, if the process's mask doesn't take it from them: its owner, and its group to read it.
const FILE_MODE: u32 = 0o640;

// The fault of a failed call of the system: out of memory only if the system says so.
pub(crate) fn fault_of(error: &io::Error) -> ShelfFault
    ensures { (result ≡ fault.NoMemory) ↔ (error_kind error.now ≡ ErrorKind.OutOfMemory) }
{
    match error.kind() {
        ErrorKind::OutOfMemory => ShelfFault::NoMemory,
        _ => ShelfFault::Failed,
    }
}

// The state of the regular file that a path names, `None` if it names none; a link isn't one.
fn state_of<R: Files>(rt: &R, path: &str) -> Result<Option<Metadata>, ShelfFault> {
    match fs::symlink_metadata(rt, path) {
        Ok(metadata) if metadata.is_file() => Ok(Some(metadata)),
        Ok(_) => Ok(None),
        Err(error) if error.kind() == ErrorKind::NotFound => Ok(None),
        Err(error) => Err(fault_of(&error)),
    }
}

// All bytes of a file.
fn read_bytes<R: Files + AllocGlobal + Clone + Drop>(
    alloc: Global,
    rt: &R,
    path: &str,
) -> Result<Blob, ShelfFault> {
    let files = match rt.clone() {
        Ok(files) => files,
        Err(_) => return Err(ShelfFault::NoMemory),
    };
    let mut source = FileSource::new(files);
    match read_all(alloc, &mut source, path, MOST_FILE_BYTES) {
        Ok(bytes) => Ok(bytes),
        Err(ReadAll::NoMemory) => Err(ShelfFault::NoMemory),
        Err(_) => Err(ShelfFault::Failed),
    }
}

// The bytes that were fetched, if they are of this name and the file in this state.
fn fetched_bytes(fetched: Option<Fetched>, name: &Name, state: &Metadata) -> Option<Blob> {
    match fetched {
        Some(fetched) => fetched.bytes_of(name, mark_of(state)),
        None => None,
    }
}

// The bytes of a file, `None` if the folder has none of that name. It is read unless it was fetched, and is still the same.
pub(crate) fn read_file<R: Files + AllocGlobal + Clone + Drop>(
    alloc: Global,
    rt: &R,
    folder: &Name,
    name: &Name,
    fetched: Option<Fetched>,
) -> Result<Option<Blob>, ShelfFault>
    ensures other { is_file_name name.now ≡ false → result ≡ Ok None }
{
    if !is_file_name(name.as_str()) {
        return Ok(None);
    }
    let path = path_in(folder, name, "");
    let Some(state) = state_of(rt, path.as_str())? else {
        return Ok(None);
    };
    if let Some(bytes) = fetched_bytes(fetched, name, &state) {
        return Ok(Some(bytes));
    }
    let bytes = read_bytes(alloc, rt, path.as_str())?;
    Ok(Some(bytes))
}

// The size of a file in bytes, `None` if the folder has none of that name.
pub(crate) fn size_of_file<R: Files>(
    rt: &R,
    folder: &Name,
    name: &Name,
) -> Result<Option<u64>, ShelfFault>
    ensures other { is_file_name name.now ≡ false → result ≡ Ok None }
{
    if !is_file_name(name.as_str()) {
        return Ok(None);
    }
    let path = path_in(folder, name, "");
    match state_of(rt, path.as_str())? {
        Some(state) => Ok(Some(state.len())),
        None => Ok(None),
    }
}

// Writes a new file, and has the disk take it.
pub(crate) fn write_new<R: Files>(rt: &R, path: &str, bytes: &[u8]) -> io::Result<()> {
    let mut file = OpenOptions::new()
        .write(true)
        .create_new(true)
        .mode(FILE_MODE)
        .open(rt, path)?;
    file.write_all(bytes)?;
    file.sync_all()
}

// Has the disk take the names of a folder. Beside uploads this takes long: the disk takes what is written of other files too.
pub(crate) fn sync_folder<R: Files>(rt: &R, folder: &Name) -> io::Result<()> {
    let file = fs::open(rt, folder.as_str())?;
    file.sync_all()
}

// Writes the new file beside the former one, and renames it.
fn replace<R: Files>(rt: &R, part: &str, path: &str, bytes: &[u8]) -> io::Result<()> {
    write_new(rt, part, bytes)?;
    fs::rename(rt, part, path)
}

// Whether a part is a regular file of this number of bytes.
fn is_whole<R: Files>(rt: &R, part: &str, size: u64) -> bool {
    match fs::symlink_metadata(rt, part) {
        Ok(metadata) => metadata.is_file() && metadata.len() == size,
        Err(_) => false,
    }
}

// Renames a stager's part that has this number of bytes, and returns whether it did. The former file keeps a name for the stager
// to remove: the system takes long to give back the room of a large file, and does so with its last name.
fn rename_part<R: Files>(rt: &R, folder: &Name, number: u8, path: &str, size: u64) -> bool {
    let part = part_in(folder, number);
    if !is_whole(rt, part.as_str(), size) {
        return false;
    }
    let _ = fs::hard_link(rt, path, former_in(folder, number).as_str());
    fs::rename(rt, part.as_str(), path).is_ok()
}

// Writes a new file beside the former one, and renames it; a failure leaves none beside it.
fn write_beside<R: Files>(rt: &R, part: &str, path: &str, bytes: &[u8]) -> Result<(), ShelfFault> {
    let _ = fs::remove_file(rt, part);
    if let Err(error) = replace(rt, part, path, bytes) {
        let _ = fs::remove_file(rt, part);
        return Err(fault_of(&error));
    }
    Ok(())
}

// Gives a file its name: a part that a stager wrote is renamed, after which that stager syncs the folder. Without one the bytes
// are written, and the folder is synced.
fn place<R: Files>(
    rt: &R,
    folder: &Name,
    name: &Name,
    bytes: &[u8],
    part: Option<u8>,
) -> Result<(), ShelfFault> {
    let path = path_in(folder, name, "");
    if let Some(number) = part {
        if rename_part(rt, folder, number, path.as_str(), bytes.len() as u64) {
            return Ok(());
        }
    }
    write_beside(
        rt,
        path_in(folder, name, PART).as_str(),
        path.as_str(),
        bytes,
    )?;
    match sync_folder(rt, folder) {
        Ok(()) => Ok(()),
        Err(error) => Err(fault_of(&error)),
    }
}

// Sets the bytes of a file: a new one is written beside it and synced, unless a stager has done so, and is renamed. Until the
// rename the former file exists, also after a full disk.
pub(crate) fn write_file<R: Files>(
    rt: &R,
    folder: &Name,
    name: &Name,
    bytes: &[u8],
    part: Option<u8>,
) -> Result<(), ShelfFault>
    ensures other { is_file_name name.now ≡ false → result ≡ Err fault.Failed }
{
    if !is_file_name(name.as_str()) {
        return Err(ShelfFault::Failed);
    }
    place(rt, folder, name, bytes, part)
}

// Takes the file of that name out, if the folder has it: gives it a name that no file on a shelf has, under which a stager gives
// back its room, which takes long for a large file, and syncs the folder.
pub(crate) fn remove_file<R: Files>(rt: &R, folder: &Name, name: &Name) -> Result<(), ShelfFault>
    ensures other { is_file_name name.now ≡ false → IsOk result }
{
    if !is_file_name(name.as_str()) {
        return Ok(());
    }
    let path = path_in(folder, name, "");
    if state_of(rt, path.as_str())?.is_none() {
        return Ok(());
    }
    match fs::rename(rt, path.as_str(), removed_in(folder).as_str()) {
        Ok(()) => Ok(()),
        Err(error) => Err(fault_of(&error)),
    }
}
