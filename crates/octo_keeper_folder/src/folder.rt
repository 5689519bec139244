//! The files of a folder by their names.
ghost use Rattle.std.specs.Prelude.{◌≡◌, ◌≤◌, true, length, IfOk, IfSome, OnOk, OnErr};
ghost use Rattle.std.specs.List.{prefix_len};
ghost use Rattle.octo_access.specs.FileNames.{is_file_name};
ghost use Rattle.octo_access.specs.Rows.{is_before};
ghost use Rattle.octo_keeper_folder.specs.Listed.{IsListing, with_listed};

use crate::files::fault_of;
use byte_text::Name;
use octo_access::is_file_name;
use octo_keeper::{FileList, ShelfFault};
use std::alloc::{AllocError, Global};
use std::fs;
use std::fs::DirEntry;
use std::rt::Files;

// The name and the size of an entry that is a regular file with the name of a file on a shelf.
fn file_of<R: Files>(entry: &DirEntry<R>) -> Result<Option<(Name, u64)>, ShelfFault>
    ensures { IfOk result (λ found. IfSome found (λ file. is_file_name file.0 ≡ true)) }
{
    if !is_file_name(entry.file_name()) {
        return Ok(None);
    }
    let Some(name) = Name::from_text(entry.file_name()) else {
        return Ok(None);
    };
    match entry.metadata() {
        Ok(metadata) if metadata.is_file() => Ok(Some((name, metadata.len()))),
        Ok(_) => Ok(None),
        Err(error) => Err(fault_of(&error)),
    }
}

// The place for a file of that name: how many files come before it, by the bytes of their names.
fn place_for(files: &[(Name, u64)], name: &Name) -> usize
    ensures place { result ≡ prefix_len (λ file. is_before file.0 name.now) files.now }
    ensures within { result ≤ length files.now }
{
    files
        .iter()
        .take_while(|file| file.0.is_before(name))
        .count()
}

// Adds a file in its place by name.
fn add(files: &mut Vec<(Name, u64)>, file: (Name, u64)) -> Result<(), AllocError>
    ensures { OnOk result (files.new.items ≡ with_listed file files.old.items) }
{
    let place = place_for(files, &file.0);
    files.insert(place, file)?;
    Ok(())
}

// The files of a folder with their sizes, by name. Passed over is all that isn't a regular file with the name of a file on a
// shelf; a name that isn't UTF-8 is a fault.
#[tactic(auto, using(crate::proofs::Listed::none_listed))]
pub(crate) fn list_files<R: Files + AllocGlobal + Clone + Drop>(
    rt: &R,
    folder: &Name,
) -> Result<FileList, ShelfFault>
    ensures { IfOk result IsListing }
{
    let entries = match fs::read_dir(rt, folder.as_str()) {
        Ok(entries) => entries,
        Err(error) => return Err(fault_of(&error)),
    };
    let mut files = Vec::new(rt.alloc());
    for entry in entries {
        let found = match entry {
            Ok(entry) => file_of(&entry)?,
            Err(error) => return Err(fault_of(&error)),
        };
        if let Some(file) = found {
            add(&mut files, file)?;
        }
    }
    Ok(FileList::from_items(files))
}
