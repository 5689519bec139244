//! Files in memory, by name.
ghost use Rattle.std.specs.Prelude.{◌≡◌, ◌<◌, ◌≤◌, length, vec_len, IfOk, IsOk, OnOk, OnErr};
ghost use Rattle.std.specs.Vec.{vec_capacity};
ghost use Rattle.std.specs.List.{prefix_len, position_or_len};
ghost use Rattle.octo_access.specs.Rows.{is_before};
ghost use Rattle.octo_keeper.specs.Files.{added, bytes_of, is_file, size_of, sizes_of, with_file, without_file};

use crate::{FileList, ShelfFile};
use byte_text::Name;
use octo_outside::Blob;
use std::alloc::{AllocError, Global};

// The place of the file of that name, the number of files if there is none.
fn place_of(files: &[ShelfFile], name: &Name) -> usize
    ensures place { result ≡ position_or_len (is_file name.now) files.now }
    ensures within { result ≤ length files.now }
{
    files.iter().take_while(|file| !file.name.is(name)).count()
}

// The place for a file of that name: how many files come before it, by the bytes of their names.
fn place_for(files: &[ShelfFile], name: &Name) -> usize
    ensures place { result ≡ prefix_len (λ file. is_before file.name name.now) files.now }
    ensures within { result ≤ length files.now }
{
    files
        .iter()
        .take_while(|file| file.name.is_before(name))
        .count()
}

/// The names of the files with their sizes in bytes. Fails if out of memory.
pub fn copy_sizes(alloc: Global, files: &[ShelfFile]) -> Result<FileList, AllocError>
    ensures { IfOk result (λ list. list ≡ sizes_of files.now) }
{
    let mut list = FileList::new(alloc);
    for file in files {
        list.push((file.name.copy(), file.bytes.len() as u64))?;
    }
    Ok(list)
}

/// The bytes of a file, if there is one of that name. Fails if out of memory.
#[tactic(auto, using(std::proofs::lemmas::List::Folds::find_at, std::proofs::lemmas::Option::slice_get_past, std::proofs::lemmas::Option::slice_get_read))]
pub fn bytes_at(alloc: Global, files: &[ShelfFile], name: &Name) -> Result<Option<Blob>, AllocError>
    ensures { IfOk result (λ bytes. bytes ≡ bytes_of name.now files.now) }
{
    let place = place_of(files, name);
    if place == files.len() {
        return Ok(None);
    }
    let bytes = Blob::from_slice(alloc, files[place].bytes.as_slice())?;
    Ok(Some(bytes))
}

/// The size of a file in bytes, if there is one of that name.
#[tactic(auto, using(std::proofs::lemmas::List::Folds::find_at, std::proofs::lemmas::Option::slice_get_past, std::proofs::lemmas::Option::slice_get_read))]
pub fn size_at(files: &[ShelfFile], name: &Name) -> Option<u64>
    ensures { result ≡ size_of name.now files.now }
{
    let place = place_of(files, name);
    if place == files.len() {
        return None;
    }
    Some(files[place].bytes.len() as u64)
}

/// Takes the file of that name out.
pub fn drop_file(files: &mut Vec<ShelfFile>, name: &Name)
    ensures items { files.new.items ≡ without_file name.now files.old.items }
    ensures room { vec_len files.old < vec_capacity files.old
        → vec_len files.new < vec_capacity files.new }
{
    files.retain(|file| !file.name.is(name));
}

// Adds a file in its place by name; without memory the files stay.
fn add_file(files: &mut Vec<ShelfFile>, file: ShelfFile) -> Result<(), AllocError>
    ensures ok { OnOk result (files.new.items ≡ added file files.old.items) }
    ensures err { OnErr result (files.new.items ≡ files.old.items) }
    ensures room { vec_len files.old < vec_capacity files.old → IsOk result }
{
    let place = place_for(files, &file.name);
    files.insert(place, file)?;
    Ok(())
}

/// Sets the bytes of a name. Fails if out of memory; then the files stay.
pub fn put_file(
    alloc: Global,
    files: &mut Vec<ShelfFile>,
    name: &Name,
    bytes: &[u8],
) -> Result<(), AllocError>
    ensures ok { OnOk result (files.new.items ≡ with_file name.now bytes.now files.old.items) }
    ensures err { OnErr result (files.new.items ≡ files.old.items) }
{
    let bytes = Blob::from_slice(alloc, bytes)?;
    files.reserve(1)?;
    drop_file(files, name);
    let file = ShelfFile {
        name: name.copy(),
        bytes,
    };
    match add_file(files, file) {
        Ok(()) => Ok(()),
        Err(_) => unreachable!(),
    }
}
