//! The shelf over a folder.
use crate::files::{read_file, remove_file, size_of_file, write_file};
use crate::folder::list_files;
use crate::listing::Listing;
use crate::notes::Notes;
use crate::stager::FolderStager;
use byte_text::Name;
use octo_keeper::{Fetched, FileList, Shelf, ShelfFault};
use octo_outside::Blob;
use std::alloc::{AllocError, Global};
use std::rt::Files;

/// The files of a folder of the system. It doesn't record them.
///
/// Its files are the regular files in it whose names are names of print files. After a put without a part that returned `Ok` a loss of
/// power leaves the new file whole; before, it leaves the former one, and perhaps a stager's files, or a file `NAME.part`, which is
/// passed over and which the next put of that name replaces. A put with a part is as safe once the stager of that part was cleared,
/// and a remove once any stager was: until then a loss of power may leave the former file, also whole. What was listed is kept until a put or a remove, so a file that another
/// program puts into the folder isn't listed at once.
///
/// A put with a part renames that, if it is a regular file of the size of the bytes; else it writes the bytes itself. If a stager
/// can't have the disk take what was put or removed, the next put fails. Source: POSIX.1-2017, `rename` and `fsync`.
///
/// A get to which a fetched file is given returns the bytes of that, if the file of that name still has its mark; else it reads
/// the file. So the bytes are those of the file as it is at the get. Only a program that writes into a file in place within the
/// same tick of the system's clock as it did before the fetch may be missed.
#[derive(Drop)]
pub struct FolderShelf<R: Files + AllocGlobal + Clone + Drop> {
    rt: R,
    folder: Name,
    // What was listed, if nothing was put or removed since.
    listing: Option<Listing>,
    notes: Notes,
    faults: u64,
}

impl<R: Files + AllocGlobal + Clone + Drop> FolderShelf<R> {
    ghost use Rattle.std.specs.Prelude.{◌≡◌, false, Err, IfOk, IsErrOf};
    ghost use Rattle.octo_outside.specs.Recorded.{Counts};
    ghost use Rattle.octo_access.specs.FileNames.{is_file_name};
    ghost use Rattle.octo_keeper.specs.declared.shelf.ShelfFault.TheVariants as fault;
    ghost use Rattle.octo_keeper_folder.specs.Listed.{IsListing};

    /// The files of that folder, which has to exist; no call yet. Fails if out of memory.
    pub fn new(rt: R, folder: &Name) -> Result<Self, AllocError>
        ensures faults { IfOk result (λ shelf. shelf.faults ≡ 0) }
        ensures folder { IfOk result (λ shelf. shelf.folder ≡ folder.now) }
    {
        let notes = Notes::new(rt.alloc())?;
        Ok(FolderShelf {
            rt,
            folder: folder.copy(),
            listing: None,
            notes,
            faults: 0,
        })
    }

    // The list that is kept. If none is, the folder is listed, and the list is kept.
    fn list_once(&mut self, alloc: Global) -> Result<FileList, ShelfFault>
        ensures listed { IfOk result IsListing }
        ensures folder { self.new.folder ≡ self.old.folder }
        ensures faults { self.new.faults ≡ self.old.faults }
    {
        if let Some(listing) = &self.listing {
            return Ok(listing.copy(alloc)?);
        }
        let listing = Listing::new(list_files(&self.rt, &self.folder)?);
        let files = listing.copy(alloc)?;
        self.listing = Some(listing);
        Ok(files)
    }

    // Sets the bytes of a file, unless the disk hasn't taken what was put before.
    fn write(&self, name: &Name, bytes: &[u8], part: Option<u8>) -> Result<(), ShelfFault>
        ensures other { is_file_name name.now ≡ false → result ≡ Err fault.Failed }
    {
        if self.notes.take_unsynced() {
            return Err(ShelfFault::Failed);
        }
        write_file(&self.rt, &self.folder, name, bytes, part)
    }

    // Counts a fault, if the call was one; running out of memory isn't.
    fn count<T: Drop>(&mut self, done: Result<T, ShelfFault>) -> Result<T, ShelfFault>
        ensures same { result ≡ done }
        ensures folder { self.new.folder ≡ self.old.folder }
        ensures counts { Counts (IsErrOf result fault.Failed) self.old.faults self.new.faults }
        ensures steady { (IsErrOf result fault.Failed → ⊥) → self.new.faults ≡ self.old.faults }
    {
        if matches!(done, Err(ShelfFault::Failed)) {
            self.faults = self.faults.saturating_add(1);
        }
        done
    }
}

impl<R: Files + AllocGlobal + Clone + Send + Drop> Shelf for FolderShelf<R> {
    ghost use Rattle.std.specs.Prelude.{◌≡◌, false, None, Ok, Err, IfOk, IsOk, IsErrOf};
    ghost use Rattle.octo_outside.specs.Recorded.{Counts};
    ghost use Rattle.octo_access.specs.FileNames.{is_file_name};
    ghost use Rattle.octo_keeper.specs.declared.shelf.ShelfFault.TheVariants as fault;
    ghost use Rattle.octo_keeper_folder.specs.Listed.{IsListing};
    ghost use Rattle.octo_keeper_folder.specs.Paths.{part_in, former_in};

    type Stager = FolderStager<R>;

    ghost state = { λ s. record { files = None; faults = s.faults } };

    fn list(&mut self, alloc: Global) -> Result<FileList, ShelfFault>
        ensures listed { IfOk result IsListing }
        ensures folder { self.new.folder ≡ self.old.folder }

        ensures counts { Counts (IsErrOf result fault.Failed) self.old.faults self.new.faults }
        ensures steady { (IsErrOf result fault.Failed → ⊥) → self.new.faults ≡ self.old.faults }
    {
        let listed = self.list_once(alloc);
        self.count(listed)
    }

    fn get(
        &mut self,
        alloc: Global,
        name: &Name,
        fetched: Option<Fetched>,
    ) -> Result<Option<Blob>, ShelfFault>
        ensures other { is_file_name name.now ≡ false → result ≡ Ok None }
        ensures folder { self.new.folder ≡ self.old.folder }

        ensures counts { Counts (IsErrOf result fault.Failed) self.old.faults self.new.faults }
        ensures steady { (IsErrOf result fault.Failed → ⊥) → self.new.faults ≡ self.old.faults }
    {
        let read = read_file(alloc, &self.rt, &self.folder, name, fetched);
        self.count(read)
    }

    fn size(&mut self, name: &Name) -> Result<Option<u64>, ShelfFault>
        ensures other { is_file_name name.now ≡ false → result ≡ Ok None }
        ensures folder { self.new.folder ≡ self.old.folder }

        ensures counts { Counts (IsErrOf result fault.Failed) self.old.faults self.new.faults }
        ensures steady { (IsErrOf result fault.Failed → ⊥) → self.new.faults ≡ self.old.faults }
    {
        let size = size_of_file(&self.rt, &self.folder, name);
        self.count(size)
    }

    fn stager(&self, number: u8) -> Result<FolderStager<R>, AllocError>
        ensures number { IfOk result (λ stager. stager.number ≡ number) }
        ensures part { IfOk result (λ stager.
            stager.part.bytes ≡ part_in self.now.folder number) }
        ensures former { IfOk result (λ stager.
            stager.former.bytes ≡ former_in self.now.folder number) }
        ensures folder { IfOk result (λ stager. stager.folder ≡ self.now.folder) }
    {
        let files = self.rt.clone()?;
        let notes = self.notes.share()?;
        Ok(FolderStager::new(files, &self.folder, number, notes))
    }

    fn put(
        &mut self,
        _alloc: Global,
        name: &Name,
        bytes: &[u8],
        part: Option<u8>,
    ) -> Result<(), ShelfFault>
        ensures other { is_file_name name.now ≡ false → result ≡ Err fault.Failed }
        ensures folder { self.new.folder ≡ self.old.folder }

        ensures counts { Counts (IsErrOf result fault.Failed) self.old.faults self.new.faults }
        ensures steady { (IsErrOf result fault.Failed → ⊥) → self.new.faults ≡ self.old.faults }
    {
        self.listing = None;
        let done = self.write(name, bytes, part);
        self.count(done)
    }

    fn remove(&mut self, _alloc: Global, name: &Name) -> Result<(), ShelfFault>
        ensures other { is_file_name name.now ≡ false → IsOk result }
        ensures folder { self.new.folder ≡ self.old.folder }

        ensures counts { Counts (IsErrOf result fault.Failed) self.old.faults self.new.faults }
        ensures steady { (IsErrOf result fault.Failed → ⊥) → self.new.faults ≡ self.old.faults }
    {
        self.listing = None;
        let done = remove_file(&self.rt, &self.folder, name);
        self.notes.count_removal();
        self.count(done)
    }
}
