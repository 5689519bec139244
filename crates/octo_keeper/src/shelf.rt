//! What keeps the files.
use crate::{Fetched, Stager};
use byte_text::Name;
use octo_outside::{Blob, ItemList};
use std::alloc::{AllocError, AllocFailed, Global};
use thiserror::Error;

/// Why a shelf didn't do a call.
#[derive(Clone, Copy, Debug, PartialEq, Eq, Error)]
pub enum ShelfFault {
    /// It failed, and its count of faults rose.
    #[error("files: the shelf failed")]
    Failed,
    /// Out of memory.
    #[error("out of memory")]
    NoMemory,
}

impl From<AllocError> for ShelfFault {
    ghost use Rattle.std.specs.Prelude.{◌≡◌};
    ghost use Rattle.octo_keeper.specs.declared.shelf.ShelfFault.TheVariants.{NoMemory};

    ghost from_gives = { λ _ e. e ≡ NoMemory };

    fn from(_: AllocError) -> Self {
        ShelfFault::NoMemory
    }
}

impl<T: Drop> From<AllocFailed<T>> for ShelfFault {
    ghost use Rattle.std.specs.Prelude.{◌≡◌};
    ghost use Rattle.octo_keeper.specs.declared.shelf.ShelfFault.TheVariants.{NoMemory};

    ghost from_gives = { λ _ e. e ≡ NoMemory };

    fn from(_: AllocFailed<T>) -> Self {
        ShelfFault::NoMemory
    }
}

/// A file on a shelf.
#[derive(Drop)]
pub struct ShelfFile {
    pub name: Name,
    pub bytes: Blob,
}

/// Names of files with their sizes in bytes.
pub type FileList = ItemList<(Name, u64)>;

/// What keeps the files of a host: a map from names to bytes.
pub trait Shelf {
    /// What writes bytes beside these files, and reads them.
    type Stager: Stager + Send + Drop;

    ghost use Rattle.std.specs.Prelude.{◌≡◌, IfOk};
    ghost use Rattle.octo_keeper.specs.Calls.{ShelfState, Looks, Changes};
    ghost use Rattle.octo_keeper.specs.Files.{bytes_of, size_of, sizes_of, with_file, without_file};

    /// What it says of itself: the files by name, `None` for a real folder, and how many calls failed.
    ghost state: { Self → ShelfState };

    /// The names of all files with their sizes in bytes, by name. `Failed` if the shelf fails, `NoMemory` if memory runs
    /// out.
    fn list(&mut self, alloc: Global) -> Result<FileList, ShelfFault>
        ensures { Looks (state self.old) sizes_of result (state self.new) };

    /// The bytes of a file, `None` if there is no file of that name. If a stager has read them, what it fetched is given, and
    /// the shelf may take that and read nothing, if the file is still the same. Fails as `list` does.
    fn get(
        &mut self,
        alloc: Global,
        name: &Name,
        fetched: Option<Fetched>,
    ) -> Result<Option<Blob>, ShelfFault>
        ensures { Looks (state self.old) (bytes_of name.now) result (state self.new) };

    /// The size of a file in bytes, `None` if there is no file of that name. Reads none of them. Fails as `list` does.
    fn size(&mut self, name: &Name) -> Result<Option<u64>, ShelfFault>
        ensures { Looks (state self.old) (size_of name.now) result (state self.new) };

    /// A stager of that number. It begins with no part: one that was left under its number is removed. Fails if out of memory.
    fn stager(&self, number: u8) -> Result<Self::Stager, AllocError>
        ensures { IfOk result (λ stager. Self.Stager.number stager ≡ number) };

    /// Sets the bytes of that name alone. If a stager has written them, its part is given, and the shelf may take that and write
    /// nothing. Fails as `list` does; then the files are as before.
    fn put(
        &mut self,
        alloc: Global,
        name: &Name,
        bytes: &[u8],
        part: Option<u8>,
    ) -> Result<(), ShelfFault>
        ensures { Changes (state self.old) (with_file name.now bytes.now) result (state self.new) };

    /// Takes the file of that name alone out, if there is one. Fails as `list` does; then the files are as before.
    fn remove(&mut self, alloc: Global, name: &Name) -> Result<(), ShelfFault>
        ensures { Changes (state self.old) (without_file name.now) result (state self.new) };
}
