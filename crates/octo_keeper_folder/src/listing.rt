//! A list of a folder's files that is kept.
ghost use Rattle.std.specs.Prelude.{◌≡◌, IfOk};
ghost use Rattle.octo_keeper_folder.specs.Listed.{IsListing};

use byte_text::Name;
use octo_keeper::FileList;
use std::alloc::{AllocError, Global};

// A copy of names with sizes. Fails if out of memory.
fn copy_list(alloc: Global, files: &[(Name, u64)]) -> Result<FileList, AllocError>
    ensures { IfOk result (λ list. list ≡ files.now) }
{
    let mut list = FileList::new(alloc);
    for file in files {
        list.push((file.0.copy(), file.1))?;
    }
    Ok(list)
}

/// The files of a folder with their sizes, by name.
#[derive(Drop)]
pub(crate) struct Listing {
    files: FileList,
    ghost listing: { IsListing files },
}

impl Listing {
    // Keeps this list.
    pub(crate) fn new(files: FileList) -> Self
        requires { IsListing files }
    {
        Listing { files }
    }

    // A copy of the list. Fails if out of memory.
    pub(crate) fn copy(&self, alloc: Global) -> Result<FileList, AllocError>
        ensures { IfOk result IsListing }
    {
        copy_list(alloc, self.files.as_slice())
    }
}
