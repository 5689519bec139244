//! A shelf in memory, some of whose calls fail.
use crate::files::{bytes_at, copy_sizes, drop_file, put_file, size_at};
use crate::{Fetched, FileList, NoStager, Shelf, ShelfFault, ShelfFile};
use byte_text::Name;
use octo_outside::{Blob, CallList, Calls};
use std::alloc::{AllocError, Global};
use std::marker::Model;

/// Files in memory, by name.
#[derive(Drop)]
pub struct MemoryShelf {
    files: Vec<ShelfFile>,
    calls: Calls,
}

impl Model for MemoryShelf {
    ghost use Rattle.octo_keeper.specs.Memory.{ShelfData};

    ghost Value = { ShelfData };

    ghost view = { λ s. record { files = s.files.items; calls = s.calls } };
}

impl MemoryShelf {
    ghost use Rattle.std.specs.Prelude.{◌≡◌, []};

    /// An empty shelf whose calls with these numbers, from 1, fail; takes no memory.
    pub fn new(alloc: Global, fail_at: CallList) -> Self
        ensures { result
            ≡ record { files = []; calls = record { made = 0; faults = 0; fail_at = fail_at } } }
    {
        MemoryShelf {
            files: Vec::new(alloc),
            calls: Calls::new(fail_at),
        }
    }
}

impl Shelf for MemoryShelf {
    ghost use Rattle.std.specs.Prelude.{◌≡◌, ◌↔◌, true, Some, IfOk, OnOk, OnErr, IsErrOf};
    ghost use Rattle.octo_outside.specs.Recorded.{Counts};
    ghost use Rattle.octo_outside.specs.Memory.{one_more, is_listed};
    ghost use Rattle.octo_keeper.specs.declared.shelf.ShelfFault.TheVariants as fault;
    ghost use Rattle.octo_keeper.specs.Files.{bytes_of, size_of, sizes_of, with_file, without_file};
    ghost use Rattle.octo_keeper.specs.Memory.{ShelfData, fails_next, after_call};

    type Stager = NoStager;

    ghost state = { λ s. record { files = Some s.files; faults = s.calls.faults } };

    fn list(&mut self, alloc: Global) -> Result<FileList, ShelfFault>
        ensures ok { IfOk result (λ list. list ≡ sizes_of self.old.files) }
        ensures stays { self.new.files ≡ self.old.files }
        ensures calls { self.new.calls ≡ after_call (fails_next self.old.calls) self.old.calls }

        ensures fails { IsErrOf result fault.Failed
            ↔ (is_listed self.old.calls.fail_at (one_more self.old.calls.made) ≡ true) }
        ensures counts { Counts (IsErrOf result fault.Failed)
            self.old.calls.faults self.new.calls.faults }
    {
        if self.calls.begin() {
            self.calls.fail();
            return Err(ShelfFault::Failed);
        }
        Ok(copy_sizes(alloc, &self.files)?)
    }

    fn get(
        &mut self,
        alloc: Global,
        name: &Name,
        _fetched: Option<Fetched>,
    ) -> Result<Option<Blob>, ShelfFault>
        ensures ok { IfOk result (λ bytes. bytes ≡ bytes_of name.now self.old.files) }
        ensures stays { self.new.files ≡ self.old.files }
        ensures calls { self.new.calls ≡ after_call (fails_next self.old.calls) self.old.calls }

        ensures fails { IsErrOf result fault.Failed
            ↔ (is_listed self.old.calls.fail_at (one_more self.old.calls.made) ≡ true) }
        ensures counts { Counts (IsErrOf result fault.Failed)
            self.old.calls.faults self.new.calls.faults }
    {
        if self.calls.begin() {
            self.calls.fail();
            return Err(ShelfFault::Failed);
        }
        Ok(bytes_at(alloc, &self.files, name)?)
    }

    fn size(&mut self, name: &Name) -> Result<Option<u64>, ShelfFault>
        ensures ok { IfOk result (λ size. size ≡ size_of name.now self.old.files) }
        ensures stays { self.new.files ≡ self.old.files }
        ensures calls { self.new.calls ≡ after_call (fails_next self.old.calls) self.old.calls }

        ensures fails { IsErrOf result fault.Failed
            ↔ (is_listed self.old.calls.fail_at (one_more self.old.calls.made) ≡ true) }
        ensures memory { IsErrOf result fault.NoMemory → ⊥ }
        ensures counts { Counts (IsErrOf result fault.Failed)
            self.old.calls.faults self.new.calls.faults }
    {
        if self.calls.begin() {
            self.calls.fail();
            return Err(ShelfFault::Failed);
        }
        Ok(size_at(&self.files, name))
    }

    fn stager(&self, number: u8) -> Result<NoStager, AllocError>
        ensures { IfOk result (λ stager. stager.number ≡ number) }
    {
        Ok(NoStager::new(number))
    }

    fn put(
        &mut self,
        alloc: Global,
        name: &Name,
        bytes: &[u8],
        _part: Option<u8>,
    ) -> Result<(), ShelfFault>
        ensures ok { OnOk result (self.new.files ≡ with_file name.now bytes.now self.old.files) }
        ensures err { OnErr result (self.new.files ≡ self.old.files) }
        ensures calls { self.new.calls ≡ after_call (fails_next self.old.calls) self.old.calls }

        ensures fails { IsErrOf result fault.Failed
            ↔ (is_listed self.old.calls.fail_at (one_more self.old.calls.made) ≡ true) }
        ensures counts { Counts (IsErrOf result fault.Failed)
            self.old.calls.faults self.new.calls.faults }
    {
        if self.calls.begin() {
            self.calls.fail();
            return Err(ShelfFault::Failed);
        }
        put_file(alloc, &mut self.files, name, bytes)?;
        Ok(())
    }

    fn remove(&mut self, _alloc: Global, name: &Name) -> Result<(), ShelfFault>
        ensures ok { OnOk result (self.new.files ≡ without_file name.now self.old.files) }
        ensures err { OnErr result (self.new.files ≡ self.old.files) }
        ensures calls { self.new.calls ≡ after_call (fails_next self.old.calls) self.old.calls }

        ensures fails { IsErrOf result fault.Failed
            ↔ (is_listed self.old.calls.fail_at (one_more self.old.calls.made) ≡ true) }
        ensures memory { IsErrOf result fault.NoMemory → ⊥ }
        ensures counts { Counts (IsErrOf result fault.Failed)
            self.old.calls.faults self.new.calls.faults }
    {
        if self.calls.begin() {
            self.calls.fail();
            return Err(ShelfFault::Failed);
        }
        drop_file(&mut self.files, name);
        Ok(())
    }
}
