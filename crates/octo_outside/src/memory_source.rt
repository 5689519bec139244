//! Files in memory, some of whose calls fail.
ghost use Rattle.std.specs.Prelude.{◌≡◌, Some, None, MatchOption};
ghost use Rattle.octo_outside.specs.Memory.{bytes_named, bytes_at};

use crate::{Blob, CallList, Calls, Failed, Source};
use std::alloc::{AllocError, Global};
use std::marker::Model;

/// A name with its bytes.
#[derive(Drop)]
pub struct MemoryFile {
    pub name: Blob,
    pub bytes: Blob,
}

/// Files in memory.
#[derive(Drop)]
pub struct MemorySource {
    alloc: Global,
    files: Vec<MemoryFile>,
    // The place of the chosen file, past the end if there is none, and how many of its bytes are left.
    chosen: usize,
    unread: usize,
    calls: Calls,
}

impl Model for MemorySource {
    ghost use Rattle.std.specs.Prelude.{◌≤◌, length};
    ghost use Rattle.octo_outside.specs.Memory.{SourceData, bytes_at, last_of};

    ghost Value = { SourceData };

    ghost view = { λ s. record {
      files = s.files.items;
      left = last_of s.unread (bytes_at s.files.items s.chosen);
      calls = s.calls.made;
      faults = s.calls.faults;
      fail_at = s.calls.fail_at;
    } };

    ghost invariant = { λ s. s.unread ≤ length (bytes_at s.files.items s.chosen) };
}

// The place of the first file of that name.
fn place_of(files: &[MemoryFile], name: &str) -> Option<usize>
    ensures { MatchOption result (bytes_named files.now name.now ≡ None)
        (λ place. bytes_named files.now name.now ≡ Some (bytes_at files.now place)) }
{
    for (place, file) in files.iter().enumerate() {
        if file.name.as_slice() == name.as_bytes() {
            return Some(place);
        }
    }
    None
}

impl MemorySource {
    ghost use Rattle.std.specs.Prelude.{◌≡◌, ◌≤◌, [], ◌∷◌, OnOk, OnErr, drop, length};
    ghost use Rattle.octo_outside.specs.Memory.{SourceData, one_more, is_listed, bytes_at};

    /// A source without files whose calls with these numbers, from 1, fail; takes no memory.
    pub fn new(alloc: Global, fail_at: CallList) -> Self
        ensures { result
            ≡ record { files = []; left = []; calls = 0; faults = 0; fail_at = fail_at } }
    {
        MemorySource {
            alloc,
            files: Vec::new(alloc),
            chosen: 0,
            unread: 0,
            calls: Calls::new(fail_at),
        }
    }

    /// Sets what a name holds; nothing is left to read then. Without memory the source stays.
    pub fn put(&mut self, name: &str, bytes: &[u8]) -> Result<(), AllocError>
        ensures ok { OnOk result
            (self.new ≡ record self.old {
              files = record { name = name.now; bytes = bytes.now } ∷ self.old.files;
              left = [];
            }) }
        ensures err { OnErr result (self.new ≡ self.old) }
    {
        let name = Blob::from_slice(self.alloc, name.as_bytes())?;
        let bytes = Blob::from_slice(self.alloc, bytes)?;
        self.files.insert(0, MemoryFile { name, bytes })?;
        self.chosen = self.files.len();
        self.unread = 0;
        Ok(())
    }

    // Nothing is chosen any more.
    fn drop_choice(&mut self)
        ensures { self.new ≡ record self.old { left = [] } }
    {
        self.chosen = self.files.len();
        self.unread = 0;
    }

    // The bytes of the file at this place are left.
    fn choose_place(&mut self, place: usize)
        ensures { self.new ≡ record self.old { left = bytes_at self.old.files place } }
    {
        self.chosen = place;
        self.unread = match self.files.get(place) {
            Some(file) => file.bytes.len(),
            None => 0,
        };
    }

    // What is left to read.
    fn rest(&self) -> &[u8]
        ensures { result.now ≡ self.now.left }
    {
        match self.files.get(self.chosen) {
            Some(file) => {
                let bytes = file.bytes.as_slice();
                &bytes[bytes.len() - self.unread..]
            }
            None => &[],
        }
    }

    // Counts n bytes as read.
    fn advance(&mut self, n: usize)
        requires { n ≤ length self.old.left }
        ensures { self.new ≡ record self.old { left = drop n self.old.left } }
    {
        self.unread -= n;
    }
}

impl Source for MemorySource {
    ghost use Rattle.std.specs.Prelude.{◌≡◌, ◌<◌, ◌≤◌, ◌⊎◌, ◌↔◌, [], Some, None, true, length, min, IfOk, OnOk, OnErr, IsErr, unwrap_or};
    ghost use Rattle.octo_outside.specs.Recorded.{Counts};
    ghost use Rattle.octo_outside.specs.Traits.{Begins, Reads};
    ghost use Rattle.octo_outside.specs.Memory.{SourceData, bytes_named, one_more, is_listed};

    ghost files = { λ s. Some (bytes_named s.files) };

    ghost left = { λ s. Some s.left };

    ghost faults = { λ s. s.faults };

    fn choose(&mut self, name: &str) -> Result<(), Failed>
        ensures chosen { OnOk result (self.new ≡ record self.old {
          left = unwrap_or (bytes_named self.old.files name.now) [];
          calls = one_more self.old.calls;
        }) }
        ensures refused { OnErr result (self.new ≡ record self.old {
          left = [];
          calls = one_more self.old.calls;
          faults = one_more self.old.faults;
        }) }
        ensures fails { IsErr result
            ↔ ((is_listed self.old.fail_at (one_more self.old.calls) ≡ true)
            ⊎ (bytes_named self.old.files name.now ≡ None)) }
        ensures ok { OnOk result
            (Begins (bytes_named self.old.files) name.now (Some self.new.left)) }
        ensures err { OnErr result (self.new.left ≡ []) }
        ensures files { self.new.files ≡ self.old.files }
        ensures counts { Counts (IsErr result) self.old.faults self.new.faults }
    {
        if !self.calls.begin()
            && let Some(place) = place_of(&self.files, name)
        {
            self.choose_place(place);
            return Ok(());
        }
        self.drop_choice();
        self.calls.fail();
        Err(Failed)
    }

    fn read(&mut self, into: &mut [u8]) -> Result<usize, Failed>
        requires { 0 < length into.old }
        ensures fails { IsErr result
            ↔ (is_listed self.old.fail_at (one_more self.old.calls) ≡ true) }
        ensures reads { IfOk result (λ n. n ≡ min (length into.old) (length self.old.left)) }
        ensures ok { IfOk result (λ n. Reads self.old.left n into.new (Some self.new.left)) }
        ensures bound { IfOk result (λ n. n ≤ length into.new) }
        ensures err { OnErr result (self.new.left ≡ self.old.left) }
        ensures files { self.new.files ≡ self.old.files }
        ensures counts { Counts (IsErr result) self.old.faults self.new.faults }
    {
        if self.calls.begin() {
            self.calls.fail();
            return Err(Failed);
        }
        let rest = self.rest();
        let n = into.len().min(rest.len());
        into[..n].copy_from_slice(&rest[..n]);
        self.advance(n);
        Ok(n)
    }
}
