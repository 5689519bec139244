//! What writes files beside those of a folder, and reads its files ahead.
use crate::fetching::fetch_file;
use crate::files::{sync_folder, write_new};
use crate::notes::Notes;
use crate::paths::{FilePath, former_in, part_in, removed_in};
use byte_text::Name;
use octo_keeper::{Fetched, Stager};
use std::alloc::Global;
use std::fs;
use std::rt::Files;

/// A stager of a folder's shelf: its part is the file `.part-N` of the folder if N is its number, and `.former-N` the file that the
/// part has replaced. `.removed` is the file that the shelf has removed last. No file on a shelf has such a name.
///
/// After a put of its part, and after each remove, `clear` has the disk take the names of the folder, and gives back the room of the
/// replaced file and the removed one. Both may take long, and so the shelf does neither.
///
/// A loss of power, or the end of the process, may leave these files. The next stager of this number removes them.
#[derive(Drop)]
pub struct FolderStager<R: Files + Drop> {
    rt: R,
    folder: Name,
    part: FilePath,
    former: FilePath,
    number: u8,
    notes: Notes,
    // Whether the part, or the file that it has replaced, may exist.
    is_written: bool,
}

impl<R: Files + Drop> FolderStager<R> {
    ghost use Rattle.std.specs.Prelude.{◌≡◌};
    ghost use Rattle.octo_keeper_folder.specs.Paths.{part_in, former_in};

    // The stager of that number in a folder, with the notes of its shelf; removes its files.
    pub(crate) fn new(rt: R, folder: &Name, number: u8, notes: Notes) -> Self
        ensures number { result.number ≡ number }
        ensures part { result.part.bytes ≡ part_in folder.now number }
        ensures former { result.former.bytes ≡ former_in folder.now number }
        ensures folder { result.folder ≡ folder.now }
    {
        let stager = FolderStager {
            rt,
            folder: folder.copy(),
            part: part_in(folder, number),
            former: former_in(folder, number),
            number,
            notes,
            is_written: false,
        };
        stager.remove_files();
        stager
    }

    // Has the disk take the names of the folder. If that fails, the shelf's next put does.
    fn sync(&self) {
        if sync_folder(&self.rt, &self.folder).is_err() {
            self.notes.note_unsynced();
        }
    }

    // Removes its part, unless that was put, and gives back the room of the file that was replaced, and of the one that was removed.
    fn remove_files(&self) {
        let _ = fs::remove_file(&self.rt, self.part.as_str());
        let _ = fs::remove_file(&self.rt, self.former.as_str());
        let _ = fs::remove_file(&self.rt, removed_in(&self.folder).as_str());
    }
}

impl<R: Files + Drop> Stager for FolderStager<R> {
    ghost use Rattle.std.specs.Prelude.{◌≡◌, false, None, IfSome};
    ghost use Rattle.octo_access.specs.FileNames.{is_file_name};

    ghost number = { λ s. s.number };

    fn stage(&mut self, bytes: &[u8]) -> Option<u8>
        ensures part { IfSome result (λ part. part ≡ self.old.number) }
        ensures stays { self.new.number ≡ self.old.number }
        ensures path { self.new.part ≡ self.old.part }
        ensures former { self.new.former ≡ self.old.former }
        ensures folder { self.new.folder ≡ self.old.folder }
    {
        let _ = fs::remove_file(&self.rt, self.part.as_str());
        self.is_written = true;
        match write_new(&self.rt, self.part.as_str(), bytes) {
            Ok(()) => Some(self.number),
            Err(_) => None,
        }
    }

    fn clear(&mut self)
        ensures stays { self.new.number ≡ self.old.number }
        ensures path { self.new.part ≡ self.old.part }
        ensures former { self.new.former ≡ self.old.former }
        ensures folder { self.new.folder ≡ self.old.folder }
    {
        let removals = self.notes.removals();
        if self.is_written || removals != self.notes.finished() {
            self.sync();
            self.remove_files();
            self.notes.finish(removals);
        }
        self.is_written = false;
    }

    fn fetch(&mut self, alloc: Global, name: &Name) -> Option<Fetched>
        ensures other { is_file_name name.now ≡ false → result ≡ None }
        ensures name { IfSome result (λ fetched. fetched.name ≡ name.now) }
        ensures stays { self.new.number ≡ self.old.number }
        ensures path { self.new.part ≡ self.old.part }
        ensures former { self.new.former ≡ self.old.former }
        ensures folder { self.new.folder ≡ self.old.folder }
    {
        fetch_file(alloc, &self.rt, &self.folder, name)
    }
}
