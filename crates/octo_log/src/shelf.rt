//! The shelf of a host, whose calls are logged.
ghost use Rattle.std.specs.Prelude.{◌≡◌};

use crate::line::log_line;
use crate::words::file_words;
use byte_text::Name;
use octo_keeper::{Fetched, FileList, Shelf, ShelfFault};
use octo_outside::{Blob, Sink};
use std::alloc::{AllocError, Global};

/// A shelf with a log: a line says that a file was stored or deleted, and that a call failed.
#[derive(Drop)]
pub struct LoggedShelf<S: Shelf + Drop, G: Sink + Drop> {
    shelf: S,
    log: G,
}

impl<S: Shelf + Drop, G: Sink + Drop> LoggedShelf<S, G> {
    /// A shelf with its log.
    pub fn new(shelf: S, log: G) -> Self
        ensures { result ≡ record { shelf = shelf; log = log } }
    {
        LoggedShelf { shelf, log }
    }

    /// The log.
    pub fn log(&self) -> &G
        ensures { result.now ≡ self.now.log }
    {
        &self.log
    }
}

impl<S: Shelf + Drop, G: Sink + Drop> Shelf for LoggedShelf<S, G> {
    ghost use Rattle.std.specs.Prelude.{◌≡◌, is_err, IfOk};
    ghost use Rattle.octo_keeper.specs.Calls.{Looks, Changes};
    ghost use Rattle.octo_keeper.specs.Files.{bytes_of, size_of, sizes_of, with_file, without_file};
    ghost use Rattle.octo_log.specs.Lines.{line_of, list_line, get_line, file_words, put_words, remove_words};
    ghost use Rattle.octo_log.specs.Logged.{Logs};

    type Stager = S::Stager;

    ghost state = { λ l. S.state l.shelf };

    fn list(&mut self, alloc: Global) -> Result<FileList, ShelfFault>
        ensures lists { Looks (S.state self.old.shelf) sizes_of result (S.state self.new.shelf) }

        ensures logged { Logs (list_line (is_err result))
            (G.written self.old.log) (G.written self.new.log)
            (G.faults self.old.log) (G.faults self.new.log) }
    {
        let listed = self.shelf.list(alloc);
        if listed.is_err() {
            log_line(&mut self.log, b"files: they can't be listed");
        }
        listed
    }

    fn get(
        &mut self,
        alloc: Global,
        name: &Name,
        fetched: Option<Fetched>,
    ) -> Result<Option<Blob>, ShelfFault>
        ensures gets { Looks (S.state self.old.shelf) (bytes_of name.now) result
            (S.state self.new.shelf) }

        ensures logged { Logs (get_line name.now (is_err result))
            (G.written self.old.log) (G.written self.new.log)
            (G.faults self.old.log) (G.faults self.new.log) }
    {
        let got = self.shelf.get(alloc, name, fetched);
        if got.is_err() {
            log_line(
                &mut self.log,
                file_words(name, b": it can't be read").as_slice(),
            );
        }
        got
    }

    fn size(&mut self, name: &Name) -> Result<Option<u64>, ShelfFault>
        ensures sizes { Looks (S.state self.old.shelf) (size_of name.now) result
            (S.state self.new.shelf) }

        ensures logged { Logs (get_line name.now (is_err result))
            (G.written self.old.log) (G.written self.new.log)
            (G.faults self.old.log) (G.faults self.new.log) }
    {
        let size = self.shelf.size(name);
        if size.is_err() {
            log_line(
                &mut self.log,
                file_words(name, b": it can't be read").as_slice(),
            );
        }
        size
    }

    fn stager(&self, number: u8) -> Result<S::Stager, AllocError>
        ensures { IfOk result (λ stager. S.Stager.number stager ≡ number) }
    {
        self.shelf.stager(number)
    }

    fn put(
        &mut self,
        alloc: Global,
        name: &Name,
        bytes: &[u8],
        part: Option<u8>,
    ) -> Result<(), ShelfFault>
        ensures puts { Changes (S.state self.old.shelf) (with_file name.now bytes.now) result
            (S.state self.new.shelf) }
        ensures logged { Logs (line_of (file_words name.now (put_words (is_err result))))
            (G.written self.old.log) (G.written self.new.log)
            (G.faults self.old.log) (G.faults self.new.log) }
    {
        let done = self.shelf.put(alloc, name, bytes, part);
        let what: &[u8] = if done.is_err() {
            b": it can't be stored"
        } else {
            b": stored"
        };
        log_line(&mut self.log, file_words(name, what).as_slice());
        done
    }

    fn remove(&mut self, alloc: Global, name: &Name) -> Result<(), ShelfFault>
        ensures removes { Changes (S.state self.old.shelf) (without_file name.now) result
            (S.state self.new.shelf) }
        ensures logged { Logs (line_of (file_words name.now (remove_words (is_err result))))
            (G.written self.old.log) (G.written self.new.log)
            (G.faults self.old.log) (G.faults self.new.log) }
    {
        let done = self.shelf.remove(alloc, name);
        let what: &[u8] = if done.is_err() {
            b": it can't be deleted"
        } else {
            b": deleted"
        };
        log_line(&mut self.log, file_words(name, what).as_slice());
        done
    }
}
