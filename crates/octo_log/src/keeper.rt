//! The keeper of a host, whose calls are logged.
ghost use Rattle.std.specs.Prelude.{◌≡◌, ◌++◌, false, None};
ghost use Rattle.octo_log.specs.Lines.{began_after, begin_line, begin_of_change, begin_words, end_line, end_of_change, line_of};
ghost use Rattle.octo_log.specs.Logged.{Logs};

use crate::line::log_line;
use crate::words::{begin_words, end_words};
use octo_keeper::{Change, Keeper, KeeperFault, Tables};
use octo_outside::{Clock, Sink};
use print_queue::{Ending, PrintRow};
use std::alloc::Global;

/// A keeper with a log: a line says that a print has begun or ended, that a change can't be stored, once until one is, and what came
/// of a backup.
#[derive(Drop)]
pub struct LoggedKeeper<K: Keeper + Drop, G: Sink + Drop, C: Clock + Drop> {
    keeper: K,
    log: G,
    clock: C,
    // Whether the last change couldn't be stored.
    is_failing: bool,
    // The moment of the last change, in milliseconds.
    moment: u64,
    // When the last print began.
    began: Option<u64>,
}

// Logs the end of a print, if there is one.
fn log_end<G: Sink>(log: &mut G, began: Option<u64>, moment: u64, ended: Option<Ending>)
    ensures { Logs (end_line began moment ended) (G.written log.old) (G.written log.new)
        (G.faults log.old) (G.faults log.new) }
{
    if let Some(ending) = ended {
        log_line(log, end_words(began, moment, ending).as_slice());
    }
}

// Logs the beginning of a print.
fn log_begin<G: Sink>(log: &mut G, row: &PrintRow)
    ensures { Logs (line_of (begin_words row.now)) (G.written log.old) (G.written log.new)
        (G.faults log.old) (G.faults log.new) }
{
    log_line(log, begin_words(row).as_slice());
}

// Logs what a change that was stored says of prints.
fn log_change<G: Sink>(log: &mut G, began: Option<u64>, moment: u64, change: &Change)
    ensures { Logs (end_line began moment (end_of_change change.now)
        ++ begin_line (begin_of_change change.now))
        (G.written log.old) (G.written log.new) (G.faults log.old) (G.faults log.new) }
{
    match change {
        Change::Begin { ended, print, .. } => {
            log_end(log, began, moment, *ended);
            log_begin(log, print);
        }
        Change::End(ending) => log_end(log, began, moment, Some(*ending)),
        _ => {}
    }
}

// When the last print began, after a change was stored at this moment.
fn began_after(began: Option<u64>, moment: u64, change: &Change) -> Option<u64>
    ensures { result ≡ began_after began moment change.now }
{
    match change {
        Change::Begin { .. } => Some(moment),
        _ => began,
    }
}

impl<K: Keeper + Drop, G: Sink + Drop, C: Clock + Drop> LoggedKeeper<K, G, C> {
    /// A keeper with its log, and the clock by which a print's time is measured.
    pub fn new(keeper: K, log: G, clock: C) -> Self
        ensures { result ≡ record {
          keeper = keeper;
          log = log;
          clock = clock;
          is_failing = false;
          moment = 0;
          began = None;
        } }
    {
        LoggedKeeper {
            keeper,
            log,
            clock,
            is_failing: false,
            moment: 0,
            began: None,
        }
    }

    /// The log.
    pub fn log(&self) -> &G
        ensures { result.now ≡ self.now.log }
    {
        &self.log
    }

    /// The keeper again.
    pub fn into_keeper(self) -> K
        ensures { result ≡ self.keeper }
    {
        let LoggedKeeper {
            keeper,
            log: _,
            clock: _,
            is_failing: _,
            moment: _,
            began: _,
        } = self;
        keeper
    }
}

impl<K: Keeper + Drop, G: Sink + Drop, C: Clock + Drop> Keeper for LoggedKeeper<K, G, C> {
    ghost use Rattle.std.specs.Prelude.{◌≡◌, is_err, IfSome};
    ghost use Rattle.octo_keeper.specs.Calls.{Loads, Commits, BacksUp};
    ghost use Rattle.octo_log.specs.Lines.{backup_words, began_by, commit_lines, line_of, load_line};
    ghost use Rattle.octo_log.specs.Logged.{Logs};

    ghost state = { λ l. K.state l.keeper };

    fn load(&mut self, alloc: Global) -> Result<Tables, KeeperFault>
        ensures loads { Loads (K.state self.old.keeper) result (K.state self.new.keeper) }

        ensures logged { Logs (load_line (is_err result))
            (G.written self.old.log) (G.written self.new.log)
            (G.faults self.old.log) (G.faults self.new.log) }
    {
        let loaded = self.keeper.load(alloc);
        if loaded.is_err() {
            log_line(&mut self.log, b"database: it can't be read");
        }
        loaded
    }

    fn commit(&mut self, alloc: Global, change: &Change) -> Result<(), KeeperFault>
        ensures commits { Commits (K.state self.old.keeper) change.now result
            (K.state self.new.keeper) }

        // The lines of the log, and when the last print began.
        ensures logged { Logs
            (commit_lines self.old.is_failing self.old.began self.new.moment change.now result)
            (G.written self.old.log) (G.written self.new.log)
            (G.faults self.old.log) (G.faults self.new.log) }
        ensures moment { IfSome (C.moment self.old.clock) (λ at. self.new.moment ≡ at) }
        ensures clock { C.moment self.new.clock ≡ C.moment self.old.clock }
        ensures began { self.new.began
            ≡ began_by self.old.began self.new.moment change.now result }
        ensures failing { self.new.is_failing ≡ is_err result }
    {
        let done = self.keeper.commit(alloc, change);
        let was_failing = self.is_failing;
        self.is_failing = done.is_err();
        self.moment = self.clock.now();
        if done.is_ok() {
            log_change(&mut self.log, self.began, self.moment, change);
            self.began = began_after(self.began, self.moment, change);
        } else if !was_failing {
            log_line(&mut self.log, b"database: a change can't be stored");
        }
        done
    }

    fn backup(&mut self, alloc: Global) -> Result<(), KeeperFault>
        ensures backs_up { BacksUp (K.state self.old.keeper) result (K.state self.new.keeper) }

        ensures logged { Logs (line_of (backup_words (is_err result)))
            (G.written self.old.log) (G.written self.new.log)
            (G.faults self.old.log) (G.faults self.new.log) }
    {
        let done = self.keeper.backup(alloc);
        match done {
            Ok(()) => log_line(&mut self.log, b"database: backed up"),
            Err(_) => log_line(&mut self.log, b"database: it can't be backed up"),
        }
        done
    }
}
