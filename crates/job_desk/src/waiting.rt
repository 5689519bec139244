//! The scripts that wait to be issued.
ghost use Rattle.std.specs.Prelude.{◌≡◌, ◌+◌, ◌<◌, ◌≤◌, ◌++◌, ◌==◌, [], length, drop, slice_get, IsTrue, IfSome};
ghost use Rattle.std.specs.Option.{option_map};
ghost use Rattle.byte_text.specs.Sendable.{IsSendable};
ghost use Rattle.job_desk.specs.Data.{script_lines};
ghost use Rattle.job_desk.specs.declared.waiting.TheConstants.{MOST_WAITING};
ghost use Rattle.job_desk.specs.Issued.{line_of};

use crate::scripts::Scripts;
use crate::{Issued, Point, Tag};
use arrayvec::ArrayVec;
use byte_text::bounded_text;
use std::marker::Model;

// How many scripts wait at most, as the states of the desk follow one another.
pub(crate) const MOST_WAITING: usize = 5;

// A script that waits from one of its lines on.
#[derive(Clone, Copy, Default)]
pub(crate) struct Entry {
    point: Point,
    print: u32,
    next: usize,
}

// The scripts that wait, in order, and all the scripts. A script without a line left is taken away.
#[derive(Drop)]
pub(crate) struct Waiting {
    scripts: Scripts,
    entries: ArrayVec<Entry, MOST_WAITING>,
}

impl Model for Waiting {
    ghost use Rattle.std.specs.Prelude.{length};
    ghost use Rattle.job_desk.specs.Scripts.{WaitingData};

    ghost Value = { WaitingData };

    ghost use Rattle.job_desk.specs.Entries.{lines_left, HaveLines};

    ghost view = { λ w. record {
      scripts = w.scripts;
      lines = lines_left w.scripts w.entries.items;
      count = length w.entries.items;
    } };

    ghost invariant = { λ w. HaveLines w.scripts w.entries.items };
}

impl Waiting {
    // None of these scripts waits.
    pub(crate) fn new(scripts: Scripts) -> Waiting
        ensures { result ≡ record { scripts = scripts; lines = []; count = 0 } }
    {
        Waiting {
            scripts,
            entries: ArrayVec::new(),
        }
    }

    pub(crate) fn scripts(&self) -> &Scripts
        ensures { result.now ≡ self.now.scripts }
    {
        &self.scripts
    }

    // A script waits after the others, for a print or, with 0, for none.
    pub(crate) fn add(&mut self, point: Point, print: u32)
        requires { self.old.count < MOST_WAITING }
        ensures scripts { self.new.scripts ≡ self.old.scripts }
        ensures lines { self.new.lines
            ≡ self.old.lines ++ script_lines self.old.scripts point print }
        ensures count { self.new.count ≤ self.old.count + 1 }
    {
        if self.scripts.count(point) > 0 {
            self.entries.push(Entry {
                point,
                print,
                next: 0,
            });
        }
    }

    // Whether no line waits.
    pub(crate) fn is_empty(&self) -> bool
        ensures value { result ≡ (length self.now.lines == 0) }
        ensures none { IsTrue result → self.now.count ≡ 0 }
    {
        self.entries.is_empty()
    }

    // The first line, if any.
    fn first(&self) -> Option<Issued>
        ensures value { option_map line_of result ≡ slice_get self.now.lines 0 }
        ensures sendable { IfSome result (λ issued. IsSendable issued.text.items) }
    {
        let entry = self.entries.as_slice().first()?;
        let text = self.scripts.get(entry.point, entry.next)?;
        Some(Issued {
            text: bounded_text(text.as_slice()),
            tag: Tag::Script {
                point: entry.point,
                print: entry.print,
            },
        })
    }

    // Goes past the first line.
    fn advance(&mut self)
        requires { 0 < length self.old.lines }
        ensures scripts { self.new.scripts ≡ self.old.scripts }
        ensures lines { self.new.lines ≡ drop 1 self.old.lines }
        ensures count { self.new.count ≤ self.old.count }
    {
        let entry = self.entries[0];
        let count = self.scripts.count(entry.point);
        let next = entry.next + 1;
        if next < count {
            self.entries[0] = Entry { next, ..entry };
        } else {
            self.entries.remove(0);
        }
    }

    // Takes the first line, if any.
    pub(crate) fn next(&mut self) -> Option<Issued>
        ensures value { option_map line_of result ≡ slice_get self.old.lines 0 }
        ensures sendable { IfSome result (λ issued. IsSendable issued.text.items) }
        ensures scripts { self.new.scripts ≡ self.old.scripts }
        ensures lines { self.new.lines ≡ drop 1 self.old.lines }
        ensures count { self.new.count ≤ self.old.count }
    {
        let line = self.first()?;
        self.advance();
        Some(line)
    }

    // Drops all that wait.
    pub(crate) fn clear(&mut self)
        ensures { self.new ≡ record { scripts = self.old.scripts; lines = []; count = 0 } }
    {
        self.entries.clear();
    }
}
