//! The link of a print whose progress is shown.
ghost use Rattle.std.specs.Prelude.{◌≡◌, ◌<◌, ◌≤◌, ◌-◌, ◌/◌, length, IfSome};
ghost use Rattle.marlin_reply.specs.Kind.{kind_of};
ghost use Rattle.octo_log.specs.Logged.{Logs};
ghost use Rattle.octo_log.specs.declared.line.TheConstants.{MOST_LOG_BYTES};
ghost use Rattle.octo_log_link.specs.Progress.{acknowledged, end_text, progress_words, replied_by, shown_after, shown_text, temps_after};

use crate::progress_words::{progress_words, tenth_of};
use crate::shown::{Words, is_due, show, show_end};
use crate::tally::Tally;
use crate::temps::{TempsText, keep_temps};
use byte_text::{Line, ReplyLine};
use marlin_reply::read_reply;
use octo_outside::{Clock, Sink};
use printer_link::{Heard, Link, LinkFault};

/// How a print's progress is shown.
#[derive(Clone, Copy, Debug, PartialEq, Eq)]
pub enum Showing {
    /// It isn't shown.
    Off,
    /// Once a second in one line, in place: for a terminal.
    InPlace,
    /// In a line for each tenth of the commands that is acknowledged.
    Tenths,
}

/// A link whose lines and replies are counted, and shown on a log as the print goes on.
#[derive(Drop)]
pub struct ProgressLink<L: Link + Drop, G: Sink + Drop, C: Clock + Drop> {
    pub(crate) link: L,
    log: G,
    clock: C,
    showing: Showing,
    // How many commands the file has, if it is known.
    total: Option<u32>,
    tally: Tally,
    temps: TempsText,
    // When the link was made, in milliseconds.
    began: u64,
    // The moment of the last call.
    moment: u64,
    // The moment or the tenth that was shown last.
    shown: u64,
}

impl<L: Link + Drop, G: Sink + Drop, C: Clock + Drop> ProgressLink<L, G, C> {
    /// A link that is down, of a print with this number of commands if it is known, which is shown on a log by a clock.
    pub fn new(link: L, log: G, clock: C, showing: Showing, total: Option<u32>) -> Self
        ensures link { result.link ≡ link }
        ensures showing { (result.showing ≡ showing) × (result.total ≡ total) }
    {
        ProgressLink {
            link,
            log,
            clock,
            showing,
            total,
            tally: Tally::new(),
            temps: TempsText::new(),
            began: 0,
            moment: 0,
            shown: 0,
        }
    }

    /// The log.
    pub fn log(&self) -> &G
        ensures { result.now ≡ self.now.log }
    {
        &self.log
    }

    // How far the print has come, in words.
    fn words(&self) -> Words
        ensures words { result.items ≡ progress_words self.now.total
            ((self.now.moment - self.now.began) / 1000) self.now.tally self.now.temps.items }
        ensures short { length result.items < MOST_LOG_BYTES }
    {
        progress_words(
            self.total,
            self.moment.saturating_sub(self.began) / 1000,
            &self.tally,
            self.temps.as_slice(),
        )
    }

    // Looks at the clock, and shows how far the print has come if that is due.
    fn show(&mut self)
        ensures shown { Logs
            (shown_text self.old.showing self.old.total self.old.began self.old.shown
            self.new.moment self.old.tally self.old.temps.items)
            (G.written self.old.log) (G.written self.new.log)
            (G.faults self.old.log) (G.faults self.new.log) }
        ensures moment { IfSome (C.moment self.old.clock) (λ at. self.new.moment ≡ at) }
        ensures last { self.new.shown ≡
            shown_after self.old.showing self.old.total self.old.shown self.new.moment self.old.tally }
        ensures link { self.new.link ≡ self.old.link }
        ensures counted { (self.new.tally ≡ self.old.tally) × (self.new.temps ≡ self.old.temps) }
        ensures stays { (self.new.showing ≡ self.old.showing) × (self.new.total ≡ self.old.total)
            × (self.new.began ≡ self.old.began) }
    {
        self.moment = self.clock.now();
        let tenth = tenth_of(self.total, self.tally.acknowledged());
        if is_due(self.showing, self.shown, self.moment, tenth) {
            let words = self.words();
            show(&mut self.log, self.showing, words.as_slice());
            self.shown = match self.showing {
                Showing::Off => self.shown,
                Showing::InPlace => self.moment,
                Showing::Tenths => tenth,
            };
        }
    }
}

impl<L: Link + Drop, G: Sink + Drop, C: Clock + Drop> Link for ProgressLink<L, G, C> {
    ghost use Rattle.std.specs.Prelude.{◌≡◌, ◌≤◌, true, false, length, is_ok, if◌then◌else◌, IfSome, OnOk, OnErr};
    ghost use Rattle.byte_text.specs.declared.texts.TheConstants.{MOST_LINE_BYTES};
    ghost use Rattle.printer_link.specs.Calls.{Dials, Sends, Hears, HangsUp};
    ghost use Rattle.octo_log_link.specs.Progress.{heard_by, last_text, new_tally, sent_by, shown_after, shown_text, temps_by};
    ghost use Rattle.octo_log.specs.Logged.{Logs};

    ghost state = { λ l. L.state l.link };

    fn dial(&mut self, name: &str) -> Result<(), LinkFault>
        requires { (L.state self.old.link).up ≡ false }
        ensures dials { Dials (L.state self.old.link) name.now result (L.state self.new.link) }

        // Where the counts begin.
        ensures counted { OnOk result (self.new.tally ≡ new_tally) }
        ensures began { OnOk result (IfSome (C.moment self.old.clock) (λ at. self.new.began ≡ at)) }
        ensures unshown { OnOk result (self.new.shown ≡ 0) }
    {
        self.link.dial(name)?;
        self.tally = Tally::new();
        self.temps = TempsText::new();
        self.moment = self.clock.now();
        self.began = self.moment;
        self.shown = 0;
        Ok(())
    }

    fn send(&mut self, line: &Line) -> Result<(), LinkFault>
        requires open { (L.state self.old.link).up ≡ true }
        requires short { length line.now.items ≤ MOST_LINE_BYTES }
        ensures sends { Sends (L.state self.old.link) line.now.items result
            (L.state self.new.link) }

        // What is counted and shown.
        ensures counted { self.new.tally
            ≡ (if is_ok result then sent_by self.old.tally line.now.items else self.old.tally) }
        ensures temps { self.new.temps ≡ self.old.temps }
        ensures shown { Logs
            (shown_text self.old.showing self.old.total self.old.began self.old.shown
            self.new.moment self.new.tally self.new.temps.items)
            (G.written self.old.log) (G.written self.new.log)
            (G.faults self.old.log) (G.faults self.new.log) }
        ensures moment { IfSome (C.moment self.old.clock) (λ at. self.new.moment ≡ at) }
        ensures last { self.new.shown ≡ shown_after self.old.showing self.old.total self.old.shown
            self.new.moment self.new.tally }
        ensures stays { (self.new.showing ≡ self.old.showing) × (self.new.total ≡ self.old.total)
            × (self.new.began ≡ self.old.began) }
    {
        let sent = self.link.send(line);
        if sent.is_ok() {
            self.tally.count_line(line.as_slice());
        }
        self.show();
        sent
    }

    fn recv(&mut self, into: &mut ReplyLine) -> Result<Heard, LinkFault>
        requires { (L.state self.old.link).up ≡ true }
        ensures hears { Hears (L.state self.old.link) result into.new.items
            (L.state self.new.link) }

        // What is counted and shown.
        ensures counted { self.new.tally ≡ heard_by self.old.tally into.new.items result }
        ensures temps { self.new.temps.items
            ≡ temps_by self.old.temps.items into.new.items result }
        ensures shown { Logs
            (shown_text self.old.showing self.old.total self.old.began self.old.shown
            self.new.moment self.new.tally self.new.temps.items)
            (G.written self.old.log) (G.written self.new.log)
            (G.faults self.old.log) (G.faults self.new.log) }
        ensures moment { IfSome (C.moment self.old.clock) (λ at. self.new.moment ≡ at) }
        ensures last { self.new.shown ≡ shown_after self.old.showing self.old.total self.old.shown
            self.new.moment self.new.tally }
        ensures stays { (self.new.showing ≡ self.old.showing) × (self.new.total ≡ self.old.total)
            × (self.new.began ≡ self.old.began) }
    {
        let heard = self.link.recv(into);
        if let Ok(Heard::Line) = heard {
            let reply = read_reply(into.as_slice());
            self.tally.count_reply(&reply);
            keep_temps(&mut self.temps, into.as_slice(), &reply);
        }
        self.show();
        heard
    }

    fn hang_up(&mut self)
        ensures hangs_up { HangsUp (L.state self.old.link) (L.state self.new.link) }

        // The last words, if any were shown.
        ensures ended { self.new.shown ≡ 0 }
        ensures shown { Logs (last_text self.old.showing self.old.total self.old.began
            self.old.shown
            self.old.moment self.old.tally self.old.temps.items)
            (G.written self.old.log) (G.written self.new.log)
            (G.faults self.old.log) (G.faults self.new.log) }
    {
        self.link.hang_up();
        if self.shown > 0 {
            let words = self.words();
            self.shown = 0;
            show_end(&mut self.log, self.showing, words.as_slice());
        }
    }
}
