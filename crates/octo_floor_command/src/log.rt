//! A floor's log.
ghost use Rattle.std.specs.Prelude.{◌≡◌, ◌<◌, ◌≤◌, [], length};
ghost use Rattle.octo_floor_command.specs.Lines.{did_words, ending_lines, ends_first, event_lines, found_after, loses, note_line, port_of};
ghost use Rattle.octo_log.specs.Lines.{line_of};
ghost use Rattle.octo_log.specs.Logged.{Logs};
ghost use Rattle.octo_log.specs.declared.line.TheConstants.{MOST_LOG_BYTES};

use crate::words::{Words, began_words, did_words, failed_words, lost_words, passed_words};
use byte_text::Name;
use job_desk::LinkFact;
use octo_floor::Watch;
use octo_floor_bay::FloorEvent;
use octo_log::log_line;
use octo_outside::Sink;
use print_queue::Outcome;

/// What writes the events of a floor to a log. A log that fails loses the rest of a line.
#[derive(Drop)]
pub struct FloorLog<G: Sink + Drop> {
    log: G,
}

impl<G: Sink + Drop> FloorLog<G> {
    /// The log of a floor.
    pub fn new(log: G) -> Self
        ensures { result ≡ record { log = log } }
    {
        FloorLog { log }
    }

    /// The log.
    pub fn log(&self) -> &G
        ensures { result.now ≡ self.now.log }
    {
        &self.log
    }

    // A line of these words.
    fn say(&mut self, words: &Words)
        requires { length words.now.items < MOST_LOG_BYTES }
        ensures { Logs (line_of words.now.items) (G.written self.old.log) (G.written self.new.log)
            (G.faults self.old.log) (G.faults self.new.log) }
    {
        log_line(&mut self.log, words.as_slice());
    }

    // A printer that did this.
    fn say_did(&mut self, printer: u8, port: &Name, what: &[u8])
        requires { length what.now ≤ 100 }
        ensures { Logs (line_of (did_words printer port.now what.now))
            (G.written self.old.log) (G.written self.new.log)
            (G.faults self.old.log) (G.faults self.new.log) }
    {
        self.say(&did_words(printer, port, what));
    }

    // What a turn found of a link, which may have lost the printer. `ends`: the printer's print ends then.
    fn say_note(&mut self, printer: u8, port: &Name, found: LinkFact, ends: bool)
        ensures { Logs (note_line printer port.now found ends)
            (G.written self.old.log) (G.written self.new.log)
            (G.faults self.old.log) (G.faults self.new.log) }
    {
        if loses(found) && !ends {
            self.say(&lost_words(printer, port, found));
        }
    }

    // The end of a print, after a turn that found this of the link.
    fn say_ending(&mut self, printer: u8, port: &Name, outcome: Outcome, found: LinkFact)
        ensures { Logs (ending_lines printer port.now outcome found)
            (G.written self.old.log) (G.written self.new.log)
            (G.faults self.old.log) (G.faults self.new.log) }
    {
        match outcome {
            Outcome::Done => self.say_did(printer, port, b"done"),
            Outcome::Failed => {
                self.say(&failed_words(printer, port, found));
                self.say_did(printer, port, b"lost");
            }
            Outcome::Active | Outcome::Cancelled => {}
        }
    }

    // An event, after a turn that found this of the link, and before these other events.
    fn say_event(
        &mut self,
        ports: &[Name],
        found: LinkFact,
        event: &FloorEvent,
        others: &[FloorEvent],
    )
        ensures { Logs (event_lines ports.now found event.now others.now)
            (G.written self.old.log) (G.written self.new.log)
            (G.faults self.old.log) (G.faults self.new.log) }
    {
        let none = Name::new();
        match event {
            FloorEvent::Noted { printer, note } => {
                let ends = ends_first(*printer, others);
                self.say_note(*printer, port_of(ports, *printer, &none), note.fact, ends);
            }
            FloorEvent::Ended { printer, ending } => {
                let port = port_of(ports, *printer, &none);
                self.say_ending(*printer, port, ending.outcome, found);
            }
            FloorEvent::Started { printer, entry, .. } => {
                self.say(&began_words(*printer, port_of(ports, *printer, &none), entry));
            }
            FloorEvent::Passed { entry } => self.say(&passed_words(entry)),
        }
    }
}

// The port of a printer, or none.
fn port_of<'a>(ports: &'a [Name], printer: u8, none: &'a Name) -> &'a Name
    requires { none.now ≡ [] }
    ensures { result.now ≡ port_of ports.now printer }
{
    ports.get(usize::from(printer)).unwrap_or(none)
}

// Whether what a turn found of a link loses the printer.
fn loses(found: LinkFact) -> bool
    ensures { result ≡ loses found }
{
    matches!(
        found,
        LinkFact::NoPort | LinkFact::Failed | LinkFact::Ended(_)
    )
}

// Whether the first of these events is the end of a print of this printer.
fn ends_first(printer: u8, events: &[FloorEvent]) -> bool
    ensures { result ≡ ends_first printer events.now }
{
    match events {
        [FloorEvent::Ended { printer: its, .. }, ..] => *its == printer,
        _ => false,
    }
}

// What the last turn found of a link, after an event.
fn found_after(found: LinkFact, event: &FloorEvent) -> LinkFact
    ensures { result ≡ found_after found event.now }
{
    match event {
        FloorEvent::Noted { note, .. } => note.fact,
        _ => found,
    }
}

impl<G: Sink + Drop> Watch for FloorLog<G> {
    ghost use Rattle.job_desk.specs.declared.link_fact.LinkFact.TheVariants.{Quiet};
    ghost use Rattle.octo_floor_command.specs.Lines.{lines_of};
    ghost use Rattle.octo_log.specs.Logged.{Logs};

    fn see(&mut self, ports: &[Name], events: &[FloorEvent])
        ensures lines { Logs (lines_of ports.now Quiet events.now)
            (G.written self.old.log) (G.written self.new.log)
            (G.faults self.old.log) (G.faults self.new.log) }
    {
        let mut found = LinkFact::Quiet;
        for i in 0..events.len() {
            let event = &events[i];
            self.say_event(ports, found, event, &events[i + 1..]);
            found = found_after(found, event);
        }
    }
}
