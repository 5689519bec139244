//! The link of a host, whose calls are logged.
ghost use Rattle.std.specs.Prelude.{◌≡◌, false};

use crate::words::{PortText, dial_words, has_no_link, short_port};
use byte_text::{Line, ReplyLine};
use octo_log::log_line;
use octo_outside::Sink;
use printer_link::{Heard, Link, LinkFault};
use printer_link_cause::WatchedLink;

/// A link with a log: a line says that it was made, or couldn't be and why, once until one is; that it failed and why, or that it was
/// closed; that the printer is ready, which is its first `ok`, or has restarted since; and which errors it reports, but for those that
/// ask for a line again.
#[derive(Drop)]
pub struct LoggedLink<L: Link + WatchedLink + Drop, G: Sink + Drop> {
    pub(crate) link: L,
    pub(crate) log: G,
    // Whether the last call left it up.
    pub(crate) is_up: bool,
    // Whether the last call left it up and still being made.
    pub(crate) is_pending: bool,
    // The port of the last call that was to make it.
    pub(crate) port: PortText,
    // Whether that call, or a later one, found that there is no link to the port.
    pub(crate) has_no_link: bool,
    // Whether the printer has said `ok` since the link was made.
    pub(crate) is_ready: bool,
}

impl<L: Link + WatchedLink + Drop, G: Sink + Drop> LoggedLink<L, G> {
    /// A link that is down, with its log.
    pub fn new(link: L, log: G) -> Self
        ensures link { result.link ≡ link }
        ensures log { result.log ≡ log }
        ensures down { (result.is_up ≡ false) × (result.is_pending ≡ false) }
        ensures no_link { result.has_no_link ≡ false }
        ensures ready { result.is_ready ≡ false }
    {
        LoggedLink {
            link,
            log,
            is_up: false,
            is_pending: false,
            port: PortText::new(),
            has_no_link: false,
            is_ready: false,
        }
    }

    /// The log.
    pub fn log(&self) -> &G
        ensures { result.now ≡ self.now.log }
    {
        &self.log
    }
}

impl<L: Link + WatchedLink + Drop, G: Sink + Drop> Link for LoggedLink<L, G> {
    ghost use Rattle.std.specs.Prelude.{◌≡◌, ◌≤◌, ◌&&◌, ◌++◌, true, false, not, if◌then◌else◌, length, is_ok, is_err};
    ghost use Rattle.byte_text.specs.declared.texts.TheConstants.{MOST_LINE_BYTES};
    ghost use Rattle.printer_link.specs.Calls.{Dials, Sends, Hears, HangsUp};
    ghost use Rattle.octo_log_link.specs.Lines.{dial_line, has_no_link, heard_line, link_line, no_link_after, recv_ready, hang_up_line, short};
    ghost use Rattle.octo_log.specs.Logged.{Logs};

    ghost state = { λ l. L.state l.link };

    fn dial(&mut self, name: &str) -> Result<(), LinkFault>
        requires { (L.state self.old.link).up ≡ false }
        ensures dials { Dials (L.state self.old.link) name.now result (L.state self.new.link) }

        // The line of the log.
        ensures logged { Logs (dial_line self.new.is_pending self.old.has_no_link
            name.now (L.cause self.new.link) result)
            (G.written self.old.log) (G.written self.new.log)
            (G.faults self.old.log) (G.faults self.new.log) }
        ensures open_flag { self.new.is_up ≡ is_ok result }
        ensures pending { self.new.is_pending ≡ (is_ok result && L.pending self.new.link) }
        ensures port { self.new.port.items ≡ short name.now }
        ensures no_link { self.new.has_no_link ≡ (if self.new.is_pending
            then self.old.has_no_link else has_no_link result) }
        ensures ready { self.new.is_ready ≡ false }
    {
        let made = self.link.dial(name);
        let had_no_link = self.has_no_link;
        self.is_up = made.is_ok();
        self.is_pending = self.is_up && self.link.is_pending();
        self.port = short_port(name);
        self.is_ready = false;
        if self.is_pending {
            return made;
        }
        self.has_no_link = has_no_link(&made);
        if !(had_no_link && self.has_no_link) {
            let words = dial_words(name, self.link.cause(), &made);
            log_line(&mut self.log, words.as_slice());
        }
        made
    }

    fn send(&mut self, line: &Line) -> Result<(), LinkFault>
        requires open { (L.state self.old.link).up ≡ true }
        requires short { length line.now.items ≤ MOST_LINE_BYTES }
        ensures sends { Sends (L.state self.old.link) line.now.items result
            (L.state self.new.link) }

        // The line of the log, if the link is made or failed.
        ensures logged { Logs (link_line self.old.is_pending self.old.has_no_link
            self.old.port.items (L.pending self.new.link) (L.cause self.new.link) (is_err result))
            (G.written self.old.log) (G.written self.new.log)
            (G.faults self.old.log) (G.faults self.new.log) }
        ensures open_flag { self.new.is_up ≡ (self.old.is_up && not (is_err result)) }
        ensures pending { self.new.is_pending
            ≡ (self.old.is_pending && L.pending self.new.link && not (is_err result)) }
        ensures port { self.new.port ≡ self.old.port }
        ensures no_link { self.new.has_no_link ≡ no_link_after self.old.is_pending
            self.old.has_no_link (L.pending self.new.link) (is_err result) }
        ensures ready { self.new.is_ready ≡ self.old.is_ready }
    {
        let sent = self.link.send(line);
        self.log_call(sent.is_err());
        sent
    }

    fn recv(&mut self, into: &mut ReplyLine) -> Result<Heard, LinkFault>
        requires { (L.state self.old.link).up ≡ true }
        ensures hears { Hears (L.state self.old.link) result into.new.items
            (L.state self.new.link) }

        // The lines of the log: what the call shows of the link, and what was received.
        ensures logged { Logs (link_line self.old.is_pending self.old.has_no_link
            self.old.port.items (L.pending self.new.link) (L.cause self.new.link) (is_err result)
            ++ heard_line self.old.is_ready into.new.items result)
            (G.written self.old.log) (G.written self.new.log)
            (G.faults self.old.log) (G.faults self.new.log) }
        ensures open_flag { self.new.is_up ≡ (self.old.is_up && not (is_err result)) }
        ensures pending { self.new.is_pending
            ≡ (self.old.is_pending && L.pending self.new.link && not (is_err result)) }
        ensures port { self.new.port ≡ self.old.port }
        ensures no_link { self.new.has_no_link ≡ no_link_after self.old.is_pending
            self.old.has_no_link (L.pending self.new.link) (is_err result) }
        ensures ready { self.new.is_ready ≡ recv_ready self.old.is_ready into.new.items result }
    {
        let heard = self.link.recv(into);
        self.log_call(heard.is_err());
        self.log_heard(into.as_slice(), &heard);
        heard
    }

    fn hang_up(&mut self)
        ensures hangs_up { HangsUp (L.state self.old.link) (L.state self.new.link) }

        // The line of the log, if a link was made.
        ensures logged { Logs (hang_up_line (self.old.is_up && not self.old.is_pending))
            (G.written self.old.log) (G.written self.new.log)
            (G.faults self.old.log) (G.faults self.new.log) }
        ensures open_flag { (self.new.is_up ≡ false) × (self.new.is_pending ≡ false) }
        ensures no_link { self.new.has_no_link ≡ self.old.has_no_link }
    {
        self.link.hang_up();
        let was_made = self.is_up && !self.is_pending;
        self.is_up = false;
        self.is_pending = false;
        if was_made {
            log_line(&mut self.log, b"printer: disconnected");
        }
    }
}
