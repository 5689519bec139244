//! What the calls of a logged link add to its log.
ghost use Rattle.std.specs.Prelude.{◌≡◌, ◌&&◌, true, false, not};
ghost use Rattle.marlin_reply.specs.Kind.{kind_of};
ghost use Rattle.octo_log.specs.Logged.{Logs};
ghost use Rattle.octo_log_link.specs.Lines.{error_line, heard_line, link_line, no_link_after, ready_after, ready_line, recv_ready, reply_line, restart_line};

use crate::link::LoggedLink;
use crate::words::{asks_again, loss_words, made_words, said_words, unmade_words};
use marlin_reply::{Reply, read_reply};
use octo_log::log_line;
use octo_outside::Sink;
use printer_link::{Heard, Link, LinkFault};
use printer_link_cause::WatchedLink;

impl<L: Link + WatchedLink + Drop, G: Sink + Drop> LoggedLink<L, G> {
    // Logs a call that failed, after which the link is down.
    fn log_loss(&mut self)
        ensures logged { Logs (link_line self.old.is_pending self.old.has_no_link
            self.old.port.items (L.pending self.old.link) (L.cause self.old.link) true)
            (G.written self.old.log) (G.written self.new.log)
            (G.faults self.old.log) (G.faults self.new.log) }
        ensures stays { self.new ≡ record self.old {
          log = self.new.log;
          is_up = false;
          is_pending = false;
          has_no_link = no_link_after self.old.is_pending self.old.has_no_link
              (L.pending self.old.link) true;
        } }
    {
        let cause = self.link.cause();
        self.is_up = false;
        if !self.is_pending {
            log_line(&mut self.log, loss_words(cause).as_slice());
            return;
        }
        self.is_pending = false;
        if !self.has_no_link {
            self.has_no_link = true;
            log_line(
                &mut self.log,
                unmade_words(self.port.as_slice(), cause).as_slice(),
            );
        }
    }

    // Logs a link that was being made, if it is made.
    fn log_made(&mut self)
        ensures logged { Logs (link_line self.old.is_pending self.old.has_no_link
            self.old.port.items (L.pending self.old.link) (L.cause self.old.link) false)
            (G.written self.old.log) (G.written self.new.log)
            (G.faults self.old.log) (G.faults self.new.log) }
        ensures stays { self.new ≡ record self.old {
          log = self.new.log;
          is_pending = self.old.is_pending && L.pending self.old.link;
          has_no_link = no_link_after self.old.is_pending self.old.has_no_link
              (L.pending self.old.link) false;
        } }
    {
        if self.is_pending && !self.link.is_pending() {
            self.is_pending = false;
            self.has_no_link = false;
            log_line(&mut self.log, made_words(self.port.as_slice()).as_slice());
        }
    }

    // Logs what a call shows of the link, which failed or didn't.
    pub(crate) fn log_call(&mut self, failed: bool)
        ensures logged { Logs (link_line self.old.is_pending self.old.has_no_link
            self.old.port.items (L.pending self.old.link) (L.cause self.old.link) failed)
            (G.written self.old.log) (G.written self.new.log)
            (G.faults self.old.log) (G.faults self.new.log) }
        ensures stays { self.new ≡ record self.old {
          log = self.new.log;
          is_up = self.old.is_up && not failed;
          is_pending = self.old.is_pending && L.pending self.old.link && not failed;
          has_no_link = no_link_after self.old.is_pending self.old.has_no_link
              (L.pending self.old.link) failed;
        } }
    {
        if failed {
            self.log_loss();
        } else {
            self.log_made();
        }
    }

    // Logs what was received, if it was a reply.
    pub(crate) fn log_heard(&mut self, text: &[u8], heard: &Result<Heard, LinkFault>)
        ensures logged { Logs (heard_line self.old.is_ready text.now heard.now)
            (G.written self.old.log) (G.written self.new.log)
            (G.faults self.old.log) (G.faults self.new.log) }
        ensures stays { self.new ≡ record self.old {
          log = self.new.log;
          is_ready = recv_ready self.old.is_ready text.now heard.now;
        } }
    {
        if let Ok(Heard::Line) = heard {
            self.log_reply(text);
        }
    }

    // Logs what a reply says.
    fn log_reply(&mut self, text: &[u8])
        ensures logged { Logs (reply_line self.old.is_ready text.now (kind_of text.now))
            (G.written self.old.log) (G.written self.new.log)
            (G.faults self.old.log) (G.faults self.new.log) }
        ensures stays { self.new ≡ record self.old {
          log = self.new.log;
          is_ready = ready_after self.old.is_ready (kind_of text.now);
        } }
    {
        match read_reply(text) {
            Reply::Ok { .. } => self.log_ready(),
            Reply::Start => self.log_restart(),
            Reply::Error => self.log_error(text),
            _ => {}
        }
    }

    // Logs a `start` that comes after the first `ok`.
    fn log_restart(&mut self)
        ensures logged { Logs (restart_line self.old.is_ready)
            (G.written self.old.log) (G.written self.new.log)
            (G.faults self.old.log) (G.faults self.new.log) }
        ensures stays { self.new ≡ record self.old { log = self.new.log } }
    {
        if self.is_ready {
            log_line(&mut self.log, b"printer: it has restarted");
        }
    }

    // Logs an error, unless it asks for a line again.
    fn log_error(&mut self, text: &[u8])
        ensures logged { Logs (error_line text.now)
            (G.written self.old.log) (G.written self.new.log)
            (G.faults self.old.log) (G.faults self.new.log) }
        ensures stays { self.new ≡ record self.old { log = self.new.log } }
    {
        if !asks_again(text) {
            log_line(&mut self.log, said_words(text).as_slice());
        }
    }

    // Logs the first `ok`.
    fn log_ready(&mut self)
        ensures logged { Logs (ready_line self.old.is_ready)
            (G.written self.old.log) (G.written self.new.log)
            (G.faults self.old.log) (G.faults self.new.log) }
        ensures stays { self.new ≡ record self.old {
          log = self.new.log;
          is_ready = true;
        } }
    {
        if !self.is_ready {
            self.is_ready = true;
            log_line(&mut self.log, b"printer: ready");
        }
    }
}
