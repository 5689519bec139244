//! What a reply makes of a sender.
ghost use Rattle.std.specs.Prelude.{◌≡◌, ◌<◌, ◌≤◌, ◌+◌, None, true, false};
ghost use Rattle.marlin_frame.specs.Numbering.{wire_number};
ghost use Rattle.send_window.specs.Hearing.{acknowledged, acknowledged_to, after_busy, another_hello, deadline_at, end_of_numbers, extra_after, has_all, heard_ok, heard_reply, heard_resend, heard_start, hello_asked, hello_resent, is_repeated, line_asked, line_ok, made_ready, named_ok, ok_in, ok_named, place_ok, resend_asked};

use super::clock::{deadline_of, end_of, renewed};
use super::{MOST_HELLOS, MOST_OPEN, Sender};
use crate::session_end::SessionEnd;
use marlin_frame::{HELLO_NUMBER, wire_number};
use marlin_reply::Reply;

impl Sender {
    pub(super) fn hear_reply(&mut self, reply: &Reply, moment: u64)
        requires { self.old.ended ≡ None }
        ensures { self.new ≡ heard_reply reply.now moment self.old }
    {
        match reply {
            Reply::Ok { number, .. } => self.hear_ok(*number, moment),
            Reply::Resend { number } => self.hear_resend(*number, moment),
            Reply::Start => self.hear_start(),
            Reply::Busy => self.hear_busy(),
            Reply::Temps(_) | Reply::Error | Reply::Other => self.heard = true,
        }
    }

    fn hear_ok(&mut self, number: Option<u32>, moment: u64)
        requires { self.old.ended ≡ None }
        ensures { self.new ≡ ok_in self.old.numbered number moment self.old }
    {
        if self.numbered {
            self.hear_named_ok(number, moment);
        } else {
            self.hear_counted_ok(number, moment);
        }
    }

    // An `ok` that counts by its place among the `ok`s.
    fn hear_counted_ok(&mut self, number: Option<u32>, moment: u64)
        requires open { self.old.ended ≡ None }
        requires by_place { self.old.numbered ≡ false }
        ensures { self.new ≡ heard_ok self.old.swallow self.old.ready number moment self.old }
    {
        if self.swallow {
            self.swallow = false;
            self.heard = true;
        } else if self.ready {
            self.hear_ok_of(number, moment);
        } else {
            self.make_ready();
        }
    }

    // The `ok` of the hello.
    fn make_ready(&mut self)
        requires open { self.old.ended ≡ None }
        requires unready { self.old.ready ≡ false }
        ensures { self.new ≡ made_ready self.old }
    {
        self.ready = true;
        self.hello_due = false;
        self.deadline = None;
        self.silent = 0;
        self.heard = false;
    }

    // An `ok` that counts only by the number that it names; of the hellos' only the last one's counts.
    fn hear_named_ok(&mut self, number: Option<u32>, moment: u64)
        requires open { self.old.ended ≡ None }
        ensures { self.new ≡ ok_named self.old.ready number moment self.old }
    {
        match number {
            Some(number) if self.ready => self.hear_ok_through(number, moment),
            Some(number) if u64::from(number) + 1 == u64::from(self.hellos) => self.make_ready(),
            _ => self.heard = true,
        }
    }

    // An `ok` that names a line: it acknowledges all through that one.
    fn hear_ok_through(&mut self, number: u32, moment: u64)
        requires open { self.old.ended ≡ None }
        requires ready { self.old.ready ≡ true }
        ensures { self.new ≡ place_ok number moment self.old }
    {
        if number > wire_number(self.issued) {
            self.ended = Some(SessionEnd::Counts {
                number,
                expected: wire_number(self.acked + 1),
            });
        } else if number > wire_number(self.acked) {
            self.acknowledge_to(number - HELLO_NUMBER, moment);
        } else {
            self.heard = true;
        }
    }

    fn acknowledge_to(&mut self, place: u32, moment: u64)
        requires open { self.old.ended ≡ None }
        requires ready { self.old.ready ≡ true }
        requires above { self.old.acked < place }
        requires issued { place ≤ self.old.issued }
        ensures { self.new ≡ acknowledged_to place moment self.old }
    {
        self.held.drop_first((place - self.acked) as usize);
        self.acked = place;
        self.cursor = self.cursor.max(place + 1);
        self.deadline = deadline_of(moment, self.limit, place, self.issued);
        self.silent = 0;
        self.heard = false;
        self.asked_anew = false;
        self.told = 0;
        self.extra = 0;
        self.ended = end_of(place, self.issued);
    }

    // An `ok` that may name a line: only the next one to acknowledge fits.
    fn hear_ok_of(&mut self, number: Option<u32>, moment: u64)
        requires open { self.old.ended ≡ None }
        requires ready { self.old.ready ≡ true }
        ensures { self.new ≡ named_ok number moment self.old }
    {
        let expected = wire_number(self.acked + 1);
        match number {
            Some(number) if number != expected => {
                self.ended = Some(SessionEnd::Counts { number, expected });
            }
            _ => self.acknowledge_next(moment),
        }
    }

    // An `ok` of the next line, if one is unacknowledged.
    fn acknowledge_next(&mut self, moment: u64)
        requires open { self.old.ended ≡ None }
        requires ready { self.old.ready ≡ true }
        ensures { self.new ≡ line_ok moment self.old }
    {
        if self.acked < self.issued {
            self.acknowledge(moment);
        } else {
            self.heard = true;
        }
    }

    fn acknowledge(&mut self, moment: u64)
        requires open { self.old.ended ≡ None }
        requires ready { self.old.ready ≡ true }
        requires awaited { self.old.acked < self.old.issued }
        ensures { self.new ≡ acknowledged moment self.old }
    {
        self.held.drop_front();
        self.acked += 1;
        self.cursor = self.cursor.max(self.acked + 1);
        self.deadline = deadline_of(moment, self.limit, self.acked, self.issued);
        self.silent = 0;
        self.heard = false;
        self.asked_anew = false;
        self.told = 0;
        self.ended = end_of(self.acked, self.issued);
    }

    fn hear_resend(&mut self, number: u32, moment: u64)
        requires { self.old.ended ≡ None }
        ensures { self.new ≡ heard_resend self.old.ready number moment self.old }
    {
        if self.ready {
            self.hear_line_resend(number, moment);
        } else if self.numbered {
            self.hello_due = self.hellos < MOST_HELLOS;
            self.heard = true;
        } else {
            self.ask_hello();
        }
    }

    // A Resend of the hello that has the number 0 each time.
    fn ask_hello(&mut self)
        requires open { self.old.ended ≡ None }
        requires unready { self.old.ready ≡ false }
        requires counted { self.old.numbered ≡ false }
        ensures { self.new ≡ hello_asked self.old }
    {
        self.swallow = true;
        self.hello_due = true;
        self.deadline = None;
        self.silent = 0;
        self.heard = false;
    }

    fn hear_line_resend(&mut self, number: u32, moment: u64)
        requires open { self.old.ended ≡ None }
        requires ready { self.old.ready ≡ true }
        ensures { self.new ≡ resend_asked number moment self.old }
    {
        if number <= wire_number(self.acked) {
            self.swallow = !self.numbered;
            self.ended = Some(SessionEnd::AskedBack {
                asked: number,
                acked: wire_number(self.acked),
            });
        } else if number > wire_number(self.issued + 1) {
            self.swallow = !self.numbered;
            self.ended = Some(SessionEnd::AskedAhead {
                asked: number,
                issued: wire_number(self.issued),
            });
        } else {
            self.go_to(number - HELLO_NUMBER, moment);
        }
    }

    fn go_to(&mut self, place: u32, moment: u64)
        requires open { self.old.ended ≡ None }
        requires ready { self.old.ready ≡ true }
        requires unacknowledged { self.old.acked < place }
        requires issued { place ≤ self.old.issued + 1 }
        ensures { self.new ≡ line_asked place moment self.old }
    {
        if place == self.asked && self.left > 0 {
            self.left -= 1;
        } else {
            self.cursor = place;
            self.asked = place;
            self.left = self.sent.saturating_sub(place);
        }
        if place == self.issued + 1 {
            self.widen();
        }
        self.swallow = !self.numbered;
        let next = deadline_of(moment, self.limit, self.acked, self.issued);
        self.deadline = renewed(self.deadline, next);
        self.silent = 0;
        self.heard = false;
        self.asked_anew = true;
    }

    // The printer has all issued lines: after a limit one more may be unacknowledged, if the window is full.
    fn widen(&mut self)
        requires { self.old.ended ≡ None }
        ensures { self.new
            ≡ record self.old { extra = extra_after (self.old.issued + 1) self.old; doubts = false } }
    {
        let unacknowledged = self.issued - self.acked;
        let open = self.window + self.extra;
        if self.doubts
            && unacknowledged > 0
            && u32::from(open) <= unacknowledged
            && open < MOST_OPEN
        {
            self.extra += 1;
        }
        self.doubts = false;
    }

    // The printer is at work: an `ok` may still come.
    fn hear_busy(&mut self)
        requires { self.old.ended ≡ None }
        ensures { self.new ≡ after_busy self.old }
    {
        self.heard = true;
        self.asked_anew = false;
        self.told = 0;
    }

    fn hear_start(&mut self)
        requires { self.old.ended ≡ None }
        ensures { self.new ≡ heard_start self.old.ready self.old }
    {
        if self.ready {
            self.ended = Some(SessionEnd::Restarted);
        } else {
            self.heard = true;
        }
    }
}
