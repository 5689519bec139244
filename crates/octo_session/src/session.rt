//! The session: a desk and a sender, and the turns that join them with a link.
ghost use Rattle.std.specs.Prelude.{◌≡◌, true, false};
ghost use Rattle.octo_outside.specs.Recorded.{Counts};
ghost use Rattle.job_desk.specs.Data.{new_desk};
ghost use Rattle.job_desk.specs.Endings.{IsActive};
ghost use Rattle.job_desk.specs.declared.link_fact.LinkFact.TheVariants as fact;
ghost use Rattle.printer_link.specs.Link.{RoseBy};
ghost use Rattle.send_window.specs.Data.{IsSound, new_sender};
ghost use Rattle.octo_session.specs.Data.{IsSession, doing, is_calling};
ghost use Rattle.octo_session.specs.Turn.{fact_of, IsTurn, IsTurnByNote};
ghost use Rattle.octo_session.specs.declared.found.Doing.TheVariants as now_doing;

mod calls;
mod turns;

use crate::{Turned, turned_of};
use byte_text::ReplyLine;
use job_desk::Desk;
use printer_link::Link;
use send_window::Sender;
use std::marker::Model;

/// The session of a print host with its printer: a desk that says which lines are to be issued, a sender that carries
/// them over a link, and whether that link is up. Moments are in milliseconds.
#[derive(Drop)]
pub struct Session {
    desk: Desk,
    sender: Sender,
    up: bool,
}

impl Model for Session {
    ghost use Rattle.octo_session.specs.Data.{SessionData};

    ghost Value = { SessionData };

    ghost use Rattle.octo_session.specs.Fields.{session_of, IsKept};

    ghost view = { session_of };

    ghost invariant = { IsKept };
}

impl Session {
    /// A session of a new desk and a new sender, which are of one kind: both by numbered `ok`s, or both by counted ones. The
    /// link is not up.
    pub fn new(desk: Desk, sender: Sender) -> Session
        requires new_desk { desk ≡ new_desk desk.scripts desk.limits desk.poll_ms desk.numbered }
        requires new_sender { sender
            ≡ new_sender sender.window sender.numbered sender.limit }
        requires kind { desk.numbered ≡ sender.numbered }
        ensures desk { result.desk ≡ desk }
        ensures sender { result.sender ≡ sender }
        ensures sound { IsSound result.sender }
        ensures up { result.up ≡ false }
        ensures joined { IsSession result }
    {
        prove!(!sender.ready());
        Session {
            desk,
            sender,
            up: false,
        }
    }

    /// The desk.
    pub fn desk(&self) -> &Desk
        ensures { result.now ≡ self.now.desk }
    {
        &self.desk
    }

    /// Whether the link is up.
    pub fn up(&self) -> bool
        ensures { result ≡ self.now.up }
    {
        self.up
    }

    /// How many lines of the last session are acknowledged.
    pub fn acked(&self) -> u32
        ensures value { result ≡ self.now.sender.acked }
        ensures joined { IsSession self.now }
    {
        self.sender.acked()
    }

    /// One turn at a moment that isn't before the last one. It does the first of these that applies:
    ///
    /// 1. If the desk begins to connect and the link is down, it dials the desk's port.
    /// 2. If the desk may close the connection, it hangs up.
    /// 3. If the link is up, it receives at most one reply line, has the sender hear it and the clock tick, and notes at
    ///    the desk what is acknowledged. Then it issues lines while the window has room, and sends every frame. A line that stops
    ///    the printer is issued alone, past the window if that is full, and before the hello is acknowledged too. In the turn in
    ///    which the hello is acknowledged it issues nothing.
    ///
    /// If a call of the link fails the desk first takes what was acknowledged, and the failure at the end. It takes no
    /// memory. The moment is in milliseconds.
    pub fn turn<L: Link>(&mut self, link: &mut L, moment: u64) -> Turned
        requires { (L.state link.old).up ≡ self.old.up }
        ensures turn { IsTurn moment (L.state link.old).kind (L.state link.old).past (L.state link.new).past
            (L.state link.old).calls (L.state link.new).calls self.old self.new result }

        // What it leaves of the session, by its note: the state of the link and of the hello, the count of acknowledged
        // lines, the desk, and the print that ended. A print ends as Done, and as Cancelled unless the turn hung up, only
        // once no script line waits and the last issued line of the print is acknowledged.
        ensures by_note { IsTurnByNote moment (L.state link.old).kind self.old self.new result }

        // If a print went on before the turn, it was active.
        ensures active { IsActive self.old.desk }

        // The link: whether it is up, what stays, and its counts of faults and calls.
        ensures link { (L.state link.new).up ≡ self.new.up }
        ensures kind { (L.state link.new).kind ≡ (L.state link.old).kind }
        ensures counts { Counts (fact_of result.note ≡ fact.Failed)
            (L.state link.old).faults (L.state link.new).faults }
        ensures calls { is_calling (doing self.old) ≡ true
            → RoseBy 1 (L.state link.old).calls (L.state link.new).calls }
    {
        let before = self.sender.acked();
        let mut line = ReplyLine::new();
        let found = self.turn_by_kind(link, moment, &mut line);
        turned_of(found, moment, before, self.sender.acked())
    }
}
