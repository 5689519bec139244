//! The kinds of turn: it dials, hangs up, or receives and then sends.
ghost use Rattle.std.specs.Prelude.{◌≡◌, ◌≢◌, ◌↔◌, ◌≤◌, ℕ, [], ◌∷◌, map, true, false, None, OnOk, OnErr, IsErrOf};
ghost use Rattle.octo_outside.specs.Recorded.{Counts};
ghost use Rattle.job_desk.specs.Endings.{IsActive};
ghost use Rattle.job_desk.specs.Issued.{line_of};
ghost use Rattle.job_desk.specs.declared.link_fact.LinkFact.TheVariants as fact;
ghost use Rattle.printer_link.specs.Link.{HasSlots, Grows, IsDial, IsNothing, IsRuns, RoseBy, counted_one, dial_events};
ghost use Rattle.printer_link.specs.declared.link.LinkFault.TheVariants as fault;
ghost use Rattle.send_window.specs.Data.{NoneEarly, sender_after_dial};
ghost use Rattle.octo_session.specs.Data.{IsSession, doing, is_calling, port_of};
ghost use Rattle.octo_session.specs.DeskTurn.{IsNoted};
ghost use Rattle.octo_session.specs.Found.{got_of, up_after, can_find, unasked};
ghost use Rattle.octo_session.specs.Steps.{Takes, TakesSome, hangs_up, dial_steps, steps_over_link, turn_steps};
ghost use Rattle.octo_session.specs.FoundBy.{IsFoundBy};
ghost use Rattle.octo_session.specs.Turn.{texts_in, IsDeskTurn, IsSpent};
ghost use Rattle.octo_session.specs.declared.found.Doing.TheVariants as now_doing;
ghost use Rattle.octo_session.specs.declared.found.Received.TheVariants as received;

use super::Session;
use crate::open_turn::{note_failure, receive_then_send};
use crate::{Doing, Found, Received};
use byte_text::ReplyLine;
use job_desk::{Desk, LinkFact, State};
use printer_link::{Link, LinkFault};

// Dials the port of the desk.
fn dial_port<L: Link>(desk: &Desk, link: &mut L) -> Result<(), LinkFault>
    requires { (L.state link.old).up ≡ false }

    // What the history says of it.
    ensures past { OnOk result (Grows (L.state link.old).kind (L.state link.old).past (L.state link.new).past
        IsDial) }
    ensures past_no_port { IsErrOf result fault.NoPort
        → Grows (L.state link.old).kind (L.state link.old).past (L.state link.new).past IsNothing }
    ensures past_prompt { (L.state link.old).kind.prompt ≡ true
        → OnOk result (Grows (L.state link.old).kind (L.state link.old).past (L.state link.new).past
        (λ w added. (last : ℕ) × (added ≡ dial_events w last))) }
    ensures past_failed { IsErrOf result fault.Failed
        → Grows (L.state link.old).kind (L.state link.old).past (L.state link.new).past IsRuns }

    // Whether the port is listed, that the call counts, and whether the link is up.
    ensures no_port { IsErrOf result fault.NoPort
        ↔ ((L.state link.old).kind.listed (port_of desk.now) ≡ false) }
    ensures calls { (L.state link.new).calls ≡ counted_one (L.state link.old).calls }
    ensures up { OnOk result ((L.state link.new).up ≡ true) }
    ensures down { OnErr result ((L.state link.new).up ≡ false) }

    // What stays, and the faults.
    ensures slots { HasSlots (L.state link.old).kind }
    ensures kind { (L.state link.new).kind ≡ (L.state link.old).kind }
    ensures counts { Counts (IsErrOf result fault.Failed) (L.state link.old).faults (L.state link.new).faults }
{
    match desk.port() {
        Some(port) => link.dial(port.as_str()),
        None => link.dial(""),
    }
}

impl Session {
    // What the next turn does.
    fn doing(&self) -> Doing
        ensures is { result ≡ doing self.now }
        ensures shut { result ≡ now_doing.Dialling → self.now.up ≡ false }
        ensures open { result ≡ now_doing.UsingLink → self.now.up ≡ true }
        ensures early { result ≡ now_doing.UsingLink → NoneEarly self.now.sender }
        ensures joined { IsSession self.now }
        ensures active { IsActive self.now.desk }
    {
        let state = self.desk.state();
        if !self.up && state == State::Connecting {
            return Doing::Dialling;
        }
        if self.desk.closable() {
            return Doing::HangingUp;
        }
        if self.up {
            return Doing::UsingLink;
        }
        Doing::Resting
    }

    // The link was made: the session begins.
    fn open(&mut self, moment: u64) -> Found
        requires { self.old.up ≡ false }
        ensures finds { result.fact ≡ fact.Opened }
        ensures silent { result.issued.items ≡ [] }
        ensures unasked { result.received ≡ received.Unasked }
        ensures noted { IsNoted moment self.new.sender.acked fact.Opened [] self.old.desk
            result.ending self.new.desk }
        ensures joined { IsSession self.new }
        ensures up { self.new.up ≡ true }
        ensures sender { self.new.sender ≡ sender_after_dial self.old.sender }
    {
        self.sender.hello();
        self.up = true;
        let ending = self.desk.note(0, &LinkFact::Opened, moment);
        Found::silent(LinkFact::Opened, Received::Unasked, ending)
    }

    // Dials, and opens the session if the link is made.
    fn dial<L: Link>(&mut self, link: &mut L, moment: u64) -> Found
        requires shut { self.old.up ≡ false }
        requires down { (L.state link.old).up ≡ false }

        // What it found, which the desk noted.
        ensures finds { can_find now_doing.Dialling result.fact ≡ true }
        ensures silent { result.issued.items ≡ [] }
        ensures unasked { result.received ≡ received.Unasked }
        ensures noted { IsNoted moment self.new.sender.acked result.fact [] self.old.desk
            result.ending self.new.desk }

        // The session and the link after it, and whether the port is listed.
        ensures joined { IsSession self.new }
        ensures up { self.new.up ≡ up_after result.fact false }
        ensures link { (L.state link.new).up ≡ self.new.up }
        ensures no_port { (result.fact ≡ fact.NoPort)
            ↔ ((L.state link.old).kind.listed (port_of self.old.desk) ≡ false) }
        ensures ready { self.new.sender.ready ≡ true → self.old.sender.ready ≡ true }

        // The steps that it took, and what stays of the link.
        ensures steps { Takes moment (L.state link.old).kind (L.state link.old).past (L.state link.new).past
            (L.state link.old).calls (L.state link.new).calls (dial_steps result.fact) self.old.sender
            self.new.sender }
        ensures kind { (L.state link.new).kind ≡ (L.state link.old).kind }
        ensures counts { Counts (result.fact ≡ fact.Failed)
            (L.state link.old).faults (L.state link.new).faults }
    {
        match dial_port(&self.desk, link) {
            Ok(()) => self.open(moment),
            Err(LinkFault::NoPort) => {
                let ending = self
                    .desk
                    .note(self.sender.acked(), &LinkFact::NoPort, moment);
                Found::silent(LinkFact::NoPort, Received::Unasked, ending)
            }
            Err(LinkFault::Failed) => {
                let ending = note_failure(&mut self.desk, self.sender.acked(), moment);
                Found::silent(LinkFact::Failed, Received::Unasked, ending)
            }
        }
    }

    // Hangs up, if the link is up.
    fn hang_up<L: Link>(&mut self, link: &mut L, moment: u64) -> Found
        requires { (L.state link.old).up ≡ self.old.up }

        // What it found, which the desk noted.
        ensures finds { result.fact ≡ fact.Closed }
        ensures silent { result.issued.items ≡ [] }
        ensures unasked { result.received ≡ received.Unasked }
        ensures noted { IsNoted moment self.new.sender.acked fact.Closed [] self.old.desk
            result.ending self.new.desk }

        // The session and the link after it.
        ensures joined { IsSession self.new }
        ensures up { self.new.up ≡ false }
        ensures link { (L.state link.new).up ≡ false }
        ensures sender { self.new.sender ≡ self.old.sender }

        // The steps that it took, and what stays of the link.
        ensures steps { Takes moment (L.state link.old).kind (L.state link.old).past (L.state link.new).past
            (L.state link.old).calls (L.state link.new).calls (hangs_up self.old.up ∷ []) self.old.sender
            self.new.sender }
        ensures kind { (L.state link.new).kind ≡ (L.state link.old).kind }
        ensures counted { (L.state link.old).faults ≤ (L.state link.new).faults }
    {
        link.hang_up();
        self.up = false;
        let ending = self
            .desk
            .note(self.sender.acked(), &LinkFact::Closed, moment);
        Found::silent(LinkFact::Closed, Received::Unasked, ending)
    }

    // A turn while the link is up: it receives, then issues and sends.
    fn turn_while_up<L: Link>(&mut self, link: &mut L, moment: u64, line: &mut ReplyLine) -> Found
        requires open { self.old.up ≡ true }
        requires early { NoneEarly self.old.sender }
        requires up { (L.state link.old).up ≡ true }

        // What it found, which the desk noted.
        ensures finds { can_find now_doing.UsingLink result.fact ≡ true }
        ensures asked { (got_of result.received line.new.items) ≢ unasked }
        ensures found_by { IsFoundBy moment (got_of result.received line.new.items) result
            self.old.sender self.new.sender }
        ensures noted { IsNoted moment self.new.sender.acked result.fact
            (map line_of result.issued.items) self.old.desk result.ending self.new.desk }

        // The session and the link after it.
        ensures spent { result.fact ≡ fact.Quiet
            → IsSpent moment self.old.desk self.new.desk self.new.sender }
        ensures joined { IsSession self.new }
        ensures up { self.new.up ≡ up_after result.fact true }
        ensures link { (L.state link.new).up ≡ self.new.up }

        // The steps that it took, and what stays of the link.
        ensures steps { TakesSome moment (L.state link.old).kind (L.state link.old).past (L.state link.new).past
            (L.state link.old).calls (L.state link.new).calls
            (steps_over_link (got_of result.received line.new.items) result.fact
            (texts_in (map line_of result.issued.items))) self.old.sender self.new.sender }
        ensures kind { (L.state link.new).kind ≡ (L.state link.old).kind }
        ensures counts { Counts (result.fact ≡ fact.Failed)
            (L.state link.old).faults (L.state link.new).faults }
    {
        let found = receive_then_send(&mut self.desk, &mut self.sender, link, moment, line);
        self.up = matches!(found.fact, LinkFact::Quiet | LinkFact::Ready);
        found
    }

    // The turn of the kind that `doing` says. What it receives is left in `line`.
    pub(super) fn turn_by_kind<L: Link>(
        &mut self,
        link: &mut L,
        moment: u64,
        line: &mut ReplyLine,
    ) -> Found
        requires { (L.state link.old).up ≡ self.old.up }

        // What it found, which the desk noted.
        ensures finds { can_find (doing self.old) result.fact ≡ true }
        ensures asked { ((got_of result.received line.new.items) ≡ unasked)
            ↔ (doing self.old ≢ now_doing.UsingLink) }
        ensures found_by { IsFoundBy moment (got_of result.received line.new.items) result
            self.old.sender self.new.sender }
        ensures desk { IsDeskTurn (doing self.old) moment self.new.sender.acked result.fact
            (map line_of result.issued.items) self.old.desk result.ending self.new.desk }

        // The session and the link after it, and whether the port is listed.
        ensures spent { self.new.up ≡ true → result.fact ≡ fact.Quiet
            → IsSpent moment self.old.desk self.new.desk self.new.sender }
        ensures joined { IsSession self.new }
        ensures up { self.new.up ≡ up_after result.fact self.old.up }
        ensures link { (L.state link.new).up ≡ self.new.up }
        ensures greatest { self.new.desk.greatest ≡ self.old.desk.greatest }
        ensures active { IsActive self.old.desk }
        ensures no_port { (result.fact ≡ fact.NoPort)
            ↔ ((doing self.old ≡ now_doing.Dialling)
            × ((L.state link.old).kind.listed (port_of self.old.desk) ≡ false)) }

        // The steps that it took, and what stays of the link.
        ensures steps { TakesSome moment (L.state link.old).kind (L.state link.old).past (L.state link.new).past
            (L.state link.old).calls (L.state link.new).calls
            (turn_steps (doing self.old) self.old.up (got_of result.received line.new.items)
            result.fact (texts_in (map line_of result.issued.items))) self.old.sender
            self.new.sender }
        ensures kind { (L.state link.new).kind ≡ (L.state link.old).kind }
        ensures counts { Counts (result.fact ≡ fact.Failed)
            (L.state link.old).faults (L.state link.new).faults }
        ensures calls { is_calling (doing self.old) ≡ true
            → RoseBy 1 (L.state link.old).calls (L.state link.new).calls }
    {
        match self.doing() {
            Doing::Dialling => self.dial(link, moment),
            Doing::HangingUp => self.hang_up(link, moment),
            Doing::UsingLink => self.turn_while_up(link, moment, line),
            Doing::Resting => Found::silent(LinkFact::Quiet, Received::Unasked, None),
        }
    }
}
