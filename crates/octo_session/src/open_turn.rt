//! A turn over an open link, part by part: each part is a call on the sender, on the link, or both.
ghost use Rattle.std.specs.Prelude.{◌≡◌, ◌≢◌, ◌↔◌, ◌⊎◌, ◌<◌, ◌≤◌, ◌+◌, ◌++◌, [], map, length, true, false, None, is_some};
ghost use Rattle.octo_outside.specs.Recorded.{Counts};
ghost use Rattle.job_desk.specs.Pull.{pull_step, settled};
ghost use Rattle.job_desk.specs.Table.{is_stopping};
ghost use Rattle.job_desk.specs.Issued.{line_of};
ghost use Rattle.job_desk.specs.declared.link_fact.LinkFact.TheVariants as fact;
ghost use Rattle.send_window.specs.declared.session_end.SessionEnd.{SessionEnd};
ghost use Rattle.send_window.specs.Data.{IsSound, NoneEarly};
ghost use Rattle.send_window.specs.Hearing.{tick_step};
ghost use Rattle.send_window.specs.Sending.{next_of, room_of, last_room_of};
ghost use Rattle.octo_session.specs.Data.{IsJoined, IsStopped};
ghost use Rattle.octo_session.specs.DeskTurn.{IsNoted, Pulls};
ghost use Rattle.octo_session.specs.Found.{got_of, temps_kept, temps_in, temps_of_reply, is_got, may_have_issued, up_after, can_find, unasked};
ghost use Rattle.octo_session.specs.Steps.{Takes, TakesSome, Issues, received_by, sends, issues_then_sends, clock_steps, steps_over_link};
ghost use Rattle.octo_session.specs.FoundBy.{IsFoundBy};
ghost use Rattle.octo_session.specs.Turn.{lines_drawn, texts_in, is_unbroken, IsSpent};
ghost use Rattle.octo_session.specs.Given.{steps_of_sending, is_up_by};
ghost use Rattle.octo_session.specs.declared.open_turn.Gave.TheVariants as gave;
ghost use Rattle.octo_session.specs.declared.found.Doing.TheVariants as doing_now;

use crate::{Found, Received};
use arrayvec::ArrayVec;
use byte_text::{Line, ReplyLine};
use job_desk::{Desk, Ending, Issued, LinkFact};
use marlin_reply::{Reply, Temps, read_reply};
use printer_link::{Heard, Link};
use send_window::Sender;

// What became of the next frame.
#[derive(Clone, Copy)]
enum Gave {
    Sent,
    // No frame waited.
    Nothing,
    // The sending failed.
    Failed,
}

// The temperatures that a reply reports.
fn temps_of(reply: &Reply) -> Option<Temps>
    ensures { result ≡ temps_of_reply reply.now }
{
    match reply {
        Reply::Ok { temps, .. } => *temps,
        Reply::Temps(temps) => Some(*temps),
        _ => None,
    }
}

// Receives at most one line, which the sender then hears.
fn receive<L: Link>(
    sender: &mut Sender,
    link: &mut L,
    moment: u64,
    line: &mut ReplyLine,
) -> Received
    requires { (L.state link.old).up ≡ true }
    ensures steps { Takes moment (L.state link.old).kind (L.state link.old).past (L.state link.new).past
        (L.state link.old).calls (L.state link.new).calls (received_by (got_of result line.new.items))
        sender.old sender.new }
    ensures asked { got_of result line.new.items ≢ unasked }
    ensures temps { temps_kept result ≡ temps_in (got_of result line.new.items) }
    ensures up { (L.state link.new).up ≡ is_got (got_of result line.new.items) }
    ensures kind { (L.state link.new).kind ≡ (L.state link.old).kind }
    ensures counts { Counts (is_got (got_of result line.new.items) ≡ false)
        (L.state link.old).faults (L.state link.new).faults }
{
    match link.recv(line) {
        Ok(Heard::Line) => {
            let reply = read_reply(line.as_slice());
            let _ = sender.hear(&reply, moment);
            Received::Line {
                temps: temps_of(&reply),
            }
        }
        Ok(Heard::Nothing) => Received::Nothing,
        Err(_) => Received::Lost,
    }
}

// Issues the desk's next line, if it has one.
fn pull_one(
    desk: &mut Desk,
    sender: &mut Sender,
    lines: &mut ArrayVec<Issued, 16>,
    moment: u64,
) -> bool
    requires room { 0 < last_room_of sender.old }
    requires space { length lines.old.items < 16 }
    requires sound { IsSound sender.old }
    ensures answer { result ≡ is_some (pull_step moment desk.old).0 }
    ensures after { desk.new ≡ (pull_step moment desk.old).1 }
    ensures lines { map line_of lines.new.items
        ≡ map line_of lines.old.items ++ lines_drawn (pull_step moment desk.old).0 }
    ensures count { result ≡ true → length lines.new.items ≡ length lines.old.items + 1 }
    ensures steps { Issues moment (texts_in (lines_drawn (pull_step moment desk.old).0)) sender.old
        sender.new }
    ensures sound { IsSound sender.new }
{
    match desk.pull(moment) {
        Some(issued) => {
            sender.push(issued.text.as_slice());
            lines.push(issued);
            true
        }
        None => false,
    }
}

// Issues the line that stops the printer, which may be one past the window, or come before the `ok` of the hello.
fn pull_last(desk: &mut Desk, sender: &mut Sender, moment: u64) -> ArrayVec<Issued, 16>
    requires stops { is_stopping desk.old ≡ true }
    requires counted { desk.old.issued ≡ sender.old.issued }
    ensures pulls { Pulls moment (map line_of result.items) desk.old desk.new }
    ensures steps { Issues moment (texts_in (map line_of result.items)) sender.old sender.new }
    ensures spent { (last_room_of sender.new ≡ 0) ⊎ ((pull_step moment desk.new).0 ≡ None) }
    ensures early { NoneEarly sender.old → NoneEarly sender.new ⊎ IsStopped desk.new }
    ensures issued { desk.new.issued ≡ sender.new.issued }
    ensures acked { desk.new.acked ≡ desk.old.acked }
    ensures sound { IsSound sender.new }
{
    let mut lines = ArrayVec::new();
    if sender.last_room() == 0 {
        return lines;
    }
    pull_one(desk, sender, &mut lines, moment);
    lines
}

// Issues lines while the window has room and the desk has a line.
fn pull_more(desk: &mut Desk, sender: &mut Sender, moment: u64) -> ArrayVec<Issued, 16>
    requires counted { desk.old.issued ≡ sender.old.issued }
    requires settled { settled desk.old ≡ desk.old }
    ensures pulls { Pulls moment (map line_of result.items) desk.old desk.new }
    ensures steps { Issues moment (texts_in (map line_of result.items)) sender.old sender.new }
    ensures spent { (room_of sender.new ≡ 0) ⊎ ((pull_step moment desk.new).0 ≡ None) }
    ensures early { NoneEarly sender.old → NoneEarly sender.new }
    ensures issued { desk.new.issued ≡ sender.new.issued }
    ensures acked { desk.new.acked ≡ desk.old.acked }
    ensures sound { IsSound sender.new }
{
    let mut lines = ArrayVec::new();
    for _ in 0..sender.room() {
        if !pull_one(desk, sender, &mut lines, moment) {
            return lines;
        }
    }
    lines
}

// Issues what may be issued now: the line that stops the printer, or lines while the window has room and the desk has one.
fn pull_all(desk: &mut Desk, sender: &mut Sender, moment: u64) -> ArrayVec<Issued, 16>
    requires counted { desk.old.issued ≡ sender.old.issued }
    requires settled { settled desk.old ≡ desk.old }
    ensures pulls { Pulls moment (map line_of result.items) desk.old desk.new }
    ensures steps { Issues moment (texts_in (map line_of result.items)) sender.old sender.new }
    ensures spent { (room_of sender.new ≡ 0) ⊎ ((pull_step moment desk.new).0 ≡ None) }
    ensures stopped { is_stopping desk.old ≡ true
        → (last_room_of sender.new ≡ 0) ⊎ ((pull_step moment desk.new).0 ≡ None) }
    ensures early { NoneEarly sender.old → NoneEarly sender.new ⊎ IsStopped desk.new }
    ensures issued { desk.new.issued ≡ sender.new.issued }
    ensures acked { desk.new.acked ≡ desk.old.acked }
    ensures sound { IsSound sender.new }
{
    if desk.stops() {
        return pull_last(desk, sender, moment);
    }
    pull_more(desk, sender, moment)
}

// Sends the next frame, if any.
fn send_one<L: Link>(sender: &mut Sender, link: &mut L, moment: u64) -> Gave
    requires { (L.state link.old).up ≡ true }
    ensures steps { Takes moment (L.state link.old).kind (L.state link.old).past (L.state link.new).past
        (L.state link.old).calls (L.state link.new).calls (steps_of_sending result) sender.old sender.new }
    ensures nothing { (result ≡ gave.Nothing) ↔ (next_of sender.old ≡ None) }
    ensures up { (L.state link.new).up ≡ is_up_by result }
    ensures kind { (L.state link.new).kind ≡ (L.state link.old).kind }
    ensures counts { Counts (is_up_by result ≡ false) (L.state link.old).faults (L.state link.new).faults }
{
    let mut line = Line::new();
    match sender.next_frame(moment, &mut line) {
        Some(_) => match link.send(&line) {
            Ok(()) => Gave::Sent,
            Err(_) => Gave::Failed,
        },
        None => Gave::Nothing,
    }
}

// Sends every frame, and returns whether no sending failed.
fn send_all<L: Link>(sender: &mut Sender, link: &mut L, moment: u64) -> bool
    requires { (L.state link.old).up ≡ true }
    ensures steps { TakesSome moment (L.state link.old).kind (L.state link.old).past (L.state link.new).past
        (L.state link.old).calls (L.state link.new).calls (sends result) sender.old sender.new }
    ensures sent { result ≡ true → next_of sender.new ≡ None }
    ensures up { (L.state link.new).up ≡ result }
    ensures kind { (L.state link.new).kind ≡ (L.state link.old).kind }
    ensures counts { Counts (result ≡ false) (L.state link.old).faults (L.state link.new).faults }
{
    loop {
        match send_one(sender, link, moment) {
            Gave::Sent => {}
            Gave::Nothing => return true,
            Gave::Failed => return false,
        }
    }
}

/// Notes what is acknowledged, and then that the link failed.
pub fn note_failure(desk: &mut Desk, acked: u32, moment: u64) -> Option<Ending>
    requires not_fallen { desk.old.acked ≤ acked }
    requires issued { acked ≤ desk.old.issued }
    ensures noted { IsNoted moment acked fact.Failed [] desk.old result desk.new }
    ensures counts_issued { desk.new.issued ≡ desk.old.issued }
    ensures counts_acked { desk.new.acked ≡ acked }
{
    let first = desk.note(acked, &LinkFact::Quiet, moment);
    let last = desk.note(acked, &LinkFact::Failed, moment);
    first.or(last)
}

// Notes what is acknowledged, issues lines and sends every frame.
fn issue_and_send<L: Link>(
    desk: &mut Desk,
    sender: &mut Sender,
    link: &mut L,
    moment: u64,
    received: Received,
) -> Found
    requires open { (L.state link.old).up ≡ true }
    requires running { sender.old.ended ≡ None }
    requires counted { desk.old.issued ≡ sender.old.issued }
    requires not_fallen { desk.old.acked ≤ sender.old.acked }
    requires linked { desk.old.linked ≡ true }
    requires early { NoneEarly sender.old }

    // What it found, which the desk noted.
    ensures finds { (result.fact ≡ fact.Quiet) ⊎ (result.fact ≡ fact.Failed) }
    ensures noted { IsNoted moment sender.new.acked result.fact (map line_of result.issued.items)
        desk.old result.ending desk.new }
    ensures received { result.received ≡ received }

    // The desk and the sender after it.
    ensures spent { result.fact ≡ fact.Quiet → IsSpent moment desk.old desk.new sender.new }
    ensures joined { IsJoined desk.new sender.new (up_after result.fact true) }
    ensures ready { sender.new.ready ≡ sender.old.ready }

    // The steps that it took, and the link after them.
    ensures steps { TakesSome moment (L.state link.old).kind (L.state link.old).past (L.state link.new).past
        (L.state link.old).calls (L.state link.new).calls
        (issues_then_sends (is_unbroken result.fact)
        (texts_in (map line_of result.issued.items))) sender.old
        sender.new }
    ensures up { (L.state link.new).up ≡ up_after result.fact true }
    ensures kind { (L.state link.new).kind ≡ (L.state link.old).kind }
    ensures counts { Counts (result.fact ≡ fact.Failed) (L.state link.old).faults (L.state link.new).faults }
{
    let acked = sender.acked();
    let first = desk.note(acked, &LinkFact::Quiet, moment);
    let issued = pull_all(desk, sender, moment);
    if send_all(sender, link, moment) {
        return Found {
            fact: LinkFact::Quiet,
            issued,
            received,
            ending: first,
        };
    }
    let last = desk.note(acked, &LinkFact::Failed, moment);
    Found {
        fact: LinkFact::Failed,
        issued,
        received,
        ending: first.or(last),
    }
}

// What follows the call of `recv`: the clock ticks, and the session ends, becomes ready, or issues and sends.
fn after_receiving<L: Link>(
    desk: &mut Desk,
    sender: &mut Sender,
    link: &mut L,
    moment: u64,
    was_ready: bool,
    received: Received,
) -> Found
    requires open { (L.state link.old).up ≡ true }
    requires counted { desk.old.issued ≡ sender.old.issued }
    requires not_fallen { desk.old.acked ≤ sender.old.acked }
    requires stays_ready { was_ready ≡ true → sender.old.ready ≡ true }
    requires goes_on { was_ready ≡ false → sender.old.ready ≡ true
        → (tick_step moment sender.old).ended ≡ None }
    requires fresh { was_ready ≡ false → sender.old.issued ≡ 0 }
    requires linked { desk.old.linked ≡ true }

    // What it found, which the desk noted.
    ensures finds { can_find doing_now.UsingLink result.fact ≡ true }
    ensures noted { IsNoted moment sender.new.acked result.fact (map line_of result.issued.items)
        desk.old result.ending desk.new }
    ensures received { result.received ≡ received }
    ensures ended { (end : SessionEnd)
        → (result.fact ≡ fact.Ended end) ↔ ((tick_step moment sender.old).ended ≡ Some end) }
    ensures ready { (result.fact ≡ fact.Ready) ↔ ((was_ready ≡ false) × (sender.new.ready ≡ true)) }

    // What it issued and sent.
    ensures none_issued { may_have_issued result.fact ≡ false → result.issued.items ≡ [] }
    ensures silent { result.fact ≡ fact.Ready → result.issued.items ≡ [] }
    ensures sent { result.fact ≡ fact.Ready → next_of sender.new ≡ None }

    // The desk and the sender after it.
    ensures spent { result.fact ≡ fact.Quiet → IsSpent moment desk.old desk.new sender.new }
    ensures joined { IsJoined desk.new sender.new (up_after result.fact true) }

    // The steps that it took, and the link after them.
    ensures steps { TakesSome moment (L.state link.old).kind (L.state link.old).past (L.state link.new).past
        (L.state link.old).calls (L.state link.new).calls
        (clock_steps result.fact (texts_in (map line_of result.issued.items))) sender.old
        sender.new }
    ensures up { (L.state link.new).up ≡ up_after result.fact true }
    ensures kind { (L.state link.new).kind ≡ (L.state link.old).kind }
    ensures counts { Counts (result.fact ≡ fact.Failed) (L.state link.old).faults (L.state link.new).faults }
{
    if let Err(end) = sender.tick(moment) {
        link.hang_up();
        let fact = LinkFact::Ended(end);
        let ending = desk.note(sender.acked(), &fact, moment);
        return Found::silent(fact, received, ending);
    }
    if was_ready || !sender.ready() {
        return issue_and_send(desk, sender, link, moment, received);
    }
    let ending = desk.note(sender.acked(), &LinkFact::Ready, moment);
    Found::silent(LinkFact::Ready, received, ending)
}

/// A turn over an open link: it receives at most one line into `line`, then issues lines and sends every frame.
pub fn receive_then_send<L: Link>(
    desk: &mut Desk,
    sender: &mut Sender,
    link: &mut L,
    moment: u64,
    line: &mut ReplyLine,
) -> Found
    requires open { (L.state link.old).up ≡ true }
    requires joined { IsJoined desk.old sender.old true }
    requires early { NoneEarly sender.old }

    // What it found, which the desk noted.
    ensures finds { can_find doing_now.UsingLink result.fact ≡ true }
    ensures asked { got_of result.received line.new.items ≢ unasked }
    ensures found_by { IsFoundBy moment (got_of result.received line.new.items) result
        sender.old sender.new }
    ensures noted { IsNoted moment sender.new.acked result.fact (map line_of result.issued.items)
        desk.old result.ending desk.new }

    // The desk and the sender after it.
    ensures spent { result.fact ≡ fact.Quiet → IsSpent moment desk.old desk.new sender.new }
    ensures joined { IsJoined desk.new sender.new (up_after result.fact true) }

    // The steps that it took, and the link after them.
    ensures steps { TakesSome moment (L.state link.old).kind (L.state link.old).past (L.state link.new).past
        (L.state link.old).calls (L.state link.new).calls
        (steps_over_link (got_of result.received line.new.items) result.fact
        (texts_in (map line_of result.issued.items))) sender.old sender.new }
    ensures up { (L.state link.new).up ≡ up_after result.fact true }
    ensures kind { (L.state link.new).kind ≡ (L.state link.old).kind }
    ensures counts { Counts (result.fact ≡ fact.Failed) (L.state link.old).faults (L.state link.new).faults }
{
    let was_ready = sender.ready();
    match receive(sender, link, moment, line) {
        Received::Lost => {
            let ending = note_failure(desk, sender.acked(), moment);
            Found::silent(LinkFact::Failed, Received::Lost, ending)
        }
        received => after_receiving(desk, sender, link, moment, was_ready, received),
    }
}
