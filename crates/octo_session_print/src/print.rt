//! The turns of a print, from the dial to the hang-up.
ghost use Rattle.std.specs.Prelude.{◌≡◌, ◌≢◌, ◌↔◌, ◌<◌, ◌≤◌, ◌+◌, ◌-◌, ◌*◌, ℕ, List, length, true, false, Option, Some, None, is_some};
ghost use Rattle.octo_outside.specs.Recorded.{Counts, Steady};
ghost use Rattle.octo_outside.specs.Traits.{NotBefore};
ghost use Rattle.job_desk.specs.Table.{connect_at, select_at, disconnect_at, start_at};
ghost use Rattle.gcode_lines.specs.Job.{texts_of};
ghost use Rattle.job_desk.specs.Data.{named_file};
ghost use Rattle.job_desk.specs.declared.link_fact.LinkFact.TheVariants as fact;
ghost use Rattle.send_window.specs.declared.session_end.SessionEnd.{SessionEnd};
ghost use Rattle.send_window.specs.declared.session_end.SessionEnd.TheVariants.{NoAnswer, LostOk};
ghost use Rattle.send_window.specs.Data.{most_lines, most_silent, most_told};
ghost use Rattle.send_window.specs.Hearing.{later};
ghost use Rattle.printer_link.specs.Link.{Recorded, RoseBy};
ghost use Rattle.printer_link.specs.Suits.{SuitsAs};
ghost use Rattle.printer_model.specs.declared.event.WorldEvent.{WorldEvent};
ghost use Rattle.temp_rules.specs.Hot.{first_hot_of};
ghost use Rattle.octo_session.specs.Data.{IsSession, doing, port_of};
ghost use Rattle.octo_session.specs.Turn.{fact_of};
ghost use Rattle.octo_session.specs.declared.found.Doing.TheVariants as now_doing;
ghost use Rattle.octo_session_print.specs.Plan.{PrintData, print_commands};
ghost use Rattle.octo_session.specs.Plan.{plan};
ghost use Rattle.octo_session_print.specs.OnWay.{IsOnWay, plan_length};
ghost use Rattle.octo_session.specs.Smooth.{IsUnsaturated, IsSmooth};
ghost use Rattle.octo_session_print.specs.Enough.{LeavesOnWay};
ghost use Rattle.octo_session_print.specs.Progress.{after_select};
ghost use Rattle.octo_session_print.specs.Ends.{IsNew, IsTooHot, IsUnlisted, IsUnsent, is_too_hot, end_of, desk_after, left_after};
ghost use Rattle.octo_session_line_proof.specs.Patience.{IsOnTime};
ghost use Rattle.send_window.specs.Patience.{IsPatient};
ghost use Rattle.octo_session_print.specs.Waiting.{HasWaited};
ghost use Rattle.octo_session_print.specs.Printed.{HasPrinted, HasEnded, IsOver};
ghost use Rattle.octo_session_print.specs.BetweenTurns.{IsDialling, HasBegun, IsBetweenTurns, GoesOn};
ghost use Rattle.octo_session_print.specs.declared.end.PrintEnd.TheVariants as end;

use crate::end::PrintEnd;
use byte_text::Name;
use gcode_lines::{Job, MOST_FILE_BYTES};
use job_desk::MOST_SCRIPT_LINES;
use octo_outside::Clock;
use octo_session::{Ending, LinkFact, Session, Turned};
use printer_link::Link;
use temp_rules::first_hot;

// The number of the only print of a session.
const PRINT: u32 = 1;

/// Prints a job as the file of this name over the port of that name, in at most this number of turns.
///
/// It refuses a command that is too hot. Else it connects, selects the file, starts the print at once when the printer is
/// ready, and disconnects when the print has ended. It rests the clock after each turn that received nothing, and uses the
/// greatest moment that the clock has shown, in milliseconds. The link isn't up afterwards. It takes no memory.
pub fn run_print<L: Link, T: Clock>(
    session: &mut Session,
    link: &mut L,
    clock: &mut T,
    port: &Name,
    name: &Name,
    job: Job,
    turns: u64,
) -> PrintEnd
    requires new { IsNew session.old }
    requires down { (L.state link.old).up ≡ false }
    requires suits { SuitsAs session.old.sender.numbered (L.state link.old).past (L.state link.old).kind.oks }

    // If the link records its history: a prefix of the plan was issued, with `M105` put in, and `M400` if `ok`s have numbers, and
    // a prefix of that was executed, in one session at most. Each line sent in it is a hello or wasn't acknowledged then. If the
    // print is done, all of the plan was executed and acknowledged.
    ensures printed { Recorded (L.state link.old).past (L.state link.new).past
        (HasPrinted session.old.sender.numbered (L.state link.old).kind
        (plan session.old.desk.scripts (texts_of job)) result session.new.sender.acked) }

    // Each end by its cause; that of `LinkFailed` is in `counts` below.
    ensures too_hot { IsTooHot (first_hot_of session.old.desk.limits job.commands) result }
    ensures no_port { (result ≡ end.NoPort)
        ↔ IsUnlisted (first_hot_of session.old.desk.limits job.commands)
        turns ((L.state link.old).kind.listed port.now) }
    ensures ended { (why : SessionEnd) → result ≡ end.Ended why
        → HasEnded (L.state link.old).kind (L.state link.new).past session.new.sender why }
    ensures waited { HasWaited result (T.moment clock.old)
        session.old.sender.limit (T.moment clock.new) }
    ensures used { (made : ℕ) → result ≡ end.TurnsUsed made
        → (made ≡ turns) × RoseBy turns (L.state link.old).calls (L.state link.new).calls }

    // Over a prompt link a print is done if it has 32 turns more than its plan has lines, if `ok`s are counted.
    ensures prompt { session.old.sender.numbered ≡ false
        → first_hot_of session.old.desk.limits job.commands ≡ None
        → IsSmooth (L.state link.old).kind (L.state link.old).past port.now
        (L.state link.old).faults (L.state link.new).faults
        (T.moment clock.new) session.old.sender.limit session.old.desk.poll_ms
        → length (plan session.old.desk.scripts (texts_of job)) + 32 ≤ turns → result ≡ end.Done }

    // The link afterwards, and that a print which had no port added nothing. One that was too hot left all as it was.
    ensures down { (L.state link.new).up ≡ false }
    ensures kind { (L.state link.new).kind ≡ (L.state link.old).kind }
    ensures numbered { session.new.sender.numbered ≡ session.old.sender.numbered }
    ensures counts { Counts (result ≡ end.LinkFailed) (L.state link.old).faults (L.state link.new).faults }
    ensures unsent { IsUnsent result → (L.state link.new).past ≡ (L.state link.old).past }
    ensures refused { is_too_hot result ≡ true → session.new ≡ session.old }
    ensures untouched { is_too_hot result ≡ true
        → (link.new ≡ link.old) × (clock.new ≡ clock.old) }
{
    if let Some(hot) = first_hot(&job, session.desk().limits()) {
        return PrintEnd::TooHot {
            line: hot.line,
            asked: hot.asked,
            limit: hot.limit,
        };
    }
    // So a plan has fewer lines than a session has numbers.
    prove!(job.count() <= MOST_FILE_BYTES);
    prove!(session.desk().script_lines() <= 4 * MOST_SCRIPT_LINES);
    prepare(session, port, name, job);
    make_turns(session, link, clock, turns)
}

// Begins to connect, and selects the file.
fn prepare(session: &mut Session, port: &Name, name: &Name, job: Job)
    requires { IsNew session.old }
    ensures sender { session.new.sender ≡ session.old.sender }
    ensures up { session.new.up ≡ false }
    ensures desk { session.new.desk
        ≡ after_select port.now (named_file name.now job) session.old.desk }
{
    let _ = session.connect(port);
    let _ = session.select(name, job);
}

// Makes turns until the print is over.
fn make_turns<L: Link, T: Clock>(
    session: &mut Session,
    link: &mut L,
    clock: &mut T,
    turns: u64,
) -> PrintEnd
    requires as_up { (L.state link.old).up ≡ session.old.up }
    requires begins { HasBegun (L.state link.old).past session.old }
    requires suits { SuitsAs session.old.sender.numbered (L.state link.old).past (L.state link.old).kind.oks }
    requires on_time { IsOnTime (T.moment clock.old) (T.moment clock.old) 0
        session.old.sender.limit session.old.sender }

    // How the print ends.
    ensures over { (p : PrintData)
        → IsDialling p (port_of session.old.desk) (L.state link.old).past (L.state link.old).past session.old
        → IsOver p.numbered (L.state link.old).kind (plan p.scripts (print_commands p)) result
        (L.state link.old).past (L.state link.new).past session.new }
    ensures no_port { (result ≡ end.NoPort)
        ↔ ((1 ≤ turns) × ((L.state link.old).kind.listed (port_of session.old.desk) ≡ false)) }

    // The link after it, and how many calls were made.
    ensures down { (L.state link.new).up ≡ false }
    ensures kind { (L.state link.new).kind ≡ (L.state link.old).kind }
    ensures numbered { session.new.sender.numbered ≡ session.old.sender.numbered }
    ensures counts { Counts (result ≡ end.LinkFailed) (L.state link.old).faults (L.state link.new).faults }
    ensures used { (made : ℕ) → result ≡ end.TurnsUsed made
        → (made ≡ turns) × RoseBy turns (L.state link.old).calls (L.state link.new).calls }

    // How long it takes, and which end it never comes to.
    ensures waited { HasWaited result (T.moment clock.old)
        session.old.sender.limit (T.moment clock.new) }
    ensures prompt { (p : PrintData) → session.old.sender.numbered ≡ false
        → IsDialling p (port_of session.old.desk) (L.state link.old).past (L.state link.old).past session.old
        → IsSmooth (L.state link.old).kind (L.state link.old).past (port_of session.old.desk)
        (L.state link.old).faults (L.state link.new).faults (T.moment clock.new)
        session.old.sender.limit session.old.desk.poll_ms
        → plan_length p + 32 < most_lines → plan_length p + 32 ≤ turns → result ≡ end.Done }
    ensures passes { (line asked limit : ℕ) → result ≢ end.TooHot line asked limit }
{
    let mut moment = 0;
    for _ in 0..turns {
        moment = clock.now().max(moment);
        match make_turn(session, link, clock, moment) {
            Some(end) => return end,
            None => {}
        }
    }
    link.hang_up();
    PrintEnd::TurnsUsed { turns }
}

// Makes a turn, and does what follows of it; `Some` if the print is over.
fn make_turn<L: Link, T: Clock>(
    session: &mut Session,
    link: &mut L,
    clock: &mut T,
    moment: u64,
) -> Option<PrintEnd>
    requires as_up { (L.state link.old).up ≡ session.old.up }
    requires unstarted { session.old.sender.ready ≡ false → session.old.desk.greatest ≡ 0 }

    // Whether the print goes on.
    ensures goes { (p : PrintData) (port : List ℕ) (first : Option (List WorldEvent)) (limit : ℕ)
        → IsPatient 0 limit session.old.sender
        → SuitsAs session.old.sender.numbered first (L.state link.old).kind.oks
        → IsBetweenTurns (L.state link.old).kind p port first (L.state link.old).past session.old
        → GoesOn (L.state link.old).kind p port result first (L.state link.new).past session.new }
    ensures no_port { (result ≡ Some end.NoPort) ↔ ((doing session.old ≡ now_doing.Dialling)
        × ((L.state link.old).kind.listed (port_of session.old.desk) ≡ false)) }

    // The link after it, and its calls.
    ensures up { result ≡ None → (L.state link.new).up ≡ session.new.up }
    ensures down { is_some result ≡ true → (L.state link.new).up ≡ false }
    ensures kind { (L.state link.new).kind ≡ (L.state link.old).kind }
    ensures counts { Counts (result ≡ Some end.LinkFailed) (L.state link.old).faults (L.state link.new).faults }
    ensures calls { (session.old.up ≡ false → doing session.old ≡ now_doing.Dialling)
        → result ≡ None → RoseBy 1 (L.state link.old).calls (L.state link.new).calls }
    ensures unused { (made : ℕ) → result ≢ Some (end.TurnsUsed made) }

    // How long it waits.
    ensures waits { (start limit : ℕ) → start ≤ moment → IsPatient start limit session.old.sender
        → IsPatient start limit session.new.sender }
    ensures waited { (start limit count : ℕ)
        → start ≤ moment → IsPatient start limit session.old.sender
        → result ≡ Some (end.Ended (NoAnswer count)) → later start (most_silent * limit) ≤ moment }
    ensures missed { (start limit count : ℕ)
        → start ≤ moment → IsPatient start limit session.old.sender
        → result ≡ Some (end.Ended (LostOk count)) → later start (most_told * limit) ≤ moment }
    ensures clock { NotBefore (T.moment clock.old) (T.moment clock.new) }
    ensures numbered { session.new.sender.numbered ≡ session.old.sender.numbered }

    // Over a prompt link; and which end it never comes to.
    ensures prompt { (p : PrintData) (poll_ms at left : ℕ)
        → (L.state link.old).kind.prompt ≡ true → Steady (L.state link.old).faults (L.state link.new).faults
        → IsUnsaturated (Some moment) session.old.sender.limit poll_ms
        → T.moment clock.old ≡ Some moment → T.moment clock.new ≡ Some at
        → IsOnWay (L.state link.old).kind p poll_ms moment left (L.state link.old).past session.old
        → LeavesOnWay result (L.state link.old).kind p poll_ms at (left - 1)
        (L.state link.new).past session.new }
    ensures passes { (line asked limit : ℕ) → result ≢ Some (end.TooHot line asked limit) }
{
    let turned = session.turn(link, moment);
    rest_unless(turned.heard, clock);
    go_on(session, fact_of_turn(&turned), turned.ending)
}

// Rests the clock, unless something was heard.
fn rest_unless<T: Clock>(heard: bool, clock: &mut T)
    ensures later { NotBefore (T.moment clock.old) (T.moment clock.new) }
    ensures stays { heard ≡ true → T.moment clock.new ≡ T.moment clock.old }
{
    if !heard {
        clock.rest();
    }
}

// What a turn found.
fn fact_of_turn(turned: &Turned) -> LinkFact
    ensures { result ≡ fact_of turned.now.note }
{
    match &turned.note {
        Some(note) => note.fact,
        None => LinkFact::Quiet,
    }
}

// What follows of a turn that found this and with which a print ended, if one did.
fn go_on(session: &mut Session, found: LinkFact, ending: Option<Ending>) -> Option<PrintEnd>
    requires { found ≡ fact.Ready → session.old.desk.greatest ≡ 0 }
    ensures end { result ≡ end_of found }
    ensures after { session.new
        ≡ record session.old { desk = desk_after found ending session.old.desk } }
{
    match found {
        LinkFact::Opened => None,
        LinkFact::Quiet => {
            leave(session, ending);
            None
        }
        LinkFact::Ready => {
            let _ = session.start(PRINT);
            None
        }
        LinkFact::Closed => Some(PrintEnd::Done),
        LinkFact::NoPort => Some(PrintEnd::NoPort),
        LinkFact::Failed => Some(PrintEnd::LinkFailed),
        LinkFact::Ended(end) => Some(PrintEnd::Ended(end)),
    }
}

// Ends the connection if the print has ended.
fn leave(session: &mut Session, ending: Option<Ending>)
    ensures { session.new ≡ record session.old { desk = left_after ending session.old.desk } }
{
    if ending.is_some() {
        session.disconnect();
    }
}
