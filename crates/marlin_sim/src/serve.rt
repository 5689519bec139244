//! Serves a connection: turns of reading, taking and running, and what they write and print.
ghost use Rattle.std.specs.Prelude.{◌≡◌, ◌≢◌, ◌⊎◌, ◌<◌, ◌≤◌, ◌++◌, ℕ, List, [], Option, true, false, length, IfOk, OnOk, OnErr, IsErr, IfSome, Some, if◌then◌else◌};
ghost use Rattle.octo_outside.specs.Recorded.{Adds, AddsPrefix, Counts};
ghost use Rattle.marlin_sim.specs.declared.end.SimEnd.TheVariants as end;
ghost use Rattle.marlin_sim.specs.declared.plan.SimPlan.{SimPlan};
ghost use Rattle.marlin_sim.specs.declared.serve.Next.TheVariants as next;
ghost use Rattle.marlin_sim.specs.Plan.{IsPlan};
ghost use Rattle.marlin_sim.specs.Sim.{FollowsModel, StepsAndReplies, StepsAndRepliesOn, work, IsIdle};
ghost use Rattle.marlin_sim.specs.Served.{Outside, outside, Serves, Going, After, Ending, Outcome, IsUsed};

use crate::end::SimEnd;
use crate::plan::SimPlan;
use crate::sim::Sim;
use octo_outside::{Conn, Failed, Got, Sink, send_all, write_all};

/// What a step left.
#[derive(Clone, Copy, Debug, PartialEq, Eq)]
pub enum Next {
    /// It goes on.
    On,
    /// Nothing is left to run; after a turn, the peer has closed.
    Over,
    /// The connection failed.
    ConnFailed,
    /// The sink failed.
    SinkFailed,
    /// Memory ran out.
    NoMemory,
}

// How much one read asks for.
const CHUNK: usize = 4096;

// How much gathers before it is printed.
const TEXT: usize = 16384;

/// Writes the replies. Fails if the connection does; then the replies stay.
pub fn send_replies<C: Conn>(conn: &mut C, sim: &mut Sim) -> Result<(), Failed>
    ensures ok { OnOk result (Adds (C.state conn.old).written (C.state conn.new).written sim.old.replies.text) }
    ensures after { OnOk result
        (sim.new ≡ record sim.old { replies = record sim.old.replies { text = [] } }) }
    ensures err { OnErr result
        (AddsPrefix (C.state conn.old).written (C.state conn.new).written sim.old.replies.text) }
    ensures same { OnErr result (sim.new ≡ sim.old) }
    ensures left { (C.state conn.new).left ≡ (C.state conn.old).left }
    ensures quiets { (C.state conn.new).quiets ≡ (C.state conn.old).quiets }
    ensures counts { Counts (IsErr result) (C.state conn.old).faults (C.state conn.new).faults }
{
    send_all(conn, sim.replies())?;
    sim.clear_replies();
    Ok(())
}

/// Prints the text. Fails if the output does; then the text stays.
pub fn print_text<O: Sink>(out: &mut O, sim: &mut Sim) -> Result<(), Failed>
    ensures ok { OnOk result (Adds (O.written out.old) (O.written out.new) sim.old.text) }
    ensures after { OnOk result (sim.new ≡ record sim.old { text = [] }) }
    ensures err { OnErr result (AddsPrefix (O.written out.old) (O.written out.new) sim.old.text) }
    ensures same { OnErr result (sim.new ≡ sim.old) }
    ensures counts { Counts (IsErr result) (O.faults out.old) (O.faults out.new) }
{
    write_all(out, sim.text())?;
    sim.clear_text();
    Ok(())
}

// Whether it goes on.
fn next_of(ran: bool) -> Next
    ensures { result ≡ (if ran then next.On else next.Over) }
{
    if ran { Next::On } else { Next::Over }
}

// Writes the replies of a step that ran a line or didn't, and prints the text if it is long.
fn deliver<C: Conn, O: Sink>(conn: &mut C, out: &mut O, sim: &mut Sim, ran: bool) -> Next
    ensures follows { (plan : SimPlan) (input : List ℕ) (first : Outside)
        → Serves plan input first
        (outside (C.state conn.old).left (C.state conn.old).written (O.written out.old)) sim.old
        → After result plan input first
        (outside (C.state conn.new).left (C.state conn.new).written (O.written out.new)) sim.new }
    ensures on { result ≡ next.On → ran ≡ true }
    ensures over { result ≡ next.Over → ran ≡ false }
    ensures printer { sim.new.printer ≡ sim.old.printer }
    ensures below { sim.new.below ≡ sim.old.below }
    ensures lines { sim.new.lines ≡ sim.old.lines }
    ensures written { (result ≡ next.On) ⊎ (result ≡ next.Over) → sim.new.replies.text ≡ [] }
    ensures left { (C.state conn.new).left ≡ (C.state conn.old).left }
    ensures quiets { (C.state conn.new).quiets ≡ (C.state conn.old).quiets }
    ensures conn { Counts (result ≡ next.ConnFailed) (C.state conn.old).faults (C.state conn.new).faults }
    ensures sink { Counts (result ≡ next.SinkFailed) (O.faults out.old) (O.faults out.new) }
{
    let Ok(()) = send_replies(conn, sim) else {
        return Next::ConnFailed;
    };
    if sim.text().len() < TEXT {
        return next_of(ran);
    }
    let Ok(()) = print_text(out, sim) else {
        return Next::SinkFailed;
    };
    next_of(ran)
}

// Takes lines while there is room, runs one, and writes the replies.
fn step_and_reply<C: Conn, O: Sink>(conn: &mut C, out: &mut O, sim: &mut Sim) -> Next
    ensures follows { (plan : SimPlan) (input : List ℕ) (first : Outside)
        → Serves plan input first
        (outside (C.state conn.old).left (C.state conn.old).written (O.written out.old)) sim.old
        → After result plan input first
        (outside (C.state conn.new).left (C.state conn.new).written (O.written out.new)) sim.new }
    ensures acts { (result ≡ next.On) ⊎ (result ≡ next.Over) → StepsAndReplies sim.old sim.new }
    ensures idle { result ≡ next.Over → 1 ≤ sim.old.printer.slots → IsIdle sim.new }
    ensures work { result ≡ next.On → work sim.new < work sim.old }
    ensures slots { (result ≡ next.On) ⊎ (result ≡ next.Over)
        → sim.new.printer.slots ≡ sim.old.printer.slots }
    ensures left { (C.state conn.new).left ≡ (C.state conn.old).left }
    ensures quiets { (C.state conn.new).quiets ≡ (C.state conn.old).quiets }
    ensures conn { Counts (result ≡ next.ConnFailed) (C.state conn.old).faults (C.state conn.new).faults }
    ensures sink { Counts (result ≡ next.SinkFailed) (O.faults out.old) (O.faults out.new) }
{
    match sim.step() {
        Ok(ran) => deliver(conn, out, sim, ran),
        Err(_) => Next::NoMemory,
    }
}

// Does what is left to do once the peer has closed.
fn drain<C: Conn, O: Sink>(conn: &mut C, out: &mut O, sim: &mut Sim) -> SimEnd
    requires { 1 ≤ sim.old.printer.slots }
    ensures follows { (plan : SimPlan) (input : List ℕ) (first : Outside)
        → Serves plan input first
        (outside (C.state conn.old).left (C.state conn.old).written (O.written out.old)) sim.old
        → (C.state conn.old).left ≡ Some []
        → Ending result plan input first
        (outside (C.state conn.new).left (C.state conn.new).written (O.written out.new)) sim.new }
    ensures plan { result ≢ end.BadPlan }
    ensures turns { (turns : ℕ) → result ≢ end.TurnsUsed turns }
    ensures quiets { (C.state conn.new).quiets ≡ (C.state conn.old).quiets }
    ensures conn { Counts (result ≡ end.ConnFailed) (C.state conn.old).faults (C.state conn.new).faults }
    ensures sink { Counts (result ≡ end.SinkFailed) (O.faults out.old) (O.faults out.new) }
{
    loop {
        match step_and_reply(conn, out, sim) {
            Next::On => {}
            Next::Over => return SimEnd::Done,
            Next::ConnFailed => return SimEnd::ConnFailed,
            Next::SinkFailed => return SimEnd::SinkFailed,
            Next::NoMemory => return SimEnd::NoMemory,
        }
    }
}

// Goes on after a read that didn't find the end.
fn go_on<C: Conn, O: Sink>(conn: &mut C, out: &mut O, sim: &mut Sim) -> Next
    ensures follows { (plan : SimPlan) (input : List ℕ) (first : Outside)
        → Serves plan input first
        (outside (C.state conn.old).left (C.state conn.old).written (O.written out.old)) sim.old
        → After result plan input first
        (outside (C.state conn.new).left (C.state conn.new).written (O.written out.new)) sim.new }
    ensures acts { result ≡ next.On → StepsAndReplies sim.old sim.new }
    ensures open { result ≢ next.Over }
    ensures slots { result ≡ next.On → sim.new.printer.slots ≡ sim.old.printer.slots }
    ensures left { (C.state conn.new).left ≡ (C.state conn.old).left }
    ensures quiets { (C.state conn.new).quiets ≡ (C.state conn.old).quiets }
    ensures conn { Counts (result ≡ next.ConnFailed) (C.state conn.old).faults (C.state conn.new).faults }
    ensures sink { Counts (result ≡ next.SinkFailed) (O.faults out.old) (O.faults out.new) }
{
    match step_and_reply(conn, out, sim) {
        Next::Over => Next::On,
        next => next,
    }
}

// Goes on with bytes that were read.
fn receive<C: Conn, O: Sink>(
    conn: &mut C,
    out: &mut O,
    sim: &mut Sim,
    plan: &SimPlan,
    bytes: &[u8],
) -> Next
    requires { IsPlan plan.now }
    ensures follows { (input rest wrote printed : List ℕ) (first : Outside)
        → Adds first.wrote (C.state conn.old).written wrote
        → Adds first.printed (O.written out.old) printed
        → (C.state conn.old).left ≡ Some rest
        → FollowsModel plan.now input (bytes.now ++ rest) sim.old wrote printed
        → After result plan.now input first
        (outside (C.state conn.new).left (C.state conn.new).written (O.written out.new)) sim.new }
    ensures acts { result ≡ next.On → StepsAndRepliesOn sim.old.printer sim.new }
    ensures open { result ≢ next.Over }
    ensures slots { result ≡ next.On → sim.new.printer.slots ≡ sim.old.printer.slots }
    ensures left { (C.state conn.new).left ≡ (C.state conn.old).left }
    ensures quiets { (C.state conn.new).quiets ≡ (C.state conn.old).quiets }
    ensures conn { Counts (result ≡ next.ConnFailed) (C.state conn.old).faults (C.state conn.new).faults }
    ensures sink { Counts (result ≡ next.SinkFailed) (O.faults out.old) (O.faults out.new) }
{
    match sim.receive(plan, bytes) {
        Ok(()) => go_on(conn, out, sim),
        Err(_) => Next::NoMemory,
    }
}

/// Makes one turn: reads once, lets lines arrive until none waits or the queue is full, runs one if one waits, and
/// writes its reply.
pub fn take_turn<C: Conn, O: Sink>(conn: &mut C, out: &mut O, sim: &mut Sim, plan: &SimPlan) -> Next
    requires { IsPlan plan.now }
    ensures follows { (input : List ℕ) (first : Outside)
        → Going plan.now input first
        (outside (C.state conn.old).left (C.state conn.old).written (O.written out.old)) sim.old
        → After result plan.now input first
        (outside (C.state conn.new).left (C.state conn.new).written (O.written out.new)) sim.new }
    ensures acts { result ≡ next.On → StepsAndRepliesOn sim.old.printer sim.new }
    ensures quiet { result ≡ next.On
        → (C.state conn.new).quiets ≢ (C.state conn.old).quiets → StepsAndReplies sim.old sim.new }
    ensures closed { result ≡ next.Over
        → IfSome (C.state conn.old).left (λ _. (C.state conn.new).left ≡ Some []) }
    ensures used { result ≡ next.On → IfSome (C.state conn.old).left
        (λ before. IsUsed 1 before (C.state conn.new).left (C.state conn.old).quiets (C.state conn.new).quiets) }
    ensures slots { (result ≡ next.On) ⊎ (result ≡ next.Over)
        → sim.new.printer.slots ≡ sim.old.printer.slots }
    ensures quiets_counted { (C.state conn.old).quiets ≤ (C.state conn.new).quiets }
    ensures conn { Counts (result ≡ next.ConnFailed) (C.state conn.old).faults (C.state conn.new).faults }
    ensures sink { Counts (result ≡ next.SinkFailed) (O.faults out.old) (O.faults out.new) }
{
    let mut chunk = [0; CHUNK];
    match conn.read(&mut chunk) {
        Ok(Got::Bytes(n)) => receive(conn, out, sim, plan, &chunk[..n]),
        Ok(Got::Quiet) => go_on(conn, out, sim),
        Ok(Got::Ended) => Next::Over,
        Err(Failed) => Next::ConnFailed,
    }
}

/// Makes turns until the peer has closed, and then does what is left.
pub fn take_turns<C: Conn, O: Sink>(
    conn: &mut C,
    out: &mut O,
    sim: &mut Sim,
    plan: &SimPlan,
) -> SimEnd
    requires plan { IsPlan plan.now }
    requires slots { sim.old.printer.slots ≡ plan.now.slots }
    ensures follows { (input : List ℕ) (first : Outside)
        → Going plan.now input first
        (outside (C.state conn.old).left (C.state conn.old).written (O.written out.old)) sim.old
        → Ending result plan.now input first
        (outside (C.state conn.new).left (C.state conn.new).written (O.written out.new)) sim.new }
    ensures plan { result ≢ end.BadPlan }
    ensures turns { (turns : ℕ) → result ≡ end.TurnsUsed turns → turns ≡ plan.now.turns }
    ensures used { (turns : ℕ) → result ≡ end.TurnsUsed turns → IfSome (C.state conn.old).left
        (λ before. IsUsed turns before (C.state conn.new).left (C.state conn.old).quiets (C.state conn.new).quiets) }
    ensures conn { Counts (result ≡ end.ConnFailed) (C.state conn.old).faults (C.state conn.new).faults }
    ensures sink { Counts (result ≡ end.SinkFailed) (O.faults out.old) (O.faults out.new) }
{
    for _ in 0..plan.turns {
        match take_turn(conn, out, sim, plan) {
            Next::On => {}
            Next::Over => return drain(conn, out, sim),
            Next::ConnFailed => return SimEnd::ConnFailed,
            Next::SinkFailed => return SimEnd::SinkFailed,
            Next::NoMemory => return SimEnd::NoMemory,
        }
    }
    SimEnd::TurnsUsed { turns: plan.turns }
}
