//! A whole simulation, by a plan or by the arguments that name one.
ghost use Rattle.std.specs.Prelude.{◌≡◌, ◌≢◌, ◌⊎◌, ◌≤◌, ℕ, List, Option, None, Some, IfSome};
ghost use Rattle.octo_outside.specs.Recorded.{Rose, Counts};
ghost use Rattle.marlin_sim.specs.declared.end.SimEnd.TheVariants as end;
ghost use Rattle.marlin_sim.specs.declared.plan.SimPlan.{SimPlan};
ghost use Rattle.marlin_sim.specs.Plan.{IsPlan, plan_of};
ghost use Rattle.marlin_sim.specs.Served.{Outside, outside, Serves, Ending, Outcome, IsUsed};

use crate::end::SimEnd;
use crate::plan::{SimPlan, read_plan};
use crate::serve::{print_text, send_replies, take_turns};
use crate::sim::Sim;
use octo_outside::{Conn, Sink, WordList};
use std::alloc::Global;

// Writes `start`, and then serves the connection.
fn begin<C: Conn, O: Sink>(conn: &mut C, out: &mut O, sim: &mut Sim, plan: &SimPlan) -> SimEnd
    requires plan { IsPlan plan.now }
    requires slots { sim.old.printer.slots ≡ plan.now.slots }
    ensures follows { (input : List ℕ) (first : Outside)
        → Serves plan.now input first
        (outside (C.state conn.old).left (C.state conn.old).written (O.written out.old)) sim.old
        → Ending result plan.now input first
        (outside (C.state conn.new).left (C.state conn.new).written (O.written out.new)) sim.new }
    ensures plan { result ≢ end.BadPlan }
    ensures turns { (turns : ℕ) → result ≡ end.TurnsUsed turns → turns ≡ plan.now.turns }
    ensures used { (turns : ℕ) → result ≡ end.TurnsUsed turns → IfSome (C.state conn.old).left
        (λ before. IsUsed turns before (C.state conn.new).left (C.state conn.old).quiets (C.state conn.new).quiets) }
    ensures conn { Counts (result ≡ end.ConnFailed) (C.state conn.old).faults (C.state conn.new).faults }
    ensures sink { Counts (result ≡ end.SinkFailed) (O.faults out.old) (O.faults out.new) }
{
    match send_replies(conn, sim) {
        Ok(()) => take_turns(conn, out, sim, plan),
        Err(_) => SimEnd::ConnFailed,
    }
}

// Prints what is still to be printed at an end.
fn finish<O: Sink>(out: &mut O, sim: &mut Sim, ending: SimEnd) -> SimEnd
    ensures follows { (plan : SimPlan) (input : List ℕ) (first : Outside)
        (left wrote : Option (List ℕ))
        → Ending ending plan input first (outside left wrote (O.written out.old)) sim.old
        → Outcome result plan input first (outside left wrote (O.written out.new)) }
    ensures same { (result ≡ ending) ⊎ (result ≡ end.SinkFailed) }
    ensures counted { O.faults out.old ≤ O.faults out.new }
    ensures failed { result ≡ end.SinkFailed
        → (ending ≡ end.SinkFailed) ⊎ Rose (O.faults out.old) (O.faults out.new) }
{
    match ending {
        SimEnd::SinkFailed => SimEnd::SinkFailed,
        _ => match print_text(out, sim) {
            Ok(()) => ending,
            Err(_) => SimEnd::SinkFailed,
        },
    }
}

/// Serves one connection with one printer by a plan, and prints what it executed.
///
/// If the connection records its input: with `Done` the printer has taken the lines of the input that the plan lets
/// arrive, in order, and run them all; `start` and its replies were written, and what it ran was printed. With each other
/// end what it did is the beginning of such a run; what was written of it is cut if the connection failed or memory ran
/// out, and what was printed if the sink failed.
pub fn simulate<C: Conn, O: Sink>(
    alloc: Global,
    conn: &mut C,
    out: &mut O,
    plan: &SimPlan,
) -> SimEnd
    requires { IsPlan plan.now }
    ensures served { IfSome (C.state conn.old).left (λ input. Outcome result plan.now input
        (outside (C.state conn.old).left (C.state conn.old).written (O.written out.old))
        (outside (C.state conn.new).left (C.state conn.new).written (O.written out.new))) }
    ensures plan { result ≢ end.BadPlan }
    ensures turns { (turns : ℕ) → result ≡ end.TurnsUsed turns → turns ≡ plan.now.turns }
    ensures used { (turns : ℕ) → result ≡ end.TurnsUsed turns → IfSome (C.state conn.old).left
        (λ before. IsUsed turns before (C.state conn.new).left (C.state conn.old).quiets (C.state conn.new).quiets) }
    ensures conn { Counts (result ≡ end.ConnFailed) (C.state conn.old).faults (C.state conn.new).faults }
    ensures sink { Counts (result ≡ end.SinkFailed) (O.faults out.old) (O.faults out.new) }
{
    let mut sim = match Sim::new(alloc, plan) {
        Ok(sim) => sim,
        Err(_) => return SimEnd::NoMemory,
    };
    let ending = begin(conn, out, &mut sim, plan);
    finish(out, &mut sim, ending)
}

/// Serves one connection by the plan that the arguments are: `ADDRESS LAST SLOTS DROP GARBLE`.
pub fn sim<C: Conn, O: Sink>(alloc: Global, words: &WordList, conn: &mut C, out: &mut O) -> SimEnd
    ensures no_plan { plan_of words.now ≡ None → (result ≡ end.BadPlan) ⊎ (result ≡ end.NoMemory) }
    ensures bad_plan { result ≡ end.BadPlan → plan_of words.now ≡ None }
    ensures unused { plan_of words.now ≡ None
        → outside (C.state conn.new).left (C.state conn.new).written (O.written out.new)
        ≡ outside (C.state conn.old).left (C.state conn.old).written (O.written out.old) }
    ensures served { (plan : SimPlan) → plan_of words.now ≡ Some plan
        → IfSome (C.state conn.old).left (λ input. Outcome result plan input
        (outside (C.state conn.old).left (C.state conn.old).written (O.written out.old))
        (outside (C.state conn.new).left (C.state conn.new).written (O.written out.new))) }
    ensures turns { (plan : SimPlan) (turns : ℕ) → plan_of words.now ≡ Some plan
        → result ≡ end.TurnsUsed turns → turns ≡ plan.turns }
    ensures used { (turns : ℕ) → result ≡ end.TurnsUsed turns → IfSome (C.state conn.old).left
        (λ before. IsUsed turns before (C.state conn.new).left (C.state conn.old).quiets (C.state conn.new).quiets) }
    ensures conn { Counts (result ≡ end.ConnFailed) (C.state conn.old).faults (C.state conn.new).faults }
    ensures sink { Counts (result ≡ end.SinkFailed) (O.faults out.old) (O.faults out.new) }
{
    match read_plan(alloc, words) {
        Ok(Some(plan)) => simulate(alloc, conn, out, &plan),
        Ok(None) => SimEnd::BadPlan,
        Err(_) => SimEnd::NoMemory,
    }
}
