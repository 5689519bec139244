//! Asks of a counter, answered by a host.
ghost use Rattle.std.specs.Prelude.{◌≡◌, ◌&&◌, ◌==◌, ℕ, List, [], ◌∷◌, Option, Some, None, false, not};
ghost use Rattle.octo_outside.specs.Recorded.{Became};
ghost use Rattle.octo_asks.specs.declared.answer.Answer.{Answer};
ghost use Rattle.octo_asks.specs.declared.request.Request.TheVariants.{Shutdown};
ghost use Rattle.octo_house_rules.specs.Counted.{is_leave, is_counted, is_shutdown};
ghost use Rattle.octo_keeper.specs.declared.shelf.ShelfFile.{ShelfFile};
ghost use Rattle.octo_asks.specs.History.{own_number};
ghost use Rattle.octo_house.specs.State.{IsDeskAlone, session_of};
ghost use Rattle.octo_house_run_proof.specs.Rounds.{AsksAt};
ghost use Rattle.octo_house_run.specs.Asks.{AskLeaves};
ghost use Rattle.octo_house_run.specs.Own.{AsksOfWorkers, Looks, own_moments};
ghost use Rattle.octo_house_run.specs.Reconnecting.{is_due, seen_in};
ghost use Rattle.octo_house_run.specs.Runs.{Leads, LeadsOnSome};
ghost use Rattle.octo_house_run.specs.Tallies.{AreOf};

use crate::reconnect::Reconnect;
use crate::tally::Asked;
use octo_asks::{Answer, Ask, Counter, Next, Request};
use octo_house::House;
use octo_keeper::{Keeper, Shelf};

// Whether a worker leaves with this request.
fn is_leave(request: &Request) -> bool
    ensures { result ≡ is_leave request.now }
{
    matches!(request, Request::Leave)
}

// Whether it counts as a call.
fn is_counted(request: &Request) -> bool
    ensures { result ≡ is_counted request.now }
{
    !matches!(request, Request::Leave | Request::AutoConnect)
}

// Whether it asks for a shutdown.
fn is_shutdown_request(request: &Request) -> bool
    ensures { (x : Answer) → is_shutdown request.now x ≡ (result && is_shutdown Shutdown x) }
{
    matches!(request, Request::Shutdown)
}

// Whether a shutdown with this answer was accepted.
fn is_accepted(answer: &Answer) -> bool
    ensures { result ≡ is_shutdown Shutdown answer.now }
{
    matches!(answer, Answer::Accepted)
}

// An ask that was a leave or a shutdown, or neither, and counts or not.
fn asked_as(leaves: bool, counts: bool, shuts: bool, accepted: bool) -> Asked
    ensures { result ≡ record {
      is_leave = leaves;
      is_counted = counts;
      is_shutdown = shuts && accepted;
    } }
{
    Asked {
        is_leave: leaves,
        is_counted: counts,
        is_shutdown: shuts && accepted,
    }
}

// Whether a host connects by itself at a moment; it doesn't while a print is active.
fn is_due(house: &House, reconnect: Reconnect, moment: u64) -> bool
    ensures { result ≡ (is_due moment reconnect && not (session_of house.now).desk.active) }
{
    reconnect.is_due(moment) && house.session().desk().print().is_none()
}

// Sees in which state a host's desk is at a moment.
fn see(house: &House, reconnect: &mut Reconnect, moment: u64)
    ensures { reconnect.new ≡ seen_in (session_of house.now).desk.state moment reconnect.old }
{
    *reconnect = reconnect.seen_in(house.session().desk().state(), moment);
}

// Asks for a connection to the first port, as the host itself.
fn connect<C: Counter>(house: &mut House, counter: &mut C, moment: u64)
    requires open { (C.state counter.old).closed ≡ false }
    ensures leads { (files : Option (List ShelfFile))
        → Leads (C.state counter.old).past (C.state counter.new).past
        files files moment house.old house.new }
    ensures counted { Became (C.state counter.old).past (C.state counter.new).past
        (λ _ added. AreOf None added) }
    ensures asks { (keeper shelf : ℕ) → Became (C.state counter.old).past (C.state counter.new).past
        (λ _ added. AsksAt moment keeper keeper shelf shelf added) }
    ensures own { Became (C.state counter.old).past (C.state counter.new).past
        (λ _ added. own_moments added ≡ moment ∷ []) }
    ensures alone { IsDeskAlone house.old house.new }
    ensures given { (C.state counter.new).given ≡ (C.state counter.old).given }
    ensures closed { (C.state counter.new).closed ≡ false }
    ensures place { (C.state counter.new).place ≡ (C.state counter.old).place }
{
    let answer = house.connect_itself();
    counter.own(moment, answer);
}

// Does so if it is due.
fn connect_if_due<C: Counter>(
    house: &mut House,
    counter: &mut C,
    reconnect: &mut Reconnect,
    moment: u64,
)
    requires open { (C.state counter.old).closed ≡ false }
    ensures leads { (files : Option (List ShelfFile))
        → Leads (C.state counter.old).past (C.state counter.new).past
        files files moment house.old house.new }
    ensures counted { Became (C.state counter.old).past (C.state counter.new).past
        (λ _ added. AreOf None added) }
    ensures asks { (keeper shelf : ℕ) → Became (C.state counter.old).past (C.state counter.new).past
        (λ _ added. AsksAt moment keeper keeper shelf shelf added) }
    ensures own { Became (C.state counter.old).past (C.state counter.new).past
        (λ _ added. Looks moment reconnect.old reconnect.new added) }
    ensures alone { IsDeskAlone house.old house.new }
    ensures given { (C.state counter.new).given ≡ (C.state counter.old).given }
    ensures closed { (C.state counter.new).closed ≡ false }
    ensures place { (C.state counter.new).place ≡ (C.state counter.old).place }
{
    see(house, reconnect, moment);
    if !is_due(house, *reconnect, moment) {
        return;
    }
    *reconnect = reconnect.after_asking();
    connect(house, counter, moment);
}

// Answers the next ask, at a moment in milliseconds that isn't before the last entry. If there is none, the host may connect
// by itself.
pub(crate) fn answer_next<C: Counter, K: Keeper, S: Shelf>(
    house: &mut House,
    counter: &mut C,
    keeper: &mut K,
    shelf: &mut S,
    reconnect: &mut Reconnect,
    moment: u64,
) -> Option<Asked>
    requires answered { (C.state counter.old).given ≡ None }
    requires open { (C.state counter.old).closed ≡ false }

    // The history goes on.
    ensures leads { Leads (C.state counter.old).past (C.state counter.new).past
        (S.state shelf.old).files (S.state shelf.new).files moment house.old house.new }
    ensures some { LeadsOnSome (C.state counter.old).past (C.state counter.new).past
        moment house.old house.new }
    ensures counted { Became (C.state counter.old).past (C.state counter.new).past
        (λ _ added. AreOf result added) }
    ensures asks { Became (C.state counter.old).past (C.state counter.new).past
        (λ _ added. AsksAt moment (K.state keeper.old).faults (K.state keeper.new).faults
        (S.state shelf.old).faults (S.state shelf.new).faults added) }

    // A host's own call is in it only if that was due.
    ensures own { AsksOfWorkers (λ x. (C.state x).given)
        → Became (C.state counter.old).past (C.state counter.new).past
        (λ _ added. Looks moment reconnect.old reconnect.new added) }

    // What stays.
    ensures rest { AskLeaves (K.state keeper.old) (K.state keeper.new)
        (S.state shelf.old) (S.state shelf.new) house.old house.new }
    ensures given { (C.state counter.new).given ≡ None }
    ensures closed { (C.state counter.new).closed ≡ false }
    ensures place { (C.state counter.new).place ≡ (C.state counter.old).place }
{
    match counter.next() {
        Next::Nothing => {
            connect_if_due(house, counter, reconnect, moment);
            None
        }
        Next::Asked { worker, ask } => {
            let asked = answer_ask(house, counter, keeper, shelf, worker, ask, moment);
            see(house, reconnect, moment);
            Some(asked)
        }
    }
}

// Answers an ask that was given out.
fn answer_ask<C: Counter, K: Keeper, S: Shelf>(
    house: &mut House,
    counter: &mut C,
    keeper: &mut K,
    shelf: &mut S,
    worker: u8,
    ask: Ask,
    moment: u64,
) -> Asked
    requires given { (C.state counter.old).given ≡ Some (record { worker = worker; ask = ask }) }
    requires open { (C.state counter.old).closed ≡ false }
    ensures leads { Leads (C.state counter.old).past (C.state counter.new).past
        (S.state shelf.old).files (S.state shelf.new).files moment house.old house.new }
    ensures some { LeadsOnSome (C.state counter.old).past (C.state counter.new).past
        moment house.old house.new }
    ensures counted { Became (C.state counter.old).past (C.state counter.new).past
        (λ _ added. AreOf (Some result) added) }
    ensures asks { Became (C.state counter.old).past (C.state counter.new).past
        (λ _ added. AsksAt moment (K.state keeper.old).faults (K.state keeper.new).faults
        (S.state shelf.old).faults (S.state shelf.new).faults added) }
    ensures own { (worker == own_number) ≡ false
        → Became (C.state counter.old).past (C.state counter.new).past (λ _ added. own_moments added
        ≡ []) }
    ensures rest { AskLeaves (K.state keeper.old) (K.state keeper.new)
        (S.state shelf.old) (S.state shelf.new) house.old house.new }
    ensures given { (C.state counter.new).given ≡ None }
    ensures closed { (C.state counter.new).closed ≡ false }
    ensures place { (C.state counter.new).place ≡ (C.state counter.old).place }
{
    let leaves = is_leave(&ask.request);
    let counts = is_counted(&ask.request);
    let shuts = is_shutdown_request(&ask.request);
    let answer = house.ask(keeper, shelf, ask);
    let accepted = is_accepted(&answer);
    counter.answer(worker, moment, answer);
    asked_as(leaves, counts, shuts, accepted)
}
