//! Turns of a host's link, entered in the history.
ghost use Rattle.std.specs.Prelude.{◌≡◌, ◌≤◌, Bool, List, Option, Some, None, is_some, true, false};
ghost use Rattle.octo_keeper.specs.declared.shelf.ShelfFile.{ShelfFile};
ghost use Rattle.octo_outside.specs.Recorded.{Became};
ghost use Rattle.octo_house_run_proof.specs.Rounds.{TurnsAt};
ghost use Rattle.octo_house_rules.specs.Temps.{NotesTemps};
ghost use Rattle.octo_house_tables.specs.Kept.{KeepsRows};
ghost use Rattle.octo_house_run_proof.specs.InStep.{InStep};
ghost use Rattle.octo_asks.specs.History.{History};
ghost use Rattle.printer_model.specs.declared.event.WorldEvent.{WorldEvent};
ghost use Rattle.octo_house.specs.State.{IsListed, session_of, tables_of};
ghost use Rattle.octo_house_run.specs.Runs.{Leads};
ghost use Rattle.octo_house_run.specs.Tallies.{AreOf};
ghost use Rattle.octo_house_run.specs.Turns.{IsQuiet, Notes, NotesChange};

use arrayvec::ArrayVec;
use job_desk::{LinkFact, Note, State};
use octo_asks::Counter;
use octo_house::House;
use octo_keeper::Keeper;
use printer_link::Link;

// One turn of the link at a moment in milliseconds that isn't before the last entry. Its note is entered; so is a change of
// the desk's state that makes no note. Returns whether a line was received.
pub(crate) fn take_turn<C: Counter, L: Link, K: Keeper>(
    house: &mut House,
    counter: &mut C,
    link: &mut L,
    keeper: &mut K,
    moment: u64,
) -> bool
    requires up { (L.state link.old).up ≡ (session_of house.old).up }
    requires answered { (C.state counter.old).given ≡ None }
    requires open { (C.state counter.old).closed ≡ false }

    // The history goes on.
    ensures leads { (files : Option (List ShelfFile))
        → Leads (C.state counter.old).past (C.state counter.new).past
        files files moment house.old house.new }
    ensures counted { Became (C.state counter.old).past (C.state counter.new).past
        (λ _ added. AreOf None added) }
    ensures turns { Became (C.state counter.old).past (C.state counter.new).past
        (λ _ added. TurnsAt moment (L.state link.old).kind.listed (session_of house.old)
        (L.state link.old).calls (L.state link.new).calls (L.state link.old).faults
        (L.state link.new).faults added) }
    ensures temps { Became (C.state counter.old).past (C.state counter.new).past
        (λ _ added. NotesTemps (L.state link.old).kind (L.state link.old).past
        (L.state link.new).past added) }

    // Beside the link's history.
    ensures tied { (numbered : Bool) (before : Option History) (front : Option (List WorldEvent))
        → InStep numbered (L.state link.old).kind before (C.state counter.old).past front
        (L.state link.old).past
        (session_of house.old)
        → InStep numbered (L.state link.old).kind before (C.state counter.new).past front
        (L.state link.new).past
        (session_of house.new) }

    // What stays, and what the keeper has of it.
    ensures kept { KeepsRows (K.state keeper.old).tables (K.state keeper.new).tables
        (tables_of house.old) (tables_of house.new) }
    ensures listed { (files : Option (List ShelfFile)) → IsListed files house.old
        → IsListed files house.new }
    ensures up { (L.state link.new).up ≡ (session_of house.new).up }
    ensures kind { (L.state link.new).kind ≡ (L.state link.old).kind }
    ensures recorded { is_some (L.state link.new).past ≡ is_some (L.state link.old).past }
    ensures given { (C.state counter.new).given ≡ None }
    ensures closed { (C.state counter.new).closed ≡ false }
    ensures place { (C.state counter.new).place ≡ (C.state counter.old).place }

    // Faults, by their counts.
    ensures link { (L.state link.old).faults ≤ (L.state link.new).faults }
    ensures keeper { (K.state keeper.old).faults ≤ (K.state keeper.new).faults }
{
    let was = house.session().desk().state();
    let turned = house.turn(link, keeper, moment);
    note_turn(house, counter, was, moment, turned.note);
    turned.heard
}

// Enters what a turn did, after which the session is this one.
fn note_turn<C: Counter>(
    house: &House,
    counter: &mut C,
    was: State,
    moment: u64,
    note: Option<Note>,
)
    requires open { (C.state counter.old).closed ≡ false }
    ensures notes { Notes moment (session_of house.now).sender.acked was
        (session_of house.now).desk.state note (C.state counter.old).past
        (C.state counter.new).past }
    ensures given { (C.state counter.new).given ≡ (C.state counter.old).given }
    ensures closed { (C.state counter.new).closed ≡ false }
    ensures place { (C.state counter.new).place ≡ (C.state counter.old).place }
{
    match note {
        Some(note) => counter.note(note),
        None => note_change(house, counter, was, moment),
    }
}

// Enters a change of the desk's state that made no note.
fn note_change<C: Counter>(house: &House, counter: &mut C, was: State, moment: u64)
    requires open { (C.state counter.old).closed ≡ false }
    ensures notes { NotesChange moment (session_of house.now).sender.acked was
        (session_of house.now).desk.state (C.state counter.old).past (C.state counter.new).past }
    ensures given { (C.state counter.new).given ≡ (C.state counter.old).given }
    ensures closed { (C.state counter.new).closed ≡ false }
    ensures place { (C.state counter.new).place ≡ (C.state counter.old).place }
{
    let now = house.session().desk().state();
    if same(now, was) {
        return;
    }
    counter.note(quiet_note(house, moment));
}

// Whether two states are the same: what `==` says of them, as clauses.
fn same(now: State, was: State) -> bool
    ensures same { result ≡ true → now ≡ was }
    ensures other { result ≡ false → now ≡ was → ⊥ }
{
    now == was
}

// A note that says only that the desk has changed.
fn quiet_note(house: &House, moment: u64) -> Note
    ensures { IsQuiet moment (session_of house.now).sender.acked result }
{
    Note {
        moment,
        acked: house.session().acked(),
        issued: ArrayVec::new(),
        temps: None,
        fact: LinkFact::Quiet,
    }
}
