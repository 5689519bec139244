//! Turns of the link, and the ends of prints that they bring.
ghost use Rattle.std.specs.Prelude.{◌≡◌, ◌⊎◌, true, None};
ghost use Rattle.job_desk.specs.declared.link_fact.LinkFact.TheVariants as fact;
ghost use Rattle.printer_link.specs.Link.{RoseBy};
ghost use Rattle.octo_session.specs.Data.{doing, is_calling};
ghost use Rattle.octo_session.specs.declared.found.Doing.TheVariants as now_doing;
ghost use Rattle.octo_session.specs.Turn.{fact_of, IsTurn, IsTurnByNote};
ghost use Rattle.octo_house_tables.specs.Kept.{KeepsRows};
ghost use Rattle.octo_outside.specs.Recorded.{Counts};
ghost use Rattle.std.specs.Option.{option_or};
ghost use Rattle.octo_house_tables.specs.Data.{due_of, is_unwritten_by_fault};
ghost use Rattle.octo_house.specs.Turned.{Turns, known_temps};

use super::House;
use job_desk::Note;
use marlin_reply::Temps;
use octo_house_tables::temps_after;
use octo_keeper::Keeper;
use octo_session::Turned;
use printer_link::Link;

// The temperatures that are known after a turn with this note, or without one.
fn temps_after_turn(note: &Option<Note>, kept: Temps) -> Temps
    ensures { result ≡ known_temps note.now kept }
{
    match note {
        Some(note) => temps_after(note, kept),
        None => kept,
    }
}

impl House {
    /// One turn of the session over its link at a moment in milliseconds that isn't before the last one. If a print ends,
    /// its record says so, and the keeper writes that end; if it can't, each later turn tries again. It takes no memory,
    /// the keeper aside.
    pub fn turn<L: Link, K: Keeper>(&mut self, link: &mut L, keeper: &mut K, moment: u64) -> Turned
        requires { (L.state link.old).up ≡ self.old.desk.session.up }

        // The session takes a turn of its own.
        ensures turn { IsTurn moment (L.state link.old).kind (L.state link.old).past
            (L.state link.new).past
            (L.state link.old).calls (L.state link.new).calls
            self.old.desk.session self.new.desk.session result }
        ensures by_note { IsTurnByNote moment (L.state link.old).kind
            self.old.desk.session self.new.desk.session result }
        ensures link { (L.state link.new).up ≡ self.new.desk.session.up }
        ensures kind { (L.state link.new).kind ≡ (L.state link.old).kind }

        // What the host knows then, and what the keeper keeps.
        ensures knows { Turns moment result.note result.ending self.old self.new }
        ensures kept { KeepsRows (K.state keeper.old).tables (K.state keeper.new).tables
            self.old.tables self.new.tables }
        ensures names { self.new.names.items ≡ self.old.names.items }
        ensures due { (due_of self.new.tables ≡ None)
            ⊎ (due_of self.new.tables ≡ option_or result.ending (due_of self.old.tables)) }

        // Counts: of the link's calls and faults, and of the keeper's faults if an end isn't written.
        ensures calls { is_calling (doing self.old.desk.session) ≡ true
            → RoseBy 1 (L.state link.old).calls (L.state link.new).calls }
        ensures counts { Counts (fact_of result.note ≡ fact.Failed)
            (L.state link.old).faults (L.state link.new).faults }
        ensures unwritten { Counts (is_unwritten_by_fault self.new.tables.unwritten ≡ true)
            (K.state keeper.old).faults (K.state keeper.new).faults }
    {
        let turned = self.desk.session.turn(link, moment);
        self.desk.temps = temps_after_turn(&turned.note, self.desk.temps);
        self.tables.note_end(keeper, turned.ending);
        turned
    }
}
