//! The session of a printer of a floor, with what was done with it.
ghost use Rattle.std.specs.Prelude.{◌≡◌, ◌<◌, false, true, List, [], ◌∷◌, Option, None, Some, IfOk};
ghost use Rattle.octo_outside.specs.Recorded.{Counts};
ghost use Rattle.gcode_lines.specs.Job.{texts_of};
ghost use Rattle.job_desk.specs.Endings.{IsActive};
ghost use Rattle.job_desk.specs.Data.{named_file};
ghost use Rattle.job_desk.specs.Table.{connect_at, printing};
ghost use Rattle.job_desk.specs.declared.link_fact.LinkFact.TheVariants as fact;
ghost use Rattle.job_desk.specs.declared.state.State.TheVariants as state;
ghost use Rattle.printer_link.specs.Link.{LinkKind, RoseBy};
ghost use Rattle.printer_link.specs.Suits.{SuitsAs};
ghost use Rattle.printer_model.specs.declared.event.WorldEvent.{WorldEvent};
ghost use Rattle.octo_session.specs.Data.{doing, is_calling};
ghost use Rattle.octo_session.specs.Turn.{fact_of, IsTurn, IsTurnByNote};
ghost use Rattle.octo_session.specs.declared.found.Doing.TheVariants as now_doing;
ghost use Rattle.temp_rules.specs.Hot.{first_hot_of};
ghost use Rattle.octo_floor_bay.specs.Bay.{IsBay, IsNewSession, AddsTurn, RunsOn, EndsBy, after_deed, run_in};
ghost use Rattle.octo_floor_bay.specs.Prints.{IsInStep};
ghost use Rattle.octo_floor_bay.specs.declared.deed.Deed.TheVariants as deed;

use crate::Deed;
use crate::recording::{add_start, add_turn};
use crate::table::EventLog;
use byte_text::Name;
use gcode_lines::Job;
use job_desk::Refusal;
use octo_session::{Session, Turned};
use printer_link::Link;
use std::alloc::{AllocError, Global};
use std::marker::Model;

/// A printer of a floor: its session, and what was done with it. The deeds are kept for proofs alone, and take no memory.
#[derive(Drop)]
pub struct Bay {
    session: Session,
    deeds: EventLog<Deed>,
}

impl Model for Bay {
    ghost use Rattle.octo_floor_bay.specs.Bay.{BayData};

    ghost Value = { BayData };

    ghost use Rattle.octo_floor_bay.specs.Fields.{bay_of, IsKept};

    ghost view = { bay_of };

    ghost invariant = { IsKept };
}

impl Bay {
    /// A bay of a new session. Fails only if out of memory.
    pub fn new(alloc: Global, session: Session) -> Result<Bay, AllocError>
        requires { IsNewSession session }
        ensures bay { IfOk result (λ bay. bay ≡ record { session = session; deeds = [] }) }
        ensures tied { IfOk result (λ bay. (kind : LinkKind) (front : Option (List WorldEvent))
            → SuitsAs session.sender.numbered front kind.oks → IsInStep kind front front bay) }
    {
        let deeds = EventLog::new(alloc)?;
        Ok(Bay { session, deeds })
    }

    /// The session.
    pub fn session(&self) -> &Session
        ensures session { result.now ≡ self.now.session }
        ensures bay { IsBay self.now }
    {
        &self.session
    }

    /// One turn of the session, as `Session::turn`. Its note is a deed; so is a change of the desk's state that makes no note.
    pub fn turn<L: Link>(&mut self, link: &mut L, moment: u64) -> Turned
        requires { (L.state link.old).up ≡ self.old.session.up }

        // What the session says of its turn.
        ensures turn { IsTurn moment (L.state link.old).kind (L.state link.old).past
            (L.state link.new).past
            (L.state link.old).calls (L.state link.new).calls self.old.session self.new.session
            result }
        ensures by_note { IsTurnByNote moment (L.state link.old).kind self.old.session
            self.new.session result }
        ensures active { IsActive self.old.session.desk }

        // The deed that was added.
        ensures added { AddsTurn moment self.new.session.sender.acked self.old.session.desk.state
            self.new.session.desk.state result.note self.old.deeds self.new.deeds }
        ensures ends { EndsBy result.ending (run_in self.old) (run_in self.new) }
        ensures bay { IsBay self.new }

        // Beside the link's history.
        ensures tied { (front : Option (List WorldEvent))
            → IsInStep (L.state link.old).kind front (L.state link.old).past self.old
            → IsInStep (L.state link.old).kind front (L.state link.new).past self.new }

        // The link: whether it is up, what stays, and its counts of faults and calls.
        ensures link { (L.state link.new).up ≡ self.new.session.up }
        ensures kind { (L.state link.new).kind ≡ (L.state link.old).kind }
        ensures counts { Counts (fact_of result.note ≡ fact.Failed)
            (L.state link.old).faults (L.state link.new).faults }
        ensures calls { is_calling (doing self.old.session) ≡ true
            → RoseBy 1 (L.state link.old).calls (L.state link.new).calls }
    {
        let was = self.session.desk().state();
        let turned = self.session.turn(link, moment);
        add_turn(&self.session, &mut self.deeds, was, moment, &turned.note);
        turned
    }

    /// Begins to connect to a port. Refused as WrongState except in Offline and Fault.
    pub fn connect(&mut self, port: &Name) -> Result<(), Refusal>
        ensures answer { result
            ≡ (connect_at self.old.session.desk.state port.now self.old.session.desk).0 }
        ensures after { self.new ≡ after_deed (deed.Connected port.now) self.old }
        ensures run { RunsOn [] [] (run_in self.old) (run_in self.new) }
        ensures bay { IsBay self.new }
        ensures tied { (kind : LinkKind) (front past : Option (List WorldEvent))
            → IsInStep kind front past self.old → IsInStep kind front past self.new }
    {
        self.deeds.add(&Deed::Connected { port: port.copy() });
        self.session.connect(port)
    }

    /// Ends the connection, as `Session::disconnect`.
    pub fn disconnect(&mut self)
        ensures after { self.new ≡ after_deed deed.Disconnected self.old }
        ensures run { RunsOn [] [] (run_in self.old) (run_in self.new) }
        ensures at_once { self.old.session.desk.state ≡ state.Closing
            → self.old.session.desk.stopped ≡ false
            → doing self.new.session ≡ now_doing.HangingUp }
        ensures bay { IsBay self.new }
        ensures tied { (kind : LinkKind) (front past : Option (List WorldEvent))
            → IsInStep kind front past self.old → IsInStep kind front past self.new }
    {
        self.deeds.add(&Deed::Disconnected);
        self.session.disconnect();
    }

    /// Starts the print of this number, of a file with these commands.
    pub fn start(&mut self, file: &Name, job: Job, print: u32)
        requires operational { self.old.session.desk.state ≡ state.Operational }
        requires number { self.old.session.desk.greatest < print }
        requires cool { first_hot_of self.old.session.desk.limits job.commands ≡ None }
        ensures after { self.new ≡ after_deed (deed.Started file.now job print) self.old }
        ensures desk { self.new.session.desk ≡ printing print
            (record self.old.session.desk { file = Some (named_file file.now job) }) }
        ensures run { RunsOn ((print, texts_of job) ∷ []) [] (run_in self.old) (run_in self.new) }
        ensures bay { IsBay self.new }
        ensures tied { (kind : LinkKind) (front past : Option (List WorldEvent))
            → IsInStep kind front past self.old → IsInStep kind front past self.new }
    {
        let job = add_start(&mut self.deeds, file, job, print);
        let _ = self.session.select(file, job);
        let _ = self.session.start(print);
    }
}
