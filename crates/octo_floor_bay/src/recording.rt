//! How a turn is added to the record of what a printer did.
ghost use Rattle.std.specs.Prelude.{◌≡◌, ◌++◌, [], ◌∷◌, false, true};
ghost use Rattle.octo_floor_bay.specs.Bay.{AddsChange, AddsTurn, IsQuietNote};
ghost use Rattle.octo_floor_bay.specs.declared.deed.Deed.TheVariants as deed;

use crate::Deed;
use crate::table::EventLog;
use arrayvec::ArrayVec;
use byte_text::{Name, bounded_text};
use gcode_lines::Job;
use job_desk::{Issued, LinkFact, Note, State};
use octo_session::Session;

// A copy of a line.
fn copy_line(line: &Issued) -> Issued
    ensures { result ≡ line.now }
{
    Issued {
        text: bounded_text(line.text.as_slice()),
        tag: line.tag,
    }
}

// A copy of the lines of a note. They are few, and the room behind them isn't copied.
fn copy_lines(lines: &ArrayVec<Issued, 16>) -> ArrayVec<Issued, 16>
    ensures { result ≡ lines.now }
{
    let mut copy = ArrayVec::new();
    for line in lines.as_slice() {
        copy.push(copy_line(line));
    }
    copy
}

// Adds a copy of a note.
fn add_note(deeds: &mut EventLog<Deed>, note: &Note)
    ensures { deeds.new ≡ deeds.old ++ deed.Turned note.now ∷ [] }
{
    deeds.add(&Deed::Turned {
        note: Note {
            moment: note.moment,
            acked: note.acked,
            issued: copy_lines(&note.issued),
            temps: note.temps,
            fact: note.fact,
        },
    });
}

// Whether two states are the same: what `==` says of them, as clauses.
fn same(now: State, was: State) -> bool
    ensures same { result ≡ true → now ≡ was }
    ensures other { result ≡ false → now ≡ was → ⊥ }
{
    now == was
}

// A note that says only that the desk has changed.
fn quiet_note(session: &Session, moment: u64) -> Note
    ensures { IsQuietNote moment session.now.sender.acked result }
{
    Note {
        moment,
        acked: session.acked(),
        issued: ArrayVec::new(),
        temps: None,
        fact: LinkFact::Quiet,
    }
}

// Adds a note of a change of the desk's state that made none.
fn add_change(session: &Session, deeds: &mut EventLog<Deed>, was: State, moment: u64)
    ensures { AddsChange moment session.now.sender.acked was session.now.desk.state
        deeds.old deeds.new }
{
    if same(session.desk().state(), was) {
        return;
    }
    let note = quiet_note(session, moment);
    deeds.add(&Deed::Turned { note });
}

// Adds what a turn did that left this session.
pub(crate) fn add_turn(
    session: &Session,
    deeds: &mut EventLog<Deed>,
    was: State,
    moment: u64,
    note: &Option<Note>,
)
    ensures { AddsTurn moment session.now.sender.acked was session.now.desk.state note.now
        deeds.old deeds.new }
{
    match note {
        Some(note) => add_note(deeds, note),
        None => add_change(session, deeds, was, moment),
    }
}

// Adds the start of a print, and hands its commands back.
pub(crate) fn add_start(deeds: &mut EventLog<Deed>, file: &Name, job: Job, print: u32) -> Job
    ensures same { result ≡ job }
    ensures added { deeds.new ≡ deeds.old ++ deed.Started file.now job print ∷ [] }
{
    let deed = Deed::Started {
        file: file.copy(),
        job,
        print,
    };
    deeds.add(&deed);
    match deed {
        Deed::Started { job, .. } => job,
        _ => unreachable!(),
    }
}
