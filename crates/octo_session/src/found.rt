//! What a turn does, finds and returns.
ghost use Rattle.std.specs.Prelude.{◌≡◌, ◌↔◌, ℕ, List, [], map, None, IfSome};
ghost use Rattle.job_desk.specs.Issued.{line_of};
ghost use Rattle.octo_session.specs.Found.{got_of, is_whole, temps_kept};
ghost use Rattle.octo_session.specs.Turn.{fact_of, note_lines, IsKeptIn, IsStill};

use arrayvec::ArrayVec;
use job_desk::{Ending, Issued, LinkFact, Note};
use marlin_reply::Temps;

/// What a turn does.
#[derive(Clone, Copy, Debug, PartialEq, Eq)]
pub enum Doing {
    /// It dials the desk's port.
    Dialling,
    /// It hangs up.
    HangingUp,
    /// It receives, and then sends.
    UsingLink,
    /// Nothing.
    Resting,
}

/// What a turn received.
#[derive(Clone, Copy)]
pub enum Received {
    /// It asked for nothing.
    Unasked,
    /// `recv` failed.
    Lost,
    /// No line had arrived.
    Nothing,
    /// A line with these temperatures.
    Line { temps: Option<Temps> },
}

impl Received {
    fn is_line(&self) -> bool
        ensures { (bytes : List ℕ) → result ≡ is_whole (got_of self.now bytes) }
    {
        matches!(self, Received::Line { .. })
    }

    fn temps(&self) -> Option<Temps>
        ensures { result ≡ temps_kept self.now }
    {
        match self {
            Received::Line { temps } => *temps,
            _ => None,
        }
    }
}

/// What a turn found, and the lines that it issued.
#[derive(Drop)]
pub struct Found {
    pub fact: LinkFact,
    pub issued: ArrayVec<Issued, 16>,
    pub received: Received,
    pub ending: Option<Ending>,
}

impl Found {
    /// A turn that issued nothing.
    pub fn silent(fact: LinkFact, received: Received, ending: Option<Ending>) -> Found
        ensures fact { result.fact ≡ fact }
        ensures issued { result.issued.items ≡ [] }
        ensures received { result.received ≡ received }
        ensures ending { result.ending ≡ ending }
    {
        Found {
            fact,
            issued: ArrayVec::new(),
            received,
            ending,
        }
    }
}

/// What one turn did: a note if something happened, the print that ended, and whether a line was received.
#[derive(Drop)]
pub struct Turned {
    pub note: Option<Note>,
    pub ending: Option<Ending>,
    pub heard: bool,
}

/// What a turn at this moment returns, with a note if anything happened; `before` lines were acknowledged before it.
pub fn turned_of(found: Found, moment: u64, before: u32, acked: u32) -> Turned
    ensures none { (result.note ≡ None) ↔ IsStill found before acked }
    ensures some { IfSome result.note (λ note. IsKeptIn found moment acked note) }
    ensures fact { fact_of result.note ≡ found.fact }
    ensures lines { note_lines result.note ≡ map line_of found.issued.items }
    ensures ending { result.ending ≡ found.ending }
    ensures heard { (bytes : List ℕ) → result.heard ≡ is_whole (got_of found.received bytes) }
{
    let heard = found.received.is_line();
    let temps = found.received.temps();
    let Found {
        fact,
        issued,
        ending,
        ..
    } = found;
    if issued.is_empty() && acked == before && temps.is_none() && fact == LinkFact::Quiet {
        return Turned {
            note: None,
            ending,
            heard,
        };
    }
    let note = Note {
        moment,
        acked,
        issued,
        temps,
        fact,
    };
    Turned {
        note: Some(note),
        ending,
        heard,
    }
}
