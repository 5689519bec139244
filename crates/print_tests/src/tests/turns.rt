//! The turns of a session.
ghost use Rattle.std.specs.Prelude.{◌≡◌, IfOk};

mod failing;
mod stopping;

use super::makers::{SOUND, Wire, check_first, link_of, plain_session, scripts_of};
use byte_text::Name;
use gcode_lines::read_commands;
use job_desk::{Outcome, Point, State};
use octo_session::{Ending, Issued, LinkFact, Note, Session, Turned};
use printer_link::MemoryLink;
use std::alloc::Global;
use std::process::Abort;
use std::test::Fail;

// What a user asks before a turn.
#[derive(Clone, Copy)]
enum Ask {
    Nothing,
    Pause,
    Resume,
    Disconnect,
}

// What a turn returns.
#[derive(Clone, Copy)]
enum Gives {
    // No note.
    Nothing,
    // A note of this fact, without lines.
    Finds(LinkFact),
    // A quiet note with these lines.
    Issues(&'static [&'static str]),
    // A quiet note without lines, with the print done.
    Done,
    // The link is closed, and the print cancelled; or failed, if the printer was stopped.
    Unplugged,
    Stopped,
    // A failure, with these lines and the print failed.
    Breaks(&'static [&'static str]),
}

// What a user asks before a turn, and what the turn returns.
type Row = (Ask, Gives);

// A dial, the hello and its `ok`.
const OPENING: [Row; 3] = [
    (Ask::Nothing, Gives::Finds(LinkFact::Opened)),
    (Ask::Nothing, Gives::Nothing),
    (Ask::Nothing, Gives::Finds(LinkFact::Ready)),
];

// A print that is paused after its first line, in a window of one line.
const PAUSED: [Row; 5] = [
    (Ask::Nothing, Gives::Issues(&["M107"])),
    (Ask::Pause, Gives::Issues(&["G92 E0"])),
    (Ask::Nothing, Gives::Issues(&["G91"])),
    (Ask::Nothing, Gives::Issues(&[])),
    (Ask::Nothing, Gives::Nothing),
];

// How it goes on.
const RESUMED: [Row; 3] = [
    (Ask::Resume, Gives::Issues(&["G90"])),
    (Ask::Nothing, Gives::Issues(&["G28"])),
    (Ask::Nothing, Gives::Done),
];

// The first disconnect waits for the acknowledgements of the lines that wait, the second doesn't.
const DISCONNECTED_TWICE: [Row; 3] = [
    (Ask::Nothing, Gives::Issues(&["M107"])),
    (Ask::Disconnect, Gives::Issues(&["G92 E0"])),
    (Ask::Disconnect, Gives::Unplugged),
];

impl Gives {
    fn fact(self) -> LinkFact {
        match self {
            Gives::Finds(fact) => fact,
            Gives::Unplugged | Gives::Stopped => LinkFact::Closed,
            Gives::Breaks(_) => LinkFact::Failed,
            _ => LinkFact::Quiet,
        }
    }

    fn texts(self) -> &'static [&'static str] {
        match self {
            Gives::Issues(texts) | Gives::Breaks(texts) => texts,
            _ => &[],
        }
    }

    fn ending(self) -> Option<Ending> {
        let outcome = match self {
            Gives::Done => Outcome::Done,
            Gives::Unplugged => Outcome::Cancelled,
            Gives::Breaks(_) | Gives::Stopped => Outcome::Failed,
            _ => return None,
        };
        Some(Ending { print: 1, outcome })
    }
}

const SCRIPTS: [(Point, &str); 4] = [
    (Point::Started, "M107"),
    (Point::Started, "G92 E0"),
    (Point::Paused, "G91"),
    (Point::Resumed, "G90"),
];

// A link to the port p, of whose calls at most this one fails.
fn link_failing(alloc: Global, call: Option<u64>) -> Result<MemoryLink, Fail> {
    let wire = Wire {
        fails_at: call,
        ..SOUND
    };
    link_of(alloc, &wire)
}

fn connect(rt: &impl Abort, session: &mut Session, port: &str)
    ensures { session.new.desk.greatest ≡ session.old.desk.greatest }
{
    let port = Name::from_text(port).expect(rt, "a long name");
    assert!(rt; session.connect(&port).is_ok());
}

// Selects a file of one command.
fn select(rt: &impl Abort, alloc: Global, session: &mut Session) -> Result<(), Fail>
    ensures { session.new.desk.greatest ≡ session.old.desk.greatest }
{
    let name = Name::of("a.gcode")?;
    let job = read_commands(alloc, b"G28\n")?;
    assert!(rt; session.select(&name, job).is_ok());
    Ok(())
}

// A session that begins to connect to a port, with a file of one command selected.
fn session_to(rt: &impl Abort, alloc: Global, port: &str) -> Result<Session, Fail>
    ensures { IfOk result (λ session. session.desk.greatest ≡ 0) }
{
    let scripts = scripts_of(rt, alloc, &SCRIPTS);
    let mut session = plain_session(alloc, scripts, 1)?;
    connect(rt, &mut session, port);
    select(rt, alloc, &mut session)?;
    Ok(session)
}

fn turn(rt: &impl Abort, session: &mut Session, link: &mut MemoryLink) -> Turned
    ensures { session.new.desk.greatest ≡ session.old.desk.greatest }
{
    assert!(rt; link.is_up() == session.up());
    session.turn(link, 7)
}

fn make_ask(rt: &impl Abort, session: &mut Session, ask: Ask)
    ensures { session.new.desk.greatest ≡ session.old.desk.greatest }
{
    match ask {
        Ask::Nothing => {}
        Ask::Pause => assert!(rt; session.pause().is_ok()),
        Ask::Resume => assert!(rt; session.resume().is_ok()),
        Ask::Disconnect => session.disconnect(),
    }
}

fn check_texts(rt: &impl Abort, lines: &[Issued], texts: &[&str]) {
    assert_eq!(rt; lines.len(), texts.len());
    for (line, text) in lines.iter().zip(texts) {
        assert_eq!(rt; line.text.as_slice(), text.as_bytes());
    }
}

fn check_note(rt: &impl Abort, note: &Note, gives: Gives) {
    assert_eq!(rt; note.fact, gives.fact());
    check_texts(rt, note.issued.as_slice(), gives.texts());
}

fn check_turn(rt: &impl Abort, turned: &Turned, gives: Gives) {
    let is_silent = matches!(gives, Gives::Nothing);
    assert_eq!(rt; turned.note.is_none(), is_silent);
    if let Some(note) = &turned.note {
        check_note(rt, note, gives);
    }
    assert_eq!(rt; turned.ending, gives.ending());
}

fn do_row(rt: &impl Abort, session: &mut Session, link: &mut MemoryLink, row: Row)
    ensures { session.new.desk.greatest ≡ session.old.desk.greatest }
{
    let (ask, gives) = row;
    make_ask(rt, session, ask);
    check_turn(rt, &turn(rt, session, link), gives);
}

fn do_rows(rt: &impl Abort, session: &mut Session, link: &mut MemoryLink, rows: &[Row])
    ensures { session.new.desk.greatest ≡ session.old.desk.greatest }
{
    for row in rows {
        do_row(rt, session, link, *row);
    }
}

// A session that is ready over this link, and whose first print was started.
fn start_session(rt: &impl Abort, alloc: Global, link: &mut MemoryLink) -> Result<Session, Fail> {
    let mut session = session_to(rt, alloc, "p")?;
    do_rows(rt, &mut session, link, &OPENING);
    assert!(rt; session.start(1).is_ok());
    Ok(session)
}

fn check_ran(rt: &impl Abort, link: &MemoryLink) {
    let texts = ["M107", "G92 E0", "G91", "G90", "G28"];
    assert_eq!(rt; check_first(rt, link, &texts), texts.len());
}

fn pauses_and_resumes(rt: &impl Abort, session: &mut Session, link: &mut MemoryLink) {
    do_rows(rt, session, link, &PAUSED);
    assert_eq!(rt; session.desk().state(), State::Paused);
    do_rows(rt, session, link, &RESUMED);
    assert_eq!(rt; session.desk().state(), State::Operational);
}

// Pausing after the first line lets the Started script end, and the Paused script follow.
#[test]
fn pause_and_resume(rt: HostRuntime) -> Result<(), Fail> {
    let mut link = link_failing(rt.alloc(), None)?;
    let mut session = start_session(&rt, rt.alloc(), &mut link)?;
    pauses_and_resumes(&rt, &mut session, &mut link);
    check_ran(&rt, &link);
    Ok(())
}

// A second disconnect closes the link at the next turn, with a line unacknowledged.
#[test]
fn disconnect_twice(rt: HostRuntime) -> Result<(), Fail> {
    let mut link = link_failing(rt.alloc(), None)?;
    let mut session = start_session(&rt, rt.alloc(), &mut link)?;
    do_rows(&rt, &mut session, &mut link, &DISCONNECTED_TWICE);
    assert_eq!(&rt; session.desk().state(), State::Offline);
    assert!(&rt; !link.is_up() && session.acked() == 1);
    Ok(())
}
