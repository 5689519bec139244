//! What the log gets of a host's history.
ghost use Rattle.std.specs.Prelude.{◌≡◌, false, None};

use super::asks::add;
use arrayvec::ArrayVec;
use byte_text::bounded_text;
use job_desk::{Issued, LinkFact, Note, SessionEnd, Tag};
use octo_asks::{Answer, AskList, Counter, MemoryCounter, Next, Request};
use octo_log_history::LoggedCounter;
use octo_outside::{CallList, MemorySink};
use std::alloc::Global;
use std::process::Abort;
use test_makers::ROOT;

type Logged = LoggedCounter<MemoryCounter, MemorySink>;

// A counter with these asks, and a log that doesn't fail.
fn new_logged(rt: &impl Abort, alloc: Global, asks: AskList) -> Logged
    ensures given { result.counter.given ≡ None }
    ensures open { result.counter.closed ≡ false }
{
    let counter = MemoryCounter::new(alloc, asks).expect(rt, "no memory");
    LoggedCounter::new(counter, MemorySink::new(alloc, CallList::new(alloc)))
}

// Answers the next ask.
fn answer(rt: &impl Abort, counter: &mut Logged, answer: Answer)
    requires given { counter.old.counter.given ≡ None }
    requires open { counter.old.counter.closed ≡ false }
    ensures given { counter.new.counter.given ≡ None }
    ensures open { counter.new.counter.closed ≡ false }
{
    match counter.next() {
        Next::Asked { worker, .. } => counter.answer(worker, 5, answer),
        Next::Nothing => panic!(rt; "no ask"),
    }
}

// A note with this line and this fact.
fn note(rt: &impl Abort, text: &[u8], fact: LinkFact) -> Note {
    let mut issued = ArrayVec::new();
    let line = Issued {
        text: bounded_text(&text[..text.len().min(20)]),
        tag: Tag::Manual,
    };
    assert!(rt; issued.try_push(line).is_ok());
    Note {
        moment: 5,
        acked: 0,
        issued,
        temps: None,
        fact,
    }
}

// A pause, which is asked twice, and then a toggle; a toggle that is refused, and one that pauses.
#[test]
fn logged_pauses(rt: HostRuntime) {
    let alloc = rt.alloc();
    let mut asks = AskList::new(alloc);
    add(&rt, alloc, &mut asks, ROOT, Request::Pause);
    add(&rt, alloc, &mut asks, ROOT, Request::Pause);
    add(&rt, alloc, &mut asks, ROOT, Request::Toggle);
    add(&rt, alloc, &mut asks, ROOT, Request::Toggle);
    add(&rt, alloc, &mut asks, ROOT, Request::Toggle);
    let mut counter = new_logged(&rt, alloc, asks);
    answer(&rt, &mut counter, Answer::Accepted);
    answer(&rt, &mut counter, Answer::Accepted);
    answer(&rt, &mut counter, Answer::Accepted);
    answer(&rt, &mut counter, Answer::NoMemory);
    answer(&rt, &mut counter, Answer::Accepted);
    let wanted: &[u8] = b"print: paused\nprint: resumed\nprint: paused\n";
    assert!(rt; counter.log().written() == Some(wanted));
}

// A paused print is cancelled, and the next one is resumed, which does nothing: no line says that it goes on.
#[test]
fn logged_cancel(rt: HostRuntime) {
    let alloc = rt.alloc();
    let mut asks = AskList::new(alloc);
    add(&rt, alloc, &mut asks, ROOT, Request::Pause);
    add(&rt, alloc, &mut asks, ROOT, Request::Cancel);
    add(&rt, alloc, &mut asks, ROOT, Request::Resume);
    let mut counter = new_logged(&rt, alloc, asks);
    answer(&rt, &mut counter, Answer::Accepted);
    answer(&rt, &mut counter, Answer::Accepted);
    answer(&rt, &mut counter, Answer::Accepted);
    assert!(rt; counter.log().written() == Some(b"print: paused\n"));
}

// A stop, a link that fails, and sessions that end by their own rules.
#[test]
fn logged_ends(rt: HostRuntime) {
    let alloc = rt.alloc();
    let mut counter = new_logged(&rt, alloc, AskList::new(alloc));
    counter.note(note(&rt, b"M112", LinkFact::Quiet));
    counter.note(note(&rt, b"M1120", LinkFact::Failed));
    counter.note(note(
        &rt,
        b"G28",
        LinkFact::Ended(SessionEnd::NoAnswer { silent: 3 }),
    ));
    counter.note(note(
        &rt,
        b"M112",
        LinkFact::Ended(SessionEnd::LostOk { limits: 20 }),
    ));
    let wanted: &[u8] =
        b"printer: stopped by M112\nsession ended: no answer, 3 limits\nprinter: stopped by M112\nsession ended: an ok is missing, 20 limits\n";
    assert!(rt; counter.log().written() == Some(wanted));
}
