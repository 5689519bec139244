//! A counter in memory.
ghost use Rattle.std.specs.Prelude.{◌≡◌, false, None, IfOk};

use super::*;
use arrayvec::ArrayVec;
use job_desk::{LinkFact, Note};
use octo_asks::{Answer, AskList, Counter, Entry, MemoryCounter, Next};

fn add_ask(alloc: Global, asks: &mut AskList, worker: u8, request: Request) -> Result<(), Fail> {
    let ask = Ask::of(alloc, b"ana-key-0123456789", request)?;
    asks.push((worker, ask))?;
    Ok(())
}

// A counter whose workers 2 and 0 ask.
fn two_asks(alloc: Global) -> Result<MemoryCounter, Fail>
    ensures given { IfOk result (λ counter. counter.given ≡ None) }
    ensures open { IfOk result (λ counter. counter.closed ≡ false) }
{
    let mut asks = AskList::new(alloc);
    add_ask(alloc, &mut asks, 2, Request::GetJob)?;
    add_ask(alloc, &mut asks, 0, Request::Leave)?;
    Ok(MemoryCounter::new(alloc, asks)?)
}

fn asks_for_job(ask: Ask) -> bool {
    matches!(&ask.request, Request::GetJob)
}

fn worker_of(next: Next) -> Option<u8> {
    match next {
        Next::Asked { worker, .. } => Some(worker),
        Next::Nothing => None,
    }
}

#[test]
fn ample(rt: HostRuntime) -> Result<(), Fail> {
    let mut counter = two_asks(rt.alloc())?;
    let Next::Asked { worker: 2, ask } = counter.next() else {
        return Err("no ask")?;
    };
    assert!(rt; asks_for_job(ask));
    counter.answer(2, 5, Answer::NoFile);
    assert_eq!(rt; worker_of(counter.next()), Some(0));
    Ok(())
}

fn note() -> Note {
    Note {
        moment: 7,
        acked: 0,
        issued: ArrayVec::new(),
        temps: None,
        fact: LinkFact::Opened,
    }
}

// A counter whose worker 3 asks.
fn one_ask(alloc: Global) -> Result<MemoryCounter, Fail>
    ensures given { IfOk result (λ counter. counter.given ≡ None) }
    ensures open { IfOk result (λ counter. counter.closed ≡ false) }
{
    let mut asks = AskList::new(alloc);
    add_ask(alloc, &mut asks, 3, Request::Leave)?;
    Ok(MemoryCounter::new(alloc, asks)?)
}

#[test]
fn history(rt: HostRuntime) -> Result<(), Fail> {
    let mut counter = one_ask(rt.alloc())?;
    counter.note(note());
    let Next::Asked { worker: 3, .. } = counter.next() else {
        return Err("no ask")?;
    };
    counter.answer(3, 6, Answer::Accepted);
    counter.close();
    assert!(rt;
        matches!(
            counter.entries(),
            Some([
                Entry::Note(_),
                Entry::Call {
                    worker: 3,
                    moment: 6,
                    ..
                },
                Entry::Close
            ])
        )
    );
    Ok(())
}

fn is_own(entry: &Entry) -> bool {
    let Entry::Call {
        worker,
        ask,
        moment,
        ..
    } = entry
    else {
        return false;
    };
    *worker == 4
        && *moment == 6
        && ask.key.is_empty()
        && matches!(&ask.request, Request::AutoConnect)
}

#[test]
fn own_call(rt: HostRuntime) -> Result<(), Fail> {
    let mut counter = one_ask(rt.alloc())?;
    counter.own(6, Answer::Accepted);
    assert!(rt; matches!(counter.entries(), Some([entry]) if is_own(entry)));
    Ok(())
}
