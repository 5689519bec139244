//! The ends at which asks are handed over, with workers in threads of their own.
ghost use Rattle.std.specs.Prelude.{◌≡◌, false, None};
ghost use Rattle.std.specs.Thread.{IsSend, IsSync};
ghost use Rattle.octo_serve.specs.Ends.{house_place, worker_place};

use octo_asks::{Answer, Ask, Asker, Closed, Counter, Next, Request};
use octo_outside_bell::{Bell, Ear, bell_and_ear};
use octo_serve::{HouseEnd, WorkerEnd, Workers, ends};
use std::alloc::Global;
use std::process::Abort;
use std::sync::Wait;
use std::test::Fail;
use std::thread::{Threads, join_mut, yield_now};
use std::time::{Clock, Duration, Instant};

fn answer_to(request: &Request) -> Answer {
    match request {
        Request::Version => Answer::Version,
        _ => Answer::Accepted,
    }
}

// Answers the next ask, if one waits.
fn answer_next(house: &mut HouseEnd, moment: u64) -> bool
    requires { (house.old.view.taken ≡ None) × (house.old.view.closed ≡ false) }
    ensures state { (house.new.view.taken ≡ None) × (house.new.view.closed ≡ false) }
    ensures place { house_place house.new ≡ house_place house.old }
{
    match house.next() {
        Next::Asked { worker, ask } => {
            let answer = answer_to(&ask.request);
            drop(ask);
            house.answer(worker, moment, answer);
            true
        }
        Next::Nothing => false,
    }
}

// Answers this number of asks.
fn answer_all<R: Wait>(rt: &R, house: &mut HouseEnd, asks: u64)
    requires { (house.old.view.taken ≡ None) × (house.old.view.closed ≡ false) }
    ensures state { (house.new.view.taken ≡ None) × (house.new.view.closed ≡ false) }
    ensures place { house_place house.new ≡ house_place house.old }
{
    let mut answered = 0;
    for _ in rt.forever() {
        if answered >= asks {
            return;
        }
        if answer_next(house, answered) {
            answered += 1;
        }
        yield_now();
    }
}

// Asks, if an ask is left.
fn answer_of<R: Wait>(worker: &mut WorkerEnd<R>, ask: &mut Option<Ask>) -> Option<Answer>
    ensures { worker_place worker.new ≡ worker_place worker.old }
{
    match worker.ask(ask.take()?) {
        Ok(answer) => Some(answer),
        Err(Closed) => None,
    }
}

// Two workers ask, each in a thread of its own, while the house answers in a third one.
fn answers_of_both<R: Threads + Wait + Send + Sync>(
    rt: &R,
    a: &mut WorkerEnd<R>,
    d: &mut WorkerEnd<R>,
    house: &mut HouseEnd,
    asks: (Ask, Ask),
) -> (Option<Answer>, Option<Answer>)
    requires { (house.old.view.taken ≡ None) × (house.old.view.closed ≡ false) }
    ensures workers { (worker_place a.new ≡ worker_place a.old)
        × (worker_place d.new ≡ worker_place d.old) }
    ensures state { (house.new.view.taken ≡ None) × (house.new.view.closed ≡ false) }
    ensures place { house_place house.new ≡ house_place house.old }
{
    let (first, second) = asks;
    let (mut first, mut second) = (Some(first), Some(second));
    let (answers, ()) = join_mut(
        rt,
        &mut || -> (Option<Answer>, Option<Answer>)
            requires { IsSync R.row × IsSend R.row }
            ensures { (worker_place a.exit.now ≡ worker_place a.entry.now)
                × (worker_place d.exit.now ≡ worker_place d.entry.now) }
        {
            join_mut(
                rt,
                &mut || -> Option<Answer>
                    ensures { worker_place a.exit.now ≡ worker_place a.entry.now }
                { answer_of(a, &mut first) },
                &mut || -> Option<Answer>
                    ensures { worker_place d.exit.now ≡ worker_place d.entry.now }
                { answer_of(d, &mut second) },
            )
        },
        &mut || -> ()
            requires { (house.now.view.taken ≡ None) × (house.now.view.closed ≡ false) }
            ensures state { (house.exit.now.view.taken ≡ None)
                × (house.exit.now.view.closed ≡ false) }
            ensures place { house_place house.exit.now ≡ house_place house.entry.now }
        { answer_all(rt, house, 2) },
    );
    answers
}

// The only call that takes memory: four ends and the house's, at which nothing has happened.
#[test]
fn ample(rt: HostRuntime) {
    let Ok((mut house, mut workers)) = ends(&rt, rt.alloc(), &Bell::silent()) else {
        panic!(rt; "no memory")
    };
    assert!(&rt; is_nothing(house.next()));
    assert!(&rt; !workers.a.closed());
    drop(house);
    drop(workers);
}

fn is_nothing(next: Next) -> bool {
    let is_nothing = matches!(&next, Next::Nothing);
    drop(next);
    is_nothing
}

fn ask_of(rt: &impl Abort, alloc: Global, request: Request) -> Ask {
    Ask::of(alloc, b"ana-key-0123456789", request).expect(rt, "no memory")
}

// Whether a worker's ask is refused.
fn is_refused<R: Wait>(worker: &mut WorkerEnd<R>, ask: Ask) -> bool
    ensures { worker_place worker.new ≡ worker_place worker.old }
{
    let answer = worker.ask(ask);
    let refused = answer.is_err();
    drop(answer);
    refused
}

// Whether one worker's asks are refused, and both see that the host has ended.
fn see_the_end<R: Wait>(c: &mut WorkerEnd<R>, d: &mut WorkerEnd<R>, asks: (Ask, Ask)) -> bool
    ensures { (worker_place c.new ≡ worker_place c.old)
        × (worker_place d.new ≡ worker_place d.old) }
{
    let (first, second) = asks;
    let first = is_refused(c, first);
    let closed = c.closed() && d.closed();
    let second = is_refused(c, second);
    first && closed && second
}

#[test]
fn a_closed_host_takes_no_ask(rt: HostRuntime) {
    let first = ask_of(&rt, rt.alloc(), Request::Version);
    let second = ask_of(&rt, rt.alloc(), Request::Version);
    let Ok((mut house, mut workers)) = ends(&rt, rt.alloc(), &Bell::silent()) else {
        panic!(rt; "no memory")
    };
    house.close();
    assert!(&rt; see_the_end(&mut workers.c, &mut workers.d, (first, second)));
    drop(house.end(workers));
}

// Whether a version was asked for, and something that is accepted.
fn are_answers(answers: (Option<Answer>, Option<Answer>)) -> bool {
    let (first, second) = answers;
    let are = matches!(&first, Some(Answer::Version)) && matches!(&second, Some(Answer::Accepted));
    drop(first);
    drop(second);
    are
}

#[test]
fn each_worker_gets_its_answer(rt: HostRuntime) -> Result<(), Fail> {
    let (mut house, workers) = ends(&rt, rt.alloc(), &Bell::silent())?;
    let version = ask_of(&rt, rt.alloc(), Request::Version);
    let job = ask_of(&rt, rt.alloc(), Request::GetJob);
    let Workers { mut a, b, c, mut d } = workers;
    let answers = answers_of_both(&rt, &mut a, &mut d, &mut house, (version, job));
    house.close();
    drop(house.end(Workers { a, b, c, d }));
    assert!(&rt; are_answers(answers));
    Ok(())
}

// Whether the bell has rung: a wait of 30 seconds ends within 10.
fn has_rung<R: Clock + Abort>(rt: &R, ear: &mut Ear) -> bool {
    let start = Instant::now(rt).expect(rt, "no time");
    ear.wait(30_000);
    start.elapsed(rt).expect(rt, "no time") < Duration::from_secs(10)
}

// A worker that asks rings, also if the host has ended.
#[test]
fn an_ask_rings(rt: HostRuntime) {
    let ask = ask_of(&rt, rt.alloc(), Request::Version);
    let (bell, mut ear) = bell_and_ear(&rt, rt.alloc()).expect(&rt, "no bell");
    let Ok((mut house, mut workers)) = ends(&rt, rt.alloc(), &bell) else {
        panic!(rt; "no memory")
    };
    house.close();
    assert!(&rt; is_refused(&mut workers.b, ask));
    drop(house.end(workers));
    assert!(&rt; has_rung(&rt, &mut ear));
    drop(bell);
    drop(ear);
}
