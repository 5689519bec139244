//! Workers at their doors, beside other work.
ghost use Rattle.std.specs.Prelude.{◌≡◌};
ghost use Rattle.std.specs.Thread.{IsSend, IsSync};
ghost use Rattle.octo_serve.specs.Around.{door_states};
ghost use Rattle.octo_serve.specs.Doors.{WorksAt, AllWork, worker_state};

use crate::stagers::Stagers;
use crate::workers::Workers;
use octo_api_routes::Routes;
use octo_api_worker::{Terms, worker};
use octo_asks::Asker;
use octo_keeper::Stager;
use octo_outside_doors::{Door, Doors};
use std::alloc::Global;
use std::sync::Wait;
use std::thread::{Threads, join_mut};

// A worker at its door.
fn work_at<R: Wait, D: Door, A: Asker, P: Stager>(
    rt: &R,
    alloc: Global,
    routes: &Routes,
    door: &mut D,
    asker: &mut A,
    stager: &mut P,
    terms: &Terms,
) -> bool
    ensures { WorksAt terms.now (D.state door.old)
        (D.state door.new)
        (A.state asker.old)
        (A.state asker.new) result }
{
    worker(rt, alloc, routes, door, asker, stager, terms)
}

// A worker at its door in a thread of its own, and other work in this one. Returns whether the
// door held, and what the work returned.
fn one_beside<
    R: Threads + Wait + Sync,
    D: Door + Send,
    A: Asker + Send,
    P: Stager + Send,
    G: FnMut() -> B,
    B,
>(
    rt: &R,
    alloc: Global,
    routes: &Routes,
    door: &mut D,
    asker: &mut A,
    stager: &mut P,
    terms: &Terms,
    work: &mut G,
) -> (bool, B)
    requires { G.pre work.old }
    ensures works { WorksAt terms.now (D.state door.old)
        (D.state door.new)
        (A.state asker.old)
        (A.state asker.new) result.0 }
    ensures work { G.step work.old result.1 work.new }
{
    join_mut(
        rt,
        &mut || work_at(rt, alloc, routes, door, asker, stager, terms),
        work,
    )
}

// Two workers at their doors, and other work in this thread. Returns whether both doors held.
fn two_beside<
    R: Threads + Wait + Sync,
    D: Door + Send,
    A: Asker + Send,
    P: Stager + Send,
    G: FnMut() -> B,
    B,
>(
    rt: &R,
    alloc: Global,
    routes: &Routes,
    one: &mut D,
    two: &mut D,
    first: &mut A,
    second: &mut A,
    first_stager: &mut P,
    second_stager: &mut P,
    terms: &Terms,
    work: &mut G,
) -> (bool, (bool, B))
    requires { G.pre work.old }
    ensures first { WorksAt terms.now (D.state one.old)
        (D.state one.new)
        (A.state first.old)
        (A.state first.new) result.0 }
    ensures second { WorksAt terms.now (D.state two.old)
        (D.state two.new)
        (A.state second.old)
        (A.state second.new) result.1.0 }
    ensures work { G.step work.old result.1.1 work.new }
{
    one_beside(
        rt,
        alloc,
        routes,
        one,
        first,
        first_stager,
        terms,
        &mut || -> (bool, B)
            requires { IsSync R.row × IsSend D.row × IsSend D.Conn.row × IsSend A.row
                × IsSend P.row × G.pre work.now }
            ensures second { WorksAt terms.entry.now
                (D.state two.entry.now)
                (D.state two.exit.now)
                (A.state second.entry.now)
                (A.state second.exit.now) result.0 }
            ensures work { G.step work.entry.now result.1 work.exit.now }
        { one_beside(rt, alloc, routes, two, second, second_stager, terms, work) },
    )
}

// Four workers at four doors, each in a thread of its own and with a stager of its own, and other work in this one. The workers
// share a table of routes and the terms of connections. Returns whether all doors held, and what the work returned.
pub(crate) fn four_beside<
    R: Threads + Wait + Send + Sync,
    D: Door + Send + Drop,
    P: Stager + Send + Drop,
    G: FnMut() -> B,
    B,
>(
    rt: &R,
    alloc: Global,
    routes: &Routes,
    doors: &mut Doors<D>,
    workers: &mut Workers<R>,
    stagers: &mut Stagers<P>,
    terms: &Terms,
    work: &mut G,
) -> (bool, B)
    requires { G.pre work.old }
    ensures works { AllWork terms.now
        (door_states (D.state) doors.old)
        (door_states (D.state) doors.new)
        workers.old workers.new result.0 }
    ensures work { G.step work.old result.1 work.new }
{
    let Doors { a, b, c, d } = doors;
    let Workers {
        a: first,
        b: second,
        c: third,
        d: fourth,
    } = workers;
    let Stagers {
        a: first_stager,
        b: second_stager,
        c: third_stager,
        d: fourth_stager,
    } = stagers;
    let (a_held, (b_held, (c_held, (d_held, done)))) = two_beside(
        rt,
        alloc,
        routes,
        a,
        b,
        first,
        second,
        first_stager,
        second_stager,
        terms,
        &mut || -> (bool, (bool, B))
            requires { IsSync R.row × IsSend D.row × IsSend D.Conn.row × IsSend R.row
                × IsSend P.row × G.pre work.now }
            ensures third { WorksAt terms.entry.now
                (D.state c.entry.now)
                (D.state c.exit.now)
                (worker_state third.entry.now) (worker_state third.exit.now) result.0 }
            ensures fourth { WorksAt terms.entry.now
                (D.state d.entry.now)
                (D.state d.exit.now)
                (worker_state fourth.entry.now) (worker_state fourth.exit.now) result.1.0 }
            ensures work { G.step work.entry.now result.1.1 work.exit.now }
        {
            two_beside(
                rt,
                alloc,
                routes,
                c,
                d,
                third,
                fourth,
                third_stager,
                fourth_stager,
                terms,
                work,
            )
        },
    );
    (a_held && b_held && c_held && d_held, done)
}
