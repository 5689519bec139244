//! A bell that is rung before its ears wait.
use octo_outside::Clock;
use octo_outside_bell::{Bell, Ear, EarClock, bell_and_ear};
use std::net::{TcpListener, TcpStream};
use std::os::fd::AsRawFd;
use std::test::Fail;
use std::time::{Duration, Instant};

// Whether a wait of 30 seconds ends within 10.
fn ends_soon(rt: &HostRuntime, ear: &mut Ear) -> Result<bool, Fail> {
    let start = Instant::now(rt)?;
    ear.wait(30_000);
    Ok(start.elapsed(rt)? < Duration::from_secs(10))
}

// Whether a wait of 20 milliseconds lasts for all of them.
fn lasts(rt: &HostRuntime, ear: &mut Ear) -> Result<bool, Fail> {
    let start = Instant::now(rt)?;
    ear.wait(20);
    Ok(start.elapsed(rt)? >= Duration::from_millis(19))
}

// Each ring ends one wait, of either ear, and no more.
#[test]
fn rings(rt: HostRuntime) -> Result<(), Fail> {
    let (mut first, mut ear) = bell_and_ear(&rt, rt.alloc())?;
    let mut second = first.copy();
    let mut other = ear.copy();
    first.ring();
    second.ring();
    assert!(rt; ends_soon(&rt, &mut ear)?);
    assert!(rt; ends_soon(&rt, &mut other)?);
    assert!(rt; lasts(&rt, &mut ear)?);
    Ok(())
}

// A ring ends a wait beside a descriptor that has no input, which leaves the ring. The next wait for a ring alone doesn't wait and takes it.
#[test]
fn rings_beside(rt: HostRuntime) -> Result<(), Fail> {
    let (mut bell, mut ear) = bell_and_ear(&rt, rt.alloc())?;
    let listener = TcpListener::bind(&rt, "127.0.0.1:0")?;
    let other = ear.copy();
    bell.ring();
    let start = Instant::now(&rt)?;
    assert!(rt; !other.wait_beside(listener.as_raw_fd(), 30_000));
    assert!(rt; !other.wait_beside(listener.as_raw_fd(), 30_000));
    assert!(rt; start.elapsed(&rt)? < Duration::from_secs(10));
    assert!(rt; ends_soon(&rt, &mut ear)?);
    assert!(rt; lasts(&rt, &mut ear)?);
    Ok(())
}

// A wait beside a descriptor that has input ends, and says so; a deaf ear waits in the same way.
#[test]
fn input_beside(rt: HostRuntime) -> Result<(), Fail> {
    let (_bell, ear) = bell_and_ear(&rt, rt.alloc())?;
    let listener = TcpListener::bind(&rt, "127.0.0.1:0")?;
    let _peer = TcpStream::connect(&rt, listener.local_addr()?)?;
    let start = Instant::now(&rt)?;
    assert!(rt; ear.wait_beside(listener.as_raw_fd(), 30_000));
    assert!(rt; Ear::deaf().wait_beside(listener.as_raw_fd(), 30_000));
    assert!(rt; start.elapsed(&rt)? < Duration::from_secs(10));
    Ok(())
}

// After a wait beside a descriptor, which no ring ended, the next wait for a ring alone doesn't wait, and the one after it does.
#[test]
fn no_second_wait(rt: HostRuntime) -> Result<(), Fail> {
    let (_bell, mut ear) = bell_and_ear(&rt, rt.alloc())?;
    let listener = TcpListener::bind(&rt, "127.0.0.1:0")?;
    assert!(rt; !ear.copy().wait_beside(listener.as_raw_fd(), 1));
    assert!(rt; ends_soon(&rt, &mut ear)?);
    assert!(rt; lasts(&rt, &mut ear)?);
    Ok(())
}

// No ring waits, also if nobody takes the rings, or nobody can hear them any more.
#[test]
fn unheard_rings(rt: HostRuntime) -> Result<(), Fail> {
    let (mut bell, mut ear) = bell_and_ear(&rt, rt.alloc())?;
    for _ in 0..100_000 {
        bell.ring();
    }
    assert!(rt; ends_soon(&rt, &mut ear)?);
    drop(ear);
    bell.ring();
    bell.copy().ring();
    Ok(())
}

// Nobody hears a silent bell, and a deaf ear waits each time.
#[test]
fn silence(rt: HostRuntime) -> Result<(), Fail> {
    Bell::silent().ring();
    let mut ear = Ear::deaf();
    let listener = TcpListener::bind(&rt, "127.0.0.1:0")?;
    assert!(rt; ear.is_deaf());
    assert!(rt; !ear.wait_beside(listener.as_raw_fd(), 1));
    assert!(rt; lasts(&rt, &mut ear)?);
    assert!(rt; ear.copy().is_deaf());
    Ok(())
}

// A rest goes on for about 10 milliseconds without a ring, and the clock doesn't go back meanwhile.
#[test]
fn rests(rt: HostRuntime) -> Result<(), Fail> {
    let (mut bell, ear) = bell_and_ear(&rt, rt.alloc())?;
    let mut clock = EarClock::new(rt, ear);
    bell.ring();
    clock.rest();
    let before = clock.now();
    clock.rest();
    assert!(rt; clock.now() >= before.saturating_add(9));
    Ok(())
}

// With a deaf ear each rest goes on for a millisecond.
#[test]
fn deaf_rests(rt: HostRuntime) -> Result<(), Fail> {
    let mut clock = EarClock::new(rt, Ear::deaf());
    let before = clock.now();
    for _ in 0..20 {
        clock.rest();
    }
    assert!(rt; clock.now() >= before.saturating_add(19));
    Ok(())
}
