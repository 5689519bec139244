//! Puts, copies and limits of a queue.
ghost use Rattle.std.specs.Prelude.{◌≤◌};

use byte_text::Name;
use print_queue::{EntryList, Put, Queue, QueueEntry, QueueRefusal};
use std::alloc::Global;
use std::test::Fail;

// ana's entry of this name: a.gcode in any material.
fn put(queue: &mut Queue, entry: &str, priority: u8) -> Result<Result<Put, QueueRefusal>, Fail>
    requires { priority ≤ 100 }
{
    Ok(queue.put(
        &Name::of("ana")?,
        &Name::of(entry)?,
        &Name::of("a.gcode")?,
        priority,
        1,
        &Name::of("any")?,
    ))
}

// Whether such an entry was added by this put, and its arrival.
fn put_entry(queue: &mut Queue, entry: &str, priority: u8) -> Result<(bool, u32), Fail>
    requires { priority ≤ 100 }
{
    let put = put(queue, entry, priority)?.ok().ok_or("refused")?;
    Ok((put.fresh, put.entry.arrival))
}

// How many entries ana has, and how many ben.
fn counts(queue: &Queue) -> Result<(usize, usize), Fail> {
    Ok((
        queue.own(Some(&Name::of("ana")?))?.as_slice().len(),
        queue.own(Some(&Name::of("ben")?))?.as_slice().len(),
    ))
}

#[test]
fn an_equal_put_is_answered_with_the_kept_entry(rt: HostRuntime) -> Result<(), Fail> {
    let mut queue = Queue::new(rt.alloc());
    for fresh in [true, false] {
        assert_eq!(rt; put_entry(&mut queue, "job-1", 5)?, (fresh, 1));
    }
    assert_eq!(rt; counts(&queue)?, (1, 0));
    Ok(())
}

#[test]
fn another_put_of_a_name_is_answered_with_the_kept_entry(rt: HostRuntime) -> Result<(), Fail> {
    let mut queue = Queue::new(rt.alloc());
    put_entry(&mut queue, "job-1", 5)?;
    let Err(QueueRefusal::NameTaken { kept }) = put(&mut queue, "job-1", 6)? else {
        return Err(Fail::from("taken"));
    };
    assert_eq!(rt; kept.priority, 5);
    assert_eq!(rt; counts(&queue)?, (1, 0));
    Ok(())
}

#[test]
fn the_65th_entry_of_a_user_is_refused(rt: HostRuntime) -> Result<(), Fail> {
    let mut queue = Queue::new(rt.alloc());
    for i in 0..64u8 {
        let text = format!(in rt.alloc(); "job-{i}")?;
        assert!(rt; put_entry(&mut queue, text.as_str(), i)?.0);
    }
    let Err(QueueRefusal::Full { count }) = put(&mut queue, "job-64", 0)? else {
        return Err(Fail::from("full"));
    };
    assert_eq!(rt; count, 64);
    Ok(())
}

// The queue of one entry, whose arrival is the last.
fn last_arrival(alloc: Global) -> Result<Queue, Fail> {
    let last = QueueEntry {
        user: Name::of("ana")?,
        name: Name::of("job-1")?,
        file: Name::of("a.gcode")?,
        priority: 5,
        copies: 1,
        left: 1,
        material: Name::of("any")?,
        arrival: 4_294_967_295,
    };
    let mut entries = EntryList::new(alloc);
    entries.push(last)?;
    Ok(Queue::from_entries(entries))
}

#[test]
fn after_the_last_arrival_only_an_equal_put_is_taken(rt: HostRuntime) -> Result<(), Fail> {
    let mut queue = last_arrival(rt.alloc())?;
    assert!(rt;
        matches!(
            put(&mut queue, "job-2", 0)?,
            Err(QueueRefusal::ArrivalsUsed)
        )
    );
    assert!(rt; !put_entry(&mut queue, "job-1", 5)?.0);
    Ok(())
}

// Whether ana's entry of two copies for PLA was added by this put, and how many of them are left.
fn put_copies(queue: &mut Queue) -> Result<(bool, u8), Fail> {
    let put = queue.put(
        &Name::of("ana")?,
        &Name::of("job-1")?,
        &Name::of("a.gcode")?,
        5,
        2,
        &Name::of("PLA")?,
    );
    let put = put.ok().ok_or("refused")?;
    Ok((put.fresh, put.entry.left))
}

// The copies that were left before one of them was started.
fn take_copy(queue: &mut Queue) -> Result<u8, Fail> {
    let taken = queue.take(&Name::of("ana")?, &Name::of("job-1")?);
    Ok(taken.ok().ok_or("no entry")?.left)
}

#[test]
fn each_copy_is_started_by_itself(rt: HostRuntime) -> Result<(), Fail> {
    let mut queue = Queue::new(rt.alloc());
    put_copies(&mut queue)?;
    assert_eq!(rt; take_copy(&mut queue)?, 2);
    assert_eq!(rt; put_copies(&mut queue)?, (false, 1));
    assert_eq!(rt; take_copy(&mut queue)?, 1);
    assert_eq!(rt; queue.entries().len(), 0);
    Ok(())
}

// Whether an entry fits a printer of this material.
fn has_next(queue: &Queue, material: &str) -> Result<bool, Fail> {
    Ok(queue.next(&Name::of(material)?).is_some())
}

#[test]
fn an_entry_waits_for_its_material(rt: HostRuntime) -> Result<(), Fail> {
    let mut queue = Queue::new(rt.alloc());
    put_copies(&mut queue)?;
    assert!(rt; !has_next(&queue, "PETG")?);
    assert!(rt; has_next(&queue, "PLA")?);
    Ok(())
}

// Each call that takes memory, once.
#[test]
fn ample(rt: HostRuntime) -> Result<(), Fail> {
    let mut queue = Queue::new(rt.alloc());
    assert!(rt; put(&mut queue, "job-1", 0)?.is_ok());
    assert!(rt; queue.own(None).is_ok());
    Ok(())
}
