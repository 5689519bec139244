//! Which entry a printer starts next, and how many copies are left.
ghost use Rattle.std.specs.Prelude.{◌≤◌};

use byte_text::Name;
use octo_floor_bay::{copies_left, next_start};
use print_queue::Queue;
use std::alloc::Global;
use std::test::Fail;

// Adds ana's entry of this name.
fn put(queue: &mut Queue, name: &str, priority: u8, copies: u8, material: &str) -> Result<(), Fail>
    requires priority { priority ≤ 100 }
    requires some { 1 ≤ copies }
    requires most { copies ≤ 100 }
{
    let user = Name::of("ana")?;
    let file = Name::of("a.gcode")?;
    let put = queue.put(
        &user,
        &Name::of(name)?,
        &file,
        priority,
        copies,
        &Name::of(material)?,
    );
    put.ok().ok_or("refused")?;
    Ok(())
}

// Two copies of job-1 in PLA, and one of job-2 in PETG, which has the greater priority.
fn two_jobs(alloc: Global) -> Result<Queue, Fail> {
    let mut queue = Queue::new(alloc);
    put(&mut queue, "job-1", 5, 2, "PLA")?;
    put(&mut queue, "job-2", 9, 1, "PETG")?;
    Ok(queue)
}

// Whether a printer with this material starts the entry of this name next, with these arrivals passed over.
fn starts(queue: &Queue, passed: &[u32], material: &str, name: &str) -> Result<bool, Fail> {
    let material = Name::of(material)?;
    match next_start(queue.entries(), passed, &material) {
        Some(entry) => Ok(entry.name.as_str() == name),
        None => Ok(name.is_empty()),
    }
}

#[test]
fn each_printer_starts_an_entry_of_its_material(rt: HostRuntime) -> Result<(), Fail> {
    let queue = two_jobs(rt.alloc())?;
    assert!(rt; starts(&queue, &[], "PLA", "job-1")?);
    assert!(rt; starts(&queue, &[], "PETG", "job-2")?);
    assert!(rt; starts(&queue, &[], "any", "job-2")?);
    assert!(rt; starts(&queue, &[], "ABS", "")?);
    Ok(())
}

// job-1 arrived as 1, and job-2 as 2.
#[test]
fn a_passed_entry_is_not_started(rt: HostRuntime) -> Result<(), Fail> {
    let queue = two_jobs(rt.alloc())?;
    assert!(rt; starts(&queue, &[2], "any", "job-1")?);
    assert!(rt; starts(&queue, &[2], "PETG", "")?);
    assert!(rt; starts(&queue, &[2, 1], "any", "")?);
    Ok(())
}

// Two printers, of PLA and of PETG, start the three copies: job-1, job-2, and job-1 again.
#[test]
fn each_start_takes_one_copy(rt: HostRuntime) -> Result<(), Fail> {
    let mut queue = two_jobs(rt.alloc())?;
    let user = Name::of("ana")?;
    for (name, left) in [("job-1", 2), ("job-2", 1), ("job-1", 0)] {
        queue.take(&user, &Name::of(name)?).ok().ok_or("no entry")?;
        assert_eq!(rt; copies_left(queue.entries()), left);
    }
    assert!(rt; starts(&queue, &[], "any", "")?);
    Ok(())
}

#[test]
fn copies_are_added_up(rt: HostRuntime) -> Result<(), Fail> {
    let mut queue = Queue::new(rt.alloc());
    assert_eq!(rt; copies_left(queue.entries()), 0);
    for name in ["a", "b", "c"] {
        put(&mut queue, name, 5, 100, "any")?;
    }
    assert_eq!(rt; copies_left(queue.entries()), 300);
    Ok(())
}
