//! What a run of a floor reports.
use octo_floor_bay::{FloorEnd, FloorFault, Why};
use octo_floor_command::{floor_code, write_floor_end};
use octo_outside::{CallList, MemorySink};
use std::alloc::Global;
use std::test::Fail;

// Whether an end is reported by this text, with this exit status. The run might make 9 turns.
fn reports(alloc: Global, end: &FloorEnd, status: u8, text: &str) -> Result<bool, Fail> {
    let mut sink = MemorySink::new(alloc, CallList::new(alloc));
    let wrote = write_floor_end(&mut sink, end, 9).is_ok();
    let written = sink.written().unwrap_or(&[]);
    Ok(wrote && floor_code(end) == status && written == text.as_bytes())
}

// How many prints were started, done and failed, how many copies are left, and how many printers were lost.
type Counts = (u32, u32, u32, u64, u8);

// A run that is over, with these counts.
fn over(counts: Counts) -> FloorEnd {
    let (prints, done, failed, left, lost) = counts;
    FloorEnd {
        prints,
        done,
        failed,
        left,
        lost,
        why: Why::Over,
    }
}

// Runs that are over: all done, a printer lost, and a print failed.
const OVER: [(Counts, u8, &str); 3] = [
    (
        (3, 3, 0, 0, 0),
        0,
        "floor: 3 prints, 3 done, 0 failed, 0 left\n",
    ),
    (
        (2, 2, 0, 1, 1),
        13,
        "floor: 2 prints, 2 done, 0 failed, 1 left\n",
    ),
    (
        (2, 1, 1, 0, 0),
        13,
        "floor: 2 prints, 1 done, 1 failed, 0 left\n",
    ),
];

// Why runs of nothing end before they are over.
const ENDED: [(Why, u8, &str); 4] = [
    (Why::Fault(FloorFault::KeeperFailed), 9, "keeper failed\n"),
    (Why::Fault(FloorFault::ShelfFailed), 9, "shelf failed\n"),
    (Why::Fault(FloorFault::NoMemory), 11, "no memory\n"),
    (Why::TurnsUsed, 10, "turns used: 9\n"),
];

#[test]
fn runs_that_are_over(rt: HostRuntime) -> Result<(), Fail> {
    for (counts, status, text) in &OVER {
        let end = over(*counts);
        assert!(rt; reports(rt.alloc(), &end, *status, text)?, "{text}");
    }
    Ok(())
}

#[test]
fn runs_that_end_early(rt: HostRuntime) -> Result<(), Fail> {
    let alloc = rt.alloc();
    for (why, status, line) in &ENDED {
        let mut end = over((0, 0, 0, 3, 0));
        end.why = *why;
        let text = format!(in alloc; "floor: 0 prints, 0 done, 0 failed, 3 left\n{line}")?;
        assert!(rt; reports(alloc, &end, *status, text.as_str())?, "{line}");
    }
    Ok(())
}
