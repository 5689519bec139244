//! Simulations over a connection and an output in memory.
ghost use Rattle.std.specs.Prelude.{◌≤◌};

use crate::end::SimEnd;
use crate::plan::SimPlan;
use crate::simulate::{sim, simulate};
use octo_outside::{CallList, MemoryConn, MemorySink, WordList, calls_of};
use std::alloc::{AllocError, Global};
use std::process::Abort;
use std::test::Fail;

// What a simulation returned: its end, what it wrote, and what it printed.
#[derive(Drop)]
struct Outcome {
    end: SimEnd,
    written: Vec<u8>,
    printed: Vec<u8>,
}

// A simulation by arguments, with the calls that are quiet or fail, and what it comes to.
#[derive(Clone, Copy)]
struct Row {
    words: &'static [&'static str],
    input: &'static [u8],
    quiet_at: &'static [u64],
    conn_fails: &'static [u64],
    sink_fails: &'static [u64],
    end: SimEnd,
    written: &'static [u8],
    printed: &'static [u8],
}

fn word_list(alloc: Global, words: &[&str]) -> Result<WordList, AllocError> {
    let mut list = WordList::new(alloc);
    for word in words {
        list.push(word)?;
    }
    Ok(list)
}

fn conn_of(alloc: Global, row: &Row) -> Result<MemoryConn, AllocError> {
    let quiet_at = calls_of(alloc, row.quiet_at)?;
    MemoryConn::new(alloc, row.input, quiet_at, calls_of(alloc, row.conn_fails)?)
}

fn sink_of(alloc: Global, row: &Row) -> Result<MemorySink, AllocError> {
    Ok(MemorySink::new(alloc, calls_of(alloc, row.sink_fails)?))
}

fn outcome_of(
    alloc: Global,
    end: SimEnd,
    conn: &MemoryConn,
    out: &MemorySink,
) -> Result<Outcome, AllocError> {
    Ok(Outcome {
        end,
        written: conn.written().unwrap_or(&[]).to_vec(alloc)?,
        printed: out.written().unwrap_or(&[]).to_vec(alloc)?,
    })
}

fn simulation(alloc: Global, row: &Row) -> Result<Outcome, AllocError> {
    let mut conn = conn_of(alloc, row)?;
    let mut out = sink_of(alloc, row)?;
    let end = {
        let words = word_list(alloc, row.words)?;
        sim(alloc, &words, &mut conn, &mut out)
    };
    outcome_of(alloc, end, &conn, &out)
}

fn assert_row(rt: &(impl Abort + Alloc<A = Global>), row: &Row) -> Result<(), Fail> {
    let outcome = simulation(rt.alloc(), row)?;
    assert_eq!(rt; outcome.end, row.end);
    assert_eq!(rt; outcome.written.as_slice(), row.written);
    assert_eq!(rt; outcome.printed.as_slice(), row.printed);
    Ok(())
}

fn assert_rows(rt: &(impl Abort + Alloc<A = Global>), rows: &[Row]) -> Result<(), Fail> {
    for row in rows {
        assert_row(rt, row)?;
    }
    Ok(())
}

// A print of G28 whose first sending is corrupted, so that the printer asks for it again.
const CORRUPTED: Row = Row {
    words: &["127.0.0.1:7100", "4", "4", "-", "2"],
    input: b"N0 M110 N1*124\nN2 G28*17\nN2 G28*17\n",
    quiet_at: &[],
    conn_fails: &[],
    sink_fails: &[],
    end: SimEnd::Done,
    written: b"start\nError:checksum mismatch, Last Line: 1\nResend: 2\nok\nok\nok\n",
    printed: b"N1 M110 N1\nN2 G28\n",
};

#[test]
fn ample(rt: HostRuntime) -> Result<(), Fail> {
    assert_row(&rt, &CORRUPTED)
}

#[test]
fn planned_lines(rt: HostRuntime) -> Result<(), Fail> {
    let rows = [
        Row {
            words: &["p", "4", "4", "2", "-"],
            printed: b"N1 M110 N1\nN2 G28\n",
            written: b"start\nok\nok\n",
            ..CORRUPTED
        },
        Row {
            words: &["p", "0", "1", "-", "-"],
            input: b"N1 G28*18\nM105\nno end",
            written: b"start\nok\nok T:21.30 /0.00 B:21.22 /0.00 @:0 B@:0\n",
            printed: b"N1 G28\nM105\n",
            ..CORRUPTED
        },
        Row {
            words: &["p", "0", "4", "-", "1,2,3"],
            input: b"G28\nG1 X9\nM84 S\n",
            written: b"start\nok\nok\n",
            printed: b"G29\nG1 X0\n",
            ..CORRUPTED
        },
    ];
    assert_rows(&rt, &rows)
}

// With a list of lost replies, acknowledgements name their line, and those that are listed aren't written. Both commands wait when
// the first one is run, so two buffer slots are free then, and three at the second.
#[test]
fn lost_replies(rt: HostRuntime) -> Result<(), Fail> {
    let rows = [
        Row {
            words: &["p", "4", "4", "-", "2", "-"],
            written: b"start\nError:checksum mismatch, Last Line: 1\nResend: 2\nok\nok N0 P15 B2\nok N2 P15 B3\n",
            ..CORRUPTED
        },
        Row {
            words: &["p", "4", "4", "-", "2", "2,4"],
            written: b"start\nError:checksum mismatch, Last Line: 1\nok\nok N2 P15 B3\n",
            ..CORRUPTED
        },
    ];
    assert_rows(&rt, &rows)
}

#[test]
fn short_inputs(rt: HostRuntime) -> Result<(), Fail> {
    let rows = [
        Row {
            words: &["p", "0", "4", "1,3", "4294967295"],
            input: b"G28\n\nM84\n",
            written: b"start\nok\n",
            printed: b"\n",
            ..CORRUPTED
        },
        Row {
            input: b"",
            written: b"start\n",
            printed: b"",
            ..CORRUPTED
        },
    ];
    assert_rows(&rt, &rows)
}

// What Printrun's printcore sends at a print's beginning, and its first two commands. Its N-1 sets the last number to -1.
const PRINTCORE: Row = Row {
    words: &["p", "4", "4", "-", "-"],
    input: b"N-1 M110*15\nN0 G28*19\nN1 G1 X10*80\n",
    written: b"start\nok\nok\nok\n",
    printed: b"N0 M110\nG28\nN1 G1 X10\n",
    ..CORRUPTED
};

#[test]
fn numbers_from_minus_one(rt: HostRuntime) -> Result<(), Fail> {
    let rows = [
        PRINTCORE,
        // The first command is corrupted, and sent again.
        Row {
            words: &["p", "4", "4", "-", "2"],
            input: b"N-1 M110*15\nN0 G28*19\nN0 G28*19\nN1 G1 X10*80\n",
            written: b"start\nError:checksum mismatch, Last Line: -1\nResend: 0\nok\nok\nok\nok\n",
            ..PRINTCORE
        },
        // It is lost: the next line is refused, and both are sent again.
        Row {
            words: &["p", "4", "4", "2", "-"],
            input: b"N-1 M110*15\nN0 G28*19\nN1 G1 X10*80\nN0 G28*19\nN1 G1 X10*80\n",
            written: b"start\nError:Line Number is not Last Line Number+1, Last Line: -1\n\
                Resend: 0\nok\nok\nok\nok\n",
            ..PRINTCORE
        },
    ];
    assert_rows(&rt, &rows)
}

#[test]
fn numbers_below_zero(rt: HostRuntime) -> Result<(), Fail> {
    let rows = [
        // From -3 on: -2 follows, and one without a checksum is refused.
        Row {
            input: b"N-3 M110*13\nN-2 G28*60\nN-1 G1\nN-1 G1 X1*77\nM105\nN0 G28*19\n",
            written: b"start\nError:No Checksum with line number, Last Line: -2\nResend: -1\nok\n\
                ok\nok\nok\nok T:21.30 /0.00 B:21.22 /0.00 @:0 B@:0\nok\n",
            printed: b"N0 M110\nG28\nG1 X1\nM105\nG28\n",
            ..PRINTCORE
        },
        // A line that sets a number at or above 0, also by its second N.
        Row {
            input: b"N-1 M110*15\nN5 M110*38\nN6 G28*21\nN7 M110 N5*127\n",
            written: b"start\nok\nok\nok\nok\n",
            printed: b"N0 M110\nN5 M110\nN6 G28\nN5 M110 N5\n",
            ..PRINTCORE
        },
        // A number below 0 doesn't follow one above it, and a line that fails sets none.
        Row {
            input: b"N-4 G28*58\nN-1 M110*14\n",
            written: b"start\nError:Line Number is not Last Line Number+1, Last Line: 4\nResend: 5\n\
                ok\nError:checksum mismatch, Last Line: 4\nResend: 5\nok\n",
            printed: b"",
            ..PRINTCORE
        },
    ];
    assert_rows(&rt, &rows)
}

// Call 1 writes `start`, call 2 reads the input, call 3 writes the replies, and call 4 reads its end.
#[test]
fn failing_calls(rt: HostRuntime) -> Result<(), Fail> {
    let rows = [
        Row {
            conn_fails: &[1],
            end: SimEnd::ConnFailed,
            written: b"",
            printed: b"",
            ..CORRUPTED
        },
        Row {
            conn_fails: &[2],
            end: SimEnd::ConnFailed,
            written: b"start\n",
            printed: b"",
            ..CORRUPTED
        },
        Row {
            conn_fails: &[3],
            end: SimEnd::ConnFailed,
            written: b"start\n",
            printed: b"N1 M110 N1\n",
            ..CORRUPTED
        },
        Row {
            sink_fails: &[1],
            end: SimEnd::SinkFailed,
            printed: b"",
            ..CORRUPTED
        },
        Row {
            quiet_at: &[2, 3],
            ..CORRUPTED
        },
    ];
    assert_rows(&rt, &rows)
}

// A simulation of at most that many turns, without losses.
fn turns_of(alloc: Global, conn: &mut MemoryConn, out: &mut MemorySink, turns: u64) -> SimEnd
    requires { 1 ≤ turns }
{
    let plan = SimPlan {
        last: 4,
        slots: 4,
        drop: CallList::new(alloc),
        corrupt: CallList::new(alloc),
        numbered: false,
        lost: CallList::new(alloc),
        turns,
    };
    simulate(alloc, conn, out, &plan)
}

// Two reads find nothing yet, and the third finds the input, of which one line is run in that turn.
#[test]
fn turns_used(rt: HostRuntime) -> Result<(), Fail> {
    let row = Row {
        quiet_at: &[2, 3],
        ..CORRUPTED
    };
    for (turns, printed) in [(1, b"".as_slice()), (3, b"N1 M110 N1\n".as_slice())] {
        let mut conn = conn_of(rt.alloc(), &row)?;
        let mut out = sink_of(rt.alloc(), &row)?;
        let end = turns_of(rt.alloc(), &mut conn, &mut out, turns);
        assert_eq!(rt; end, SimEnd::TurnsUsed { turns });
        assert_eq!(rt; out.written().unwrap_or(&[]), printed);
    }
    Ok(())
}

#[test]
fn bad_plans(rt: HostRuntime) -> Result<(), Fail> {
    let rows: [&[&str]; 17] = [
        &[],
        &["p", "4", "4", "-"],
        &["p", "4", "4", "-", "-", "-", "-"],
        &["p", "4", "4", "-", "-", "2,1"],
        &["", "4", "4", "-", "-"],
        &["p", "", "4", "-", "-"],
        &["p", "4294967296", "4", "-", "-"],
        &["p", "00000000004", "4", "-", "-"],
        &["p", "+4", "4", "-", "-"],
        &["p", "4", "0", "-", "-"],
        &["p", "4", "17", "-", "-"],
        &["p", "4", "4", "", "-"],
        &["p", "4", "4", "0", "-"],
        &["p", "4", "4", "2,1", "-"],
        &["p", "4", "4", "-", "2,2"],
        &["p", "4", "4", "-", "1,"],
        &["p", "4", "4", "-", "4294967296"],
    ];
    for words in rows {
        assert_row(
            &rt,
            &Row {
                words,
                end: SimEnd::BadPlan,
                written: b"",
                printed: b"",
                ..CORRUPTED
            },
        )?;
    }
    Ok(())
}
