//! Files are stored, printed, shown and deleted.
use super::*;
use gcode_lines::FileFault;
use octo_asks::{PrintRefusal, StoredCause};

// Uploads the file, perhaps to print it, and sees this.
fn uploads(bench: &mut Bench, rt: &impl Abort, text: &'static [u8], print: bool, wanted: Seen) {
    bench.sees(rt, ANA, Wish::Upload(text, print), wanted);
}

// An upload with the flag is selected and printed.
#[test]
fn upload_prints(rt: HostRuntime) {
    let mut bench = Bench::sound(&rt, rt.alloc());
    bench.connect(&rt);
    uploads(&mut bench, &rt, b"G28\n", true, Seen::Uploaded(true, true));
    bench.turn_until(&rt, State::Operational);
    assert_eq!(rt; bench.kept_outcome(0), Some(Outcome::Done));
    bench.end();
}

// The commit of its print fails: it is stored and selected.
#[test]
fn stored_upload(rt: HostRuntime) {
    let mut bench = Bench::failing(&rt, rt.alloc(), "any", &[2], &[]);
    bench.connect(&rt);
    uploads(
        &mut bench,
        &rt,
        b"G28\n",
        true,
        Seen::Stored(StoredCause::KeeperFault),
    );
    bench.sees(&rt, ANA, Wish::Files, Seen::Files(1, 4));
    bench.sees(
        &rt,
        ANA,
        Wish::Job,
        Seen::Job(Some(4), false, State::Operational),
    );
    bench.end();
}

// While offline the flags of an upload are no more than wishes; the answer says why.
#[test]
fn upload_while_offline(rt: HostRuntime) {
    let mut bench = Bench::sound(&rt, rt.alloc());
    let offline = PrintRefusal::WrongState {
        state: State::Offline,
    };
    uploads(
        &mut bench,
        &rt,
        b"G28\n",
        true,
        Seen::Unprinted(true, offline),
    );
    uploads(
        &mut bench,
        &rt,
        b"G28\n",
        false,
        Seen::Uploaded(false, false),
    );
    bench.end();
}

// A file with a command that is too hot is stored and selected, and the answer names the line.
#[test]
fn hot_upload(rt: HostRuntime) {
    let mut bench = Bench::sound(&rt, rt.alloc());
    bench.connect(&rt);
    let hot = PrintRefusal::TooHotLine {
        line: 2,
        asked: 400,
        limit: 250,
    };
    uploads(
        &mut bench,
        &rt,
        b"G28\nM104 S400\n",
        true,
        Seen::Unprinted(true, hot),
    );
    bench.end();
}

// A file that is printed is busy; later it goes.
#[test]
fn delete_printed(rt: HostRuntime) {
    let mut bench = Bench::sound(&rt, rt.alloc());
    bench.connect(&rt);
    bench.ask(&rt, ANA, Wish::Upload(b"G28\n", true));
    bench.sees(&rt, ANA, Wish::Delete, Seen::FileBusy);
    uploads(&mut bench, &rt, b"G1 X1\n", false, Seen::FileBusy);
    bench.turn_until(&rt, State::Operational);
    bench.sees(&rt, ANA, Wish::Delete, Seen::Accepted);
    bench.sees(&rt, ANA, Wish::Download, Seen::NoFile);
    bench.end();
}

// A shelf that can't remove leaves the file: list, put, remove.
#[test]
fn failed_remove(rt: HostRuntime) {
    let mut bench = Bench::failing(&rt, rt.alloc(), "any", &[], &[3]);
    bench.ask(&rt, ANA, Wish::Upload(b"G28\n", false));
    bench.sees(&rt, ANA, Wish::Delete, Seen::ShelfFault);
    bench.sees(&rt, ANA, Wish::Show, Seen::File(4));
    bench.end();
}

// A shelf that can't store leaves all as it was, and one that can't read selects nothing: list, put, put, get.
#[test]
fn failed_put(rt: HostRuntime) {
    let mut bench = Bench::failing(&rt, rt.alloc(), "any", &[], &[2, 4]);
    uploads(&mut bench, &rt, b"G28\n", true, Seen::ShelfFault);
    bench.sees(&rt, ANA, Wish::Show, Seen::NoFile);
    bench.ask(&rt, ANA, Wish::Upload(b"G28\n", false));
    bench.sees(&rt, ANA, Wish::Select(false), Seen::ShelfFault);
    bench.sees(&rt, ANA, Wish::Start, Seen::WrongState(State::Offline));
    bench.end();
}

// A file with a control byte in its second line.
#[test]
fn bad_file(rt: HostRuntime) {
    let mut bench = Bench::sound(&rt, rt.alloc());
    uploads(
        &mut bench,
        &rt,
        b"G28\nG1\x07X\n",
        false,
        Seen::BadFile(FileFault::ControlByte { line: 2 }),
    );
    bench.end();
}
