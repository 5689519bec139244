//! Whole commands over files, a link, doors and an output in memory. Out of memory, a test stops.
ghost use Rattle.std.specs.Prelude.{◌≡◌, false, true};
ghost use Rattle.octo_floor_command.specs.Links.{EachLink};
ghost use Rattle.printer_link.specs.Memory.{link_world};

mod parts;
mod rows;

use octo_commands::{Status, octo};
use octo_floor::Links;
use octo_keeper::{MemoryKeeper, MemoryShelf};
use octo_outside::{CallList, MemoryClock, MemorySink, MemorySource, WordList};
use octo_outside_doors::{Doors, MemoryDoor};
use parts::{call_list, doors, end_links, files, floor_links, keeper, link, shelf, word_list};
use printer_link::{Fate, MemoryLink};
use printer_model::ExecutedLine;
use std::alloc::Global;
use std::process::Abort;
use std::sync::Wait;
use std::thread::Threads;

// What a command works with, but the links of a floor.
struct Bench {
    files: MemorySource,
    link: MemoryLink,
    out: MemorySink,
    clock: MemoryClock,
    keeper: MemoryKeeper,
    shelf: MemoryShelf,
    doors: Doors<MemoryDoor>,
}

impl Bench {
    // That of a row, whose connections come at its first door.
    fn of(rt: &impl Abort, alloc: Global, row: &Row) -> Bench
        ensures down { (link_world result.link).linked ≡ false }
        ensures plain { result.link.story.oks.lost ≡ false }
        ensures numbered { result.link.story.oks.numbered ≡ true }
    {
        Bench {
            files: files(rt, alloc, row),
            link: link(rt, alloc, row),
            out: MemorySink::new(alloc, call_list(rt, alloc, row.sink_fails)),
            clock: MemoryClock::new(0, 1),
            keeper: keeper(rt, alloc),
            shelf: shelf(rt, alloc),
            doors: doors(rt, alloc, row.inputs),
        }
    }

    fn carry_out<R: Threads + Wait + Abort + Clone + Send + Sync + Drop>(
        &mut self,
        rt: &R,
        alloc: Global,
        words: &WordList,
        links: &mut Links<MemoryLink>,
    ) -> Status
        requires down { (link_world self.old.link).linked ≡ false }
        requires plain { self.old.link.story.oks.lost ≡ false }
        requires numbered { self.old.link.story.oks.numbered ≡ true }
        requires floor_down { EachLink (λ link. (link_world link).linked ≡ false) links.old }
        requires floor_plain { EachLink (λ link. link.story.oks.lost ≡ false) links.old }
        requires floor_numbered { EachLink (λ link. link.story.oks.numbered ≡ true) links.old }
    {
        octo(
            rt,
            alloc,
            words,
            &mut self.files,
            &mut self.link,
            &mut self.out,
            &mut self.clock,
            &mut self.keeper,
            &mut self.shelf,
            &mut self.doors,
            MemorySink::new(alloc, CallList::new(alloc)),
            links,
        )
    }

    // Drops its parts one by one. A test in which they go out of scope would have to prove their drops itself.
    fn end(self) {
        let Bench {
            files,
            link,
            out,
            clock,
            keeper,
            shelf,
            doors,
        } = self;
        drop(files);
        drop(link);
        drop(out);
        drop(clock);
        drop(keeper);
        drop(shelf);
        drop(doors);
    }
}

const HOME_AND_MOVE: &[u8] = b"G28\nG1 X10\n";

// A command with the calls that fail, and what it comes to.
#[derive(Clone, Copy)]
struct Row {
    words: &'static [&'static str],
    file: &'static [u8],
    inputs: &'static [&'static [u8]],
    fates: &'static [Fate],
    link_fails: &'static [u64],
    restarts: &'static [u64],
    source_fails: &'static [u64],
    sink_fails: &'static [u64],
    code: u8,
    text: &'static [u8],
    executed: &'static [u8],
    sends: u64,
}

const PRINT: &[&str] = &["print", "p", "a.gcode"];

// A script before each print and after it, and a lower limit.
const SETTINGS: &[u8] =
    b"[printer]\nports = [\"p\"]\n\n[limits]\ntool = 250\n\n[admin]\nname = \"root\"\nkey_sha256 = \"470dc872b1b47dac8456c9f0800583d1176d1a2f194b626000379d1d7d7fc920\"\n\n[scripts]\nbeforePrintStarted = [\"M107\"]\nafterPrintDone = [\"M84\"]\n";

// The print of two commands over a line without losses.
const DONE: Row = Row {
    words: PRINT,
    file: HOME_AND_MOVE,
    inputs: &[],
    fates: &[],
    link_fails: &[],
    restarts: &[],
    source_fails: &[],
    sink_fails: &[],
    code: 0,
    text: b"done: 2 commands, 0 skipped\n",
    executed: HOME_AND_MOVE,
    sends: 3,
};

// A command that sends nothing.
const UNSENT: Row = Row {
    executed: b"",
    sends: 0,
    ..DONE
};

// The executed lines, each as its text and a line feed.
fn texts_of(rt: &impl Abort, alloc: Global, lines: &[ExecutedLine]) -> Vec<u8> {
    let mut texts = Vec::new(alloc);
    for line in lines {
        assert!(rt; texts.extend_from_slice(line.text.as_slice()).is_ok());
        assert!(rt; texts.push(b'\n').is_ok());
    }
    texts
}

fn assert_executed(rt: &impl Abort, alloc: Global, link: &MemoryLink, wanted: &[u8]) {
    let lines = link.executed(1).expect(rt, "no memory");
    let texts = texts_of(rt, alloc, lines.as_slice());
    drop(lines);
    assert_eq!(rt; texts.as_slice(), wanted);
    drop(texts);
}

fn code_of(status: Status) -> u8 {
    let code = status.code;
    drop(status);
    code
}

// The exit status of a command on a bench.
fn code_on<R: Threads + Wait + Clone + Send + Sync + Drop + Abort>(
    rt: &R,
    alloc: Global,
    bench: &mut Bench,
    words: &[&str],
) -> u8
    requires down { (link_world bench.old.link).linked ≡ false }
    requires plain { bench.old.link.story.oks.lost ≡ false }
    requires numbered { bench.old.link.story.oks.numbered ≡ true }
{
    let words = word_list(rt, alloc, words);
    let mut links = floor_links(rt, alloc);
    let status = bench.carry_out(rt, alloc, &words, &mut links);
    drop(words);
    end_links(links);
    code_of(status)
}

// A command left this of the row on its bench.
fn assert_left(rt: &impl Abort, alloc: Global, bench: &Bench, row: &Row) {
    assert_eq!(rt; bench.out.written().unwrap_or(&[]), row.text);
    assert_executed(rt, alloc, &bench.link, row.executed);
    assert_eq!(rt; bench.link.sends(), row.sends);
}

// A command, by a row but for its arguments.
fn assert_words<R: Threads + Wait + Clone + Send + Sync + Drop + Abort>(
    rt: &R,
    alloc: Global,
    words: &[&str],
    row: &Row,
) {
    let mut bench = Bench::of(rt, alloc, row);
    let code = code_on(rt, alloc, &mut bench, words);
    assert_left(rt, alloc, &bench, row);
    bench.end();
    assert_eq!(rt; code, row.code);
}

// A command by a row.
fn assert_row<R: Threads + Wait + Clone + Send + Sync + Drop + Abort>(
    rt: &R,
    alloc: Global,
    row: &Row,
) {
    assert_words(rt, alloc, row.words, row);
}

#[test]
fn ample(rt: HostRuntime) {
    assert_row(&rt, rt.alloc(), &DONE);
}

// Arguments that are no command.
const REFUSED: [&[&str]; 4] = [
    &[],
    &["print", "p"],
    &["Check", "a.gcode"],
    &["print", "p", "a.gcode", "--turns", "0"],
];

const BAD_WORDS: Row = Row {
    code: 2,
    text: b"octo: bad words\n",
    ..UNSENT
};

#[test]
fn refused_arguments(rt: HostRuntime) {
    for words in &REFUSED {
        assert_words(&rt, rt.alloc(), words, &BAD_WORDS);
    }
}
