//! The command `floor` over two printers, and what it comes to.
ghost use Rattle.std.specs.Prelude.{◌≡◌, false, true};
ghost use Rattle.octo_floor_command.specs.Links.{EachLink};
ghost use Rattle.printer_link.specs.Memory.{link_world};

use super::objects::{
    Fault, doors, drop_doors, drop_links, keeper, link, links, shelf, sink, source, word_list,
};
use octo_commands::octo;
use octo_floor::Links;
use octo_keeper::{MemoryKeeper, MemoryShelf};
use octo_outside::{CallList, MemoryClock, MemorySink, MemorySource, WordList};
use octo_outside_doors::{Doors, MemoryDoor};
use print_queue::Outcome;
use printer_link::MemoryLink;
use std::alloc::Global;
use std::process::Abort;
use std::sync::Wait;
use std::thread::Threads;
use test_makers::kept_outcome;

pub(super) const WORDS: &[&str] = &["floor", "f", "d", "--settings", "s"];

// A printer with PLA at port p, and one with PETG at port q.
pub(super) const SETTINGS: &str =
    "[printer]\nports = [\"p\"]\n[admin]\nname = \"root\"\nkey_sha256 = \"470dc872b1b47dac8456c9f0800583d1176d1a2f194b626000379d1d7d7fc920\"\n[floor]\nports = [\"p\", \"q\"]\nmaterials = [\"PLA\", \"PETG\"]\n";

pub(super) const PART: &str = "G28\nG1 X10\nG1 X11\nG1 X12\n";

// What a command works with, and what it left.
#[derive(Drop)]
pub(super) struct Bench {
    // The status, and whether a floor ran.
    code: u8,
    has_run: bool,
    source: MemorySource,
    // A link that is no printer's.
    link: MemoryLink,
    out: MemorySink,
    keeper: MemoryKeeper,
    shelf: MemoryShelf,
    doors: Doors<MemoryDoor>,
    pub links: Links<MemoryLink>,
}

impl Bench {
    // Both jobs with files of this text.
    fn new(rt: &impl Abort, alloc: Global, settings: &str, part: &str, fault: Fault) -> Bench
        ensures down { (link_world result.link).linked ≡ false }
        ensures plain { result.link.story.oks.lost ≡ false }
        ensures numbered { result.link.story.oks.numbered ≡ true }
        ensures links_down { EachLink (λ l. (link_world l).linked ≡ false) result.links }
        ensures links_plain { EachLink (λ l. l.story.oks.lost ≡ false) result.links }
        ensures links_numbered { EachLink (λ l. l.story.oks.numbered ≡ true) result.links }
    {
        let [of_source, of_sink, of_link, of_keeper, of_shelf] = fault.calls();
        Bench {
            code: 0,
            has_run: false,
            source: source(rt, alloc, settings, of_source),
            link: link(rt, alloc, "p", 0),
            out: sink(rt, alloc, of_sink),
            keeper: keeper(rt, alloc, of_keeper),
            shelf: shelf(rt, alloc, part, of_shelf),
            doors: doors(rt, alloc),
            links: links(rt, alloc, of_link),
        }
    }

    // Carries out a command.
    fn carry_out<R: Threads + Wait + Clone + Send + Sync + Drop>(
        &mut self,
        rt: &R,
        alloc: Global,
        words: &WordList,
    )
        requires down { (link_world self.old.link).linked ≡ false }
        requires plain { self.old.link.story.oks.lost ≡ false }
        requires numbered { self.old.link.story.oks.numbered ≡ true }
        requires links_down { EachLink (λ l. (link_world l).linked ≡ false) self.old.links }
        requires links_plain { EachLink (λ l. l.story.oks.lost ≡ false) self.old.links }
        requires links_numbered { EachLink (λ l. l.story.oks.numbered ≡ true) self.old.links }
    {
        let status = octo(
            rt,
            alloc,
            words,
            &mut self.source,
            &mut self.link,
            &mut self.out,
            &mut MemoryClock::new(0, 1),
            &mut self.keeper,
            &mut self.shelf,
            &mut self.doors,
            MemorySink::new(alloc, CallList::new(alloc)),
            &mut self.links,
        );
        self.code = status.code;
        self.has_run = status.floor.is_some();
        drop(status);
    }

    // The command ended with this status and text, after the run of a floor or without one.
    pub(super) fn assert_ended(&self, rt: &impl Abort, code: u8, has_run: bool, text: &str) {
        assert_eq!(rt; self.out.written().unwrap_or(b""), text.as_bytes());
        assert_eq!(rt; self.code, code);
        assert_eq!(rt; self.has_run, has_run);
    }

    // The outcome of a record, the first at place 0.
    pub(super) fn outcome(&self, place: usize) -> Option<Outcome> {
        kept_outcome(&self.keeper, place)
    }

    // Drops it part by part. A function in which all of it goes out of scope has to prove all these drops itself.
    pub(super) fn end(self) {
        let Bench {
            code: _,
            has_run: _,
            source,
            link,
            out,
            keeper,
            shelf,
            doors,
            links,
        } = self;
        drop(source);
        drop(link);
        drop(out);
        drop(keeper);
        drop(shelf);
        drop_doors(doors);
        drop_links(links);
    }
}

// Carries out a command by these settings, over both jobs with files of this text.
pub(super) fn run<R: Threads + Wait + Clone + Send + Sync + Drop + Abort>(
    rt: &R,
    alloc: Global,
    words: &[&str],
    settings: &str,
    part: &str,
    fault: Fault,
) -> Bench {
    let mut bench = Bench::new(rt, alloc, settings, part, fault);
    let words = word_list(rt, alloc, words);
    bench.carry_out(rt, alloc, &words);
    drop(words);
    bench
}
