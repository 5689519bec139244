//! Prints a file again and again on eight printers in memory, for bench/floor.sh: as a floor that shares one queue, or by eight single
//! prints of the same lines.
//!
//! With `floor` or `single` it prints 1,000 copies; without arguments it does both with 8 copies. It says how many lines were sent.
#![tactic(auto)]

mod file;
mod single;

use file::FILE;
use octo_floor_bay::Why;
use octo_outside::{WordList, arguments};
use single::print_alone;
use std::alloc::Global;
use test_makers::{CLEAN, MemoryFloor, Shop};

// Eight copies, or 1,000, of one file in PLA.
const FEW: Shop = Shop {
    materials: &["PLA", "PLA", "PLA", "PLA", "PLA", "PLA", "PLA", "PLA"],
    entries: &[("job-1", "a.gcode", 5, 8, "PLA")],
    files: &[("a.gcode", FILE)],
    wires: CLEAN,
    keeper: &[],
    shelf: &[],
};

const MANY: Shop = Shop {
    entries: &[
        ("job-1", "a.gcode", 5, 100, "PLA"),
        ("job-2", "a.gcode", 5, 100, "PLA"),
        ("job-3", "a.gcode", 5, 100, "PLA"),
        ("job-4", "a.gcode", 5, 100, "PLA"),
        ("job-5", "a.gcode", 5, 100, "PLA"),
        ("job-6", "a.gcode", 5, 100, "PLA"),
        ("job-7", "a.gcode", 5, 100, "PLA"),
        ("job-8", "a.gcode", 5, 100, "PLA"),
        ("job-9", "a.gcode", 5, 100, "PLA"),
        ("job-10", "a.gcode", 5, 100, "PLA"),
    ],
    ..FEW
};

// The rounds within which each run ends.
const TURNS: u64 = 1_000_000_000;

// Prints the queue of a shop on its floor. Returns how many prints were done, and how many lines were sent.
fn print_floor(alloc: Global, shop: &Shop) -> anyhow::Result<(u32, u64)> {
    let Some(mut floor) = MemoryFloor::new(alloc, shop) else {
        return Err(anyhow::anyhow!("no memory"));
    };
    let end = floor.run(TURNS);
    let sends = floor.sends();
    floor.end();
    match end.why {
        Why::Over => Ok((end.done, sends)),
        _ => Err(anyhow::anyhow!("the floor isn't over")),
    }
}

// Prints on each of eight printers by itself, one after another, these copies as one file. Returns how many lines were sent. As a floor
// does, it keeps what was done over each link until the end.
fn print_each(alloc: Global, copies: u32) -> Option<u64> {
    let mut sends: u64 = 0;
    let mut links = Vec::new(alloc);
    for _ in 0..8 {
        let link = print_alone(alloc, copies)?;
        sends = sends.saturating_add(link.sends());
        links.push(link).ok()?;
    }
    drop(links);
    Some(sends)
}

// Prints on a floor, and says what it came to.
fn show_floor(rt: HostRuntime, shop: &Shop) -> anyhow::Result<()> {
    let (done, sends) = print_floor(rt.alloc(), shop)?;
    println!(rt; "floor: {done} prints done, {sends} lines sent")?;
    Ok(())
}

// Prints on eight printers by themselves, and says what they came to.
fn show_single(rt: HostRuntime, copies: u32) -> anyhow::Result<()> {
    let Some(sends) = print_each(rt.alloc(), copies) else {
        return Err(anyhow::anyhow!("no memory, or a print isn't done"));
    };
    println!(rt; "single: 8 prints done, {sends} lines sent")?;
    Ok(())
}

// Does what the one argument says.
fn show_one(rt: HostRuntime, word: &str) -> anyhow::Result<()> {
    match word {
        "floor" => show_floor(rt, &MANY),
        "single" => show_single(rt, 125),
        _ => Err(anyhow::anyhow!("usage: floor_bench [floor|single]")),
    }
}

// Does what the arguments say.
fn show(rt: HostRuntime, words: &WordList) -> anyhow::Result<()> {
    match words.count() {
        0 => {
            show_floor(rt, &FEW)?;
            show_single(rt, 1)
        }
        1 => show_one(rt, words.get(0)),
        _ => Err(anyhow::anyhow!("usage: floor_bench [floor|single]")),
    }
}

fn main(rt: HostRuntime) -> anyhow::Result<()> {
    match arguments(&rt) {
        Ok(words) => show(rt, &words),
        Err(_) => Err(anyhow::anyhow!("the arguments aren't text, or memory ran out")),
    }
}
