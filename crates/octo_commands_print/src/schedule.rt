//! What a demo's link does with the lines that are sent.
ghost use Rattle.std.specs.Prelude.{◌≡◌, ◌≤◌, ◌++◌, ◌∷◌, [], IfOk, OnOk, codes, unwrap_or};
ghost use Rattle.octo_commands_print.specs.Draws.{draws, upper_bits, next_draw, number_after};
ghost use Rattle.octo_commands_print.specs.Fates.{fate_of, fate_after, harmed_after, fates_after, demo_fates, demo_schedule};
ghost use Rattle.octo_commands_print.specs.declared.file.TheConstants.{MOST_COMMANDS};

use crate::draws::Draws;
use byte_text::Name;
use octo_outside::{CallList, NameList};
use printer_link::{Fate, FateList, Schedule};
use std::alloc::{AllocError, Global};

// The fate that a draw names.
fn fate_of(draw: u32) -> Fate
    ensures { result ≡ fate_of draw }
{
    match draw % 10 {
        0 => Fate::Lost,
        1 => Fate::Garbled,
        _ => Fate::Whole,
    }
}

// The fate of a line by its draw, after this number in a row that are harmed.
fn fate_after(harmed: u32, draw: u32) -> Fate
    ensures { result ≡ fate_after harmed draw }
{
    if harmed == 2 {
        return Fate::Whole;
    }
    fate_of(draw)
}

// How many lines in a row are harmed, up to one of this fate.
fn harmed_after(harmed: u32, fate: Fate) -> u32
    requires { harmed ≤ 2 }
    ensures { result ≡ harmed_after harmed fate }
{
    match fate {
        Fate::Whole => 0,
        Fate::Lost | Fate::Garbled => harmed + 1,
    }
}

// Adds the next fate.
fn append_fate(fates: &mut FateList, numbers: &mut Draws, harmed: u32) -> Result<u32, AllocError>
    requires { harmed ≤ 2 }
    ensures fate { OnOk result
        (fates.new ≡ fates.old ++ fate_after harmed (upper_bits numbers.new) ∷ []) }
    ensures number { numbers.new ≡ next_draw numbers.old }
    ensures harmed { IfOk result
        (λ now. now ≡ harmed_after harmed (fate_after harmed (upper_bits numbers.new))) }
    ensures few { IfOk result (λ now. now ≤ 2) }
{
    let fate = fate_after(harmed, numbers.draw());
    fates.push(fate)?;
    Ok(harmed_after(harmed, fate))
}

// Adds a fate for each of `count` draws.
fn append_fates(fates: &mut FateList, numbers: &mut Draws, count: u32) -> Result<(), AllocError>
    ensures { OnOk result (fates.new ≡ fates.old ++ fates_after 0 (draws numbers.old count)) }
{
    let mut harmed = 0;
    for _ in 0..count {
        harmed = append_fate(fates, numbers, harmed)?;
    }
    Ok(())
}

// Passes over this number of draws.
fn skip(numbers: &mut Draws, count: u32)
    ensures { numbers.new ≡ number_after numbers.old count }
{
    for _ in 0..count {
        numbers.draw();
    }
}

fn demo_fates(alloc: Global, seed: u32, commands: u32) -> Result<FateList, AllocError>
    requires { commands ≤ MOST_COMMANDS }
    ensures { IfOk result (λ fates. fates ≡ demo_fates seed commands) }
{
    let mut numbers = Draws::new(seed);
    skip(&mut numbers, commands);
    let mut fates = FateList::new(alloc);
    fates.push(Fate::Whole)?;
    append_fates(&mut fates, &mut numbers, 4 * commands + 1000)?;
    Ok(fates)
}

// The only port of a demo.
fn names(alloc: Global) -> Result<NameList, AllocError>
    ensures { IfOk result (λ names. names ≡ codes "demo" ∷ []) }
{
    let mut names = NameList::new(alloc);
    names.push(Name::of_short("demo"))?;
    Ok(names)
}

// The replies of a list, none without one.
fn listed_replies(alloc: Global, lost: Option<CallList>) -> CallList
    ensures { result ≡ unwrap_or lost [] }
{
    match lost {
        Some(replies) => replies,
        None => CallList::new(alloc),
    }
}

/// What the link of a demo of at most 200,000 commands does: a fifth of the lines that are sent are lost or corrupted,
/// never three in a row. The first line, the hello, arrives whole. If lost replies are listed, counted from 1 as they join the
/// wire from the printer, its `ok`s have numbers, and no other reply is lost. Fails if out of memory.
pub fn demo_schedule(
    alloc: Global,
    seed: u32,
    commands: u32,
    lost: Option<CallList>,
) -> Result<Schedule, AllocError>
    requires { commands ≤ MOST_COMMANDS }
    ensures { IfOk result (λ schedule. schedule ≡ demo_schedule seed commands lost) }
{
    Ok(Schedule {
        names: names(alloc)?,
        last: 4,
        slots: 4,
        numbered: lost.is_some(),
        fates: demo_fates(alloc, seed, commands)?,
        slow: 0,
        fail_at: CallList::new(alloc),
        restart_at: CallList::new(alloc),
        lost: listed_replies(alloc, lost),
    })
}
