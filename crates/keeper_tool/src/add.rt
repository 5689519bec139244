//! Adding print records.
ghost use Rattle.std.specs.Prelude.{◌≡◌, ◌≢◌, ◌<◌, ◌≤◌, ◌+◌, ℕ, true, length, IfSome, OnOk, OnErr, IsErrOf, MatchOption};
ghost use Rattle.std.specs.Option.{option_map};
ghost use Rattle.byte_text.specs.Number.{most_u32};
ghost use Rattle.octo_outside.specs.Recorded.{Counts};
ghost use Rattle.octo_keeper.specs.declared.keeper.KeeperFault.TheVariants as fault;
ghost use Rattle.keeper_tool.specs.declared.end.ToolEnd.TheVariants as end;
ghost use Rattle.keeper_tool.specs.Ends.{is_adding};
ghost use Rattle.keeper_tool.specs.Prints.{AddsFrom, AddsUpTo, finished_row, with_more, with_print, with_prints};

use crate::end::{ToolEnd, end_of};
use byte_text::Name;
use octo_keeper::{Change, Keeper, KeeperFault};
use print_queue::{Outcome, PrintRow};
use std::alloc::Global;

// The record of a finished print.
fn finished_row(number: u32) -> PrintRow
    ensures { result ≡ finished_row number }
{
    PrintRow {
        number,
        user: Name::of_short("ana"),
        file: Name::of_short("hollow_box.gcode"),
        commands: 218,
        outcome: Outcome::Done,
    }
}

fn add_print<K: Keeper>(alloc: Global, keeper: &mut K, number: u32) -> Result<(), KeeperFault>
    ensures ok { OnOk result
        ((K.state keeper.new).tables ≡ option_map (with_print number) (K.state keeper.old).tables) }
    ensures err { OnErr result ((K.state keeper.new).tables ≡ (K.state keeper.old).tables) }
    ensures counts { Counts (IsErrOf result fault.Failed)
        (K.state keeper.old).faults (K.state keeper.new).faults }
    ensures steady { (IsErrOf result fault.Failed → ⊥)
        → (K.state keeper.new).faults ≡ (K.state keeper.old).faults }
{
    let change = Change::Begin {
        ended: None,
        print: finished_row(number),
        taken: None,
    };
    keeper.commit(alloc, &change)
}

// Adds prints with these numbers, each by a change of its own.
fn add_from<K: Keeper>(
    alloc: Global,
    keeper: &mut K,
    first: u32,
    prints: u32,
) -> Result<(), KeeperFault>
    requires { first + prints ≤ most_u32 }
    ensures ok { OnOk result
        ((K.state keeper.new).tables
        ≡ option_map (with_prints first prints) (K.state keeper.old).tables) }
    ensures err { OnErr result
        (AddsFrom first prints (K.state keeper.old).tables (K.state keeper.new).tables) }
    ensures counts { Counts (IsErrOf result fault.Failed)
        (K.state keeper.old).faults (K.state keeper.new).faults }
    ensures steady { (IsErrOf result fault.Failed → ⊥)
        → (K.state keeper.new).faults ≡ (K.state keeper.old).faults }
{
    for place in 0..prints {
        add_print(alloc, keeper, first + place)?;
    }
    Ok(())
}

// The number of the first print to be added, if there are numbers for all of them.
fn first_number(held: usize, prints: u32) -> Option<u32>
    ensures { MatchOption result (most_u32 < held + 1 + prints)
        (λ first. (first ≡ held + 1) × (first + prints ≤ most_u32)) }
{
    let held = u32::try_from(held).ok()?;
    let first = held.checked_add(1)?;
    first.checked_add(prints)?;
    Some(first)
}

/// Adds records of finished prints, each by a change of its own, numbered after those that the tables hold.
pub fn add_prints<K: Keeper>(alloc: Global, keeper: &mut K, prints: u32) -> ToolEnd
    ensures all { result ≡ end.Added prints
        → (K.state keeper.new).tables ≡ option_map (with_more prints) (K.state keeper.old).tables }
    ensures some { AddsUpTo prints (K.state keeper.old).tables (K.state keeper.new).tables }
    ensures count { (n : ℕ) → result ≡ end.Added n → n ≡ prints }
    ensures only { result ≢ end.Shown }
    ensures kind { is_adding result ≡ true }
    ensures numbers { result ≡ end.NumbersUsed
        → IfSome (K.state keeper.old).tables (λ t. most_u32 < length t.prints + 1 + prints) }
    ensures counts { Counts (result ≡ end.KeeperFailed)
        (K.state keeper.old).faults (K.state keeper.new).faults }
    ensures steady { result ≢ end.KeeperFailed → (K.state keeper.new).faults
        ≡ (K.state keeper.old).faults }
{
    let tables = match keeper.load(alloc) {
        Ok(tables) => tables,
        Err(fault) => return end_of(fault),
    };
    let Some(first) = first_number(tables.prints.as_slice().len(), prints) else {
        return ToolEnd::NumbersUsed;
    };
    match add_from(alloc, keeper, first, prints) {
        Ok(()) => ToolEnd::Added { prints },
        Err(fault) => end_of(fault),
    }
}
