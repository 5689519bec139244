//! A command carried out on a keeper.
ghost use Rattle.std.specs.Prelude.{◌≡◌, ◌≢◌, ◌<◌, ◌+◌, ℕ, true, length, IfSome};
ghost use Rattle.std.specs.Option.{option_map};
ghost use Rattle.byte_text.specs.Number.{most_u32};
ghost use Rattle.octo_outside.specs.Recorded.{Adds, Counts};
ghost use Rattle.keeper_tool.specs.declared.end.ToolEnd.TheVariants as end;
ghost use Rattle.keeper_tool.specs.declared.command.Task.TheVariants as todo;
ghost use Rattle.keeper_tool.specs.Ends.{Wrote, is_showing, may_end};
ghost use Rattle.keeper_tool.specs.Lines.{tables_text};
ghost use Rattle.keeper_tool.specs.Prints.{AddsUpTo, with_more};

use crate::add::add_prints;
use crate::command::Task;
use crate::end::{ToolEnd, end_of};
use crate::lines::tables_text;
use octo_keeper::Keeper;
use octo_outside::{Failed, Sink, write_all};
use std::alloc::Global;

// Writes the tables out.
fn show<K: Keeper, O: Sink>(alloc: Global, keeper: &mut K, out: &mut O) -> ToolEnd
    ensures shown { result ≡ end.Shown → IfSome (K.state keeper.old).tables
        (λ t. Adds (O.written out.old) (O.written out.new) (tables_text t)) }
    ensures only { (n : ℕ) → result ≢ end.Added n }
    ensures kind { is_showing result ≡ true }
    ensures wrote { Wrote (K.state keeper.old).tables result (O.written out.old)
        (O.written out.new) }
    ensures stays { (K.state keeper.new).tables ≡ (K.state keeper.old).tables }
    ensures counts { Counts (result ≡ end.KeeperFailed)
        (K.state keeper.old).faults (K.state keeper.new).faults }
    ensures steady { result ≢ end.KeeperFailed → (K.state keeper.new).faults
        ≡ (K.state keeper.old).faults }
    ensures output { Counts (result ≡ end.OutputFailed) (O.faults out.old) (O.faults out.new) }
{
    let tables = match keeper.load(alloc) {
        Ok(tables) => tables,
        Err(fault) => return end_of(fault),
    };
    let Ok(text) = tables_text(alloc, &tables) else {
        return ToolEnd::NoMemory;
    };
    match write_all(out, text.as_slice()) {
        Ok(()) => ToolEnd::Shown,
        Err(Failed) => ToolEnd::OutputFailed,
    }
}

/// Carries out a task on a keeper.
pub fn carry_out<K: Keeper, O: Sink>(
    alloc: Global,
    keeper: &mut K,
    task: Task,
    out: &mut O,
) -> ToolEnd
    ensures shown { result ≡ end.Shown → IfSome (K.state keeper.old).tables
        (λ t. Adds (O.written out.old) (O.written out.new) (tables_text t)) }
    ensures added { (n : ℕ) → result ≡ end.Added n → (task ≡ todo.Add n)
        × ((K.state keeper.new).tables ≡ option_map (with_more n) (K.state keeper.old).tables) }
    ensures some { (n : ℕ) → task ≡ todo.Add n
        → AddsUpTo n (K.state keeper.old).tables (K.state keeper.new).tables }
    ensures stays { task ≡ todo.Show → (K.state keeper.new).tables ≡ (K.state keeper.old).tables }

    // It ends as such a task does, and nothing else is written.
    ensures kind { may_end task result ≡ true }
    ensures numbers { (n : ℕ) → task ≡ todo.Add n → result ≡ end.NumbersUsed
        → IfSome (K.state keeper.old).tables (λ t. most_u32 < length t.prints + 1 + n) }
    ensures wrote { Wrote (K.state keeper.old).tables result (O.written out.old)
        (O.written out.new) }

    // Faults, by their counts.
    ensures counts { Counts (result ≡ end.KeeperFailed)
        (K.state keeper.old).faults (K.state keeper.new).faults }
    ensures steady { result ≢ end.KeeperFailed → (K.state keeper.new).faults
        ≡ (K.state keeper.old).faults }
    ensures output { Counts (result ≡ end.OutputFailed) (O.faults out.old) (O.faults out.new) }
{
    match task {
        Task::Show => show(alloc, keeper, out),
        Task::Add { prints } => add_prints(alloc, keeper, prints),
    }
}
