//! The file of a demo.
ghost use Rattle.std.specs.Prelude.{◌≡◌, ◌≤◌, ◌-◌, ◌++◌, codes, decimal, length, IfOk, OnOk};
ghost use Rattle.octo_commands_print.specs.Draws.{draws, number_after};
ghost use Rattle.octo_commands_print.specs.File.{command_of, draw_lines, demo_file};

use crate::draws::Draws;
use itoa::Buffer;
use octo_outside::Blob;
use std::alloc::{AllocError, Global};

/// How many commands the file of a demo has at most.
pub const MOST_COMMANDS: u32 = 200_000;

// Adds a command and its number.
fn append_command(file: &mut Blob, command: &[u8], number: u32) -> Result<(), AllocError>
    ensures { OnOk result (file.new ≡ file.old ++ command.now ++ decimal number ++ codes "\n") }
{
    let mut buffer = Buffer::new();
    file.append(command)?;
    file.append(buffer.format(number).as_bytes())?;
    file.append(b"\n")
}

// Adds the command that a draw names, with its line end.
fn append_line(file: &mut Blob, draw: u32) -> Result<(), AllocError>
    ensures { OnOk result (file.new ≡ file.old ++ command_of draw ++ codes "\n") }
{
    match draw % 4 {
        0 => append_command(file, b"G1 X", draw % 200),
        1 => append_command(file, b"G1 Y", draw % 200),
        2 => append_command(file, b"G1 E", draw % 200),
        _ => append_command(file, b"G4 P", draw % 50),
    }
}

// Adds a line for each command.
pub(crate) fn append_lines(
    file: &mut Blob,
    numbers: &mut Draws,
    commands: u32,
) -> Result<(), AllocError>
    ensures lines { OnOk result (file.new ≡ file.old ++ draw_lines (draws numbers.old commands)) }
    ensures number { OnOk result (numbers.new ≡ number_after numbers.old commands) }
{
    for _ in 0..commands {
        append_line(file, numbers.draw())?;
    }
    Ok(())
}

/// The file of a demo: of each draw from `seed` a command `G1 X`, `G1 Y`, `G1 E` or `G4 P` in a line of its own.
/// Fails if out of memory.
pub fn demo_file(alloc: Global, seed: u32, commands: u32) -> Result<Blob, AllocError>
    ensures { IfOk result (λ file. file ≡ demo_file seed commands) }
{
    let mut file = Blob::new(alloc);
    append_lines(&mut file, &mut Draws::new(seed), commands)?;
    Ok(file)
}
