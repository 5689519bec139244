//! The job of a demo.
ghost use Rattle.std.specs.Prelude.{◌≡◌, ◌≤◌, IfOk, Ok};
ghost use Rattle.gcode_lines.specs.Commands.{job_of};
ghost use Rattle.octo_commands_print.specs.File.{demo_file};
ghost use Rattle.octo_commands_print.specs.declared.file.TheConstants.{MOST_COMMANDS};

use crate::file::demo_file;
use gcode_lines::{FileFault, Job, take_commands};
use std::alloc::{AllocError, Global};

// The only fault that the file of a demo may have.
fn no_memory(fault: FileFault) -> AllocError
    requires { fault ≡ FileFault.NoMemory }
{
    match fault {
        FileFault::NoMemory => AllocError,
        _ => unreachable!(),
    }
}

/// The job of a demo's file of at most 200,000 commands; no line of such a file is refused.
/// Fails if out of memory.
pub fn demo_job(alloc: Global, seed: u32, commands: u32) -> Result<Job, AllocError>
    requires { commands ≤ MOST_COMMANDS }
    ensures { IfOk result (λ job. job_of (demo_file seed commands) ≡ Ok job) }
{
    let file = demo_file(alloc, seed, commands)?;
    match take_commands(alloc, file) {
        Ok(job) => Ok(job),
        Err(fault) => Err(no_memory(fault)),
    }
}
