//! A file's bytes, read line by line.
ghost use Rattle.std.specs.Prelude.{◌≡◌, ◌⊎◌, IfOk, MatchResult};
ghost use Rattle.gcode_lines.specs.Job.{texts_of, AllSendable};
ghost use Rattle.gcode_lines.specs.Commands.{job_of};
ghost use Rattle.gcode_lines.specs.Found.{AreFound, IsRefused};

use crate::fault::FileFault;
use crate::job::Job;
use crate::line::first_line;
use crate::places::Places;
use octo_outside::Blob;
use std::alloc::{AllocError, Global};

/// The most bytes of a file.
pub const MOST_FILE_BYTES: usize = 67_108_864;

// Where the commands of a file are, or why there are none.
fn find_commands(alloc: Global, bytes: &[u8]) -> Result<Places, FileFault>
    ensures { MatchResult result (AreFound bytes.now) (IsRefused bytes.now) }
{
    if bytes.len() > MOST_FILE_BYTES {
        return Err(FileFault::TooLarge {
            bytes: bytes.len() as u64,
        });
    }
    let mut places = Places::new(alloc);
    let mut at = 0;
    let mut number = 0;
    while at < bytes.len() {
        let line = first_line(&bytes[at..]);
        number += 1;
        places.read_line(line, number, at)?;
        at += line.bytes.len() + 1;
    }
    Ok(places)
}

/// The commands of a file of at most 67,108,864 bytes, which the job keeps as they are. Lines that are empty without
/// their comments or hold `M110` are counted as skipped. The first line whose text has over 79 bytes or a control byte
/// refuses the file; NoMemory may come at any point. A file that is refused is dropped.
pub fn take_commands(alloc: Global, bytes: Blob) -> Result<Job, FileFault>
    ensures exact { (result ≡ Err FileFault.NoMemory) ⊎ (result ≡ job_of bytes) }
    ensures sendable { IfOk result (λ job. AllSendable (texts_of job)) }
{
    let places = find_commands(alloc, bytes.as_slice())?;
    Ok(Job::new(bytes, places))
}

/// The commands of a copy of these bytes, as `take_commands` finds them; NoMemory also if they can't be copied.
pub fn read_commands(alloc: Global, bytes: &[u8]) -> Result<Job, FileFault>
    ensures exact { (result ≡ Err FileFault.NoMemory) ⊎ (result ≡ job_of bytes.now) }
    ensures sendable { IfOk result (λ job. AllSendable (texts_of job)) }
{
    match Blob::from_slice(alloc, bytes) {
        Ok(bytes) => take_commands(alloc, bytes),
        Err(AllocError) => Err(FileFault::NoMemory),
    }
}
