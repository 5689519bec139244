//! A file that is to be stored.
ghost use Rattle.std.specs.Prelude.{◌≡◌, ◌⊎◌, true, Ok, Err, IfOk};
ghost use Rattle.gcode_lines.specs.Commands.{job_of};
ghost use Rattle.gcode_lines.specs.Job.{JobData};

use gcode_lines::{FileFault, Job, read_commands};
use octo_outside::Blob;
use std::alloc::{AllocError, Global};
use std::marker::Model;

// A file that has no job, and why.
#[derive(Drop)]
pub(crate) struct RefusedFile {
    bytes: Blob,
    fault: FileFault,
}

/// A file that is to be stored. Its commands were looked for when it was made, and perhaps it was written beside the files, so
/// that the host does neither. A contract sees its bytes alone.
#[derive(Drop)]
pub struct Upload {
    read: Result<Job, RefusedFile>,
    // The part in which its bytes are written already.
    part: Option<u8>,
}

impl Model for Upload {
    ghost use Rattle.std.specs.Prelude.{ℕ, List};
    ghost use Rattle.octo_asks.specs.Uploads.{bytes_of_read, IsRead};

    ghost Value = { List ℕ };

    ghost view = { λ u. bytes_of_read u.read };

    ghost invariant = { λ u. IsRead u.read };
}

impl Upload {
    /// A file of these bytes, which isn't written yet. Fails if out of memory.
    pub fn read(alloc: Global, bytes: &[u8]) -> Result<Self, AllocError>
        ensures { IfOk result (λ upload. upload ≡ bytes.now) }
    {
        match read_commands(alloc, bytes) {
            Ok(job) => Ok(Upload {
                read: Ok(job),
                part: None,
            }),
            Err(fault) => Ok(Upload {
                read: Err(RefusedFile {
                    bytes: Blob::from_slice(alloc, bytes)?,
                    fault,
                }),
                part: None,
            }),
        }
    }

    /// The bytes.
    pub fn bytes(&self) -> &[u8]
        ensures { result.now ≡ self.now }
    {
        match &self.read {
            Ok(job) => job.text(),
            Err(refused) => refused.bytes.as_slice(),
        }
    }

    /// Whether it has a job, as every file that is stored.
    pub fn has_job(&self) -> bool
        ensures { result ≡ true → (job : JobData) × (job_of self.now ≡ Ok job) }
    {
        self.read.is_ok()
    }

    /// The number of the part in which a stager has written the bytes, if one has.
    pub fn part(&self) -> Option<u8> {
        self.part
    }

    /// Notes the part in which a stager has written the bytes.
    pub fn set_part(&mut self, part: Option<u8>)
        ensures { self.new ≡ self.old }
    {
        self.part = part;
    }

    /// The commands, as `take_commands` finds them.
    pub fn into_job(self) -> Result<Job, FileFault>
        ensures exact { (result ≡ Err FileFault.NoMemory) ⊎ (result ≡ job_of self) }
        ensures bytes { IfOk result (λ job. job.file ≡ self) }
    {
        let Upload { read, .. } = self;
        match read {
            Ok(job) => Ok(job),
            Err(refused) => Err(refused.fault),
        }
    }

    /// The same file again, which isn't written yet. Fails if out of memory.
    pub fn copy(&self, alloc: Global) -> Result<Self, AllocError>
        ensures { IfOk result (λ copy. copy ≡ self.now) }
    {
        Upload::read(alloc, self.bytes())
    }
}
