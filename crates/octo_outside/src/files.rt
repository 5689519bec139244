//! Files of the system.
ghost use Rattle.std.specs.Prelude.{◌≡◌, ◌≤◌, None};

use crate::{Failed, Source};
use std::fs;
use std::io::Read;
use std::rt::Files;

/// Files by their paths. It does not record what they hold.
#[derive(Drop)]
pub struct FileSource<R: Files + Drop>
where
    R::File: Drop,
{
    rt: R,
    file: Option<R::File>,
    faults: u64,
}

impl<R: Files + Drop> FileSource<R>
where
    R::File: Drop,
{
    /// The files that this runtime opens; none is chosen.
    pub fn new(rt: R) -> Self
        ensures { result.faults ≡ 0 }
    {
        FileSource {
            rt,
            file: None,
            faults: 0,
        }
    }
}

impl<R: Files + Drop> Source for FileSource<R>
where
    R::File: Drop,
{
    ghost files = { λ _. None };

    ghost left = { λ _. None };

    ghost faults = { λ s. s.faults };

    fn choose(&mut self, name: &str) -> Result<(), Failed> {
        self.file = fs::open(&self.rt, name).ok();
        if self.file.is_some() {
            return Ok(());
        }
        self.faults = self.faults.saturating_add(1);
        Err(Failed)
    }

    fn read(&mut self, into: &mut [u8]) -> Result<usize, Failed> {
        let Some(file) = &mut self.file else {
            return Ok(0);
        };
        if let Ok(n) = file.read(into) {
            return Ok(n);
        }
        self.faults = self.faults.saturating_add(1);
        Err(Failed)
    }
}
