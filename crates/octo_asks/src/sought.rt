//! A file that is to be downloaded.
ghost use Rattle.std.specs.Prelude.{◌≡◌};

use byte_text::Name;
use octo_keeper::Fetched;
use std::marker::Model;

/// The name of a file that is to be downloaded, and the file itself if it was read ahead, so that the host needn't read it. A
/// contract sees its name alone.
#[derive(Drop)]
pub struct Sought {
    name: Name,
    // The file, if a stager has read it.
    fetched: Option<Fetched>,
}

impl Model for Sought {
    ghost use Rattle.std.specs.Prelude.{ℕ, List};

    ghost Value = { List ℕ };

    ghost view = { λ s. s.name };
}

impl Sought {
    /// A file of this name, which isn't read yet.
    pub fn new(name: Name) -> Self
        ensures { result ≡ name }
    {
        Sought {
            name,
            fetched: None,
        }
    }

    /// The name.
    pub fn name(&self) -> &Name
        ensures { result.now ≡ self.now }
    {
        &self.name
    }

    /// Notes the file that a stager has read.
    pub fn set_fetched(&mut self, fetched: Option<Fetched>)
        ensures { self.new ≡ self.old }
    {
        self.fetched = fetched;
    }

    /// The name, and the file if a stager has read it.
    pub fn into_parts(self) -> (Name, Option<Fetched>)
        ensures { result.0 ≡ self }
    {
        let Sought { name, fetched } = self;
        (name, fetched)
    }

    /// The same name again, whose file isn't read yet.
    pub fn copy(&self) -> Self
        ensures { result ≡ self.now }
    {
        Sought::new(self.name.copy())
    }
}
