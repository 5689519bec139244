//! What writes the bytes of a file before they are put on a shelf, and reads them before the shelf is asked for them.
use crate::Fetched;
use byte_text::Name;
use std::alloc::Global;

/// What writes bytes beside the files of a shelf, and reads its files, so that a put and a get of them needn't. Who stages has a
/// stager of its own, and so writes and reads while the shelf does other calls.
pub trait Stager {
    ghost use Rattle.std.specs.Prelude.{◌≡◌, ℕ, IfSome};
    ghost use Rattle.octo_keeper.specs.declared.fetched.Fetched.{Fetched};

    /// The number of its part.
    ghost number: { Self → ℕ };

    /// Writes these bytes as its part, in the place of a former one, and has the disk take them. Returns the number with which
    /// they are put, `None` if they can't be written.
    fn stage(&mut self, bytes: &[u8]) -> Option<u8>
        ensures part { IfSome result (λ part. part ≡ number self.old) }
        ensures stays { number self.new ≡ number self.old };

    /// Removes its part, unless that was put.
    fn clear(&mut self)
        ensures stays { number self.new ≡ number self.old };

    /// Reads the file of that name, `None` if it can't be read whole or changes meanwhile. A get to which it is given returns its
    /// bytes, if the file is still the same.
    fn fetch(&mut self, alloc: Global, name: &Name) -> Option<Fetched>
        ensures name { IfSome result (λ fetched. fetched.name ≡ name.now) }
        ensures stays { number self.new ≡ number self.old };
}

/// A stager that writes and reads nothing.
#[derive(Debug, Drop)]
pub struct NoStager {
    number: u8,
}

impl NoStager {
    ghost use Rattle.std.specs.Prelude.{◌≡◌};

    /// The stager of that number.
    pub fn new(number: u8) -> Self
        ensures { result.number ≡ number }
    {
        NoStager { number }
    }
}

impl Stager for NoStager {
    ghost use Rattle.std.specs.Prelude.{◌≡◌, None};

    ghost number = { λ s. s.number };

    fn stage(&mut self, _bytes: &[u8]) -> Option<u8>
        ensures none { result ≡ None }
        ensures stays { self.new ≡ self.old }
    {
        None
    }

    fn clear(&mut self)
        ensures stays { self.new ≡ self.old }
    {}

    fn fetch(&mut self, _alloc: Global, _name: &Name) -> Option<Fetched>
        ensures none { result ≡ None }
        ensures stays { self.new ≡ self.old }
    {
        None
    }
}
