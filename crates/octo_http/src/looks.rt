//! How often the bytes that were read are parsed anew, so that a slow message isn't parsed at each byte.
ghost use Rattle.std.specs.Prelude.{◌≡◌, ◌≢◌, ◌≤◌, true, length, take};

use crate::intake::Came;
use memchr::memmem;

// How many bytes were at hand at the last look, and how many were searched for a mark. Each byte is looked at a bounded
// number of times: a look that finds nothing is repeated at a mark, at a pause, or at twice as many bytes.
#[derive(Drop)]
pub(crate) struct Looks {
    looked: usize,
    searched: usize,
}

impl Looks {
    // No look was taken yet.
    pub(crate) fn new() -> Self {
        Looks {
            looked: 0,
            searched: 0,
        }
    }

    // Whether a mark ends in the bytes that weren't searched yet.
    fn finds(&mut self, bytes: &[u8], mark: &[u8]) -> bool {
        let from = self.searched.min(bytes.len()).saturating_sub(mark.len());
        self.searched = bytes.len();
        memmem::find(&bytes[from..], mark).is_some()
    }

    // Whether to look at the bytes now, at most the first `most` of them.
    pub(crate) fn is_due(&mut self, bytes: &[u8], came: Came, mark: &[u8], most: usize) -> bool
        ensures limit { most ≤ length bytes.now → result ≡ true }
        ensures pause { came ≢ Came.Bytes → result ≡ true }
    {
        let marked = self.finds(bytes, mark);
        let due = marked
            || came != Came::Bytes
            || bytes.len() >= most
            || bytes.len() / 2 >= self.looked;
        if due {
            self.looked = bytes.len();
        }
        due
    }
}

// The first `most` bytes, or all if there are fewer.
pub(crate) fn front_of(bytes: &[u8], most: usize) -> &[u8]
    ensures { result.now ≡ take most bytes.now }
{
    &bytes[..most.min(bytes.len())]
}
