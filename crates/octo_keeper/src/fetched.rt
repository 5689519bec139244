//! A file that was read before a shelf is asked for it.
ghost use Rattle.std.specs.Prelude.{◌≡◌, IfSome};

use byte_text::Name;
use octo_outside::Blob;

/// What tells one content of a file from a later one: the file itself, its size in bytes, and when its content and its state
/// changed last, in seconds and nanoseconds since 1970. Source: POSIX.1-2017, `sys/stat.h`.
#[derive(Clone, Copy, Debug, PartialEq, Eq)]
pub struct FileMark {
    pub device: u64,
    pub inode: u64,
    pub size: u64,
    pub modified: i64,
    pub modified_nanos: i64,
    pub changed: i64,
    pub changed_nanos: i64,
}

/// The bytes of a file, with the mark that the file had before and after they were read.
#[derive(Drop)]
pub struct Fetched {
    pub name: Name,
    pub mark: FileMark,
    pub bytes: Blob,
}

impl Fetched {
    /// The bytes, if they were read under this name and the file has that mark now; else `None`.
    pub fn bytes_of(self, name: &Name, mark: FileMark) -> Option<Blob>
        ensures taken { IfSome result (λ bytes. bytes ≡ self.bytes) }
        ensures name { IfSome result (λ _. name.now ≡ self.name) }
        ensures mark { IfSome result (λ _. mark ≡ self.mark) }
        ensures given { name.now ≡ self.name → mark ≡ self.mark → result ≡ Some self.bytes }
    {
        if self.name.is(name) && self.mark == mark {
            Some(self.bytes)
        } else {
            None
        }
    }
}
