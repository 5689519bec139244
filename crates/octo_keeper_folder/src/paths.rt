//! The paths of the files on a shelf.
ghost use Rattle.std.specs.Prelude.{◌≡◌, ◌≤◌, ◌++◌, codes, decimal, length};
ghost use Rattle.octo_keeper_folder.specs.Paths.{path_in, part_in, former_in, removed_in};

use arrayvec::ArrayString;
use byte_text::Name;
use itoa::Buffer;

// The path of a file: a folder and a name, of at most 100 bytes each, and an ending.
pub(crate) type FilePath = ArrayString<206>;

// What the name of a file that isn't written whole yet ends with.
pub(crate) const PART: &str = ".part";

// The path of a file in a folder, with an ending of at most five bytes.
pub(crate) fn path_in(folder: &Name, name: &Name, ending: &str) -> FilePath
    requires { length ending.now ≤ 5 }
    ensures { result.bytes ≡ path_in folder.now name.now ending.now }
{
    let mut path = FilePath::new();
    path.push_str(folder.as_str());
    path.push_str("/");
    path.push_str(name.as_str());
    path.push_str(ending);
    path
}

// The path of a folder's file that has a name of its own and a number.
fn numbered_in(folder: &Name, name: &str, number: u8) -> FilePath
    requires { length name.now ≤ 9 }
    ensures { result.bytes ≡ folder.now ++ name.now ++ decimal number }
{
    let mut digits = Buffer::new();
    let mut path = FilePath::new();
    path.push_str(folder.as_str());
    path.push_str(name);
    path.push_str(digits.format(number));
    path
}

// The path of a stager's part in a folder.
pub(crate) fn part_in(folder: &Name, number: u8) -> FilePath
    ensures { result.bytes ≡ part_in folder.now number }
{
    numbered_in(folder, "/.part-", number)
}

// The path of the file that a stager's part has replaced.
pub(crate) fn former_in(folder: &Name, number: u8) -> FilePath
    ensures { result.bytes ≡ former_in folder.now number }
{
    numbered_in(folder, "/.former-", number)
}

// The path of the file that was removed last, in a folder.
pub(crate) fn removed_in(folder: &Name) -> FilePath
    ensures { result.bytes ≡ removed_in folder.now }
{
    let mut path = FilePath::new();
    path.push_str(folder.as_str());
    path.push_str("/.removed");
    path
}
