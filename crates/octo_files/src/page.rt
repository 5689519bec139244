//! A short text that is put together without memory.
ghost use Rattle.std.specs.Prelude.{◌≡◌, ◌+◌, ◌≤◌, ◌++◌, decimal};
ghost use Rattle.arrayvec.specs.ArrayVec.{array_vec_len};

use arrayvec::ArrayVec;
use byte_text::append_decimal;

// A text of at most 512 bytes, which every report but a file fits in.
pub(crate) type Page = ArrayVec<u8, 512>;

// Adds a number in decimal to a page that has room for 40 more bytes.
pub(crate) fn append_whole(page: &mut Page, number: u64)
    requires { array_vec_len page.old + 40 ≤ 512 }
    ensures items { page.new.items ≡ page.old.items ++ decimal number }
    ensures len { array_vec_len page.new ≤ array_vec_len page.old + 40 }
{
    append_decimal(page, number);
}
