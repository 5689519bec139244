//! The bounded texts that all crates share, and how they are put together without memory.
ghost use Rattle.std.specs.Prelude.{◌≡◌, ◌≤◌, ◌+◌, ◌++◌, length, decimal};
ghost use Rattle.arrayvec.specs.ArrayVec.{array_vec_len};

use arrayvec::ArrayVec;
use itoa::Buffer;

/// How many bytes a command has at most, so that its numbered line fits Marlin's buffer.
pub const MOST_TEXT_BYTES: usize = 79;

/// A command, 1 to 79 bytes if it may be sent.
pub type Text = ArrayVec<u8, MOST_TEXT_BYTES>;

/// How many bytes a line to the printer has at most, without its line end. Source: Marlin's `MAX_CMD_SIZE`, 96.
pub const MOST_LINE_BYTES: usize = 95;

/// A line to the printer without its line end, at most 95 bytes if it may be sent.
pub type Line = ArrayVec<u8, 96>;

/// A line from the printer without its line end, cut to 256 bytes.
pub type ReplyLine = ArrayVec<u8, 256>;

/// Adds bytes to a text that has room for them.
pub fn append<const N: usize>(text: &mut ArrayVec<u8, N>, bytes: &[u8])
    requires { array_vec_len text.old + length bytes.now ≤ N }
    ensures items { text.new.items ≡ text.old.items ++ bytes.now }
    ensures len { array_vec_len text.new ≡ array_vec_len text.old + length bytes.now }
{
    match text.try_extend_from_slice(bytes) {
        Ok(()) => {}
        Err(_) => unreachable!(),
    }
}

/// Adds a number in decimal to a text that has room for its digits.
pub fn append_decimal<const N: usize>(text: &mut ArrayVec<u8, N>, number: u64)
    requires { array_vec_len text.old + length (decimal number) ≤ N }
    ensures items { text.new.items ≡ text.old.items ++ decimal number }
    ensures len { array_vec_len text.new ≡ array_vec_len text.old + length (decimal number) }
{
    let mut buffer = Buffer::new();
    append(text, buffer.format(number).as_bytes());
}

/// Adds a number in decimal to a text that has room for ten digits.
pub fn append_number<const N: usize>(text: &mut ArrayVec<u8, N>, number: u32)
    requires { array_vec_len text.old + 10 ≤ N }
    ensures items { text.new.items ≡ text.old.items ++ decimal number }
    ensures short { array_vec_len text.new ≤ array_vec_len text.old + 10 }
{
    let mut buffer = Buffer::new();
    append(text, buffer.format(number).as_bytes());
}

/// A text of these bytes, for which it has room.
pub fn bounded_text<const N: usize>(bytes: &[u8]) -> ArrayVec<u8, N>
    requires { length bytes.now ≤ N }
    ensures { result.items ≡ bytes.now }
{
    let mut text = ArrayVec::new();
    append(&mut text, bytes);
    text
}
