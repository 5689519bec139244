//! A numbered line, written.
//!
//! Source: Marlin's queue.cpp, line numbers and checksums.
ghost use Rattle.std.specs.Prelude.{◌≡◌, ◌≤◌, ◌+◌, ◌++◌, false, true, length, decimal};
ghost use Rattle.byte_text.specs.Marks.{has_byte, has_m110};
ghost use Rattle.byte_text.specs.declared.texts.TheConstants.{MOST_LINE_BYTES, MOST_TEXT_BYTES};
ghost use Rattle.marlin_frame.specs.Frame.{star, head_of, frame_of, begins_with_n, fails, n_parameter_of, IsNumberedLine};

use byte_text::{Line, append, append_decimal, xor};

/// The greatest number that a line carries here.
pub const LAST_NUMBER: u32 = 2_000_000_000;

// Writes what the checksum is taken of.
fn write_head(n: u32, text: &[u8], into: &mut Line)
    requires { length text.now ≤ MOST_TEXT_BYTES }
    ensures items { into.new.items ≡ head_of n text.now }
    ensures len { length into.new.items ≤ 91 }
{
    into.clear();
    append(into, b"N");
    append_decimal(into, u64::from(n));
    append(into, b" ");
    append(into, text);
}

/// Writes the command into the line under the number, with its checksum. Nothing of what the line held stays.
///
/// The number is at most 2,000,000,000; the command has 1 to 79 bytes, no `*` and no line feed. The line then has
/// at most 95 bytes, and is read back as this number and command if the command holds no `M110`.
pub fn frame(n: u32, text: &[u8], into: &mut Line)
    requires number { n ≤ LAST_NUMBER }
    requires some { 1 ≤ length text.now }
    requires short { length text.now ≤ MOST_TEXT_BYTES }
    requires no_star { has_byte star text.now ≡ false }
    requires no_line_feed { has_byte 10 text.now ≡ false }

    // What is written.
    ensures written { into.new.items ≡ frame_of n text.now }
    ensures at_most_95 { length into.new.items ≤ MOST_LINE_BYTES }
    ensures one_line { has_byte 10 into.new.items ≡ false }

    // How it is read.
    ensures numbered { begins_with_n into.new.items ≡ true }
    ensures whole { fails into.new.items ≡ false }
    ensures n_parameter { n_parameter_of into.new.items ≡ n }
    ensures reads_back { has_m110 text.now ≡ false → IsNumberedLine n text.now into.new.items }
{
    write_head(n, text, into);
    let sum = xor(into.as_slice());
    append(into, b"*");
    append_decimal(into, u64::from(sum));
}
