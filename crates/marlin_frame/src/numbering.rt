//! How the lines of a session are numbered.
//!
//! A printer that restarts expects number 1. If a line of the session carried that number, a restart could have it
//! executed twice. So the hello sets the printer's number to 1, and the lines are numbered from 2.
ghost use Rattle.std.specs.Prelude.{◌≡◌, ◌<◌, ◌≤◌, ◌+◌, ◌^◌, false, length};
ghost use Rattle.byte_text.specs.Marks.{has_byte};
ghost use Rattle.byte_text.specs.declared.texts.TheConstants.{MOST_LINE_BYTES};
ghost use Rattle.marlin_frame.specs.Numbering.{hello_number, wire_number, hello_frame};

use crate::written::frame;
use byte_text::Line;

/// The number to which the hello sets the printer. No line of a session carries it.
///
/// Source: `M110` in Marlin's G-code, and `gcode_LastN` of its queue.cpp, which is 0 after a restart.
pub const HELLO_NUMBER: u32 = 1;

/// The number of the line at a place in its session; places are counted from 1.
pub fn wire_number(place: u32) -> u32
    requires { place + 1 < 2 ^ 32 }
    ensures { result ≡ wire_number place }
{
    place + HELLO_NUMBER
}

/// Writes the hello, `N0 M110 N1*124`, with which a session begins. Nothing of what the line held stays.
#[tactic(auto, unfolding(byte_text::specs::Marks::has_byte))]
pub fn hello_frame(into: &mut Line)
    ensures written { into.new.items ≡ hello_frame }
    ensures at_most_95 { length into.new.items ≤ MOST_LINE_BYTES }
    ensures one_line { has_byte 10 into.new.items ≡ false }
{
    frame(0, b"M110 N1", into);
}
