//! A measure as printed.
ghost use Rattle.std.specs.Prelude.{◌≡◌, ◌+◌, ◌≤◌, ◌++◌, length};
ghost use Rattle.arrayvec.specs.ArrayVec.{array_vec_len};
ghost use Rattle.gcode_measure.specs.Decimal.{micro_text};
ghost use Rattle.gcode_measure.specs.Shown.{count_line, length_line, extent_line, measure_text};

use crate::decimal::micro_digits;
use crate::totals::{Extent, Measure};
use arrayvec::ArrayVec;
use byte_text::{append, append_number};

/// The text of a measure, which needs no memory.
pub type MeasureText = ArrayVec<u8, 512>;

// Adds a number of millionths with six decimals.
fn append_micro(page: &mut MeasureText, micro: i128)
    requires { array_vec_len page.old + 48 ≤ 512 }
    ensures items { page.new.items ≡ page.old.items ++ micro_text micro }
    ensures len { array_vec_len page.new ≤ array_vec_len page.old + 48 }
{
    append(page, micro_digits(micro).as_slice());
}

// Adds a line of a name and a count.
fn append_count(page: &mut MeasureText, name: &[u8], n: u32)
    requires short { length name.now ≤ 9 }
    requires room { array_vec_len page.old + 20 ≤ 512 }
    ensures items { page.new.items ≡ page.old.items ++ count_line name.now n }
    ensures len { array_vec_len page.new ≤ array_vec_len page.old + 20 }
{
    append(page, name);
    append_number(page, n);
    append(page, b"\n");
}

// Adds a line of a name and a length.
fn append_length(page: &mut MeasureText, name: &[u8], micro: i128)
    requires short { length name.now ≤ 6 }
    requires room { array_vec_len page.old + 55 ≤ 512 }
    ensures items { page.new.items ≡ page.old.items ++ length_line name.now micro }
    ensures len { array_vec_len page.new ≤ array_vec_len page.old + 55 }
{
    append(page, name);
    append_micro(page, micro);
    append(page, b"\n");
}

// Adds a line of an axis and its extent, none without one.
fn append_extent(page: &mut MeasureText, name: &[u8], extent: Option<Extent>)
    requires short { length name.now ≤ 2 }
    requires room { array_vec_len page.old + 100 ≤ 512 }
    ensures items { page.new.items ≡ page.old.items ++ extent_line name.now extent }
    ensures len { array_vec_len page.new ≤ array_vec_len page.old + 100 }
{
    let Some(Extent { low, high }) = extent else {
        return;
    };
    append(page, name);
    append_micro(page, low);
    append(page, b" ");
    append_micro(page, high);
    append(page, b"\n");
}

/// A measure as printed: its counts, and its lengths in millimetres with six decimals, each in a line with its name.
#[tactic(auto, unfolding(crate::specs::Shown::measure_text))]
pub fn measure_text(measure: &Measure) -> MeasureText
    ensures { result.items ≡ measure_text measure.now }
{
    let mut page = MeasureText::new();
    append_count(&mut page, b"commands ", measure.commands);
    append_count(&mut page, b"moves ", measure.moves);
    append_length(&mut page, b"fed ", measure.fed);
    append_length(&mut page, b"drawn ", measure.drawn);
    append_extent(&mut page, b"X ", measure.x);
    append_extent(&mut page, b"Y ", measure.y);
    append_extent(&mut page, b"Z ", measure.z);
    page
}
