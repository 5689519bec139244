//! The text that a demo prints.
ghost use Rattle.std.specs.Prelude.{◌≡◌, ◌≤◌, ◌+◌, ◌++◌, codes, decimal, length};
ghost use Rattle.arrayvec.specs.ArrayVec.{array_vec_len};
ghost use Rattle.octo_commands_print.specs.Summary.{summary_of};

use arrayvec::ArrayVec;
use byte_text::append;
use itoa::Buffer;

/// What happened on the link of a demo.
#[derive(Clone, Copy, Debug, PartialEq, Eq)]
pub struct DemoCounts {
    /// The lines that the printer executed in the first session, without the hello; polls count.
    pub executed: u64,
    /// The lines that were sent.
    pub sent: u64,
    /// The lines that were lost or corrupted.
    pub faults: u64,
}

/// A text of at most 256 bytes.
pub type SummaryText = ArrayVec<u8, 256>;

// Adds what is before a number, and the number.
fn append_count(text: &mut SummaryText, before: &[u8], number: u64)
    requires { array_vec_len text.old + length before.now + 20 ≤ 256 }
    ensures items { text.new.items ≡ text.old.items ++ before.now ++ decimal number }
    ensures short { array_vec_len text.new ≤ array_vec_len text.old + length before.now + 20 }
{
    let mut buffer = Buffer::new();
    append(text, before);
    append(text, buffer.format(number).as_bytes());
}

/// The summary of a demo that ends with this status, in five lines.
pub fn summary(seed: u32, commands: u32, counts: &DemoCounts, status: u8) -> SummaryText
    ensures { result.items ≡ summary_of seed commands counts.now status }
{
    let mut text = SummaryText::new();
    append_count(&mut text, b"demo seed ", u64::from(seed));
    append_count(&mut text, b" commands ", u64::from(commands));
    append_count(&mut text, b"\nexecuted ", counts.executed);
    append_count(&mut text, b"\nsent ", counts.sent);
    append_count(&mut text, b"\nfaults ", counts.faults);
    append_count(&mut text, b"\nstatus ", u64::from(status));
    append(&mut text, b"\n");
    text
}
