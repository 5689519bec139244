//! The text of an end, the path in front of it, and writing both.
ghost use Rattle.std.specs.Prelude.{◌≡◌, ◌++◌, codes, decimal, OnOk, OnErr, IsErr};
ghost use Rattle.octo_outside.specs.Recorded.{Adds, AddsPrefix, Counts};
ghost use Rattle.keeper_tool.specs.Ends.{end_text, path_text};

use crate::end::ToolEnd;
use arrayvec::ArrayVec;
use byte_text::{Name, append, append_number, bounded_text};
use octo_outside::{Failed, Sink, write_all};

type EndText = ArrayVec<u8, 64>;

type PathText = ArrayVec<u8, 128>;

fn added_text(prints: u32) -> EndText
    ensures { result.items ≡ codes "added " ++ decimal prints ++ codes " prints\n" }
{
    let mut text = bounded_text(b"added ");
    append_number(&mut text, prints);
    append(&mut text, b" prints\n");
    text
}

fn end_text(end: ToolEnd) -> EndText
    ensures { result.items ≡ end_text end }
{
    match end {
        ToolEnd::Shown | ToolEnd::OutputFailed => EndText::new(),
        ToolEnd::Added { prints } => added_text(prints),
        ToolEnd::BadArguments => bounded_text(b"usage: keeper_tool FILE [prints N]\n"),
        ToolEnd::NumbersUsed => bounded_text(b"the numbers of prints are used up\n"),
        ToolEnd::KeeperFailed => bounded_text(b"the database failed, or its rows don't fit\n"),
        ToolEnd::NotOpened => bounded_text(b"not opened: no database, another schema, or in use\n"),
        ToolEnd::NoMemory => bounded_text(b"no memory\n"),
    }
}

fn path_and_colon(path: &Name) -> PathText
    ensures { result.items ≡ path.now ++ codes ": " }
{
    let mut text = ArrayVec::new();
    append(&mut text, path.as_bytes());
    append(&mut text, b": ");
    text
}

fn path_text(path: &Name, end: ToolEnd) -> PathText
    ensures { result.items ≡ path_text path.now end }
{
    match end {
        ToolEnd::NumbersUsed | ToolEnd::KeeperFailed | ToolEnd::NotOpened => path_and_colon(path),
        _ => PathText::new(),
    }
}

/// Writes what is in front of the text of an end: the path of the database, if the end is about it. After a failed call a
/// prefix of it was written.
pub fn write_path<O: Sink>(out: &mut O, path: &Name, end: ToolEnd) -> Result<(), Failed>
    ensures ok { OnOk result
        (Adds (O.written out.old) (O.written out.new) (path_text path.now end)) }
    ensures err { OnErr result
        (AddsPrefix (O.written out.old) (O.written out.new) (path_text path.now end)) }
    ensures counts { Counts (IsErr result) (O.faults out.old) (O.faults out.new) }
{
    let text = path_text(path, end);
    write_all(out, text.as_slice())
}

/// Writes the text of an end; after a failed call a prefix of it was written.
pub fn write_end<O: Sink>(out: &mut O, end: ToolEnd) -> Result<(), Failed>
    ensures ok { OnOk result (Adds (O.written out.old) (O.written out.new) (end_text end)) }
    ensures err { OnErr result (AddsPrefix (O.written out.old) (O.written out.new) (end_text end)) }
    ensures counts { Counts (IsErr result) (O.faults out.old) (O.faults out.new) }
{
    let text = end_text(end);
    write_all(out, text.as_slice())
}
