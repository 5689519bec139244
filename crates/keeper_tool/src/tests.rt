//! What the tool does to a keeper, and what it writes.

use crate::add::add_prints;
use crate::carry::carry_out;
use crate::command::Task;
use crate::end::ToolEnd;
use crate::lines::tables_text;
use crate::texts::{write_end, write_path};
use byte_text::Name;
use octo_keeper::{MemoryKeeper, Tables};
use octo_outside::{CallList, MemorySink};
use std::alloc::Global;

const TEXT: &[u8] =
    b"users 0\nentries 0\nprints 1\nprint 1 ana hollow_box.gcode commands 218 done\n";

fn empty_sink(alloc: Global) -> MemorySink {
    MemorySink::new(alloc, CallList::new(alloc))
}

#[test]
fn ample(rt: HostRuntime) {
    let alloc = rt.alloc();
    let mut keeper = MemoryKeeper::new(Tables::empty(alloc), CallList::new(alloc));
    let mut out = empty_sink(alloc);
    assert_eq!(rt;
        add_prints(alloc, &mut keeper, 1),
        ToolEnd::Added { prints: 1 }
    );
    assert_eq!(rt;
        carry_out(alloc, &mut keeper, Task::Show, &mut out),
        ToolEnd::Shown
    );
    assert!(rt; out.written() == Some(TEXT));
}

#[test]
fn ample_path(rt: HostRuntime) {
    let mut out = empty_sink(rt.alloc());
    let path = Name::of_short("a.db");
    assert!(rt; write_path(&mut out, &path, ToolEnd::NotOpened).is_ok());
    assert!(rt; out.written() == Some(b"a.db: ".as_slice()));
}

#[test]
fn ample_texts(rt: HostRuntime) {
    let alloc = rt.alloc();
    let mut out = empty_sink(alloc);
    assert!(rt; write_end(&mut out, ToolEnd::Added { prints: 2 }).is_ok());
    assert!(rt; out.written() == Some(b"added 2 prints\n".as_slice()));
    match tables_text(alloc, &Tables::empty(alloc)) {
        Ok(text) => assert!(rt; text.as_slice() == b"users 0\nentries 0\nprints 0\n".as_slice()),
        Err(_) => panic!(rt; "no memory"),
    }
}
