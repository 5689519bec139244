//! What tests ask for.
use byte_text::Name;
use job_desk::State;
use octo_asks::{BlobList, Request, Sought, Upload};
use octo_outside::{Blob, ItemList};
use std::alloc::Global;
use std::process::Abort;

// What is asked for. Each file is `a.gcode`.
#[derive(Clone, Copy)]
pub(super) enum Wish {
    // No ask: turns of the link, one at least, until the desk is in this state.
    Until(State),
    Connect,
    Disconnect,
    Connection,
    Version,
    Job,
    Start,
    Cancel,
    Restart,
    Pause,
    Resume,
    Toggle,
    // The line.
    Line(&'static [u8]),
    // The line that moves the printer by hand.
    Move(&'static [u8]),
    Caller,
    Limits,
    AutoConnect,
    // The degrees.
    HeatTool(u16),
    HeatBed(u16),
    // The text of the file, and whether it is to be printed.
    Upload(&'static [u8], bool),
    // Whether it is to be printed.
    Select(bool),
    Delete,
    Show,
    Download,
    Files,
    // The name of an entry, its priority, its copies and their material.
    Put(&'static str, u8, u8, &'static str),
    // The name of an entry.
    Drop(&'static str),
    Next,
    Queue,
    Prints,
    Users,
    // To add a user of this name.
    AddUser(&'static str),
    // To switch tom off.
    SwitchOff,
    Backup,
    Shutdown,
    Leave,
}

// The request of a wish.
pub(super) fn request_of(rt: &impl Abort, alloc: Global, wish: Wish) -> Request {
    match wish {
        Wish::Line(text) => Request::Lines {
            texts: line(rt, alloc, text),
        },
        Wish::Move(text) => Request::Move {
            texts: line(rt, alloc, text),
        },
        Wish::Upload(text, print) => upload(rt, alloc, text, print),
        Wish::Put(entry, priority, copies, material) => put(rt, entry, priority, copies, material),
        Wish::Drop(entry) => Request::DropOwn {
            name: Name::from_text(entry).expect(rt, "a long name"),
        },
        Wish::Select(print) => Request::SelectFile {
            name: file(rt),
            print,
        },
        Wish::Delete => Request::DeleteFile { name: file(rt) },
        Wish::Show => Request::GetFile { name: file(rt) },
        Wish::Download => Request::Download {
            name: Sought::new(file(rt)),
        },
        Wish::AddUser(name) => added_user(rt, alloc, name),
        Wish::SwitchOff => switched_off(rt),
        _ => plain_request(wish),
    }
}

fn plain_request(wish: Wish) -> Request {
    match wish {
        Wish::Connect => Request::Connect { port: None },
        Wish::Disconnect => Request::Disconnect,
        Wish::Connection => Request::GetConnection,
        Wish::Job => Request::GetJob,
        Wish::Start => Request::Start,
        Wish::Cancel => Request::Cancel,
        Wish::Restart => Request::Restart,
        Wish::Pause => Request::Pause,
        Wish::Resume => Request::Resume,
        Wish::Toggle => Request::Toggle,
        Wish::HeatTool(degrees) => Request::HeatTool { degrees },
        Wish::HeatBed(degrees) => Request::HeatBed { degrees },
        Wish::Files => Request::ListFiles,
        Wish::Next => Request::NextEntry,
        Wish::Queue => Request::ListQueue,
        Wish::Prints => Request::ListPrints,
        Wish::Users => Request::ListUsers,
        Wish::Backup => Request::Backup,
        Wish::Shutdown => Request::Shutdown,
        Wish::Leave => Request::Leave,
        Wish::Caller => Request::Caller,
        Wish::Limits => Request::GetLimits,
        Wish::AutoConnect => Request::AutoConnect,
        _ => Request::Version,
    }
}

fn line(rt: &impl Abort, alloc: Global, text: &[u8]) -> BlobList {
    let mut texts = ItemList::new(alloc);
    assert!(rt;
        texts
            .push(Blob::from_slice(alloc, text).expect(rt, "no memory"))
            .is_ok()
    );
    texts
}

fn file(rt: &impl Abort) -> byte_text::Name {
    Name::from_text("a.gcode").expect(rt, "a long name")
}

fn upload(rt: &impl Abort, alloc: Global, text: &[u8], print: bool) -> Request {
    Request::PutFile {
        name: file(rt),
        file: Upload::read(alloc, text).expect(rt, "no memory"),
        select: false,
        print,
    }
}

fn put(rt: &impl Abort, entry: &str, priority: u8, copies: u8, material: &str) -> Request {
    Request::PutEntry {
        name: Name::from_text(entry).expect(rt, "a long name"),
        file: file(rt),
        priority,
        copies,
        material: Name::from_text(material).expect(rt, "a long name"),
    }
}

// A user of this name with tom's key.
fn added_user(rt: &impl Abort, alloc: Global, name: &str) -> Request {
    let mut groups = arrayvec::ArrayVec::new();
    groups.push(Name::from_text("users").expect(rt, "a long name"));
    Request::PutUser {
        name: Name::from_text(name).expect(rt, "a long name"),
        key: Blob::from_slice(alloc, b"tom-key-0123456789").expect(rt, "no memory"),
        groups,
        active: true,
    }
}

fn switched_off(rt: &impl Abort) -> Request {
    Request::ChangeUser {
        name: Name::from_text("tom").expect(rt, "a long name"),
        key: None,
        groups: None,
        active: Some(false),
    }
}
