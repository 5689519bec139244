//! What a test sees of an answer.
use super::sums::{active_users, left_sum, newest, size_sum};
use byte_text::Name;
use gcode_lines::FileFault;
use job_desk::State;
use octo_access::{GroupNames, Permission};
use octo_asks::{Answer, PrintRefusal, ShownEntry, ShownFile, StoredCause};
use print_queue::Outcome;

// What came of a step, by its plain values.
#[derive(Clone, Copy, PartialEq, Eq)]
pub(super) enum Seen {
    Accepted,
    // The bytes of the caller's name, if there is one, and those of the first group.
    Caller(Option<usize>, usize),
    // The greatest degrees of tool and bed.
    Limits(u16, u16),
    // The number of ports.
    Connection(usize),
    // The size of the selected file, whether a print is going on, and the state.
    Job(Option<u64>, bool, State),
    // The number of files, and their bytes.
    Files(usize, u64),
    // A file by its size.
    File(u64),
    // The number of bytes.
    Download(usize),
    // Whether the file was selected, and its print started.
    Uploaded(bool, bool),
    Unprinted(bool, PrintRefusal),
    // A file was stored and selected, and its print not started.
    Stored(StoredCause),
    // The number of users, and of those that are active.
    Users(usize, usize),
    // Whether the user is active.
    User(bool),
    // The number of entries, and their copies that are left.
    Entries(usize, u64),
    // An entry by its priority and the copies that are left.
    OneEntry(u8, u8),
    // The copies that were left before.
    TakenEntry(u8),
    // The number of prints, and the newest one's outcome.
    Prints(usize, Option<Outcome>),
    Denied(Option<Permission>),
    BadCommand,
    BadFile(FileFault),
    // The degrees that were asked for, and their limit.
    TooHot(u64, u16),
    NoFile,
    NoUser,
    NoEntry,
    WrongState(State),
    FileBusy,
    // The line, the degrees that it asks for, and their limit.
    TooHotLine(u32, u64, u16),
    // The priority of the entry that holds the name; `None` if a user holds it.
    NameTaken(Option<u8>),
    Full(u32),
    KeeperFault,
    ShelfFault,
    NoMemory,
    // Turns of the link were taken.
    Turned,
    // The same, and the end of a print wasn't written.
    Unwritten,
    Other,
}

pub(super) fn seen_of(answer: &Answer) -> Seen {
    match answer {
        Answer::Accepted => Seen::Accepted,
        Answer::Caller { name, groups } => Seen::Caller(length_of(name), first_length(groups)),
        Answer::Limits { tool, bed } => Seen::Limits(*tool, *bed),
        Answer::Connection { ports, .. } => Seen::Connection(ports.as_slice().len()),
        Answer::Job {
            file,
            progress,
            state,
        } => Seen::Job(size_of(file), progress.is_some(), *state),
        Answer::Files { files } => Seen::Files(files.as_slice().len(), size_sum(files.as_slice())),
        Answer::File { file } => Seen::File(file.size),
        Answer::Download { bytes } => Seen::Download(bytes.as_slice().len()),
        Answer::Uploaded { select, print, .. } => Seen::Uploaded(*select, *print),
        Answer::Unprinted {
            select,
            refusal,
            ..
        } => Seen::Unprinted(*select, *refusal),
        Answer::Stored { cause, .. } => Seen::Stored(*cause),
        Answer::Users { users } => Seen::Users(
            users.as_slice().len(),
            active_users(users.as_slice()),
        ),
        Answer::User { user } => Seen::User(user.active),
        Answer::Entries { entries } => Seen::Entries(
            entries.as_slice().len(),
            left_sum(entries.as_slice()),
        ),
        Answer::OneEntry { entry } => Seen::OneEntry(entry.priority, entry.left),
        Answer::TakenEntry { entry } => Seen::TakenEntry(entry.left),
        Answer::Prints { prints } => Seen::Prints(
            prints.as_slice().len(),
            newest(prints.as_slice()),
        ),
        Answer::Denied { permission } => Seen::Denied(*permission),
        Answer::BadCommand => Seen::BadCommand,
        Answer::BadFile { fault } => Seen::BadFile(*fault),
        Answer::TooHot { asked, limit } => Seen::TooHot(*asked, *limit),
        Answer::NoFile => Seen::NoFile,
        Answer::NoUser => Seen::NoUser,
        Answer::NoEntry => Seen::NoEntry,
        Answer::WrongState { state } => Seen::WrongState(*state),
        Answer::FileBusy => Seen::FileBusy,
        Answer::TooHotLine { line, asked, limit } => Seen::TooHotLine(*line, *asked, *limit),
        Answer::NameTaken { kept } => Seen::NameTaken(priority_of(kept)),
        Answer::Full { count } => Seen::Full(*count),
        Answer::KeeperFault => Seen::KeeperFault,
        Answer::ShelfFault => Seen::ShelfFault,
        Answer::NoMemory => Seen::NoMemory,
        _ => Seen::Other,
    }
}

// What kept a step from its outcome, if memory ran out or a call failed.
pub(super) fn cause_of(seen: Seen) -> &'static str {
    match seen {
        Seen::NoMemory => "out of memory",
        Seen::Stored(StoredCause::NoMemory) => "Stored, NoMemory",
        Seen::KeeperFault | Seen::Stored(StoredCause::KeeperFault) => "keeper failed",
        Seen::ShelfFault => "shelf failed",
        _ => "another outcome",
    }
}

fn size_of(file: &Option<ShownFile>) -> Option<u64> {
    match file {
        Some(file) => Some(file.size),
        None => None,
    }
}

fn length_of(name: &Option<Name>) -> Option<usize> {
    match name {
        Some(name) => Some(name.as_str().len()),
        None => None,
    }
}

fn first_length(groups: &GroupNames) -> usize {
    match groups.as_slice() {
        [first, ..] => first.as_str().len(),
        [] => 0,
    }
}

fn priority_of(entry: &Option<ShownEntry>) -> Option<u8> {
    match entry {
        Some(entry) => Some(entry.priority),
        None => None,
    }
}
