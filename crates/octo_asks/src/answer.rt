//! What a print host answers.
use crate::shown::{
    Progress, ShownEntry, ShownEntryList, ShownFile, ShownFileList, ShownHeat, ShownPrintList,
    ShownUser, ShownUserList,
};
use byte_text::Name;
use gcode_lines::FileFault;
use job_desk::State;
use octo_access::{GroupNames, Permission};
use octo_outside::{Blob, NameList};

/// Why a print that an upload asks for was not started.
#[derive(Clone, Copy, Debug, PartialEq, Eq)]
pub enum StoredCause {
    /// The keeper failed.
    KeeperFault,
    /// Out of memory.
    NoMemory,
}

/// Why the print that an upload asks for isn't started: what a start of the file would be refused for.
#[derive(Clone, Copy, Debug, PartialEq, Eq)]
pub enum PrintRefusal {
    /// The user lacks a permission.
    Denied { permission: Permission },
    /// The printer isn't operational.
    WrongState { state: State },
    /// A command of the file asks for more degrees than the limit; lines are counted from 1.
    TooHotLine { line: u32, asked: u64, limit: u16 },
    /// This number of records of prints is held, the most.
    Full { count: u32 },
}

/// An answer: the values that a reply shows and no others, or why a request is refused.
#[derive(Drop)]
pub enum Answer {
    /// The version of the host.
    Version,
    /// The user whom the key names, and the groups; without a name those of nobody.
    Caller {
        name: Option<Name>,
        groups: GroupNames,
    },
    /// It was done, and there is nothing to show.
    Accepted,
    /// The port, which is `None` while nothing is connected, the state, and all ports.
    Connection {
        port: Option<Name>,
        state: State,
        ports: NameList,
    },
    /// The state and the temperatures of the heaters that were reported.
    Printer {
        state: State,
        tool: Option<ShownHeat>,
        bed: Option<ShownHeat>,
    },
    /// The greatest temperatures of tool and bed that a command may ask for, in degrees Celsius.
    Limits {
        tool: u16,
        bed: u16,
    },
    /// The selected file, the progress of an active print, and the state.
    Job {
        file: Option<ShownFile>,
        progress: Option<Progress>,
        state: State,
    },
    /// Files by name.
    Files {
        files: ShownFileList,
    },
    /// A file.
    File {
        file: ShownFile,
    },
    /// The bytes of a file.
    Download {
        bytes: Blob,
    },
    /// A file was stored; whether it was also selected, and its print started.
    Uploaded {
        name: Name,
        select: bool,
        print: bool,
    },
    /// A file was stored, and its print, which was asked for, is refused; whether it was selected.
    Unprinted {
        name: Name,
        select: bool,
        refusal: PrintRefusal,
    },
    /// A file was stored and selected, but its print was not started.
    Stored {
        name: Name,
        cause: StoredCause,
    },
    /// Users by name.
    Users {
        users: ShownUserList,
    },
    /// The user that was added.
    User {
        user: ShownUser,
    },
    /// Entries of the queue in their order.
    Entries {
        entries: ShownEntryList,
    },
    /// The entry that was added, or is held already.
    OneEntry {
        entry: ShownEntry,
    },
    /// The entry of which a copy was started, as it was before.
    TakenEntry {
        entry: ShownEntry,
    },
    /// Prints, newest first, at most 100.
    Prints {
        prints: ShownPrintList,
    },
    /// The caller lacks a permission; `None` if the key names nobody.
    Denied {
        permission: Option<Permission>,
    },
    /// The host has no such port, or none at all.
    BadPort,
    /// A line is not one command.
    BadCommand,
    /// There is no such group.
    BadGroup {
        group: Name,
    },
    /// The file has no job; the fault is never out of memory.
    BadFile {
        fault: FileFault,
    },
    /// A command asks for more degrees than the limit.
    TooHot {
        asked: u64,
        limit: u16,
    },
    /// There is no such file.
    NoFile,
    /// There is no such user.
    NoUser,
    /// There is no such entry, or none that fits.
    NoEntry,
    /// The request is not for this state.
    WrongState {
        state: State,
    },
    /// No file is selected.
    NoneSelected,
    /// The file is being printed.
    FileBusy,
    /// A command of the file asks for more degrees than the limit; lines are counted from 1.
    TooHotLine {
        line: u32,
        asked: u64,
        limit: u16,
    },
    /// The name is held: by this entry of the queue, or by a user if there is none.
    NameTaken {
        kept: Option<ShownEntry>,
    },
    /// The key is held by this user.
    KeyTaken {
        name: Name,
    },
    /// This number is held, the most.
    Full {
        count: u32,
    },
    /// The greatest number of arrival is in use.
    ArrivalsUsed,
    /// The keeper failed, and nothing was changed.
    KeeperFault,
    /// The shelf failed, and nothing was changed.
    ShelfFault,
    /// The host has ended; a worker answers so, and never the host.
    Closed,
    /// Out of memory, and nothing was changed.
    NoMemory,
}
