//! What a print host is asked.
use crate::{Sought, Upload};
use byte_text::Name;
use octo_access::GroupNames;
use octo_outside::{Blob, ItemList};

/// Texts or keys in a list.
pub type BlobList = ItemList<Blob>;

/// A request, and the key of the caller, which is empty if the message had none.
#[derive(Drop)]
pub struct Ask {
    pub key: Blob,
    pub request: Request,
}

/// A request. Source: OctoPrint's REST API, by the section that is named; the requests for users, the queue and the prints
/// are this project's own.
#[derive(Drop)]
pub enum Request {
    /// Version information.
    Version,
    /// Whom the key names (General information). Everyone may ask.
    Caller,
    /// The state of the connection (Connection handling).
    GetConnection,
    /// To connect to a port, the first one if none is named.
    Connect {
        port: Option<Name>,
    },
    /// To disconnect.
    Disconnect,
    /// The state of the printer and its temperatures (Printer operations).
    GetPrinter,
    /// The greatest temperatures that a command may ask for.
    GetLimits,
    /// To set the target of the tool, in degrees Celsius.
    HeatTool {
        degrees: u16,
    },
    /// To set the target of the bed, in degrees Celsius.
    HeatBed {
        degrees: u16,
    },
    /// To send these command lines, 1 to 256.
    Lines {
        texts: BlobList,
    },
    /// To send these command lines, 1 to 256, unless a print is active.
    Move {
        texts: BlobList,
    },
    /// The selected file and the progress of its print (Job operations).
    GetJob,
    /// To start a print of the selected file.
    Start,
    /// To cancel the print.
    Cancel,
    /// To begin a paused print again.
    Restart,
    /// To pause the print.
    Pause,
    /// To resume the print.
    Resume,
    /// To pause the print, or to resume it if it is paused.
    Toggle,
    /// All files (File operations).
    ListFiles,
    /// One file.
    GetFile {
        name: Name,
    },
    /// To store a file, and to select and print it if that is asked.
    PutFile {
        name: Name,
        file: Upload,
        select: bool,
        print: bool,
    },
    /// To select a file, and to print it if that is asked.
    SelectFile {
        name: Name,
        print: bool,
    },
    /// To delete a file.
    DeleteFile {
        name: Name,
    },
    /// The bytes of a file.
    Download {
        name: Sought,
    },
    /// All users but the admin (Access control).
    ListUsers,
    /// To add a user.
    PutUser {
        name: Name,
        key: Blob,
        groups: GroupNames,
        active: bool,
    },
    /// To change of a user what is given.
    ChangeUser {
        name: Name,
        key: Option<Blob>,
        groups: Option<GroupNames>,
        active: Option<bool>,
    },
    /// The caller's entries of the queue, all entries for one with the permission ADMIN.
    ListQueue,
    /// To add an entry to the queue: a priority of 0 to 100, and 1 to 100 copies.
    PutEntry {
        name: Name,
        file: Name,
        priority: u8,
        copies: u8,
        material: Name,
    },
    /// To take the caller's entry of that name out of the queue.
    DropOwn {
        name: Name,
    },
    /// To take a user's entry of that name out of the queue.
    DropOther {
        user: Name,
        name: Name,
    },
    /// To start one copy of the next entry of the queue.
    NextEntry,
    /// The caller's prints, all prints for one with the permission ADMIN.
    ListPrints,
    /// To write a copy of the database beside it (System).
    Backup,
    /// To shut the host down (System).
    Shutdown,
    /// A worker's own request, which no message has: it asks no more.
    Leave,
    /// The host's own request, which no message has: to connect to its first port.
    AutoConnect,
}
