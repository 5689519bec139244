//! What the print host and the modelled printer ask of the world outside, in traits, and their forms in memory.
#![tactic(auto)]

mod blob;
mod byte_conn;
mod calls;
mod clock;
mod command_line;
mod conn;
mod files;
mod lists;
mod memory_conn;
mod memory_source;
mod sink;
mod source;
mod system_clock;
mod types;

pub use blob::{Blob, append_line};
pub use byte_conn::ByteConn;
pub use calls::Calls;
pub use clock::{Clock, MemoryClock};
pub use command_line::{ArgumentsFault, arguments};
pub use conn::{Conn, Got, send_all};
pub use files::FileSource;
pub use lists::{CallList, ItemList, NameList, WordList, calls_of};
pub use memory_conn::MemoryConn;
pub use memory_source::{MemoryFile, MemorySource};
pub use sink::{MemorySink, Sink, StdSink, write_all};
pub use source::{ReadAll, Source, read_all};
pub use system_clock::SystemClock;
pub use types::Failed;
