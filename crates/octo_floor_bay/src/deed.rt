//! What a printer of a floor did.
use byte_text::Name;
use gcode_lines::Job;
use job_desk::Note;

/// What was done with a printer.
#[derive(Drop)]
pub enum Deed {
    /// It began to connect to a port.
    Connected { port: Name },
    /// It began to end its connection.
    Disconnected,
    /// It started the print of this number, of a file with these commands.
    Started { file: Name, job: Job, print: u32 },
    /// A turn of its link did this.
    Turned { note: Note },
}
