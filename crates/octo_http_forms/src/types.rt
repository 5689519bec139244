//! What a form's body holds, and why it is refused.
use thiserror::Error;

/// A range of places in a list of bytes: from the first one up to, and without, the second.
#[derive(Clone, Copy, Debug, PartialEq, Eq)]
pub struct Span {
    /// The place of the first byte.
    pub from: usize,
    /// The place after the last byte.
    pub to: usize,
}

/// What the parts of a form say: the last part named `file` with a filename, and the last `path`, `select` and `print`.
#[derive(Clone, Copy, Debug, PartialEq, Eq)]
pub struct Parts {
    /// The filename, as it is written between its quotes.
    pub name: Option<Span>,
    /// The file's content.
    pub file: Option<Span>,
    /// The content of the last part named `path`: the folder in which OctoPrint would store the file.
    pub folder: Option<Span>,
    /// Whether the last part named `select` is `true`, `1`, `yes`, `y` or `on`, in any case of its letters.
    pub select: bool,
    /// Whether the last part named `print` is one of these words, in any case of its letters.
    pub print: bool,
}

/// Why a body has no parts.
#[derive(Clone, Copy, Debug, PartialEq, Eq, Error)]
pub enum PartFault {
    /// The type isn't `multipart/form-data` with a boundary of 1 to 70 bytes.
    #[error("form: no boundary")]
    NoBoundary,
    /// The body has no closing delimiter.
    #[error("form: no closing delimiter")]
    NoClose,
    /// The part that begins at this place has no empty line after its header lines, or no Content-Disposition
    /// `form-data` with a name.
    #[error("form: byte {at}: bad part")]
    BadPart { at: usize },
}
