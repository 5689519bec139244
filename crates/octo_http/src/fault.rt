//! Why a message isn't read.
use std::alloc::AllocError;
use thiserror::Error;

/// Why no message was read. After a fault the connection is only written to or given back.
#[derive(Clone, Copy, Debug, PartialEq, Eq, Error)]
pub enum MessageFault {
    /// The head can't become one, or what it says of the body contradicts itself.
    #[error("message: bad head")]
    BadHead,
    /// The head has over 16,384 bytes or over 64 fields.
    #[error("message: head too large")]
    HeadTooLarge,
    /// The body has over 68,157,440 bytes.
    #[error("message: body too large")]
    BodyTooLarge,
    /// A chunk, or the trailers after the last one, are malformed or too long.
    #[error("message: bad chunk")]
    BadChunk,
    /// The input ended inside a message.
    #[error("message: the input ended")]
    Ended,
    /// A call of the connection failed; its count of faults rose.
    #[error("message: the connection failed")]
    ReadFault,
    /// Memory ran out.
    #[error("out of memory")]
    NoMemory,
    /// Nothing came for this number of reads.
    #[error("message: nothing came for {quiet} reads")]
    Slow { quiet: u32 },
}

impl From<AllocError> for MessageFault {
    ghost use Rattle.std.specs.Prelude.{◌≡◌};
    ghost use Rattle.octo_http.specs.declared.fault.MessageFault.TheVariants as fault;

    ghost from_gives = { λ _ e. e ≡ fault.NoMemory };

    fn from(_error: AllocError) -> MessageFault {
        MessageFault::NoMemory
    }
}
