//! Why JSON isn't read as what a form takes.
use std::alloc::AllocError;

/// Why JSON isn't read. What is wrong with it is found afterwards.
#[derive(Clone, Copy, Debug, PartialEq, Eq)]
pub enum Unread {
    /// It isn't what the form takes.
    Wrong,
    /// Memory ran out.
    NoMemory,
}

impl From<AllocError> for Unread {
    ghost use Rattle.std.specs.Prelude.{◌≡◌};
    ghost use Rattle.octo_api_commands.specs.declared.unread.Unread.TheVariants as unread;

    ghost from_gives = { λ _ e. e ≡ unread.NoMemory };

    fn from(_error: AllocError) -> Unread {
        Unread::NoMemory
    }
}
