//! The arguments of a program.
ghost use Rattle.std.specs.Prelude.{◌≡◌};
ghost use Rattle.octo_outside.specs.declared.command_line.ArgumentsFault.TheVariants as fault;

use crate::WordList;
use std::alloc::AllocError;
use std::env;
use std::io::ErrorKind;

/// Why the arguments of the program can't be used.
#[derive(Clone, Copy, Debug, PartialEq, Eq)]
pub enum ArgumentsFault {
    /// An argument isn't UTF-8.
    NotText,
    /// There is no memory for them.
    NoMemory,
}

impl From<AllocError> for ArgumentsFault {
    ghost from_gives = { λ _ e. e ≡ fault.NoMemory };

    fn from(_: AllocError) -> Self {
        ArgumentsFault::NoMemory
    }
}

/// The arguments of the program, without its name. `NotText` if one isn't UTF-8, `NoMemory` if they can't be had for another reason.
pub fn arguments(rt: &HostRuntime) -> Result<WordList, ArgumentsFault> {
    let all = match env::args(rt) {
        Ok(all) => all,
        Err(error) if error.kind() == ErrorKind::InvalidData => return Err(ArgumentsFault::NotText),
        Err(_) => return Err(ArgumentsFault::NoMemory),
    };
    let mut words = WordList::new(rt.alloc());
    for word in all.skip(1) {
        words.push(word.as_str())?;
    }
    Ok(words)
}
