//! The sessions of a floor's printers.
ghost use Rattle.std.specs.Prelude.{◌≡◌, All, IfOk};
ghost use Rattle.octo_floor_bay.specs.Bay.{IsNewSession};
ghost use Rattle.octo_settings.specs.Sound.{IsSettings};
ghost use Rattle.octo_floor_command.specs.Beginning.{floor_sessions};

use byte_text::Name;
use octo_floor::SessionList;
use octo_settings::Settings;
use std::alloc::{AllocError, Global};

// A new session for each printer.
pub(crate) fn sessions_of(
    alloc: Global,
    settings: &Settings,
    ports: &[Name],
) -> Result<SessionList, AllocError>
    requires { IsSettings settings.now }
    ensures sessions { IfOk result
        (λ sessions. sessions ≡ floor_sessions settings.now ports.now) }
    ensures new { IfOk result (All IsNewSession) }
{
    let mut sessions = SessionList::new(alloc);
    for _ in 0..ports.len() {
        sessions.push(settings.session(alloc)?)?;
    }
    Ok(sessions)
}
