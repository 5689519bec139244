//! The session of a printer by settings.
ghost use Rattle.std.specs.Prelude.{◌≡◌, IfOk};
ghost use Rattle.send_window.specs.Data.{IsSound};
ghost use Rattle.octo_settings.specs.Session.{session_by};
ghost use Rattle.octo_settings.specs.Sound.{IsSettings};

use crate::settings::Settings;
use job_desk::Desk;
use octo_session::Session;
use send_window::Sender;
use std::alloc::{AllocError, Global};

impl Settings {
    /// A new session that sends, polls and keeps its limits as the settings say, with scripts of its own. Fails only if out of
    /// memory.
    pub fn session(&self, alloc: Global) -> Result<Session, AllocError>
        requires { IsSettings self.now }
        ensures session { IfOk result (λ s. s ≡ session_by self.now) }
        ensures sound { IfOk result (λ s. IsSound s.sender) }
    {
        let scripts = self.scripts.copy(alloc)?;
        let numbered = self.numbered_oks;
        let desk = Desk::new(alloc, scripts, self.limits, self.poll_ms, numbered)?;
        let sender = Sender::new(alloc, self.window, numbered, self.limit_ms)?;
        Ok(Session::new(desk, sender))
    }
}
