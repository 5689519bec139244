//! What a reply shows of an answer, by the path.
ghost use Rattle.std.specs.Prelude.{◌≡◌, IfOk};
ghost use Rattle.octo_api_routes.specs.Shown.{shown_at, shown_of};

use crate::place::{Place, Routes, plain_path};
use std::alloc::{AllocError, Global};

/// What a reply shows of an answer.
#[derive(Clone, Copy, Debug, PartialEq, Eq)]
pub enum Shown {
    /// All of it.
    Whole,
    /// In the place of the version: the server.
    Server,
    /// In its place, too: the profile of the printer.
    Profiles,
    /// And the commands of the system.
    SystemCommands,
    /// Of the caller: what a login shows.
    Login,
    /// Of the caller: nothing.
    Logout,
    /// Of the printer: its tool.
    Tool,
    /// Of the printer: its bed.
    Bed,
}

// What the reply at a place shows.
fn shown_at(place: Option<Place>) -> Shown
    ensures { result ≡ shown_at place }
{
    match place {
        Some(Place::Server) => Shown::Server,
        Some(Place::Profiles) => Shown::Profiles,
        Some(Place::SystemCommands) => Shown::SystemCommands,
        Some(Place::Login) => Shown::Login,
        Some(Place::Logout) => Shown::Logout,
        Some(Place::Tool) => Shown::Tool,
        Some(Place::Bed) => Shown::Bed,
        _ => Shown::Whole,
    }
}

/// What the reply at a path shows of an answer. Fails if out of memory.
pub fn shown_of(alloc: Global, routes: &Routes, path: &[u8]) -> Result<Shown, AllocError>
    ensures { IfOk result (λ shown. shown ≡ shown_of path.now) }
{
    let path = plain_path(alloc, path)?;
    Ok(shown_at(routes.place_of(path.as_slice())))
}
