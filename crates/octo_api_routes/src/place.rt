//! What the paths of the interface mean.
ghost use Rattle.std.specs.Prelude.{◌≡◌, map, OnOk, IfOk};
ghost use Rattle.octo_api_routes.specs.Places.{routes, with_route, rows_of, place_of, ends_part, plain_path};

use crate::ascii::ascii_text;
use matchit::Router;
use std::alloc::{AllocError, Global};

// What a path means.
#[derive(Clone, Copy, Debug, PartialEq, Eq)]
pub(crate) enum Place {
    Version,
    Connection,
    Printer,
    Tool,
    Bed,
    Command,
    Job,
    AllFiles,
    Files,
    File,
    Download,
    Users,
    User,
    Queue,
    Entry,
    OthersEntry,
    NextEntry,
    Prints,
    Backup,
    Shutdown,
    Server,
    Settings,
    Profiles,
    SystemCommands,
    Login,
    Logout,
    CurrentUser,
    Printhead,
}

// Each path, with `{..}` for one of its parts. Source: OctoPrint's REST API; the paths for users, the queue and the prints
// are this project's own.
#[tactic(auto, unfolding(crate::specs::Places::routes))]
fn route_list() -> [(&'static str, Place); 28]
    ensures { map (λ route. (route.0.now, route.1)) result ≡ routes }
{
    [
        ("/api/version", Place::Version),
        ("/api/connection", Place::Connection),
        ("/api/printer", Place::Printer),
        ("/api/printer/tool", Place::Tool),
        ("/api/printer/bed", Place::Bed),
        ("/api/printer/command", Place::Command),
        ("/api/job", Place::Job),
        ("/api/files", Place::AllFiles),
        ("/api/files/local", Place::Files),
        ("/api/files/local/{name}", Place::File),
        ("/downloads/files/local/{name}", Place::Download),
        ("/api/access/users", Place::Users),
        ("/api/access/users/{name}", Place::User),
        ("/api/queue", Place::Queue),
        ("/api/queue/{name}", Place::Entry),
        ("/api/queue/{user}/{name}", Place::OthersEntry),
        ("/api/queue-next", Place::NextEntry),
        ("/api/prints", Place::Prints),
        ("/api/system/commands/core/backup", Place::Backup),
        ("/api/system/commands/core/shutdown", Place::Shutdown),
        ("/api/server", Place::Server),
        ("/api/settings", Place::Settings),
        ("/api/printerprofiles", Place::Profiles),
        ("/api/system/commands", Place::SystemCommands),
        ("/api/login", Place::Login),
        ("/api/logout", Place::Logout),
        ("/api/currentuser", Place::CurrentUser),
        ("/api/printer/printhead", Place::Printhead),
    ]
}

// Adds a route. No two routes of the interface conflict, so only memory can run out.
fn add(router: &mut Router<Place>, route: &str, place: Place) -> Result<(), AllocError>
    ensures { OnOk result (router.new ≡ with_route router.old (route.now, place)) }
{
    match router.insert(route, place) {
        Ok(()) => Ok(()),
        Err(_) => Err(AllocError),
    }
}

// A router of these routes.
fn router_of(alloc: Global, table: &[(&'static str, Place)]) -> Result<Router<Place>, AllocError>
    ensures { IfOk result (λ router. router
        ≡ rows_of (map (λ route. (route.0.now, route.1)) table.now)) }
{
    let mut router = Router::new(alloc);
    for (route, place) in table {
        add(&mut router, *route, *place)?;
    }
    Ok(router)
}

// Whether a part of a path has ended before these bytes: nothing or a slash comes next.
fn ends_part(bytes: &[u8]) -> bool
    ensures { result ≡ ends_part bytes.now }
{
    match bytes {
        [] => true,
        [byte, ..] => *byte == b'/',
    }
}

// A path without its empty parts: each slash is left out that has a slash or nothing after it.
#[tactic(auto, using(crate::proofs::Paths::plain_steps))]
pub(crate) fn plain_path(alloc: Global, path: &[u8]) -> Result<Vec<u8>, AllocError>
    ensures { IfOk result (λ plain. plain.items ≡ plain_path path.now) }
{
    let mut plain = Vec::new(alloc);
    for place in 0..path.len() {
        if path[place] != b'/' || !ends_part(&path[place + 1..]) {
            plain.push(path[place])?;
        }
    }
    Ok(plain)
}

/// The table of the interface's routes. It is made once, and then looked into for each message.
#[derive(Drop)]
pub struct Routes {
    router: Router<Place>,
    ghost whole: { router ≡ rows_of routes },
}

impl Routes {
    /// The table. Fails if out of memory.
    pub fn new(alloc: Global) -> Result<Routes, AllocError> {
        let router = router_of(alloc, &route_list())?;
        Ok(Routes { router })
    }

    // What a path means.
    pub(crate) fn place_of(&self, path: &[u8]) -> Option<Place>
        ensures { result ≡ place_of path.now }
    {
        let text = ascii_text(path)?;
        match self.router.at(text) {
            Ok(found) => Some(*found.value),
            Err(_) => None,
        }
    }
}
