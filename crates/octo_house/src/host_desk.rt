//! A host's desk.
use marlin_reply::Temps;
use octo_outside::NameList;
use octo_session::Session;
use std::alloc::Global;

/// A host's session with its printer, the ports that there are, and the temperatures that are known.
#[derive(Drop)]
pub struct HostDesk {
    pub alloc: Global,
    pub session: Session,
    pub ports: NameList,
    pub temps: Temps,
}
