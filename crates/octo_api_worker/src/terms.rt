//! What holds for each connection.
use octo_outside::NameList;

/// What holds for each connection: how patient a worker is with it, and whose pages may read the replies.
#[derive(Drop)]
pub struct Terms {
    /// How many reads of a connection may be quiet.
    pub patience: u32,
    /// The origins whose pages may read the replies of the REST API.
    pub origins: NameList,
}
