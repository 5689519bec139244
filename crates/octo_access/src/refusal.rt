//! Why a user isn't added or changed.
use byte_text::Name;
use thiserror::Error;

/// Why a user isn't added or changed; the first of these that holds, out of memory aside.
#[derive(Debug, Drop, Error)]
pub enum UserRefusal {
    /// He would be in a group that doesn't exist; the first such group.
    #[error("user: group {}: no such group", .group.as_str())]
    BadGroup { group: Name },
    /// There is no user of that name to be changed.
    #[error("user: no such user")]
    NoUser,
    /// The admin or a user has that name.
    #[error("user: the name is taken")]
    NameTaken,
    /// The admin or another user has that key; his name.
    #[error("user: key: it is the key of {}", .name.as_str())]
    KeyTaken { name: Name },
    /// There are 1,000 users.
    #[error("users: {count}, the most")]
    Full { count: u32 },
    /// Out of memory.
    #[error("out of memory")]
    NoMemory,
}
