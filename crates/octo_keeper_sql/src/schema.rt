//! The texts of the database's schema.

/// The number of the schema that is kept; `INSERT_SCHEMA` and `UPDATE_SCHEMA` write it.
pub const SCHEMA_NUMBER: i64 = 2;

/// The number of the schema before: its queue has neither copies nor materials.
pub const FORMER_SCHEMA_NUMBER: i64 = 1;

/// Makes the table with the schema's number, unless it exists.
pub const CREATE_META: &str = "CREATE TABLE IF NOT EXISTS meta (schema INTEGER NOT NULL)";

/// Makes the table of users.
pub const CREATE_USERS: &str =
    "CREATE TABLE users (name TEXT PRIMARY KEY, digest BLOB NOT NULL UNIQUE, groups TEXT NOT NULL, active INTEGER NOT NULL)";

/// Makes the table of the queue's entries.
pub const CREATE_ENTRIES: &str =
    "CREATE TABLE entries (user TEXT NOT NULL, name TEXT NOT NULL, file TEXT NOT NULL, priority INTEGER NOT NULL, arrival INTEGER NOT NULL UNIQUE, copies INTEGER NOT NULL, remaining INTEGER NOT NULL, material TEXT NOT NULL, PRIMARY KEY (user, name))";

/// Makes the table of the records of prints.
pub const CREATE_PRINTS: &str =
    "CREATE TABLE prints (number INTEGER PRIMARY KEY, user TEXT NOT NULL, file TEXT NOT NULL, commands INTEGER NOT NULL, outcome INTEGER NOT NULL)";

/// The schema's number.
pub const SELECT_SCHEMA: &str = "SELECT schema FROM meta";

/// Adds the schema's number.
pub const INSERT_SCHEMA: &str = "INSERT INTO meta (schema) VALUES (2)";

/// Sets the schema's number.
pub const UPDATE_SCHEMA: &str = "UPDATE meta SET schema = 2";

/// The queue of the schema before, by arrival.
pub const SELECT_OLD_QUEUE: &str =
    "SELECT user, name, file, priority, arrival FROM queue ORDER BY arrival";

/// Drops that queue.
pub const DROP_OLD_QUEUE: &str = "DROP TABLE queue";

/// All users, by name.
pub const SELECT_USERS: &str = "SELECT name, digest, groups, active FROM users ORDER BY name";

/// Adds a user.
pub const INSERT_USER: &str =
    "INSERT INTO users (name, digest, groups, active) VALUES (?1, ?2, ?3, ?4)";

/// Sets the row of a user's name.
pub const UPDATE_USER: &str =
    "UPDATE users SET digest = ?2, groups = ?3, active = ?4 WHERE name = ?1";

/// All entries: greatest priority first, then least arrival.
pub const SELECT_ENTRIES: &str =
    "SELECT user, name, file, priority, arrival, copies, remaining, material FROM entries ORDER BY priority DESC, arrival";

/// Adds an entry.
pub const INSERT_ENTRY: &str =
    "INSERT INTO entries (user, name, file, priority, arrival, copies, remaining, material) VALUES (?1, ?2, ?3, ?4, ?5, ?6, ?7, ?8)";

/// Takes a user's entry of a name out.
pub const DELETE_ENTRY: &str = "DELETE FROM entries WHERE user = ?1 AND name = ?2";

/// Takes such an entry out if at most one copy is left.
pub const DELETE_LAST_COPY: &str =
    "DELETE FROM entries WHERE user = ?1 AND name = ?2 AND remaining <= 1";

/// Leaves such an entry one copy less.
pub const LOWER_COPIES: &str =
    "UPDATE entries SET remaining = remaining - 1 WHERE user = ?1 AND name = ?2";

/// All print records, by number.
pub const SELECT_PRINTS: &str =
    "SELECT number, user, file, commands, outcome FROM prints ORDER BY number";

/// Adds a print record.
pub const INSERT_PRINT: &str =
    "INSERT INTO prints (number, user, file, commands, outcome) VALUES (?1, ?2, ?3, ?4, ?5)";

/// Ends the print of a number.
pub const END_PRINT: &str = "UPDATE prints SET outcome = ?2 WHERE number = ?1";
