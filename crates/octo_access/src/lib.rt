//! Who may do what on a print host: permissions, groups, users and their keys; and which texts are names of print files.
#![tactic(auto)]

mod checks;
mod file_names;
mod groups;
mod names;
mod order;
mod permission;
mod places;
mod policy;
mod refusal;
mod row;
mod users;

pub use checks::MOST_USERS;
pub use file_names::{is_file_name, is_gcode, read_file_name};
pub use groups::{GroupFault, Groups, MOST_GROUPS};
pub use names::{is_among, is_name_byte, read_name};
pub use permission::Permission;
pub use places::{place_for_name, place_of_name};
pub use policy::Policy;
pub use refusal::UserRefusal;
pub use row::{Admin, Digest, GroupNames, UserList, UserRow, copy_names, digest_of};
pub use users::Users;
