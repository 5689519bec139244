//! The permissions that a request may need.
ghost use Rattle.std.specs.Prelude.{◌≡◌, ◌≤◌, length};
ghost use Rattle.std.specs.List.{find, position_or_len};
ghost use Rattle.octo_access.specs.Permissions.{permission_name, has_name, all_permissions, permission_named, grants};

/// What a user may be permitted. Source: OctoPrint's documentation of access control, permissions; which of them there are is this
/// project's own choice.
#[derive(Clone, Copy, Debug, PartialEq, Eq, Default)]
pub enum Permission {
    /// To see the state of the printer, the job and the prints.
    #[default]
    Status,
    /// To connect and to disconnect.
    Connection,
    /// To start, pause and cancel prints.
    Print,
    /// To heat and to send commands.
    Control,
    /// To list files.
    FilesList,
    /// To upload files.
    FilesUpload,
    /// To download files.
    FilesDownload,
    /// To delete files.
    FilesDelete,
    /// To select a file and to keep a queue.
    FilesSelect,
    /// To shut the host down.
    System,
    /// All of these, and to change users.
    Admin,
}

// Each permission once.
#[tactic(auto, unfolding(crate::specs::Permissions::all_permissions))]
fn all() -> [Permission; 11]
    ensures { result ≡ all_permissions }
{
    [
        Permission::Status,
        Permission::Connection,
        Permission::Print,
        Permission::Control,
        Permission::FilesList,
        Permission::FilesUpload,
        Permission::FilesDownload,
        Permission::FilesDelete,
        Permission::FilesSelect,
        Permission::System,
        Permission::Admin,
    ]
}

impl Permission {
    /// The name, as `FILES_LIST`.
    pub fn name(self) -> &'static str
        ensures { result.now ≡ permission_name self }
    {
        match self {
            Permission::Status => "STATUS",
            Permission::Connection => "CONNECTION",
            Permission::Print => "PRINT",
            Permission::Control => "CONTROL",
            Permission::FilesList => "FILES_LIST",
            Permission::FilesUpload => "FILES_UPLOAD",
            Permission::FilesDownload => "FILES_DOWNLOAD",
            Permission::FilesDelete => "FILES_DELETE",
            Permission::FilesSelect => "FILES_SELECT",
            Permission::System => "SYSTEM",
            Permission::Admin => "ADMIN",
        }
    }

    fn has_name(self, text: &str) -> bool
        ensures { result ≡ has_name text.now self }
    {
        self.name() == text
    }

    /// The permission of that name.
    pub fn from_name(text: &str) -> Option<Permission>
        ensures { result ≡ permission_named text.now }
    {
        find_named(&all(), text)
    }
}

// The place of the permission of that name, the number of permissions if there is none.
fn place_in(permissions: &[Permission], text: &str) -> usize
    ensures place { result ≡ position_or_len (has_name text.now) permissions.now }
    ensures within { result ≤ length permissions.now }
{
    permissions
        .iter()
        .take_while(|permission| !permission.has_name(text))
        .count()
}

// The first of the permissions that has that name.
#[tactic(auto, using(std::proofs::lemmas::List::Folds::find_at, std::proofs::lemmas::Option::slice_get_past))]
fn find_named(permissions: &[Permission], text: &str) -> Option<Permission>
    ensures { result ≡ find (has_name text.now) permissions.now }
{
    let place = place_in(permissions, text);
    if place == permissions.len() {
        return None;
    }
    Some(permissions[place])
}

// Whether a list of permissions grants one: it has it, or it has ADMIN.
pub(crate) fn grants(permissions: &[Permission], wanted: Permission) -> bool
    ensures { result ≡ grants wanted permissions.now }
{
    permissions.iter().any(|permission| *permission == wanted || *permission == Permission::Admin)
}
