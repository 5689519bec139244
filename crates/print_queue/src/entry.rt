//! An entry of the queue.
use crate::material::any_material;
use byte_text::Name;
use octo_outside::ItemList;

/// The greatest priority of an entry.
pub const MOST_PRIORITY: u8 = 100;

/// The most copies of an entry.
pub const MOST_COPIES: u8 = 100;

/// An entry of the queue: a file that a user wants printed, some copies of it, on a printer that holds a material.
#[derive(Debug, Drop)]
pub struct QueueEntry {
    pub user: Name,
    /// Its name, which is the user's own: another user may have an entry of the same name.
    pub name: Name,
    pub file: Name,
    /// 0 to 100; a greater one is printed earlier.
    pub priority: u8,
    /// The number of copies that were asked for, 1 to 100.
    pub copies: u8,
    /// The number of copies that were not started yet, 1 to `copies`.
    pub left: u8,
    /// The material that it is printed with; `any` fits every printer.
    pub material: Name,
    /// The number in the order of arrival, which no other entry has.
    pub arrival: u32,
}

/// Entries of a queue.
pub type EntryList = ItemList<QueueEntry>;

impl QueueEntry {
    ghost use Rattle.std.specs.Prelude.{◌≡◌, ◌<◌, ◌-◌, Some};
    ghost use Rattle.print_queue.specs.Rows.{is_before, is_key, is_of, fits};
    ghost use Rattle.print_queue.specs.Calls.{is_same, new_entry};

    // The entry that a put asks for; it has no arrival yet.
    pub(crate) fn new_entry(
        user: &Name,
        name: &Name,
        file: &Name,
        priority: u8,
        copies: u8,
        material: &Name,
    ) -> QueueEntry
        ensures { result ≡ new_entry user.now name.now file.now priority copies material.now }
    {
        QueueEntry {
            user: user.copy(),
            name: name.copy(),
            file: file.copy(),
            priority,
            copies,
            left: copies,
            material: material.copy(),
            arrival: 0,
        }
    }

    /// The same entry again; takes no memory.
    pub fn copy(&self) -> QueueEntry
        ensures { result ≡ self.now }
    {
        QueueEntry {
            user: self.user.copy(),
            name: self.name.copy(),
            file: self.file.copy(),
            priority: self.priority,
            copies: self.copies,
            left: self.left,
            material: self.material.copy(),
            arrival: self.arrival,
        }
    }

    // The entry after one copy of it was started, if others are left.
    pub(crate) fn after_copy(&self) -> QueueEntry
        requires { 1 < self.now.left }
        ensures { result ≡ record self.now { left = self.now.left - 1 } }
    {
        let mut entry = self.copy();
        entry.left -= 1;
        entry
    }

    /// Whether it is printed before another: its priority is greater, or the same and it arrived earlier.
    pub fn is_before(&self, other: &QueueEntry) -> bool
        ensures { result ≡ is_before self.now other.now }
    {
        other.priority < self.priority
            || (self.priority == other.priority && self.arrival < other.arrival)
    }

    /// Whether it is this user's entry of this name.
    pub fn is_key(&self, user: &Name, name: &Name) -> bool
        ensures { result ≡ is_key user.now name.now self.now }
    {
        self.user.is(user) && self.name.is(name)
    }

    /// Whether it is this user's.
    pub fn is_of(&self, user: &Name) -> bool
        ensures { result ≡ is_of (Some user.now) self.now }
    {
        self.user.is(user)
    }

    /// Whether a printer that holds this material can print it: one of the two is `any`, or they are equal.
    pub fn fits(&self, material: &Name) -> bool
        ensures { result ≡ fits material.now self.now }
    {
        let any = any_material();
        self.material.is(&any) || material.is(&any) || self.material.is(material)
    }

    /// Whether another asks for the same: its file, priority, copies and material are equal.
    pub fn is_same(&self, asked: &QueueEntry) -> bool
        ensures { result ≡ is_same self.now asked.now }
    {
        self.file.is(&asked.file)
            && self.priority == asked.priority
            && self.copies == asked.copies
            && self.material.is(&asked.material)
    }
}
