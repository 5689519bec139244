//! The requests that show rows, or whom a key names.
ghost use Rattle.std.specs.Prelude.{◌≡◌};
ghost use Rattle.octo_house_rules.specs.Known.{whose};
ghost use Rattle.octo_house_rules.specs.Reads.{caller_verdict, caller_shown, guests, list_users_verdict, list_queue_verdict, list_prints_verdict};
ghost use Rattle.octo_house.specs.Answered.{Answers};
ghost use Rattle.octo_house_tables.specs.Counts.{IsPlain};
ghost use Rattle.octo_house.specs.State.{known_of};

use super::House;
use byte_text::Name;
use octo_access::{GroupNames, Permission, UserRow};
use octo_asks::Answer;

// The groups of nobody.
fn guests() -> GroupNames
    ensures { result ≡ guests }
{
    let mut groups = GroupNames::new();
    groups.push(Name::of_short("guests"));
    groups
}

// The name and the groups of whom a key names.
fn caller_shown(user: Option<UserRow>) -> Answer
    ensures shown { result ≡ caller_shown user }
    ensures plain { IsPlain result }
{
    let Some(user) = user else {
        return Answer::Caller {
            name: None,
            groups: guests(),
        };
    };
    let UserRow { name, groups, .. } = user;
    Answer::Caller {
        name: Some(name),
        groups,
    }
}

impl House {
    // Whom a key names.
    pub(super) fn named(&self, key: &[u8]) -> Answer
        ensures done { Answers (caller_verdict key.now (known_of self.now)) result
            self.now self.now }
        ensures plain { IsPlain result }
    {
        caller_shown(self.tables.caller(&self.policy, key))
    }

    // All users but the admin.
    pub(super) fn list_users(&self) -> Answer
        ensures done { Answers (list_users_verdict (known_of self.now)) result self.now self.now }
        ensures plain { IsPlain result }
    {
        match self.tables.shown_users() {
            Ok(users) => Answer::Users { users },
            Err(_) => Answer::NoMemory,
        }
    }

    // Whose rows a user is shown: `None` for all.
    fn whose(&self, user: &UserRow) -> Option<Name>
        ensures { result ≡ whose (known_of self.now) user.now }
    {
        if self.policy.allowed(user, Permission::Admin) {
            return None;
        }
        Some(user.name.copy())
    }

    // The entries of the queue that the user is shown.
    pub(super) fn list_queue(&self, user: &UserRow) -> Answer
        ensures done { Answers
            (list_queue_verdict user.now (known_of self.now)) result self.now self.now }
        ensures plain { IsPlain result }
    {
        match self.tables.shown_entries(&self.whose(user)) {
            Ok(entries) => Answer::Entries { entries },
            Err(_) => Answer::NoMemory,
        }
    }

    // The prints that the user is shown.
    pub(super) fn list_prints(&self, user: &UserRow) -> Answer
        ensures done { Answers
            (list_prints_verdict user.now (known_of self.now)) result self.now self.now }
        ensures plain { IsPlain result }
    {
        match self.tables.shown_prints(&self.whose(user)) {
            Ok(prints) => Answer::Prints { prints },
            Err(_) => Answer::NoMemory,
        }
    }
}
