//! Users are added and changed.
ghost use Rattle.std.specs.Prelude.{◌≡◌};
ghost use Rattle.octo_access.specs.Rows.{IsUserTable};
ghost use Rattle.octo_house_rules.specs.Known.{Known};
ghost use Rattle.octo_house_rules.specs.Rows.{put_user_verdict, change_user_verdict, replace_verdict, new_user};
ghost use Rattle.octo_house_rules.specs.Verdict.{IsDone};
ghost use Rattle.octo_house_tables.specs.Data.{over};
ghost use Rattle.octo_house_tables.specs.Done.{TablesDone};

use super::HostTables;
use crate::{
    answer_of_keeper_fault, answer_of_user_refusal, changed_user, new_user, nobody, user_named,
};
use byte_text::Name;
use octo_access::{GroupNames, Policy, UserRow};
use octo_asks::{Answer, ShownUser};
use octo_keeper::{Change, Keeper};
use octo_outside::Blob;

impl HostTables {
    /// Adds a user with this key.
    pub fn put_user<K: Keeper>(
        &mut self,
        keeper: &mut K,
        policy: &Policy,
        name: &Name,
        key: &Blob,
        groups: &GroupNames,
        active: bool,
    ) -> Answer
        ensures done { (k : Known) → k.policy ≡ policy.now → IsDone
            (put_user_verdict (new_user name.now key.now groups.now active) (over k self.old))
            result (over k self.old) (over k self.new) }
        ensures rest { TablesDone (K.state keeper.old) (K.state keeper.new)
            result self.old self.new }
    {
        self.put_user_row(keeper, policy, &new_user(name, key, groups, active))
    }

    // Adds a user's row; if the keeper can't write it, it is taken back.
    fn put_user_row<K: Keeper>(&mut self, keeper: &mut K, policy: &Policy, row: &UserRow) -> Answer
        ensures done { (k : Known) → k.policy ≡ policy.now → IsDone
            (put_user_verdict row.now (over k self.old)) result
            (over k self.old) (over k self.new) }
        ensures rest { TablesDone (K.state keeper.old) (K.state keeper.new)
            result self.old self.new }
    {
        if let Err(refusal) = self.users.put(row, policy) {
            return answer_of_user_refusal(&refusal);
        }
        match keeper.commit(self.alloc, &Change::PutUser(row.copy())) {
            Ok(()) => Answer::User {
                user: ShownUser::of(row),
            },
            Err(fault) => {
                self.users.take_back(&row.name);
                answer_of_keeper_fault(fault)
            }
        }
    }

    /// Changes of a user what is given.
    pub fn change_user<K: Keeper>(
        &mut self,
        keeper: &mut K,
        policy: &Policy,
        name: &Name,
        key: &Option<Blob>,
        groups: &Option<GroupNames>,
        active: Option<bool>,
    ) -> Answer
        ensures done { (k : Known) → k.policy ≡ policy.now → IsDone
            (change_user_verdict name.now key.now groups.now active (over k self.old))
            result (over k self.old) (over k self.new) }
        ensures rest { TablesDone (K.state keeper.old) (K.state keeper.new)
            result self.old self.new }
    {
        let Some(former) = user_named(self.users.rows(), name) else {
            let row = changed_user(&nobody(name), key, groups, active);
            return self.set_user_row(keeper, policy, &row);
        };
        self.set_user_row(keeper, policy, &changed_user(&former, key, groups, active))
    }

    // Replaces the row of the same name; if the keeper can't write the new one, the former one is put back.
    fn set_user_row<K: Keeper>(&mut self, keeper: &mut K, policy: &Policy, row: &UserRow) -> Answer
        requires { IsUserTable self.old.users }
        ensures done { (k : Known) → k.policy ≡ policy.now → IsDone
            (replace_verdict row.now (over k self.old)) result (over k self.old) (over k self.new) }
        ensures rest { TablesDone (K.state keeper.old) (K.state keeper.new)
            result self.old self.new }
    {
        let former = match self.users.change(row, policy) {
            Ok(former) => former,
            Err(refusal) => return answer_of_user_refusal(&refusal),
        };
        match keeper.commit(self.alloc, &Change::SetUser(row.copy())) {
            Ok(()) => Answer::Accepted,
            Err(fault) => {
                self.users.restore(&former);
                answer_of_keeper_fault(fault)
            }
        }
    }
}
