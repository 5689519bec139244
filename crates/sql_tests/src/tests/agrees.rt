//! The same changes in both keepers, whose tables are equal after each. Each statement is run beside rows that it must leave alone:
//! those of other users, other names and other numbers.
use super::rows::{LONG, begin, drop_entry, end, entry, user};
use super::same::are_same;
use super::single::empty_keeper;
use octo_keeper::{Change, Keeper, MemoryKeeper, Tables};
use octo_keeper_sql::SqlKeeper;
use octo_outside::CallList;
use print_queue::Outcome;
use sqlite::{Alter, MemStore};
use std::alloc::Global;
use std::test::Fail;

#[derive(Drop)]
struct Pair {
    alloc: Global,
    memory: MemoryKeeper,
    database: SqlKeeper<MemStore>,
}

fn make<K: Keeper>(alloc: Global, keeper: &mut K, change: &Change) -> Result<(), Fail> {
    match keeper.commit(alloc, change) {
        Ok(()) => Ok(()),
        Err(_) => Err("refused".into()),
    }
}

fn rows_of<K: Keeper>(alloc: Global, keeper: &mut K) -> Result<Tables, Fail> {
    match keeper.load(alloc) {
        Ok(tables) => Ok(tables),
        Err(_) => Err("no rows".into()),
    }
}

// Both hold the same rows.
fn compare<A: Keeper, B: Keeper>(alloc: Global, one: &mut A, other: &mut B) -> Result<(), Fail> {
    let kept = rows_of(alloc, one)?;
    if are_same(&kept, &rows_of(alloc, other)?) {
        return Ok(());
    }
    Err("the rows differ".into())
}

impl Pair {
    fn new(alloc: Global) -> Result<Pair, Fail> {
        Ok(Pair {
            alloc,
            memory: MemoryKeeper::new(Tables::empty(alloc), CallList::new(alloc)),
            database: empty_keeper(alloc)?,
        })
    }

    // Both make the change, and hold the same rows after it.
    fn make(&mut self, change: &Change) -> Result<(), Fail> {
        let alloc = self.alloc;
        make(alloc, &mut self.memory, change)?;
        make(alloc, &mut self.database, change)?;
        compare(alloc, &mut self.memory, &mut self.database)
    }

    fn put_user(
        &mut self,
        text: &str,
        byte: u8,
        groups: &[&str],
        active: bool,
    ) -> Result<(), Fail> {
        self.make(&Change::PutUser(user(text, byte, groups, active)?))
    }

    fn set_user(
        &mut self,
        text: &str,
        byte: u8,
        groups: &[&str],
        active: bool,
    ) -> Result<(), Fail> {
        self.make(&Change::SetUser(user(text, byte, groups, active)?))
    }

    fn put_entry(
        &mut self,
        user: &str,
        text: &str,
        priority: u8,
        copies: u8,
        arrival: u32,
    ) -> Result<(), Fail> {
        self.make(&Change::PutEntry(entry(user, text, priority, copies, arrival)?))
    }

    fn drop_entry(&mut self, user: &str, text: &str) -> Result<(), Fail> {
        self.make(&drop_entry(user, text)?)
    }

    // A print begins that takes no entry.
    fn begin(&mut self, number: u32, ended: Option<Outcome>) -> Result<(), Fail> {
        self.make(&begin(number, ended, None)?)
    }

    // A print begins that takes a copy of an entry.
    fn take(
        &mut self,
        number: u32,
        ended: Option<Outcome>,
        user: &str,
        text: &str,
    ) -> Result<(), Fail> {
        let taken = entry(user, text, 5, 2, 1)?;
        self.make(&begin(number, ended, Some(taken))?)
    }

    fn end(&mut self, number: u32, outcome: Outcome) -> Result<(), Fail> {
        self.make(&end(number, outcome))
    }
}

// Eight changes.
fn users(pair: &mut Pair) -> Result<(), Fail> {
    pair.put_user("ben", 2, &[], true)?;
    pair.put_user("ana", 1, &["users", "operators"], true)?;
    pair.put_user(LONG, 3, &[LONG], false)?;
    pair.put_user("a", 4, &["1", "2", "3", "4", "5", "6", "7", LONG], true)?;
    pair.set_user("ben", 5, &["admins"], true)?;
    pair.set_user("ana", 1, &["users"], false)?;
    pair.set_user(LONG, 255, &[], true)?;
    pair.put_user("zoe", 2, &["readonly"], true)
}

// Nine changes: two users have an entry of the same name, and one of them drops his.
fn queue(pair: &mut Pair) -> Result<(), Fail> {
    pair.put_entry("ana", "job-1", 5, 2, 1)?;
    pair.put_entry("ben", "job-1", 5, 1, 2)?;
    pair.put_entry("ana", "job-2", 9, 1, 3)?;
    pair.put_entry(LONG, LONG, 0, 100, 4)?;
    pair.put_entry("ben", "job-3", 100, 3, 5)?;
    pair.drop_entry("ben", "job-1")?;
    pair.put_entry("ben", "job-1", 1, 1, 6)?;
    pair.put_entry("zoe", "night", 9, 2, 7)?;
    pair.put_entry("zoe", "last", 9, 1, 4_294_967_295)
}

// Eight changes: an entry of two copies is taken by two prints.
fn prints(pair: &mut Pair) -> Result<(), Fail> {
    pair.begin(1, None)?;
    pair.end(1, Outcome::Done)?;
    pair.take(2, None, "ben", "job-3")?;
    pair.begin(3, Some(Outcome::Cancelled))?;
    pair.end(3, Outcome::Failed)?;
    pair.take(4, None, "ana", "job-1")?;
    pair.take(5, Some(Outcome::Done), "ana", "job-1")?;
    pair.end(5, Outcome::Done)
}

// Eight changes: the last copies of an entry.
fn last_copies(pair: &mut Pair) -> Result<(), Fail> {
    pair.put_entry("ana", "job-1", 7, 2, 8)?;
    pair.take(6, None, "ben", "job-3")?;
    pair.take(7, Some(Outcome::Failed), "ben", "job-3")?;
    pair.end(7, Outcome::Cancelled)?;
    pair.take(8, None, "ana", "job-2")?;
    pair.begin(9, Some(Outcome::Done))?;
    pair.end(9, Outcome::Done)?;
    pair.drop_entry("zoe", "night")
}

// Eight changes. Some name rows that don't exist, and one ends a print before the last.
fn rest(pair: &mut Pair) -> Result<(), Fail> {
    pair.drop_entry("ana", "night")?;
    pair.set_user("nobody", 6, &[], true)?;
    pair.end(10, Outcome::Done)?;
    pair.set_user("zoe", 9, &["users", "operators"], true)?;
    pair.drop_entry(LONG, LONG)?;
    pair.begin(10, None)?;
    pair.end(4, Outcome::Failed)?;
    pair.end(10, Outcome::Failed)
}

fn all_changes(pair: &mut Pair) -> Result<(), Fail> {
    users(pair)?;
    queue(pair)?;
    prints(pair)?;
    last_copies(pair)?;
    rest(pair)
}

#[test]
fn sql_agrees(rt: HostRuntime) -> Result<(), Fail> {
    let mut pair = Pair::new(rt.alloc())?;
    all_changes(&mut pair)?;
    again(pair)
}

fn adopted_again<S: Alter + Drop>(
    alloc: Global,
    database: SqlKeeper<S>,
) -> Result<SqlKeeper<S>, Fail> {
    match SqlKeeper::adopt(alloc, database.into_connection()) {
        Ok(database) => Ok(database),
        Err(_) => Err("not adopted".into()),
    }
}

// The rows exist after the database is adopted again.
fn again(pair: Pair) -> Result<(), Fail> {
    let Pair {
        alloc,
        memory,
        database,
    } = pair;
    let mut database = adopted_again(alloc, database)?;
    let mut memory = memory;
    compare(alloc, &mut memory, &mut database)
}
