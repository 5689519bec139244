//! One change, and what is refused.
use super::rows::user;
use byte_text::Name;
use octo_keeper::{Change, Keeper, KeeperFault, Tables};
use octo_keeper_sql::SqlKeeper;
use sqlite::{Connection, MemStore};
use std::alloc::Global;
use std::test::Fail;

/// A keeper over an empty database in memory.
pub fn empty_keeper(alloc: Global) -> Result<SqlKeeper<MemStore>, Fail> {
    let connection = Connection::open_in_memory(alloc)?;
    Ok(
        SqlKeeper::adopt(alloc, connection)
            .ok()
            .ok_or("not adopted")?,
    )
}

// ana, in two groups.
fn change() -> Result<Change, Fail> {
    Ok(Change::PutUser(user("ana", 1, &["users", "operators"], true)?))
}

// What each of these changes returns, after the earlier ones.
fn commit_all<K: Keeper>(alloc: Global, keeper: &mut K, changes: &[Change; 3]) -> [bool; 3] {
    let [first, second, third] = changes;
    [
        keeper.commit(alloc, first).is_ok(),
        keeper.commit(alloc, second) == Err(KeeperFault::Failed),
        keeper.commit(alloc, third).is_ok(),
    ]
}

// A user's name is taken, and a change after that refusal is made: no transaction was left open.
#[test]
fn ample(rt: HostRuntime) -> Result<(), Fail> {
    let changes = [
        change()?,
        change()?,
        Change::PutUser(user("ben", 2, &[], true)?),
    ];
    let mut keeper = empty_keeper(rt.alloc())?;
    assert!(rt; commit_all(rt.alloc(), &mut keeper, &changes) == [true, true, true]);
    Ok(())
}

// What is loaded after a change.
fn tables_after(alloc: Global, change: &Change) -> Result<Tables, Fail> {
    let mut keeper = empty_keeper(alloc)?;
    if keeper.commit(alloc, change).is_err() {
        return Err("refused".into());
    }
    Ok(keeper.load(alloc).ok().ok_or("no tables")?)
}

fn are_users_and_operators(groups: &[Name]) -> bool {
    match groups {
        [first, second] => first.as_str() == "users" && second.as_str() == "operators",
        _ => false,
    }
}

#[test]
fn ample_tables(rt: HostRuntime) -> Result<(), Fail> {
    let tables = tables_after(rt.alloc(), &change()?)?;
    let [ana] = tables.users.as_slice() else {
        return Err("not one user".into());
    };
    assert_eq!(rt;
        (ana.name.as_str(), ana.digest, ana.active),
        ("ana", [1; 32], true)
    );
    assert!(rt; are_users_and_operators(ana.groups.as_slice()));
    Ok(())
}

// A database in memory has no place for a copy. What is refused leaves its rows.
#[test]
fn no_backup_in_memory(rt: HostRuntime) -> Result<(), Fail> {
    let alloc = rt.alloc();
    let mut keeper = empty_keeper(alloc)?;
    assert!(rt; keeper.commit(alloc, &change()?).is_ok());
    assert!(rt; keeper.backup(alloc) == Err(KeeperFault::Failed));
    let tables = keeper.load(alloc).ok().ok_or("no tables")?;
    assert!(rt; tables.users.as_slice().len() == 1);
    Ok(())
}
