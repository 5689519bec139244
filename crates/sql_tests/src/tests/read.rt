//! What is read of one row of each table, and the text of a user's groups.
use byte_text::Name;
use octo_access::UserRow;
use octo_keeper_sql::{entries_of, old_entries_of, prints_of, text_of_groups, upgrade, users_of};
use print_queue::{Outcome, PrintRow, QueueEntry};
use sqlite::{Connection, Row};
use std::alloc::Global;
use std::test::Fail;

const USER: &str =
    "SELECT 'ana', X'0101010101010101010101010101010101010101010101010101010101010101', 'users', 1";

const ENTRY: &str = "SELECT 'ana', 'job-1', 'a.gcode', 5, 3, 2, 1, 'PLA'";

const OLD_ENTRY: &str = "SELECT 'ana', 'job-1', 'a.gcode', 5, 3";

const PRINT: &str = "SELECT 7, 'ana', 'a.gcode', 218, 2";

// What a query without tables shows.
fn rows_of(alloc: Global, sql: &str) -> Result<Vec<Row>, Fail> {
    let mut connection = Connection::open_in_memory(alloc)?;
    Ok(connection.query_all(sql, &[])?)
}

// Whether a user is ana, who is active, with a digest of ones.
fn is_ana(user: &UserRow) -> bool {
    user.name.as_str() == "ana" && user.digest == [1; 32] && user.active
}

#[test]
fn ample_users(rt: HostRuntime) -> Result<(), Fail> {
    let alloc = rt.alloc();
    let rows = rows_of(alloc, USER)?;
    let users = users_of(alloc, rows.as_slice()).ok().ok_or("no users")?;
    let [user] = users.as_slice() else {
        return Err("not one user".into());
    };
    assert!(rt; is_ana(user));
    let text = text_of_groups(alloc, user.groups.as_slice())?;
    assert_eq!(rt; text.as_str(), "users");
    Ok(())
}

#[test]
fn ample_groups(rt: HostRuntime) -> Result<(), Fail> {
    let two = [Name::of("users")?, Name::of("operators")?];
    let text = text_of_groups(rt.alloc(), &two)?;
    assert_eq!(rt; text.as_str(), "users operators");
    Ok(())
}

// Whether there is one entry: ana's of this many copies and material, of which one copy is left.
fn is_entry(entries: &[QueueEntry], copies: u8, material: &str) -> bool {
    match entries {
        [entry] => is_job(entry) && entry.copies == copies && entry.material.as_str() == material,
        _ => false,
    }
}

fn is_job(entry: &QueueEntry) -> bool {
    entry.user.as_str() == "ana"
        && entry.name.as_str() == "job-1"
        && entry.file.as_str() == "a.gcode"
        && entry.priority == 5
        && entry.arrival == 3
        && entry.left == 1
}

#[test]
fn ample_entries(rt: HostRuntime) -> Result<(), Fail> {
    let alloc = rt.alloc();
    let rows = rows_of(alloc, ENTRY)?;
    let entries = entries_of(alloc, rows.as_slice()).ok().ok_or("no entries")?;
    assert!(rt; is_entry(entries.as_slice(), 2, "PLA"));
    Ok(())
}

// Whether there is one print: ana's of number 7 with 218 commands, which was cancelled.
fn is_print(prints: &[PrintRow]) -> bool {
    match prints {
        [print] => {
            print.user.as_str() == "ana"
                && print.file.as_str() == "a.gcode"
                && print.number == 7
                && print.commands == 218
                && print.outcome == Outcome::Cancelled
        }
        _ => false,
    }
}

#[test]
fn ample_prints(rt: HostRuntime) -> Result<(), Fail> {
    let alloc = rt.alloc();
    let rows = rows_of(alloc, PRINT)?;
    let prints = prints_of(alloc, rows.as_slice()).ok().ok_or("no prints")?;
    assert!(rt; is_print(prints.as_slice()));
    Ok(())
}

#[test]
fn ample_upgrade(rt: HostRuntime) -> Result<(), Fail> {
    let alloc = rt.alloc();
    let rows = rows_of(alloc, OLD_ENTRY)?;
    let old = old_entries_of(alloc, rows.as_slice())
        .ok()
        .ok_or("no old entries")?;
    let entries = upgrade(alloc, old.as_slice())?;
    assert!(rt; is_entry(entries.as_slice(), 1, "any"));
    Ok(())
}
