//! Databases of other schemas, and rows that don't fit.
use super::queries::{batch, number};
use octo_keeper::{Keeper, KeeperFault};
use octo_keeper_sql::{NotAdopted, SqlKeeper};
use print_queue::QueueEntry;
use sqlite::{Alter, Connection, Error, MemStore};
use std::alloc::Global;
use std::test::Fail;

const META: &str = "CREATE TABLE meta (schema INTEGER NOT NULL); INSERT INTO meta VALUES (1);";

const USERS: &str =
    "CREATE TABLE users (name TEXT PRIMARY KEY, digest BLOB NOT NULL UNIQUE, groups TEXT NOT NULL, active INTEGER NOT NULL);";

const QUEUE: &str =
    "CREATE TABLE queue (user TEXT NOT NULL, name TEXT NOT NULL, file TEXT NOT NULL, priority INTEGER NOT NULL, arrival INTEGER NOT NULL UNIQUE, PRIMARY KEY (user, name));";

const PRINTS: &str =
    "CREATE TABLE prints (number INTEGER PRIMARY KEY, user TEXT NOT NULL, file TEXT NOT NULL, commands INTEGER NOT NULL, outcome INTEGER NOT NULL);";

const ROWS: &str =
    "INSERT INTO queue VALUES ('ana', 'job-1', 'a.gcode', 5, 3), ('ben', 'job-1', 'b.gcode', 100, 1)";

fn batch_all<S: Alter>(connection: &mut Connection<S>, texts: &[&str]) -> Result<(), Error> {
    for sql in texts {
        batch(connection, sql)?;
    }
    Ok(())
}

// A database of the schema before with two entries.
fn old_database(alloc: Global) -> Result<Connection<MemStore>, Fail> {
    let mut connection = Connection::open_in_memory(alloc)?;
    batch_all(&mut connection, &[META, USERS, QUEUE, PRINTS, ROWS])?;
    Ok(connection)
}

fn fail_to_adopt<S: Alter + Drop>(
    alloc: Global,
    connection: Connection<S>,
) -> Result<Connection<S>, Fail> {
    let (fault, connection) = match SqlKeeper::adopt(alloc, connection) {
        Ok(_) => return Err("adopted".into()),
        Err(NotAdopted { fault, connection }) => (fault, connection),
    };
    match fault {
        KeeperFault::Failed => Ok(connection),
        KeeperFault::NoMemory => Err("out of memory".into()),
    }
}

// A keeper over a database of the schema before.
fn upgraded(alloc: Global) -> Result<SqlKeeper<MemStore>, Fail> {
    match SqlKeeper::adopt(alloc, old_database(alloc)?) {
        Ok(keeper) => Ok(keeper),
        Err(_) => Err("not adopted".into()),
    }
}

// Whether these are the two entries, each with one copy, in the order of printing.
fn are_both(entries: &[QueueEntry]) -> bool {
    match entries {
        [first, second] => {
            first.file.as_str() == "b.gcode"
                && (first.copies, first.left, first.arrival) == (1, 1, 1)
                && second.material.as_str() == "any"
                && second.arrival == 3
        }
        _ => false,
    }
}

#[test]
fn an_old_queue_is_upgraded(rt: HostRuntime) -> Result<(), Fail> {
    let mut keeper = upgraded(rt.alloc())?;
    let tables = keeper.load(rt.alloc()).ok().ok_or("no tables")?;
    assert!(rt; are_both(tables.queue.as_slice()));
    Ok(())
}

// The schema is the next, without the table of the one before.
#[test]
fn an_old_schema_is_upgraded(rt: HostRuntime) -> Result<(), Fail> {
    let mut connection = upgraded(rt.alloc())?.into_connection();
    assert_eq!(rt; number(&mut connection, "SELECT schema FROM meta"), Ok(2));
    assert!(rt; batch(&mut connection, "SELECT 1 FROM queue").is_err());
    Ok(())
}

// A database of the schema before that wasn't adopted, since a row doesn't fit.
fn out_of_range(alloc: Global) -> Result<Connection<MemStore>, Fail> {
    let mut database = old_database(alloc)?;
    batch(
        &mut database,
        "UPDATE queue SET priority = 256 WHERE arrival = 3",
    )?;
    fail_to_adopt(alloc, database)
}

// A row that doesn't fit: nothing is upgraded.
#[test]
fn an_old_row_out_of_range(rt: HostRuntime) -> Result<(), Fail> {
    let mut connection = out_of_range(rt.alloc())?;
    assert_eq!(rt; number(&mut connection, "SELECT schema FROM meta"), Ok(1));
    assert_eq!(rt;
        number(&mut connection, "SELECT count(*) FROM queue"),
        Ok(2)
    );
    Ok(())
}

// Once the row fits, the database is adopted.
#[test]
fn an_old_row_mended(rt: HostRuntime) -> Result<(), Fail> {
    let mut connection = out_of_range(rt.alloc())?;
    batch(
        &mut connection,
        "UPDATE queue SET priority = 100 WHERE arrival = 3",
    )?;
    assert!(rt; SqlKeeper::adopt(rt.alloc(), connection).is_ok());
    Ok(())
}

// A database of schema 3 that wasn't adopted.
fn of_another_schema(alloc: Global) -> Result<Connection<MemStore>, Fail> {
    let mut database = old_database(alloc)?;
    batch(&mut database, "UPDATE meta SET schema = 3")?;
    fail_to_adopt(alloc, database)
}

#[test]
fn another_schema_is_refused(rt: HostRuntime) -> Result<(), Fail> {
    let mut connection = of_another_schema(rt.alloc())?;
    assert_eq!(rt; number(&mut connection, "SELECT schema FROM meta"), Ok(3));
    Ok(())
}

// A database of the schema before is refused as long as a transaction is open.
#[test]
fn an_open_transaction_is_refused(rt: HostRuntime) -> Result<(), Fail> {
    let mut database = old_database(rt.alloc())?;
    batch(&mut database, "BEGIN")?;
    let mut connection = fail_to_adopt(rt.alloc(), database)?;
    batch(&mut connection, "ROLLBACK")?;
    assert!(rt; SqlKeeper::adopt(rt.alloc(), connection).is_ok());
    Ok(())
}
