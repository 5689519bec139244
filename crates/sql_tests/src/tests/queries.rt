//! Queries of a database.
use sqlite::{Alter, Connection, Error};

/// Runs these statements.
pub fn batch<S: Alter>(connection: &mut Connection<S>, sql: &str) -> Result<(), Error> {
    connection.execute_batch(sql)
}

/// The number that a query returns.
pub fn number<S: Alter>(connection: &mut Connection<S>, sql: &str) -> Result<i64, Error> {
    connection.query_row(sql, &[])?.get(0)
}
