//! Rows and changes for the tests.
use arrayvec::ArrayVec;
use byte_text::Name;
use octo_access::UserRow;
use octo_keeper::Change;
use print_queue::{Ending, Outcome, PrintRow, QueueEntry};
use std::test::Fail;

/// 100 bytes.
pub const LONG: &str =
    "a-name-of-100-bytes-0123456789-0123456789-0123456789-0123456789-0123456789-0123456789-0123456789-012";

/// A user whose digest is 32 times this byte.
pub fn user(text: &str, byte: u8, groups: &[&str], active: bool) -> Result<UserRow, Fail> {
    let mut list = ArrayVec::new();
    for group in groups {
        let _ = list.try_push(Name::of(group)?);
    }
    Ok(UserRow {
        name: Name::of(text)?,
        digest: [byte; 32],
        groups: list,
        active,
    })
}

/// An entry of copies of any material, none of which was started.
pub fn entry(
    user: &str,
    text: &str,
    priority: u8,
    copies: u8,
    arrival: u32,
) -> Result<QueueEntry, Fail> {
    Ok(QueueEntry {
        user: Name::of(user)?,
        name: Name::of(text)?,
        file: Name::of("a.gcode")?,
        priority,
        copies,
        left: copies,
        material: Name::of("any")?,
        arrival,
    })
}

/// An active print of this number and user.
pub fn print(number: u32, user: &str) -> Result<PrintRow, Fail> {
    Ok(PrintRow {
        number,
        user: Name::of(user)?,
        file: Name::of("a.gcode")?,
        commands: 4_294_967_295,
        outcome: Outcome::Active,
    })
}

/// A print begins; the one before may have ended.
pub fn begin(
    number: u32,
    ended: Option<Outcome>,
    taken: Option<QueueEntry>,
) -> Result<Change, Fail> {
    let before = number.saturating_sub(1);
    Ok(Change::Begin {
        ended: match ended {
            Some(outcome) => Some(Ending {
                print: before,
                outcome,
            }),
            None => None,
        },
        print: print(number, "ana")?,
        taken,
    })
}

/// The end of a print.
pub fn end(print: u32, outcome: Outcome) -> Change {
    Change::End(Ending { print, outcome })
}

/// A user's entry of a name is taken out.
pub fn drop_entry(user: &str, text: &str) -> Result<Change, Fail> {
    Ok(Change::DropEntry {
        user: Name::of(user)?,
        name: Name::of(text)?,
    })
}
