//! What requests need, copies of asks, and what answers show.
mod counter;

use byte_text::Name;
use marlin_reply::Heat;
use octo_access::{GroupNames, Permission, UserRow};
use octo_asks::{
    Ask, BlobList, Request, ShownEntry, ShownHeat, ShownPrint, ShownUser, Sought, Upload, needed,
};
use octo_outside::Blob;
use print_queue::{Outcome, PrintRow, QueueEntry};
use std::alloc::{AllocError, Global};
use std::process::Abort;
use std::test::Fail;

fn names(text: &str) -> Result<GroupNames, Fail> {
    let mut list = GroupNames::new();
    list.push(Name::of(text)?);
    Ok(list)
}

fn needs(rt: &impl Abort, request: Request, wanted: &[Permission]) {
    assert!(rt; needed(&request).as_slice() == wanted);
}

#[test]
fn status_reads_need(rt: HostRuntime) {
    for request in [
        Request::Version,
        Request::GetConnection,
        Request::GetPrinter,
        Request::GetLimits,
        Request::GetJob,
        Request::ListPrints,
    ] {
        needs(&rt, request, &[Permission::Status]);
    }
}

#[test]
fn lists_need(rt: HostRuntime) {
    needs(&rt, Request::ListFiles, &[Permission::FilesList]);
    needs(&rt, Request::ListUsers, &[Permission::Admin]);
    needs(&rt, Request::ListQueue, &[Permission::FilesSelect]);
}

#[test]
fn files_need(rt: HostRuntime) -> Result<(), Fail> {
    let name = Name::of("a.gcode")?;
    let got = Request::GetFile { name: name.copy() };
    needs(&rt, got, &[Permission::FilesList]);
    let deleted = Request::DeleteFile { name: name.copy() };
    needs(&rt, deleted, &[Permission::FilesDelete]);
    let downloaded = Request::Download {
        name: Sought::new(name),
    };
    needs(&rt, downloaded, &[Permission::FilesDownload]);
    Ok(())
}

#[test]
fn selections_need(rt: HostRuntime) -> Result<(), Fail> {
    for (print, wanted) in [
        (false, [Permission::FilesSelect].as_slice()),
        (true, &[Permission::FilesSelect, Permission::Print]),
    ] {
        let name = Name::of("a.gcode")?;
        needs(&rt, Request::SelectFile { name, print }, wanted);
    }
    Ok(())
}

#[test]
fn connections_need(rt: HostRuntime) {
    let connect = Request::Connect { port: None };
    needs(&rt, connect, &[Permission::Connection]);
    needs(&rt, Request::Disconnect, &[Permission::Connection]);
    needs(&rt, Request::Shutdown, &[Permission::System]);
}

#[test]
fn backups_need(rt: HostRuntime) -> Result<(), Fail> {
    needs(&rt, Request::Backup, &[Permission::System]);
    let copy = Request::Backup.copy(rt.alloc())?;
    assert!(rt; matches!(copy, Request::Backup));
    Ok(())
}

#[test]
fn nothing_is_needed(rt: HostRuntime) {
    for request in [Request::Caller, Request::Leave, Request::AutoConnect] {
        needs(&rt, request, &[]);
    }
}

#[test]
fn heaters_need(rt: HostRuntime) {
    let tool = Request::HeatTool { degrees: 210 };
    needs(&rt, tool, &[Permission::Control]);
    let bed = Request::HeatBed { degrees: 60 };
    needs(&rt, bed, &[Permission::Control]);
    let texts = BlobList::new(rt.alloc());
    needs(&rt, Request::Move { texts }, &[Permission::Control]);
}

#[test]
fn prints_need(rt: HostRuntime) {
    for request in [
        Request::Start,
        Request::Cancel,
        Request::Restart,
        Request::Pause,
        Request::Resume,
        Request::Toggle,
        Request::NextEntry,
    ] {
        needs(&rt, request, &[Permission::Print]);
    }
}

fn put_file(alloc: Global) -> Result<Request, Fail> {
    Ok(Request::PutFile {
        name: Name::of("a.gcode")?,
        file: Upload::read(alloc, b"G28\n")?,
        select: false,
        print: true,
    })
}

fn lines(alloc: Global) -> Result<Request, Fail> {
    let mut texts = BlobList::new(alloc);
    for text in [b"G28".as_slice(), b"M104 S200"] {
        texts.push(Blob::from_slice(alloc, text)?)?;
    }
    Ok(Request::Lines { texts })
}

fn change_user(alloc: Global) -> Result<Request, Fail> {
    Ok(Request::ChangeUser {
        name: Name::of("ana")?,
        groups: Some(names("users")?),
        active: Some(false),
        key: Some(Blob::from_slice(alloc, b"a-new-key-0123456")?),
    })
}

fn copied(alloc: Global, request: Request) -> Result<Request, AllocError> {
    request.copy(alloc)
}

fn prints_file(request: &Request, wanted: &[u8]) -> bool {
    match request {
        Request::PutFile { file, print, .. } => *print && file.bytes() == wanted,
        _ => false,
    }
}

#[test]
fn ample_file(rt: HostRuntime) -> Result<(), Fail> {
    let copy = copied(rt.alloc(), put_file(rt.alloc())?)?;
    assert!(rt; prints_file(&copy, b"G28\n"));
    Ok(())
}

fn pause(alloc: Global) -> Result<Ask, AllocError> {
    Ask::of(alloc, b"ana-key-0123456789", Request::Pause)?.copy(alloc)
}

#[test]
fn ample_ask(rt: HostRuntime) -> Result<(), Fail> {
    let copy = pause(rt.alloc())?;
    assert!(rt; copy.key.as_slice() == b"ana-key-0123456789".as_slice());
    assert!(rt; matches!(&copy.request, Request::Pause));
    Ok(())
}

#[test]
fn ample_lines(rt: HostRuntime) -> Result<(), Fail> {
    let copy = copied(rt.alloc(), lines(rt.alloc())?)?;
    assert!(rt; matches!(&copy, Request::Lines { texts } if texts.as_slice().len() == 2));
    Ok(())
}

fn switches_off(request: &Request) -> bool {
    match request {
        Request::ChangeUser { groups, active, .. } => groups.is_some() && *active == Some(false),
        _ => false,
    }
}

#[test]
fn ample_user(rt: HostRuntime) -> Result<(), Fail> {
    let copy = copied(rt.alloc(), change_user(rt.alloc())?)?;
    assert!(rt; switches_off(&copy));
    Ok(())
}

#[test]
fn heaters(rt: HostRuntime) -> Result<(), Fail> {
    let shown = ShownHeat::of(&Heat {
        actual: 21_999_999,
        target: -1_500_000,
    });
    assert_eq!(rt; shown.actual, 21);
    assert_eq!(rt; shown.target, -1);
    Ok(())
}

#[test]
fn users_shown(rt: HostRuntime) -> Result<(), Fail> {
    let user = ShownUser::of(&UserRow {
        name: Name::of("ana")?,
        digest: [7; 32],
        groups: names("users")?,
        active: true,
    });
    assert!(rt; user.name.as_str() == "ana" && user.groups.len() == 1 && user.active);
    Ok(())
}

#[test]
fn entries_shown(rt: HostRuntime) -> Result<(), Fail> {
    let entry = ShownEntry::of(&QueueEntry {
        user: Name::of("ana")?,
        name: Name::of("job-1")?,
        file: Name::of("a.gcode")?,
        priority: 5,
        copies: 2,
        left: 1,
        material: Name::of("any")?,
        arrival: 9,
    });
    assert!(rt; entry.name.as_str() == "job-1" && entry.copies == 2 && entry.left == 1);
    Ok(())
}

#[test]
fn prints_shown(rt: HostRuntime) -> Result<(), Fail> {
    let print = ShownPrint::of(&PrintRow {
        number: 3,
        user: Name::of("ana")?,
        file: Name::of("a.gcode")?,
        commands: 2,
        outcome: Outcome::Done,
    });
    assert!(rt; print.number == 3 && print.outcome == Outcome::Done);
    Ok(())
}

// A move whose copy is taken.
fn moved(alloc: Global) -> Result<Request, Fail> {
    let mut texts = BlobList::new(alloc);
    texts.push(Blob::from_slice(alloc, b"G28 X")?)?;
    Ok(copied(alloc, Request::Move { texts })?)
}

#[test]
fn ample_move(rt: HostRuntime) -> Result<(), Fail> {
    let copy = moved(rt.alloc())?;
    assert!(rt; matches!(&copy, Request::Move { texts } if texts.as_slice().len() == 1));
    Ok(())
}
