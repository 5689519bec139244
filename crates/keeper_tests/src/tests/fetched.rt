//! Files that are read ahead, and given to a get.
use byte_text::Name;
use octo_keeper::{Fetched, Shelf, Stager};
use octo_keeper_folder::FolderShelf;
use octo_outside::Blob;
use std::fs;
use std::os::unix::fs::symlink;
use std::test::Fail;

// A shelf of a new folder, with the file a.gcode.
fn shelf(rt: &HostRuntime, folder: &str) -> Result<FolderShelf<HostRuntime>, Fail> {
    let _ = fs::remove_dir_all(rt, folder);
    fs::create_dir(rt, folder)?;
    let mut shelf = FolderShelf::new(rt.clone()?, &Name::of(folder)?)?;
    puts(rt, &mut shelf, "a.gcode", b"G28\n")?;
    Ok(shelf)
}

// Puts these bytes, and returns whether that was done.
fn puts<S: Shelf>(rt: &HostRuntime, shelf: &mut S, text: &str, bytes: &[u8]) -> Result<bool, Fail> {
    Ok(shelf.put(rt.alloc(), &Name::of(text)?, bytes, None).is_ok())
}

// What a stager fetches of a file.
fn fetch<S: Shelf>(rt: &HostRuntime, shelf: &S, text: &str) -> Result<Option<Fetched>, Fail> {
    let mut stager = shelf.stager(0)?;
    Ok(stager.fetch(rt.alloc(), &Name::of(text)?))
}

// The same, with other bytes, so that a get shows whether it takes them or reads the file.
fn marked<S: Shelf>(rt: &HostRuntime, shelf: &S, text: &str) -> Result<Option<Fetched>, Fail> {
    let Some(mut fetched) = fetch(rt, shelf, text)? else {
        return Ok(None);
    };
    fetched.bytes = Blob::from_slice(rt.alloc(), b"ahead")?;
    Ok(Some(fetched))
}

// Whether a get to which this is given returns these bytes.
fn gives<S: Shelf>(
    rt: &HostRuntime,
    shelf: &mut S,
    text: &str,
    fetched: Option<Fetched>,
    bytes: &[u8],
) -> Result<bool, Fail> {
    match shelf.get(rt.alloc(), &Name::of(text)?, fetched) {
        Ok(Some(kept)) => Ok(kept.as_slice() == bytes),
        Ok(None) | Err(_) => Ok(false),
    }
}

// A file is fetched as it is.
#[test]
fn fetched_bytes(rt: HostRuntime) -> Result<(), Fail> {
    let shelf = shelf(&rt, "fetched_bytes")?;
    let bytes = match fetch(&rt, &shelf, "a.gcode")? {
        Some(fetched) => fetched.bytes,
        None => Blob::new(rt.alloc()),
    };
    assert_eq!(rt; bytes.as_slice(), b"G28\n".as_slice());
    fs::remove_dir_all(&rt, "fetched_bytes")?;
    Ok(())
}

// The fetched bytes of the same file are taken, and nothing is read.
#[test]
fn fetched_is_taken(rt: HostRuntime) -> Result<(), Fail> {
    let mut shelf = shelf(&rt, "fetched_taken")?;
    let ahead = marked(&rt, &shelf, "a.gcode")?;
    assert!(rt; gives(&rt, &mut shelf, "a.gcode", ahead, b"ahead")?);
    assert!(rt; gives(&rt, &mut shelf, "a.gcode", None, b"G28\n")?);
    fs::remove_dir_all(&rt, "fetched_taken")?;
    Ok(())
}

// After a put of the same name the new file is read.
#[test]
fn fetched_before_a_put(rt: HostRuntime) -> Result<(), Fail> {
    let mut shelf = shelf(&rt, "fetched_put")?;
    let ahead = marked(&rt, &shelf, "a.gcode")?;
    assert!(rt; puts(&rt, &mut shelf, "a.gcode", b"G29\n")?);
    assert!(rt; gives(&rt, &mut shelf, "a.gcode", ahead, b"G29\n")?);
    fs::remove_dir_all(&rt, "fetched_put")?;
    Ok(())
}

// After another program renamed another file to that name, that is read.
#[test]
fn fetched_before_a_rename(rt: HostRuntime) -> Result<(), Fail> {
    let mut shelf = shelf(&rt, "fetched_renamed")?;
    fs::write(&rt, "fetched_renamed/other", "G29\n")?;
    let ahead = marked(&rt, &shelf, "a.gcode")?;
    fs::rename(&rt, "fetched_renamed/other", "fetched_renamed/a.gcode")?;
    assert!(rt; gives(&rt, &mut shelf, "a.gcode", ahead, b"G29\n")?);
    fs::remove_dir_all(&rt, "fetched_renamed")?;
    Ok(())
}

// After another program wrote into the file, it is read again.
#[test]
fn fetched_before_a_change(rt: HostRuntime) -> Result<(), Fail> {
    let mut shelf = shelf(&rt, "fetched_changed")?;
    let ahead = marked(&rt, &shelf, "a.gcode")?;
    fs::write(&rt, "fetched_changed/a.gcode", "G28 X\n")?;
    assert!(rt; gives(&rt, &mut shelf, "a.gcode", ahead, b"G28 X\n")?);
    fs::remove_dir_all(&rt, "fetched_changed")?;
    Ok(())
}

// After it was removed there is no such file.
#[test]
fn fetched_before_a_remove(rt: HostRuntime) -> Result<(), Fail> {
    let mut shelf = shelf(&rt, "fetched_removed")?;
    let ahead = marked(&rt, &shelf, "a.gcode")?;
    fs::remove_file(&rt, "fetched_removed/a.gcode")?;
    let name = Name::of("a.gcode")?;
    assert!(rt; matches!(shelf.get(rt.alloc(), &name, ahead), Ok(None)));
    fs::remove_dir_all(&rt, "fetched_removed")?;
    Ok(())
}

// What was fetched of one file isn't taken for another.
#[test]
fn fetched_of_another_name(rt: HostRuntime) -> Result<(), Fail> {
    let mut shelf = shelf(&rt, "fetched_named")?;
    assert!(rt; puts(&rt, &mut shelf, "b.gcode", b"G29\n")?);
    let ahead = marked(&rt, &shelf, "a.gcode")?;
    assert!(rt; gives(&rt, &mut shelf, "b.gcode", ahead, b"G29\n")?);
    fs::remove_dir_all(&rt, "fetched_named")?;
    Ok(())
}

// A name without a file, a link, a folder, and a name of no print file aren't fetched.
#[test]
fn what_is_not_fetched(rt: HostRuntime) -> Result<(), Fail> {
    let shelf = shelf(&rt, "fetched_none")?;
    symlink(&rt, "a.gcode", "fetched_none/link.gcode")?;
    fs::create_dir(&rt, "fetched_none/folder.gcode")?;
    fs::write(&rt, "fetched_none/notes.txt", "G28\n")?;
    for text in ["b.gcode", "link.gcode", "folder.gcode", "notes.txt"] {
        assert!(rt; fetch(&rt, &shelf, text)?.is_none());
    }
    fs::remove_dir_all(&rt, "fetched_none")?;
    Ok(())
}
