//! Files in a folder of their own.
use byte_text::Name;
use octo_keeper::{Shelf, ShelfFault, Stager};
use octo_keeper_folder::FolderShelf;
use std::fs;
use std::test::Fail;

fn shelf(rt: &HostRuntime, folder: &str) -> Result<FolderShelf<HostRuntime>, Fail> {
    let _ = fs::remove_dir_all(rt, folder);
    fs::create_dir(rt, folder)?;
    Ok(FolderShelf::new(rt.clone()?, &Name::of(folder)?)?)
}

fn puts<S: Shelf>(
    rt: &HostRuntime,
    shelf: &mut S,
    text: &str,
    bytes: &[u8],
) -> Option<Result<(), ShelfFault>> {
    Some(shelf.put(rt.alloc(), &Name::from_text(text)?, bytes, None))
}

fn removes<S: Shelf>(
    rt: &HostRuntime,
    shelf: &mut S,
    text: &str,
) -> Option<Result<(), ShelfFault>> {
    Some(shelf.remove(rt.alloc(), &Name::from_text(text)?))
}

// Whether a shelf holds these bytes under this name; `None` if it holds nothing there.
fn holds<S: Shelf>(rt: &HostRuntime, shelf: &mut S, text: &str, bytes: &[u8]) -> Option<bool> {
    let kept = shelf.get(rt.alloc(), &Name::from_text(text)?, None).ok()??;
    Some(kept.as_slice() == bytes)
}

fn has_none<S: Shelf>(rt: &HostRuntime, shelf: &mut S, text: &str) -> Option<bool> {
    Some(
        shelf
            .get(rt.alloc(), &Name::from_text(text)?, None)
            .ok()?
            .is_none(),
    )
}

// How many bytes a shelf has under this name; `None` if it fails, and `Some(None)` if it has no such file.
fn size<S: Shelf>(shelf: &mut S, text: &str) -> Option<Option<u64>> {
    shelf.size(&Name::from_text(text)?).ok()
}

// The number of files that are listed, and the size of the first.
fn listed<S: Shelf>(rt: &HostRuntime, shelf: &mut S) -> Option<(usize, u64)> {
    let list = shelf.list(rt.alloc()).ok()?;
    Some((list.as_slice().len(), list.as_slice().first()?.1))
}

#[test]
fn ample(rt: HostRuntime) -> Result<(), Fail> {
    let mut shelf = shelf(&rt, "folder_shelf_test")?;
    assert_eq!(rt; puts(&rt, &mut shelf, "b.gcode", b"G28\n"), Some(Ok(())));
    assert_eq!(rt; puts(&rt, &mut shelf, "b.gcode", b"G29\n"), Some(Ok(())));
    assert_eq!(rt; puts(&rt, &mut shelf, "A.GCO", b""), Some(Ok(())));
    assert_eq!(rt; holds(&rt, &mut shelf, "b.gcode", b"G29\n"), Some(true));
    assert_eq!(rt; size(&mut shelf, "b.gcode"), Some(Some(4)));
    // A list that is kept, and one after another put.
    for _ in 0..2 {
        assert!(rt; listed(&rt, &mut shelf) == Some((2, 0)));
    }
    assert_eq!(rt; puts(&rt, &mut shelf, "A.GCO", b"G28\n"), Some(Ok(())));
    assert!(rt; listed(&rt, &mut shelf) == Some((2, 4)));
    fs::remove_dir_all(&rt, "folder_shelf_test")?;
    Ok(())
}

// A file is removed, and then there is none to remove.
#[test]
fn ample_removes(rt: HostRuntime) -> Result<(), Fail> {
    let mut shelf = shelf(&rt, "folder_shelf_removes")?;
    assert_eq!(rt; puts(&rt, &mut shelf, "b.gcode", b"G29\n"), Some(Ok(())));
    for _ in 0..2 {
        assert_eq!(rt; removes(&rt, &mut shelf, "b.gcode"), Some(Ok(())));
    }
    assert_eq!(rt; has_none(&rt, &mut shelf, "b.gcode"), Some(true));
    fs::remove_dir_all(&rt, "folder_shelf_removes")?;
    Ok(())
}

// Writes a file of four bytes at each path.
fn write_each(rt: &HostRuntime, paths: &[&str]) -> Result<(), Fail> {
    for path in paths {
        fs::write(rt, *path, "G28\n")?;
    }
    Ok(())
}

// One file to list, and what isn't listed beside it.
fn write_names(rt: &HostRuntime) -> Result<(), Fail> {
    fs::create_dir(rt, "folder_shelf_names/folder.gcode")?;
    let paths = &[
        "folder_shelf_names/a.gcode.part",
        "folder_shelf_names/.hidden.gcode",
        "folder_shelf_names/two words.g",
        "folder_shelf_names/notes.txt",
        "folder_shelf_names/a.g",
    ];
    write_each(rt, paths)
}

// Other names, folders and a part of a file are passed over.
#[test]
fn what_is_listed(rt: HostRuntime) -> Result<(), Fail> {
    let mut shelf = shelf(&rt, "folder_shelf_names")?;
    write_names(&rt)?;
    assert!(rt; listed(&rt, &mut shelf) == Some((1, 4)));
    assert_eq!(rt; has_none(&rt, &mut shelf, "notes.txt"), Some(true));
    for text in ["notes.txt", "folder.gcode", "b.gcode"] {
        assert_eq!(rt; size(&mut shelf, text), Some(None));
    }
    fs::remove_dir_all(&rt, "folder_shelf_names")?;
    Ok(())
}

// A folder has the place of the file: the put fails, nothing is left of it, and another file is put.
#[test]
fn a_failed_put(rt: HostRuntime) -> Result<(), Fail> {
    let mut shelf = shelf(&rt, "folder_shelf_failed")?;
    fs::create_dir(&rt, "folder_shelf_failed/a.gcode")?;
    assert_eq!(rt;
        puts(&rt, &mut shelf, "a.gcode", b"G28\n"),
        Some(Err(ShelfFault::Failed))
    );
    assert!(rt; !fs::exists(&rt, "folder_shelf_failed/a.gcode.part")?);
    assert_eq!(rt; puts(&rt, &mut shelf, "b.gcode", b"G28\n"), Some(Ok(())));
    fs::remove_dir_all(&rt, "folder_shelf_failed")?;
    Ok(())
}

// A folder has the place of the file's part: the put fails, and the former file stays.
#[test]
fn a_failed_part(rt: HostRuntime) -> Result<(), Fail> {
    let mut shelf = shelf(&rt, "folder_shelf_part")?;
    assert_eq!(rt; puts(&rt, &mut shelf, "b.gcode", b"G28\n"), Some(Ok(())));
    fs::create_dir(&rt, "folder_shelf_part/b.gcode.part")?;
    assert_eq!(rt;
        puts(&rt, &mut shelf, "b.gcode", b"G29\n"),
        Some(Err(ShelfFault::Failed))
    );
    assert_eq!(rt; holds(&rt, &mut shelf, "b.gcode", b"G28\n"), Some(true));
    fs::remove_dir_all(&rt, "folder_shelf_part")?;
    Ok(())
}

// A name that leads out of the folder is refused.
#[test]
fn a_put_elsewhere(rt: HostRuntime) -> Result<(), Fail> {
    let mut shelf = shelf(&rt, "folder_shelf_elsewhere")?;
    assert_eq!(rt;
        puts(&rt, &mut shelf, "../b.gcode", b"G28\n"),
        Some(Err(ShelfFault::Failed))
    );
    fs::remove_dir_all(&rt, "folder_shelf_elsewhere")?;
    Ok(())
}

// Puts bytes with a part, and returns whether the shelf then holds them.
fn puts_part<S: Shelf>(
    rt: &HostRuntime,
    shelf: &mut S,
    bytes: &[u8],
    part: Option<u8>,
) -> Option<bool> {
    let name = Name::from_text("a.gcode")?;
    shelf.put(rt.alloc(), &name, bytes, part).ok()?;
    holds(rt, shelf, "a.gcode", bytes)
}

// A part isn't listed. It becomes the file, and nothing of it is left to remove.
#[test]
fn a_part(rt: HostRuntime) -> Result<(), Fail> {
    let mut shelf = shelf(&rt, "folder_shelf_staged")?;
    let mut stager = shelf.stager(2)?;
    let part = stager.stage(b"G28\n");
    assert!(rt; part == Some(2) && fs::exists(&rt, "folder_shelf_staged/.part-2")?);
    assert!(rt; listed(&rt, &mut shelf).is_none());
    assert_eq!(rt; puts_part(&rt, &mut shelf, b"G28\n", part), Some(true));
    assert!(rt; !fs::exists(&rt, "folder_shelf_staged/.part-2")?);
    stager.clear();
    assert!(rt; listed(&rt, &mut shelf) == Some((1, 4)));
    fs::remove_dir_all(&rt, "folder_shelf_staged")?;
    Ok(())
}

// The file that a part replaces keeps a name that isn't listed, until the stager removes it.
#[test]
fn a_replaced_file(rt: HostRuntime) -> Result<(), Fail> {
    let mut shelf = shelf(&rt, "folder_shelf_replaced")?;
    let mut stager = shelf.stager(2)?;
    assert_eq!(rt; puts_part(&rt, &mut shelf, b"G28 X1\n", None), Some(true));
    assert!(rt; !fs::exists(&rt, "folder_shelf_replaced/.former-2")?);
    let part = stager.stage(b"G28\n");
    assert_eq!(rt; puts_part(&rt, &mut shelf, b"G28\n", part), Some(true));
    assert!(rt; fs::exists(&rt, "folder_shelf_replaced/.former-2")?);
    assert!(rt; listed(&rt, &mut shelf) == Some((1, 4)));
    stager.clear();
    assert!(rt; !fs::exists(&rt, "folder_shelf_replaced/.former-2")?);
    assert_eq!(rt; holds(&rt, &mut shelf, "a.gcode", b"G28\n"), Some(true));
    fs::remove_dir_all(&rt, "folder_shelf_replaced")?;
    Ok(())
}

// A removed file keeps a name that isn't listed, until a stager removes it, which needs not have written a part.
#[test]
fn a_removed_file(rt: HostRuntime) -> Result<(), Fail> {
    let mut shelf = shelf(&rt, "folder_shelf_removed")?;
    let mut stager = shelf.stager(1)?;
    for text in ["a.gcode", "b.gcode"] {
        assert_eq!(rt; puts(&rt, &mut shelf, text, b"G28\n"), Some(Ok(())));
    }
    assert_eq!(rt; removes(&rt, &mut shelf, "a.gcode"), Some(Ok(())));
    assert!(rt; fs::exists(&rt, "folder_shelf_removed/.removed")?);
    assert!(rt; listed(&rt, &mut shelf) == Some((1, 4)));
    stager.clear();
    assert!(rt; !fs::exists(&rt, "folder_shelf_removed/.removed")?);
    assert_eq!(rt; has_none(&rt, &mut shelf, "a.gcode"), Some(true));
    fs::remove_dir_all(&rt, "folder_shelf_removed")?;
    Ok(())
}

// The room of one removed file alone waits for a stager, and a stager that sees no remove since leaves the folder as it is.
#[test]
fn two_removed_files(rt: HostRuntime) -> Result<(), Fail> {
    let mut shelf = shelf(&rt, "folder_shelf_two_removed")?;
    let mut stager = shelf.stager(0)?;
    let mut other = shelf.stager(1)?;
    for text in ["a.gcode", "b.gcode"] {
        assert_eq!(rt; puts(&rt, &mut shelf, text, b"G28\n"), Some(Ok(())));
        assert_eq!(rt; removes(&rt, &mut shelf, text), Some(Ok(())));
    }
    stager.clear();
    assert!(rt; !fs::exists(&rt, "folder_shelf_two_removed/.removed")?);
    fs::write(&rt, "folder_shelf_two_removed/.removed", "G28\n")?;
    other.clear();
    assert!(rt; fs::exists(&rt, "folder_shelf_two_removed/.removed")?);
    fs::remove_dir_all(&rt, "folder_shelf_two_removed")?;
    Ok(())
}

// Of a part of another size the bytes aren't taken. It stays until it is removed.
#[test]
fn a_part_of_another_size(rt: HostRuntime) -> Result<(), Fail> {
    let mut shelf = shelf(&rt, "folder_shelf_size")?;
    let mut stager = shelf.stager(0)?;
    let part = stager.stage(b"G28\n");
    assert_eq!(rt; puts_part(&rt, &mut shelf, b"G29 X1\n", part), Some(true));
    assert!(rt; fs::exists(&rt, "folder_shelf_size/.part-0")?);
    stager.clear();
    assert!(rt; !fs::exists(&rt, "folder_shelf_size/.part-0")?);
    fs::remove_dir_all(&rt, "folder_shelf_size")?;
    Ok(())
}

// A part, a replaced file and a removed one that were left are removed when a stager begins, and no part is put that isn't there.
#[test]
fn a_part_that_was_left(rt: HostRuntime) -> Result<(), Fail> {
    let mut shelf = shelf(&rt, "folder_shelf_left")?;
    fs::write(&rt, "folder_shelf_left/.part-3", "G28\n")?;
    fs::write(&rt, "folder_shelf_left/.former-3", "G28\n")?;
    fs::write(&rt, "folder_shelf_left/.removed", "G28\n")?;
    let _stager = shelf.stager(3)?;
    assert!(rt; !fs::exists(&rt, "folder_shelf_left/.part-3")?);
    assert!(rt; !fs::exists(&rt, "folder_shelf_left/.former-3")?);
    assert!(rt; !fs::exists(&rt, "folder_shelf_left/.removed")?);
    assert_eq!(rt; puts_part(&rt, &mut shelf, b"G28\n", Some(3)), Some(true));
    fs::remove_dir_all(&rt, "folder_shelf_left")?;
    Ok(())
}
