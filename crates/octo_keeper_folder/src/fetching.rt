//! Files of a folder that are read ahead, and what tells whether they are still the same.
ghost use Rattle.std.specs.Prelude.{◌≡◌, ◌≤◌, false, None, IfSome, length};
ghost use Rattle.octo_access.specs.FileNames.{is_file_name};

use crate::paths::path_in;
use byte_text::Name;
use gcode_lines::MOST_FILE_BYTES;
use octo_access::is_file_name;
use octo_keeper::{Fetched, FileMark};
use octo_outside::Blob;
use std::alloc::Global;
use std::fs;
use std::fs::{Metadata, OpenFile};
use std::io::Read;
use std::os::unix::fs::MetadataExt;
use std::rt::Files;

// The mark of a file in this state.
pub(crate) fn mark_of(metadata: &Metadata) -> FileMark {
    FileMark {
        device: metadata.dev(),
        inode: metadata.ino(),
        size: metadata.len(),
        modified: metadata.mtime(),
        modified_nanos: metadata.mtime_nsec(),
        changed: metadata.ctime(),
        changed_nanos: metadata.ctime_nsec(),
    }
}

// The mark of the file that a path names, if that is a regular file of a print file's size; a link isn't one.
fn mark_at<R: Files>(rt: &R, path: &str) -> Option<FileMark> {
    let Ok(metadata) = fs::symlink_metadata(rt, path) else {
        return None;
    };
    let mark = mark_of(&metadata);
    if metadata.is_file() && mark.size <= MOST_FILE_BYTES as u64 {
        Some(mark)
    } else {
        None
    }
}

// Room for a file of that size, and for one byte more, so that reading it to its end takes no further memory.
fn room_for(alloc: Global, size: u64) -> Option<Vec<u8>> {
    let Ok(size) = usize::try_from(size) else {
        return None;
    };
    Vec::with_capacity(alloc, size.saturating_add(1)).ok()
}

// The bytes of the file that a path names, if it has this mark after they were read; else `None`.
fn read_marked<R: Files>(alloc: Global, rt: &R, path: &str, mark: FileMark) -> Option<Blob> {
    let mut bytes = room_for(alloc, mark.size)?;
    let Ok(file) = fs::open(rt, path) else {
        return None;
    };
    let mut reader = file.take(mark.size);
    if reader.read_to_end(&mut bytes).is_err() || bytes.len() as u64 != mark.size {
        return None;
    }
    match reader.get_ref().metadata() {
        Ok(metadata) if mark_of(&metadata) == mark => Some(Blob::from_vec(bytes)),
        Ok(_) | Err(_) => None,
    }
}

// The file of that name with its mark, if the folder has it. `None` if it can't be read whole, or changes meanwhile.
pub(crate) fn fetch_file<R: Files>(
    alloc: Global,
    rt: &R,
    folder: &Name,
    name: &Name,
) -> Option<Fetched>
    ensures other { is_file_name name.now ≡ false → result ≡ None }
    ensures name { IfSome result (λ fetched. fetched.name ≡ name.now) }
{
    if !is_file_name(name.as_str()) {
        return None;
    }
    let path = path_in(folder, name, "");
    let mark = mark_at(rt, path.as_str())?;
    let bytes = read_marked(alloc, rt, path.as_str(), mark)?;
    Some(Fetched {
        name: name.copy(),
        mark,
        bytes,
    })
}
