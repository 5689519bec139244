//! The files of uploads, which a worker has its stager write before it asks, and those of downloads, which it has it read.
ghost use Rattle.std.specs.Prelude.{None, false};
ghost use Rattle.octo_asks.specs.Place.{no_place};

use super::super::conn_of;
use super::{UPLOAD, VERSION, answer_to, terms};
use byte_text::Name;
use octo_api_routes::Routes;
use octo_api_worker::serve_conn;
use octo_asks::{Answer, Ask, Asker, Closed, Request};
use octo_keeper::{Fetched, FileMark, Stager};
use octo_outside::Blob;
use std::alloc::{AllocError, Global};
use std::test::Fail;

// A stager of part 7. It counts the bytes that it wrote and the files that it read, and whether the part was removed.
#[derive(Drop)]
struct Writer {
    written: usize,
    fetches: u32,
    is_cleared: bool,
}

// The mark of an empty file.
const MARK: FileMark = FileMark {
    device: 1,
    inode: 2,
    size: 0,
    modified: 3,
    modified_nanos: 4,
    changed: 5,
    changed_nanos: 6,
};

impl Stager for Writer {
    ghost number = { λ _. 7 };

    fn stage(&mut self, bytes: &[u8]) -> Option<u8> {
        self.written = bytes.len();
        self.is_cleared = false;
        Some(7)
    }

    fn clear(&mut self) {
        self.is_cleared = true;
    }

    fn fetch(&mut self, alloc: Global, name: &Name) -> Option<Fetched> {
        self.fetches = self.fetches.saturating_add(1);
        Some(Fetched {
            name: name.copy(),
            mark: MARK,
            bytes: Blob::new(alloc),
        })
    }
}

// An asker that keeps the part of the file that it was asked to store, and whether a file that it was asked for was read ahead.
#[derive(Drop)]
struct Taker {
    part: Option<u8>,
    has_fetched: bool,
}

impl Taker {
    // Keeps what a request has.
    fn take(&mut self, request: Request) {
        match request {
            Request::PutFile { file, .. } => self.part = file.part(),
            Request::Download { name } => {
                let (_, fetched) = name.into_parts();
                self.has_fetched = fetched.is_some();
            }
            _ => {}
        }
    }
}

impl Asker for Taker {
    ghost state = { λ _. record { place = no_place; mine = None; saw_close = false } };

    fn ask(&mut self, ask: Ask) -> Result<Answer, Closed> {
        let answer = answer_to(&ask.request);
        self.take(ask.request);
        Ok(answer)
    }

    fn closed(&mut self) -> bool {
        false
    }
}

// What a message led to.
#[derive(Clone, Copy, Debug, PartialEq, Eq)]
struct Staged {
    // The part in which the asker finds the file, and the number of bytes that were written.
    part: Option<u8>,
    written: usize,
    // How many files were read ahead, and whether the asker finds one.
    fetches: u32,
    has_fetched: bool,
}

// Nothing is written or read.
const NOTHING: Staged = Staged {
    part: None,
    written: 0,
    fetches: 0,
    has_fetched: false,
};

// What a message leads to; `None` if the part isn't removed after.
fn stages(alloc: Global, input: &[u8]) -> Result<Option<Staged>, AllocError> {
    let mut writer = Writer {
        written: 0,
        fetches: 0,
        is_cleared: false,
    };
    let mut taker = Taker {
        part: None,
        has_fetched: false,
    };
    let mut conn = conn_of(alloc, input)?;
    let routes = Routes::new(alloc)?;
    let is_open = serve_conn(
        alloc,
        &routes,
        &mut conn,
        &mut taker,
        &mut writer,
        &terms(alloc),
    );
    if is_open && writer.is_cleared {
        return Ok(Some(Staged {
            part: taker.part,
            written: writer.written,
            fetches: writer.fetches,
            has_fetched: taker.has_fetched,
        }));
    }
    Ok(None)
}

#[test]
fn an_upload_is_staged(rt: HostRuntime) -> Result<(), Fail> {
    let wanted = Staged {
        part: Some(7),
        written: 19,
        ..NOTHING
    };
    assert_eq!(rt; stages(rt.alloc(), UPLOAD)?, Some(wanted));
    Ok(())
}

const DOWNLOAD: &[u8] = b"GET /downloads/files/local/a.gcode HTTP/1.1\r\nHost: a\r\n\r\n";

#[test]
fn a_download_is_fetched(rt: HostRuntime) -> Result<(), Fail> {
    let wanted = Staged {
        fetches: 1,
        has_fetched: true,
        ..NOTHING
    };
    assert_eq!(rt; stages(rt.alloc(), DOWNLOAD)?, Some(wanted));
    Ok(())
}

#[test]
fn another_request_is_not(rt: HostRuntime) -> Result<(), Fail> {
    assert_eq!(rt; stages(rt.alloc(), VERSION)?, Some(NOTHING));
    Ok(())
}

// A file without a job, which the host refuses.
const BAD_UPLOAD: &[u8] = b"POST /api/files/local HTTP/1.1\r\n\
Content-Type: multipart/form-data; boundary=XY\r\nContent-Length: 87\r\n\r\n\
--XY\r\nContent-Disposition: form-data; name=\"file\"; filename=\"a.gcode\"\r\n\r\nG28\x01\r\n--XY--\r\n";

#[test]
fn a_refused_file_is_not(rt: HostRuntime) -> Result<(), Fail> {
    assert_eq!(rt; stages(rt.alloc(), BAD_UPLOAD)?, Some(NOTHING));
    Ok(())
}
