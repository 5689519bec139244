//! The name that an uploaded file is stored under.
ghost use Rattle.std.specs.Prelude.{◌≡◌, ◌⊎◌, ◌≤◌, ◌++◌, length, map, take, not, true, Err, IfOk, OnOk};
ghost use Rattle.std.specs.List.{list_all, suffix_len};
ghost use Rattle.octo_api_routes.specs.Ascii.{is_ascii_byte};
ghost use Rattle.octo_api_requests.specs.Uploads.{is_separator, without_folders, clean_byte, start_byte, clean_start, sent_name, cleaned, short_name, checked_name, stored_name};

use crate::Direct;
use crate::marked::marked;
use byte_text::{MOST_NAME_BYTES, Name};
use octo_access::{is_gcode, is_name_byte};
use octo_api_routes::{BodyFault, MediaFault, ascii_text};
use std::alloc::{AllocError, Global};

// Whether a byte is a slash or a backslash.
fn is_separator(byte: u8) -> bool
    ensures { result ≡ is_separator byte }
{
    byte == b'/' || byte == b'\\'
}

// How many bytes there are after the last separator.
fn last_len(filename: &[u8]) -> usize
    ensures value { result ≡ suffix_len (λ byte. not (is_separator byte)) filename.now }
    ensures most { result ≤ length filename.now }
{
    filename
        .iter()
        .rev()
        .take_while(|byte| !is_separator(**byte))
        .count()
}

// What comes after the last separator.
fn without_folders(filename: &[u8]) -> &[u8]
    ensures { result.now ≡ without_folders filename.now }
{
    &filename[filename.len() - last_len(filename)..]
}

// The byte itself if a name may have it, else `_`.
fn clean_byte(byte: u8) -> u8
    ensures { result ≡ clean_byte byte }
{
    if is_name_byte(byte) { byte } else { b'_' }
}

// A full stop in front becomes `_`.
fn start_byte(byte: u8) -> u8
    ensures { result ≡ start_byte byte }
{
    if byte == b'.' { b'_' } else { byte }
}

// Adds the bytes, each of which a name may have.
fn push_clean(name: &mut Vec<u8>, bytes: &[u8]) -> Result<(), AllocError>
    ensures { OnOk result (name.new.items ≡ name.old.items ++ map clean_byte bytes.now) }
{
    for byte in bytes {
        name.push(clean_byte(*byte))?;
    }
    Ok(())
}

// The bytes of a name, each of which a name may have.
fn cleaned(alloc: Global, part: &[u8]) -> Result<Vec<u8>, AllocError>
    ensures { IfOk result (λ name. name.items ≡ cleaned part.now) }
{
    let mut name = Vec::new(alloc);
    let [first, others @ ..] = part else {
        return Ok(name);
    };
    name.push(start_byte(clean_byte(*first)))?;
    push_clean(&mut name, others)?;
    Ok(name)
}

// A name as it was sent, after the folder of its form if that isn't empty.
fn sent_name(alloc: Global, folder: &[u8], name: &[u8]) -> Result<Vec<u8>, AllocError>
    ensures { IfOk result (λ sent. sent.items ≡ sent_name folder.now name.now) }
{
    if folder.is_empty() {
        return Vec::from_slice(alloc, name);
    }
    let mut sent = Vec::from_slice(alloc, folder)?;
    sent.push(b'/')?;
    sent.extend_from_slice(name)?;
    Ok(sent)
}

// A name that isn't too long.
fn short_name(name: &[u8]) -> Result<Name, Direct>
    requires { list_all is_ascii_byte name.now ≡ true }
    ensures { result ≡ short_name name.now }
{
    match ascii_text(name) {
        Some(text) => Name::from_text(text).ok_or(Direct::BadBody {
            fault: BodyFault::LongName { bytes: name.len() },
        }),
        None => unreachable!(),
    }
}

// The first 100 bytes of a name.
#[tactic(auto, using(crate::proofs::Cleaned::front_is_ascii, std::proofs::lemmas::List::take_min))]
fn front_of(name: &[u8]) -> Name
    requires { list_all is_ascii_byte name.now ≡ true }
    ensures { result ≡ take 100 name.now }
{
    let front = &name[..MOST_NAME_BYTES.min(name.len())];
    match ascii_text(front) {
        Some(text) => Name::of_short(text),
        None => unreachable!(),
    }
}

// The name of a stored file: its ending is tested first. One that was sent with bytes beyond ASCII gets a mark.
fn checked_name(alloc: Global, sent: &[u8]) -> Result<Name, Direct>
    ensures { (result ≡ Err Direct.NoMemory) ⊎ (result ≡ checked_name sent.now) }
{
    let name = cleaned(alloc, sent)?;
    if !is_gcode(name.as_slice()) {
        return Err(Direct::BadMedia {
            fault: MediaFault::NoEnding {
                name: front_of(name.as_slice()),
            },
        });
    }
    if ascii_text(sent).is_some() {
        return short_name(name.as_slice());
    }
    let name = marked(alloc, sent, name.as_slice())?;
    short_name(name.as_slice())
}

// The name that an uploaded file gets: the folder of its form, and what comes after the last `/` or `\` of its filename, with `_`
// for each byte that a name may not have and for a full stop in front. A name with bytes beyond ASCII gets a mark of its own.
pub(crate) fn stored_name(alloc: Global, folder: &[u8], filename: &[u8]) -> Result<Name, Direct>
    ensures { (result ≡ Err Direct.NoMemory) ⊎ (result ≡ stored_name folder.now filename.now) }
{
    let sent = sent_name(alloc, folder, without_folders(filename))?;
    checked_name(alloc, sent.as_slice())
}
