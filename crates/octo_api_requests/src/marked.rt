//! The name of an uploaded file that was sent with bytes beyond ASCII.
ghost use Rattle.std.specs.Prelude.{◌≡◌, ◌≤◌, length, true, IfOk};
ghost use Rattle.octo_access.specs.FileNames.{has_ending};
ghost use Rattle.octo_api_requests.specs.Marked.{mark_of, ending_len, marked};

use byte_text::same_text;
use hex::encode_to_slice;
use octo_access::digest_of;
use std::alloc::{AllocError, Global};

// How many bytes a marked name has in front of its mark and its ending together.
const MOST_STEM: usize = 91;

fn has_ending(name: &[u8], ending: &[u8]) -> bool
    ensures value { result ≡ has_ending ending.now name.now }
    ensures bound { result ≡ true → length ending.now ≤ length name.now }
{
    ending.len() <= name.len() && same_text(&name[name.len() - ending.len()..], ending)
}

// How many bytes the ending of a print file's name has, 0 if it has none.
fn ending_len(name: &[u8]) -> usize
    ensures value { result ≡ ending_len name.now }
    ensures short { result ≤ 6 }
    ensures within { result ≤ length name.now }
{
    if has_ending(name, b".gcode") {
        return 6;
    }
    if has_ending(name, b".gco") {
        return 4;
    }
    if has_ending(name, b".g") {
        return 2;
    }
    0
}

// The first 8 hexadecimal digits of a name's SHA-256. Source: FIPS 180-4.
fn mark_of(sent: &[u8]) -> [u8; 8]
    ensures { result ≡ mark_of sent.now }
{
    let digest = digest_of(sent);
    let mut digits = [0; 8];
    match encode_to_slice(&digest[..4], &mut digits) {
        Ok(()) => digits,
        Err(_) => unreachable!(),
    }
}

// A cleaned name with the mark of the sent one in front of its ending.
pub(crate) fn marked(alloc: Global, sent: &[u8], name: &[u8]) -> Result<Vec<u8>, AllocError>
    ensures { IfOk result (λ all. all.items ≡ marked sent.now name.now) }
{
    let ending = ending_len(name);
    let stem = name.len() - ending;
    let mut all = Vec::from_slice(alloc, &name[..stem.min(MOST_STEM - ending)])?;
    all.push(b'-')?;
    all.extend_from_slice(&mark_of(sent))?;
    all.extend_from_slice(&name[stem..])?;
    Ok(all)
}
