//! Pages of other origins, and the fields that let them read a reply.
//!
//! Source: Fetch, section 3.3, for the fields; RFC 6454, section 6.2, for an origin as a text.
ghost use Rattle.std.specs.Prelude.{◌≡◌, ◌≤◌, ◌+◌, ◌++◌, length};
ghost use Rattle.arrayvec.specs.ArrayVec.{array_vec_len};
ghost use Rattle.octo_api_worker.specs.Origins.{origin_in, listed, field_line, allow_origin, origin_lines, allow_use, preflight_lines, direct_lines};

use byte_text::{Name, append};
use octo_api_refusals::methods_text;
use octo_api_routes::{Direct, Methods};
use octo_http::FieldLines;
use octo_outside::{Blob, NameList};

// The origin of the list that is this text.
fn origin_in(origins: &NameList, text: &[u8]) -> Option<Name>
    ensures { result ≡ origin_in origins.now text.now }
{
    for origin in origins.as_slice() {
        if origin.as_bytes() == text {
            return Some(origin.copy());
        }
    }
    None
}

// The origin of a message, if it is in the list.
pub(crate) fn listed(origins: &NameList, origin: &Option<Blob>) -> Option<Name>
    ensures { result ≡ listed origins.now origin.now }
{
    match origin {
        Some(origin) => origin_in(origins, origin.as_slice()),
        None => None,
    }
}

// Adds a field.
fn put_field(lines: &mut FieldLines, name: &[u8], value: &[u8])
    requires { array_vec_len lines.old + length name.now + length value.now + 4 ≤ 320 }
    ensures items { lines.new.items ≡ lines.old.items ++ field_line name.now value.now }
    ensures len { array_vec_len lines.new
        ≡ array_vec_len lines.old + length name.now + length value.now + 4 }
{
    append(lines, name);
    append(lines, b": ");
    append(lines, value);
    append(lines, b"\r\n");
}

// The fields that let pages of an origin read a reply.
fn allow_origin(origin: &Name) -> FieldLines
    ensures items { result.items ≡ allow_origin origin.now }
    ensures few { array_vec_len result ≤ 160 }
{
    let mut lines = FieldLines::new();
    put_field(
        &mut lines,
        b"Access-Control-Allow-Origin",
        origin.as_bytes(),
    );
    put_field(&mut lines, b"Vary", b"Origin");
    lines
}

// The fields of a reply to a message from this origin.
pub(crate) fn origin_lines(origin: &Option<Name>) -> FieldLines
    ensures { result.items ≡ origin_lines origin.now }
{
    match origin {
        Some(origin) => allow_origin(origin),
        None => FieldLines::new(),
    }
}

// Adds the methods and the fields that a page may send.
fn put_use(lines: &mut FieldLines, allowed: Methods)
    requires { array_vec_len lines.old ≤ 160 }
    ensures { lines.new.items ≡ lines.old.items ++ allow_use allowed }
{
    let names = methods_text(allowed);
    put_field(
        lines,
        b"Access-Control-Allow-Methods",
        names.as_str().as_bytes(),
    );
    put_field(
        lines,
        b"Access-Control-Allow-Headers",
        b"X-Api-Key, Content-Type",
    );
}

// The fields of a reply to OPTIONS from this origin.
fn preflight_lines(origin: &Option<Name>, allowed: Methods) -> FieldLines
    ensures { result.items ≡ preflight_lines allowed origin.now }
{
    let Some(origin) = origin else {
        return FieldLines::new();
    };
    let mut lines = allow_origin(origin);
    put_use(&mut lines, allowed);
    lines
}

// The fields of a reply to a message from this origin that is no request.
pub(crate) fn direct_lines(origin: &Option<Name>, direct: &Direct) -> FieldLines
    ensures { result.items ≡ direct_lines direct.now origin.now }
{
    match direct {
        Direct::Options { allowed } => preflight_lines(origin, *allowed),
        _ => origin_lines(origin),
    }
}
