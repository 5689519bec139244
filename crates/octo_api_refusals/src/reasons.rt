//! Why a message is no request, as a sentence for people.
ghost use Rattle.std.specs.Prelude.{◌≡◌, ◌++◌, IfOk, string_bytes};
ghost use Rattle.octo_api_refusals.specs.Reasons.{wrong_text, body_reason, media_reason, method_reason};

use crate::methods::methods_text;
use itoa::Buffer;
use octo_api_routes::{BodyFault, MediaFault, Member, Methods};
use std::alloc::{AllocError, Global};

// A copy of a text.
fn text_of(alloc: Global, text: &str) -> Result<String, AllocError>
    ensures { IfOk result (λ copy. string_bytes copy ≡ text.now) }
{
    let mut copy = String::new(alloc);
    copy.push_str(text)?;
    Ok(copy)
}

// Three texts as one.
fn joined(alloc: Global, front: &str, middle: &str, end: &str) -> Result<String, AllocError>
    ensures { IfOk result (λ text. string_bytes text ≡ front.now ++ middle.now ++ end.now) }
{
    let mut text = text_of(alloc, front)?;
    text.push_str(middle)?;
    text.push_str(end)?;
    Ok(text)
}

// What a member has to be and isn't, after its name.
fn wrong_text(member: Member) -> &'static str
    ensures { result.now ≡ wrong_text member }
{
    match member {
        Member::Command => "` is none of the commands of this path",
        Member::Commands => "` is no list of 1 to 256 texts",
        Member::Parameters => "` has no whole number and no plain word for a name in braces",
        Member::Port => "` is no text of 1 to 100 bytes",
        Member::Targets => "` is no object",
        Member::Tool0 => "` is no whole number from 0 to 65535",
        Member::Target => "` is no whole number from 0 to 65535",
        Member::Action => "` is none of pause, resume and toggle",
        Member::Print => "` is neither true nor false",
        Member::Name => "` is no name",
        Member::File => "` is no name of a print file",
        Member::Priority => "` is no whole number from 0 to 100",
        Member::Copies => "` is no whole number from 1 to 100",
        Member::Material => "` is no name",
        Member::Key => "` is no text of 16 to 64 letters and digits",
        Member::Groups => "` is no list of at most 8 names",
        Member::Active => "` is neither true nor false",
        Member::X => "` is no number of at most three digits after the point, up to 99999.999",
        Member::Y => "` is no number of at most three digits after the point, up to 99999.999",
        Member::Z => "` is no number of at most three digits after the point, up to 99999.999",
        Member::Absolute => "` is neither true nor false",
        Member::Speed => "` is no whole number from 1 to 65535",
        Member::Axes => "` is no list of 1 to 3 of x, y and z",
        Member::Factor => "` is no percentage in the range of this command",
        Member::Amount => "` is no number of at most three digits after the point, up to 99999.999",
        Member::Tool => "` is not tool0",
        Member::Passive => "` is not true",
    }
}

// A name that is too long.
fn long_name(alloc: Global, bytes: usize) -> Result<String, AllocError>
    ensures { IfOk result (λ text. string_bytes text ≡ body_reason (BodyFault.LongName bytes)) }
{
    let mut buffer = Buffer::new();
    let count = buffer.format(bytes as u64);
    joined(alloc, "the name has ", count, " bytes and 100 are allowed")
}

// What is wrong with a body. Fails if out of memory.
pub(crate) fn body_reason(alloc: Global, fault: BodyFault) -> Result<String, AllocError>
    ensures { IfOk result (λ text. string_bytes text ≡ body_reason fault) }
{
    match fault {
        BodyFault::TooLong => text_of(alloc, "JSON may have at most 1048576 bytes"),
        BodyFault::NotJson => text_of(alloc, "the body is no JSON"),
        BodyFault::NoObject => text_of(alloc, "the body is no JSON object"),
        BodyFault::Both => text_of(alloc, "`command` and `commands` exclude each other"),
        BodyFault::Password => {
            text_of(alloc, "there are no passwords: send a key, and `passive`")
        }
        BodyFault::NoClose => text_of(alloc, "the form does not end with its boundary"),
        BodyFault::BadPart => text_of(alloc, "a part of the form is malformed or has no name"),
        BodyFault::NoFile => text_of(alloc, "the form has no part `file` with a filename"),
        BodyFault::Missing { member } => {
            joined(alloc, "the member `", member.name(), "` is missing")
        }
        BodyFault::Wrong { member } => {
            joined(alloc, "the member `", member.name(), wrong_text(member))
        }
        BodyFault::LongName { bytes } => long_name(alloc, bytes),
    }
}

// The methods that a path takes. Fails if out of memory.
pub(crate) fn method_reason(alloc: Global, allowed: Methods) -> Result<String, AllocError>
    ensures { IfOk result (λ text. string_bytes text ≡ method_reason allowed) }
{
    let names = methods_text(allowed);
    joined(
        alloc,
        "this path takes ",
        names.as_str(),
        " and no other method",
    )
}

// What is wrong with the type of a body or of a file. Fails if out of memory.
pub(crate) fn media_reason(alloc: Global, fault: &MediaFault) -> Result<String, AllocError>
    ensures { IfOk result (λ text. string_bytes text ≡ media_reason fault.now) }
{
    match fault {
        MediaFault::Coded => text_of(alloc, "send the body without a coding"),
        MediaFault::NotJson => text_of(alloc, "this path takes application/json"),
        MediaFault::NoForm => text_of(alloc, "this path takes multipart/form-data with a boundary"),
        MediaFault::NoEnding { name } => joined(
            alloc,
            "`",
            name.as_str(),
            "` has no print ending (.gcode, .gco, .g)",
        ),
    }
}
