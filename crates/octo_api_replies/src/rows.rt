//! Objects of rows, written as JSON.
ghost use Rattle.std.specs.Prelude.{◌≡◌, ◌++◌, OnOk};
ghost use Rattle.octo_api_refusals.specs.Objects.{primitive_data};
ghost use Rattle.octo_api_replies.specs.Tokens.{tokens_of, rows_tokens, object_tokens};

use json::Writer;
use octo_api_refusals::Primitive;
use std::alloc::AllocError;

// Writes a value that holds no other one.
fn write_primitive(out: &mut Writer, primitive: Primitive) -> Result<(), AllocError>
    ensures tokens { OnOk result
        (out.new.tokens ≡ out.old.tokens ++ tokens_of (primitive_data primitive.entry)) }
    ensures before { out.new.before ≡ out.old.before }
{
    match primitive {
        Primitive::Null => out.null(),
        Primitive::Flag(is_true) => out.boolean(is_true),
        Primitive::Count(number) => out.u64(number),
        Primitive::Whole(number) => out.i64(number),
        Primitive::Text(text) => out.string(text),
    }
}

// Writes the members of rows, which have to be in the byte order of their names.
fn write_rows(out: &mut Writer, rows: &[(&str, Primitive)]) -> Result<(), AllocError>
    ensures tokens { OnOk result
        (out.new.tokens ≡ out.old.tokens ++ rows_tokens rows.now) }
    ensures before { out.new.before ≡ out.old.before }
{
    for row in rows {
        out.key(row.0)?;
        write_primitive(out, row.1)?;
    }
    Ok(())
}

// Writes an object of rows.
pub(crate) fn write_object(out: &mut Writer, rows: &[(&str, Primitive)]) -> Result<(), AllocError>
    ensures tokens { OnOk result
        (out.new.tokens ≡ out.old.tokens ++ object_tokens (rows_tokens rows.now)) }
    ensures before { out.new.before ≡ out.old.before }
{
    out.begin_object()?;
    write_rows(out, rows)?;
    out.end_object()
}
