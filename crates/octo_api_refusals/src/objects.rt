//! Objects of JSON made of rows: a name, and what is shown under it.
ghost use Rattle.std.specs.Prelude.{◌≡◌, IfOk};
ghost use Rattle.serde_json.specs.Data.{object, no_members, put as with_member};
ghost use Rattle.serde_json.specs.View.{view, members_view};
ghost use Rattle.octo_api_refusals.specs.Objects.{primitive_data, with_rows, object_of};

use serde_json::{Map, Value, put};
use std::alloc::{AllocError, Global};

/// A value that holds no other one.
#[derive(Clone, Copy)]
pub enum Primitive<'a> {
    Null,
    Flag(bool),
    Count(u64),
    Whole(i64),
    Text(&'a str),
}

/// The members of an object.
pub type Members = Map<String, Value>;

// The JSON of a value that holds no other one.
fn primitive_value(alloc: Global, primitive: Primitive) -> Result<Value, AllocError>
    ensures { IfOk result (λ value. view value ≡ primitive_data primitive.entry) }
{
    match primitive {
        Primitive::Null => Ok(Value::Null),
        Primitive::Flag(is_true) => Ok(Value::Bool(is_true)),
        Primitive::Count(number) => Ok(Value::from(number)),
        Primitive::Whole(number) => Ok(Value::from(number)),
        Primitive::Text(text) => Value::try_from_str(alloc, text),
    }
}

/// The members of these rows. Fails if out of memory.
pub fn members_of(alloc: Global, rows: &[(&str, Primitive)]) -> Result<Members, AllocError>
    ensures { IfOk result (λ members. members_view members.entries
        ≡ with_rows rows.now no_members) }
{
    let mut members = Map::new(alloc);
    for row in rows {
        let value = primitive_value(alloc, row.1)?;
        put(&mut members, alloc, row.0, value)?;
    }
    Ok(members)
}

/// The members and one more, which may be an object or a list.
pub fn with_member(
    alloc: Global,
    members: Members,
    name: &str,
    value: Value,
) -> Result<Members, AllocError>
    ensures { IfOk result (λ all. members_view all.entries
        ≡ with_member name.now (view value) (members_view members.entries)) }
{
    let mut all = members;
    put(&mut all, alloc, name, value)?;
    Ok(all)
}

/// An object of these rows.
pub fn object_of(alloc: Global, rows: &[(&str, Primitive)]) -> Result<Value, AllocError>
    ensures { IfOk result (λ value. view value ≡ object_of rows.now) }
{
    Ok(Value::Object(members_of(alloc, rows)?))
}

/// An object of these rows and one more member, which may be an object or a list.
pub fn object_with(
    alloc: Global,
    rows: &[(&str, Primitive)],
    name: &str,
    value: Value,
) -> Result<Value, AllocError>
    ensures { IfOk result (λ all. view all
        ≡ object (with_member name.now (view value) (with_rows rows.now no_members))) }
{
    let members = members_of(alloc, rows)?;
    Ok(Value::Object(with_member(alloc, members, name, value)?))
}

/// An object of two members, which may be objects or lists.
pub fn pair(
    alloc: Global,
    name: &str,
    value: Value,
    other_name: &str,
    other: Value,
) -> Result<Value, AllocError>
    ensures { IfOk result (λ all. view all
        ≡ object (with_member other_name.now (view other)
        (with_member name.now (view value) no_members))) }
{
    let members = with_member(alloc, Map::new(alloc), name, value)?;
    Ok(Value::Object(with_member(alloc, members, other_name, other)?))
}
