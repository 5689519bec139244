//! Names, files, users, queue entries, prints and heaters as JSON.
ghost use Rattle.std.specs.Prelude.{◌≡◌, IfOk};
ghost use Rattle.serde_json.specs.Data.{string};
ghost use Rattle.serde_json.specs.View.{view};
ghost use Rattle.octo_api_replies.specs.Items.{texts_data, heat_data, file_data, user_data, entry_data, print_data};

use crate::lists::{ToJson, write_list};
use crate::rows::write_object;
use crate::texts::outcome_text;
use byte_text::Name;
use json::Writer;
use octo_api_refusals::{Primitive, object_of};
use octo_asks::{ShownEntry, ShownFile, ShownHeat, ShownPrint, ShownUser};
use serde_json::Value;
use std::alloc::{AllocError, Global};

impl ToJson for Name {
    ghost json = { string };

    fn write_json(&self, out: &mut Writer) -> Result<(), AllocError> {
        out.string(self.as_str())
    }
}

impl ToJson for ShownFile {
    ghost json = { file_data };

    fn write_json(&self, out: &mut Writer) -> Result<(), AllocError> {
        let name = self.name.as_str();
        write_object(
            out,
            &[
                ("name", Primitive::Text(name)),
                ("origin", Primitive::Text("local")),
                ("path", Primitive::Text(name)),
                ("size", Primitive::Count(self.size)),
                ("type", Primitive::Text("machinecode")),
            ],
        )
    }
}

impl ToJson for ShownUser {
    ghost json = { user_data };

    fn write_json(&self, out: &mut Writer) -> Result<(), AllocError> {
        out.begin_object()?;
        out.key("active")?;
        out.boolean(self.active)?;
        out.key("groups")?;
        write_list(out, self.groups.as_slice())?;
        out.key("name")?;
        out.string(self.name.as_str())?;
        out.end_object()
    }
}

impl ToJson for ShownEntry {
    ghost json = { entry_data };

    fn write_json(&self, out: &mut Writer) -> Result<(), AllocError> {
        write_object(
            out,
            &[
                ("copies", Primitive::Count(self.copies.into())),
                ("file", Primitive::Text(self.file.as_str())),
                ("left", Primitive::Count(self.left.into())),
                ("material", Primitive::Text(self.material.as_str())),
                ("name", Primitive::Text(self.name.as_str())),
                ("priority", Primitive::Count(self.priority.into())),
                ("user", Primitive::Text(self.user.as_str())),
            ],
        )
    }
}

impl ToJson for ShownPrint {
    ghost json = { print_data };

    fn write_json(&self, out: &mut Writer) -> Result<(), AllocError> {
        write_object(
            out,
            &[
                ("commands", Primitive::Count(self.commands.into())),
                ("file", Primitive::Text(self.file.as_str())),
                ("number", Primitive::Count(self.number.into())),
                ("outcome", Primitive::Text(outcome_text(self.outcome))),
                ("user", Primitive::Text(self.user.as_str())),
            ],
        )
    }
}

// A list of names.
pub(crate) fn names_value(alloc: Global, names: &[Name]) -> Result<Value, AllocError>
    ensures { IfOk result (λ value. view value ≡ texts_data names.now) }
{
    let mut list = Vec::new(alloc);
    for name in names {
        list.push(Value::try_from_str(alloc, name.as_str())?)?;
    }
    Ok(Value::Array(list))
}

// A heater's temperatures.
pub(crate) fn heat_value(alloc: Global, heat: ShownHeat) -> Result<Value, AllocError>
    ensures { IfOk result (λ value. view value ≡ heat_data heat) }
{
    object_of(
        alloc,
        &[
            ("actual", Primitive::Whole(heat.actual)),
            ("target", Primitive::Whole(heat.target)),
        ],
    )
}
