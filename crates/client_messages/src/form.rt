//! The parts of a message's form.
ghost use Rattle.octo_http_forms.specs.Parts.{ArePartsIn};

use octo_http::Message;
use octo_http_forms::{PartFault, Parts, multipart};
use std::str;

// Prints a form's file and its two flags.
fn print_parts(rt: HostRuntime, body: &[u8], parts: Parts) -> anyhow::Result<()>
    requires { ArePartsIn parts body.now }
{
    if let (Some(name), Some(file)) = (parts.name, parts.file) {
        let name = str::from_utf8(&body[name.from..name.to])?;
        let count = file.to - file.from;
        println!(rt; "    file {name}, {count} bytes")?;
    }
    let select = parts.select;
    let print = parts.print;
    println!(rt; "    select {select}, print {print}")?;
    Ok(())
}

/// Prints the parts of a message's body, if its type is a form with a boundary.
pub fn print_form(rt: HostRuntime, message: &Message) -> anyhow::Result<()> {
    let Some(kind) = &message.kind else {
        return Ok(());
    };
    let body = message.body.as_slice();
    match multipart(body, kind.as_slice()) {
        Ok(parts) => print_parts(rt, body, parts),
        Err(PartFault::NoBoundary) => Ok(()),
        Err(fault) => Err(fault.into()),
    }
}
