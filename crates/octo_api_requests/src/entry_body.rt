//! What a JSON body asks of the queue.
ghost use Rattle.std.specs.Prelude.{◌≡◌};
ghost use Rattle.serde_json.specs.View.{view};
ghost use Rattle.octo_api_requests.specs.Bodies.{entry_asked};

use crate::fields::{file_at, material_at, name_at, small_at};
use octo_asks::Request;
use serde_json::Value;

// An entry to be added: a priority of 0 to 100, and 1 to 100 copies.
pub(crate) fn entry_of(body: &Value) -> Option<Request>
    ensures { result ≡ entry_asked (view body.now) }
{
    Some(Request::PutEntry {
        name: name_at(body, "name")?,
        file: file_at(body, "file")?,
        priority: small_at(body, "priority", 0, 0)?,
        copies: small_at(body, "copies", 1, 1)?,
        material: material_at(body)?,
    })
}
