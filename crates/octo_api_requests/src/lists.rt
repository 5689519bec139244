//! Lists in JSON bodies.
ghost use Rattle.std.specs.Prelude.{◌≡◌, ◌≤◌, length, option_map};
ghost use Rattle.serde_json.specs.View.{view, items_view};
ghost use Rattle.octo_api_commands.specs.Lists.{all_of};
ghost use Rattle.octo_api_requests.specs.Fields.{as_name};
ghost use Rattle.octo_api_requests.specs.Bodies.{as_groups};

use crate::fields::as_name;
use byte_text::Name;
use octo_access::GroupNames;
use octo_api_commands::items_in;
use serde_json::Value;

// The names, if each value is one.
fn names_in(values: &[Value]) -> Option<GroupNames>
    requires { length values.now ≤ 8 }
    ensures { option_map (λ names. names.items) result ≡ all_of as_name (items_view values.now) }
{
    let mut names = GroupNames::new();
    for value in values {
        names.push(as_name(value)?);
    }
    Some(names)
}

// Up to 8 groups.
pub(crate) fn as_groups(found: &Value) -> Option<GroupNames>
    ensures { result ≡ as_groups (view found.now) }
{
    names_in(items_in(found, 0, 8)?)
}
