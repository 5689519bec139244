//! Lists in JSON bodies.
ghost use Rattle.std.specs.Prelude.{◌≡◌, ◌≤◌, length, option_map, is_some, IfSome};
ghost use Rattle.serde_json.specs.Find.{as_str};
ghost use Rattle.serde_json.specs.View.{view, items_view};
ghost use Rattle.octo_api_commands.specs.Members.{Gives};
ghost use Rattle.octo_api_commands.specs.Lists.{all_of, items_in, are_texts, as_list};
ghost use Rattle.octo_api_commands.specs.Commands.{as_command};

use crate::commands::command_of;
use crate::unread::Unread;
use octo_asks::BlobList;
use serde_json::Value;
use std::alloc::Global;

// How many commands a body has at most.
const MOST_LINES: usize = 256;

/// The items of a list whose length is in this range.
#[tactic(auto, using(crate::proofs::Items::item_counts))]
pub fn items_in(found: &Value, least: usize, most: usize) -> Option<&[Value]>
    ensures value { option_map (λ values. items_view values.now) result
        ≡ items_in least most (view found.now) }
    ensures most { IfSome result (λ values. length values.now ≤ most) }
{
    let values = found.as_array()?;
    if values.len() < least || most < values.len() {
        return None;
    }
    Some(values.as_slice())
}

// Whether each value is a text.
fn are_all_texts(values: &[Value]) -> bool
    ensures { result ≡ is_some (all_of as_str (items_view values.now)) }
{
    for value in values {
        if value.as_str().is_none() {
            return false;
        }
    }
    true
}

/// Whether a value is a list of 1 to 256 texts.
pub fn are_texts(found: &Value) -> bool
    ensures { result ≡ are_texts (view found.now) }
{
    match items_in(found, 1, MOST_LINES) {
        Some(values) => are_all_texts(values),
        None => false,
    }
}

// The commands, if each value is one.
fn commands_in(
    alloc: Global,
    parameters: Option<&Value>,
    values: &[Value],
) -> Result<BlobList, Unread>
    ensures { Gives (all_of (as_command (option_map (λ given. view given.now) parameters.entry))
        (items_view values.now)) result }
{
    let mut texts = BlobList::new(alloc);
    for value in values {
        texts.push(command_of(alloc, parameters, value)?)?;
    }
    Ok(texts)
}

/// 1 to 256 commands, with the parameters in the place of their names. Fails if out of memory, too.
pub fn as_lines(
    alloc: Global,
    parameters: Option<&Value>,
    found: &Value,
) -> Result<BlobList, Unread>
    ensures { Gives (as_list (as_command (option_map (λ given. view given.now) parameters.entry)) 1 256
        (view found.now)) result }
{
    match items_in(found, 1, MOST_LINES) {
        Some(values) => commands_in(alloc, parameters, values),
        None => Err(Unread::Wrong),
    }
}
