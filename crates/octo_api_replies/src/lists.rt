//! What is shown as JSON, and lists of it.
ghost use Rattle.std.specs.Prelude.{◌≡◌, ◌++◌, map, OnOk};
ghost use Rattle.serde_json.specs.Data.{Data, array};
ghost use Rattle.serde_json.specs.View.{items_of};
ghost use Rattle.octo_api_replies.specs.Tokens.{tokens_of};

use json::Writer;
use std::alloc::AllocError;

// What is shown as JSON.
pub(crate) trait ToJson {
    ghost json: { Self → Data };

    // Writes it. Fails if out of memory.
    fn write_json(&self, out: &mut Writer) -> Result<(), AllocError>
        ensures tokens { OnOk result
            (out.new.tokens ≡ out.old.tokens ++ tokens_of (json self.now)) }
        ensures before { out.new.before ≡ out.old.before };
}

// Writes a list of what the items show, in their order.
pub(crate) fn write_list<T: ToJson>(out: &mut Writer, items: &[T]) -> Result<(), AllocError>
    ensures tokens { OnOk result (out.new.tokens
        ≡ out.old.tokens ++ tokens_of (array (items_of (map T.json items.now)))) }
    ensures before { out.new.before ≡ out.old.before }
{
    out.begin_array()?;
    for item in items {
        item.write_json(out)?;
    }
    out.end_array()
}
