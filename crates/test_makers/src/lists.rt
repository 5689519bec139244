//! Lists of calls and ports.
ghost use Rattle.std.specs.Prelude.{◌≡◌, [], ◌∷◌, IfSome};

use byte_text::Name;
use octo_outside::{CallList, NameList, calls_of};
use std::alloc::Global;

/// A list of calls, counted from 1.
pub fn calls(alloc: Global, numbers: &[u64]) -> Option<CallList>
    ensures { IfSome result (λ calls. calls ≡ numbers.now) }
{
    calls_of(alloc, numbers).ok()
}

/// A list of one port.
pub fn ports(alloc: Global, port: &str) -> Option<NameList>
    ensures { IfSome result (λ ports. ports ≡ port.now ∷ []) }
{
    let mut ports = NameList::new(alloc);
    ports.push(Name::from_text(port)?).ok()?;
    Some(ports)
}
