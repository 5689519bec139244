//! The materials of entries and printers.
ghost use Rattle.std.specs.Prelude.{◌≡◌, codes};

use byte_text::Name;

/// The material of an entry that fits every printer, and of a printer that every entry fits. Takes no memory.
pub fn any_material() -> Name
    ensures { result ≡ codes "any" }
{
    Name::of_short("any")
}
