//! A law of these definitions. Its function does nothing: its contract is the law.
ghost use Rattle.std.specs.Prelude.{◌≡◌, ℕ, List, Result};
ghost use Rattle.octo_http_forms.specs.declared.types.Parts.{Parts};
ghost use Rattle.octo_http_forms.specs.declared.types.PartFault.{PartFault};
ghost use Rattle.octo_http_forms.specs.Parts.{FormReadsAs};

/// A body and its type say one thing: parts or one fault.
pub fn one_meaning_law()
    ensures { (body kind : List ℕ) (a b : Result Parts PartFault)
        → FormReadsAs body kind a → FormReadsAs body kind b → a ≡ b }
{}
