//! The law of a printer's prints.
ghost use Rattle.std.specs.Prelude.{List, Some};
ghost use Rattle.printer_link.specs.Link.{LinkKind};
ghost use Rattle.printer_model.specs.declared.event.WorldEvent.{WorldEvent};
ghost use Rattle.octo_floor_bay.specs.Bay.{BayData, IsBay};
ghost use Rattle.octo_floor_bay.specs.Prints.{IsInStep, IsSoundOver};

/// Over a link that records its history, what a printer did is tied to what happened on its link, session by session, after each
/// deed; and its prints are sound.
pub fn prints_are_sound()
    ensures { (kind : LinkKind) (front past : List WorldEvent) (b : BayData)
        → IsBay b → IsInStep kind (Some front) (Some past) b → IsSoundOver kind front past b }
{}
