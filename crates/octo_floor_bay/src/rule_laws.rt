//! The laws of a floor's events, whatever its printers' links did.
ghost use Rattle.std.specs.Prelude.{ℕ, List};
ghost use Rattle.octo_floor_bay.specs.Events.{FloorHistory};
ghost use Rattle.octo_floor_bay.specs.Laws.{CopiesAreCounted, NumbersGoOn, NumbersDiffer};
ghost use Rattle.octo_floor_bay.specs.Laws.{PassedStayOut};
ghost use Rattle.octo_floor_bay.specs.Stock.{Stock, AllMayCome};

/// The copies that a queue has at first are those that are left after these events, and one for each print that was started.
pub fn copies_are_counted()
    ensures { (materials : List (List ℕ)) (s : Stock) (events : FloorHistory)
        → CopiesAreCounted materials s events }
{}

/// The records of the prints that were started have the numbers after those of the records before them, one after the other.
pub fn numbers_go_on()
    ensures { (materials : List (List ℕ)) (s : Stock) (events : FloorHistory)
        → NumbersGoOn materials s events }
{}

/// No two prints that were started have one number.
pub fn numbers_differ()
    ensures { (materials : List (List ℕ)) (s : Stock) (events : FloorHistory)
        → NumbersDiffer materials s events }
{}

/// No copy of an entry that was passed over is started after that.
pub fn passed_entries_stay_out()
    ensures { (materials : List (List ℕ)) (s : Stock) (events : FloorHistory)
        → AllMayCome materials s events → PassedStayOut events }
{}
