//! The law of a history by its sessions, on which proofs about hosts rest. Its function does nothing: its contract is the
//! law.
ghost use Rattle.std.specs.Prelude.{◌≡◌, ℕ, suc, ◌<◌, ◌≤◌, ◌+◌, ◌++◌, ◌∷◌, Bool, true, List, filter};
ghost use Rattle.std.specs.List.{list_all};
ghost use Rattle.printer_model.specs.Exchanged.{events_of_session};
ghost use Rattle.printer_model.specs.Executed.{executed, is_counted, opens};
ghost use Rattle.printer_model.specs.World.{is_run};
ghost use Rattle.printer_model.specs.Printer.{Logged};
ghost use Rattle.printer_model.specs.World.{is_free, world_of};
ghost use Rattle.printer_model.specs.declared.oks.Oks.{Oks};
ghost use Rattle.printer_model.specs.declared.event.WorldEvent.{WorldEvent};
ghost use Rattle.printer_model.specs.declared.event.WorldEvent.TheVariants as event;

/// What more events leave of what a session executed and add to it, and the last session by itself.
pub fn session_law()
    ensures over { (slots : ℕ) (oks : Oks) (past added : List WorldEvent) (s : ℕ)
        → s < opens past
        → executed slots oks (past ++ added) s ≡ executed slots oks past s }
    ensures grows { (slots : ℕ) (oks : Oks) (past added : List WorldEvent) (s : ℕ)
        (lines : List Logged) → 0 < s → opens past ≡ s → opens added ≡ 0
        → (world_of slots oks (past ++ added)).log
        ≡ (world_of slots oks past).log ++ lines
        → executed slots oks (past ++ added) s
        ≡ executed slots oks past s ++ filter is_counted lines }

    // Another session leaves those before it. What it executes is what the log gains from its Opened on.
    ensures before { (slots : ℕ) (oks : Oks) (past rest : List WorldEvent) (last s : ℕ)
        → s ≤ opens past
        → executed slots oks (past ++ event.Opened last ∷ rest) s
        ≡ executed slots oks past s }
    ensures begun { (slots : ℕ) (oks : Oks) (front rest : List WorldEvent) (last : ℕ)
        (lines : List Logged) → opens rest ≡ 0
        → (world_of slots oks (front ++ event.Opened last ∷ rest)).log
        ≡ (world_of slots oks front).log ++ lines
        → executed slots oks (front ++ event.Opened last ∷ rest) (suc (opens front))
        ≡ filter is_counted lines }
    ensures events { (front rest : List WorldEvent) (last : ℕ) → opens rest ≡ 0
        → events_of_session (suc (opens front)) (front ++ event.Opened last ∷ rest)
        ≡ event.Opened last ∷ rest }

    // What the line and the printer do by themselves opens no session, runs among it.
    ensures free { (events : List WorldEvent) → list_all is_free events ≡ true → opens events ≡ 0 }
    ensures runs { (events : List WorldEvent) → list_all is_run events ≡ true
        → list_all is_free events ≡ true }
{}
