//! How a session is linked to the history of a link, from its beginning on and through each turn. A law's function does
//! nothing: its contract is the law.
ghost use Rattle.std.specs.Prelude.{◌≡◌, ℕ, List, [], Option, false};
ghost use Rattle.job_desk.specs.declared.link_fact.LinkFact.TheVariants as fact;
ghost use Rattle.printer_link.specs.Link.{LinkKind, IsOpenAs};
ghost use Rattle.printer_model.specs.declared.event.WorldEvent.{WorldEvent};
ghost use Rattle.send_window.specs.Data.{IsSound};
ghost use Rattle.send_window.specs.declared.session_end.SessionEnd.{SessionEnd};
ghost use Rattle.octo_session.specs.Data.{SessionData};
ghost use Rattle.octo_session.specs.Causes.{EndCausedAs};
ghost use Rattle.printer_link.specs.Suits.{SuitsAs};
ghost use Rattle.octo_session.specs.Turn.{fact_of};
ghost use Rattle.octo_session.specs.declared.found.Turned.{Turned};
ghost use Rattle.octo_session_line_proof.specs.Issuing.{issued_by_turn};
ghost use Rattle.octo_session_line_proof.specs.Linked.{IsTurnOver, LinkedAs, OpenedAs, IsOpening};
ghost use Rattle.octo_session_line_proof.specs.Tied.{TiedAs, FormerTiedAs};

/// A new session is linked over a closed link, and a call of the desk alone leaves it linked.
pub fn linked_law()
    ensures begins { (kind : LinkKind) (recorded : Option (List WorldEvent)) (x : SessionData)
        → x.up ≡ false → IsSound x.sender → SuitsAs x.sender.numbered recorded kind.oks
        → IsOpenAs kind recorded false
        → LinkedAs kind recorded [] x }
    ensures desk { (kind : LinkKind) (recorded : Option (List WorldEvent)) (issued : List (List ℕ))
        (x y : SessionData)
        → y.sender ≡ x.sender → y.up ≡ x.up
        → LinkedAs kind recorded issued x → LinkedAs kind recorded issued y }
{}

/// A turn of a session over a link, of which `Session::turn` promises `IsTurnOver` by its clauses `turn` and `by_note`.
///
/// Whatever the link lost, corrupted or delayed, and whenever the printer restarted: if session, issued lines and history
/// fitted together before the turn, they do so after it.
pub fn turn_law()
    ensures linked { (kind : LinkKind) (past later : Option (List WorldEvent))
        (x y : SessionData) (turned : Turned) (issued : List (List ℕ))
        → IsTurnOver kind past later x y turned → LinkedAs kind past issued x
        → LinkedAs kind later (issued_by_turn turned issued) y }

    // Once a link is made, each session of the history is tied to its issued lines: the last one, and in a turn that
    // makes a later link the one before it.
    ensures opened { (kind : LinkKind) (past later : Option (List WorldEvent))
        (x y : SessionData) (turned : Turned) (issued : List (List ℕ))
        → IsTurnOver kind past later x y turned
        → IsOpening kind past issued x (fact_of turned.note)
        → OpenedAs kind later (issued_by_turn turned issued) y }
    ensures tied { (kind : LinkKind) (past later : Option (List WorldEvent))
        (x y : SessionData) (turned : Turned) (issued : List (List ℕ))
        → IsTurnOver kind past later x y turned
        → IsOpening kind past issued x (fact_of turned.note)
        → TiedAs kind later (issued_by_turn turned issued) y }
    ensures former { (kind : LinkKind) (past later : Option (List WorldEvent))
        (x y : SessionData) (turned : Turned) (issued : List (List ℕ))
        → IsTurnOver kind past later x y turned → fact_of turned.note ≡ fact.Opened
        → LinkedAs kind past issued x → FormerTiedAs kind past later issued x }

    // No false end: a session ends with a cause that its history shows.
    ensures caused { (kind : LinkKind) (past later : Option (List WorldEvent))
        (x y : SessionData) (turned : Turned) (issued : List (List ℕ)) (end : SessionEnd)
        → IsTurnOver kind past later x y turned → fact_of turned.note ≡ fact.Ended end
        → LinkedAs kind past issued x → EndCausedAs x.sender.numbered kind later end }
{}
