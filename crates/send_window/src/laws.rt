//! Laws of a sender's steps, which specs/ defines; each function does nothing, and its contract is the law.
ghost use Rattle.send_window.specs.Laws.{HoldsLines, GivesHeldLines, AckedRises, EndStays, EndsByRule, AckedIsCounted, AckedIsNamed, FlagsAreNamed, SendsInSilence, EndsInSilence, WaitsFiveLimits, ExtraIsGiven};

/// The lines held are the issued ones above acked, each with its number.
pub fn held_law()
    ensures { HoldsLines }
{}

/// When more lines than the window may be unacknowledged.
pub fn extra_law()
    ensures { ExtraIsGiven }
{}

/// What goes out is the hello or the frame of a line above acked.
pub fn given_law()
    ensures { GivesHeldLines }
{}

/// Only an `ok` that doesn't follow a Resend acknowledges a line, or, if `ok`s count by their numbers, one that names it.
pub fn acked_law()
    ensures { AckedRises }
{}

/// An end stays until the next session begins.
pub fn end_law()
    ensures { EndStays }
{}

/// When each end comes.
pub fn ends_law()
    ensures { EndsByRule }
{}

/// The lines acknowledged are counted over the replies.
pub fn counted_law()
    ensures { AckedIsCounted }
{}

/// If `ok`s count by their numbers, the lines acknowledged are those that the replies name.
pub fn named_law()
    ensures lines { AckedIsNamed }
    ensures flags { FlagsAreNamed }
{}

/// Each limit that passes in silence brings a line, and the fifth the end.
pub fn silence_law()
    ensures turns { SendsInSilence }
    ensures ends { EndsInSilence }
{}

/// How long a session waits before it ends with no answer.
pub fn wait_law()
    ensures { WaitsFiveLimits }
{}
