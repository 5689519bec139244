//! The laws of whole histories.
ghost use Rattle.octo_house_rules.specs.Outcomes.{EveryHistoryKeepsOutcomes};
ghost use Rattle.octo_house_rules.specs.Scripts.{EveryHistoryKeepsScripts};

/// In every legal history of a host that begins with a new desk, the issued script lines and file commands of each print
/// begin a course of the scripts and its file, are a whole one if the print is done or was cancelled by a request, and no
/// file command is issued but in the state Printing.
pub fn every_history_keeps_scripts()
    ensures { EveryHistoryKeepsScripts }
{}

/// In every legal history of such a host the record of each print that began in it says how that print went on in the
/// desk's run: it is active until its end, and then done, cancelled or failed as the print was.
pub fn every_history_keeps_outcomes()
    ensures { EveryHistoryKeepsOutcomes }
{}
