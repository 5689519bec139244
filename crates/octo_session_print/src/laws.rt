//! The law of a print's steps on its desk.
ghost use Rattle.octo_session_print.specs.Progress.{EveryPrintFollowsItsPlan};

/// For every list of notes and pulls on a new desk that connects, starts its print when it is ready and disconnects when
/// the print is over: the texts that it issued are a weave of a first part of the plan with polls. They are a weave of
/// the whole plan, all of it acknowledged, if the desk is offline again. After the end of the print only the script for
/// the end of the connection and polls are issued.
pub fn every_print_follows_its_plan()
    ensures { EveryPrintFollowsItsPlan }
{}
