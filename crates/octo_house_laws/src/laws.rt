//! The laws.
ghost use Rattle.octo_house_laws.specs.Calls.{EveryCallIsPermitted, EveryPutIsMadeOnce};
ghost use Rattle.octo_house_laws.specs.Contents.{EveryHistoryKeepsLawsOver, EveryHistoryKeepsPrintsOver, EveryLineOverIsCool};
ghost use Rattle.octo_house_laws.specs.Courses.{EveryDoneRecordHasACourse, EveryPrintFollowsACourse};
ghost use Rattle.octo_house_laws.specs.Hosts.{EveryHostKeepsTheLaws};
ghost use Rattle.octo_house_laws.specs.Limits.{EveryLineIsCool, EveryLineOfSettingsIsCool};
ghost use Rattle.octo_house_laws.specs.Own.{EveryCallerIsIsolated};

/// If no line of a script asks a heater for more than its limit, no line does that is issued in a
/// legal history of a host that begins with a new desk, whether it is a script's, a file's, a
/// user's or the desk's own.
pub fn every_line_is_within_limits()
    ensures { EveryLineIsCool }
{}

/// So it is for a host that begins with settings as they are read.
pub fn every_line_of_read_settings_is_within_limits()
    ensures { EveryLineOfSettingsIsCool }
{}

/// The issued lines of each print of such a history begin a course of the scripts and the file
/// that it began with. If it was cancelled by a request they are a whole course with the end
/// Cancelled.
pub fn every_print_follows_a_course()
    ensures { EveryPrintFollowsACourse }
{}

/// A record that says Done, of a print that began in such a history, has a whole course with the
/// end Done: its scripts and all commands of the file that it began with were issued, in order.
pub fn every_done_record_has_a_whole_course()
    ensures { EveryDoneRecordHasACourse }
{}

/// Each call of a legal history is denied exactly if its key names nobody or its caller lacks a
/// permission that it needs, out of memory aside, and a denied one changes nothing.
pub fn every_call_is_by_a_permitted_caller()
    ensures { EveryCallIsPermitted }
{}

/// Each call of a legal history that puts an entry which its caller holds already changes nothing. It
/// shows the entry as it is held, unless the caller may not ask so, the file is gone or memory runs
/// out, and is never answered by a fault.
pub fn every_put_is_made_once()
    ensures { EveryPutIsMadeOnce }
{}

/// Each call of a legal history by which a caller without the permission ADMIN lists, puts or drops
/// entries of the own queue, or lists the own prints, is answered as the caller's own rows, the
/// groups and the names of the files determine, whatever the host knows of others. The answer differs
/// only if memory runs out, the keeper fails, or the numbers of arrival are used up.
pub fn every_caller_is_isolated()
    ensures { EveryCallerIsIsolated }
{}

/// Over whatever contents a shelf had before each entry, each call of a history that is legal over these is answered as its
/// caller's permissions say, makes a repeated put once, and tells a caller without the permission ADMIN of queue and prints
/// what the caller's own rows determine.
pub fn every_history_keeps_laws_over_contents()
    ensures { EveryHistoryKeepsLawsOver }
{}

/// Of a host that begins with a new desk, such a history follows the scripts and courses of its prints, and the records of prints
/// say what they came to.
pub fn every_history_keeps_prints_over_contents()
    ensures { EveryHistoryKeepsPrintsOver }
{}

/// So no line asks a heater for more than the limits of the settings with which the host began.
pub fn every_line_over_contents_is_within_limits()
    ensures { EveryLineOverIsCool }
{}

/// All laws together, for every legal history of a host that begins on kept tables whose prints
/// are numbered from 1 without a gap.
pub fn every_host_keeps_the_laws()
    ensures { EveryHostKeepsTheLaws }
{}
