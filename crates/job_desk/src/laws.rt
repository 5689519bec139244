//! The laws of whole runs of a desk.
ghost use Rattle.job_desk.specs.Plain.{EveryBeginningIsInOrder, EveryCourseReadsPlainly};
ghost use Rattle.job_desk.specs.Settled.{IsSettledBySteps};
ghost use Rattle.job_desk.specs.Story.{EveryRunHasStories};

/// For every list of calls on a new desk, the pulled lines of each print begin a course, are a whole course with the end
/// Done if the print is done and with the end Cancelled if it was cancelled, and a file command is pulled only
/// while Printing.
pub fn every_run_has_stories()
    ensures { EveryRunHasStories }
{}

/// The file commands of a course are the file's first ones, with the indexes 0, 1, 2 and so on without a gap, and each of
/// its scripts is whole.
pub fn every_course_reads_plainly()
    ensures { EveryCourseReadsPlainly }
{}

/// The file commands of lines that begin a course are the file's first ones, without a gap.
pub fn every_beginning_is_in_order()
    ensures { EveryBeginningIsInOrder }
{}

/// A pull and a note leave nothing to settle, and another pull that returns no line then changes nothing.
pub fn nothing_is_left_to_settle()
    ensures { IsSettledBySteps }
{}
