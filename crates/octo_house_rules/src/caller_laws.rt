//! The laws of callers.
ghost use Rattle.octo_house_rules.specs.Access.{Access};
ghost use Rattle.octo_house_rules.specs.Isolation.{Isolation, Once};

/// The answers to a caller without the permission ADMIN who lists, puts or drops entries of the queue, or lists prints,
/// depend on that caller's own rows and on the names of the files alone, unless the numbers of arrival are used up.
pub fn callers_are_isolated()
    ensures { Isolation }
{}

/// A put of an entry that is held already changes nothing. It shows the entry as it is held, unless the caller may not ask
/// so, the file is gone or memory runs out, and is never answered by a fault.
pub fn repeated_puts_change_nothing()
    ensures { Once }
{}

/// A request is denied exactly if its key names nobody or its caller lacks a permission that it needs, which the answer
/// names, and changes nothing then.
pub fn permitted_callers_are_answered()
    ensures { Access }
{}
