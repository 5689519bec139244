//! How a host that answers asks and takes turns is led along a legal history, and what that history says of faults, of moments and of
//! the use of the link; and, beside the recorded history of its link, which file commands each print executed, when it is done, and
//! that nothing of an ended print is sent again (definitions and lemmas).
#![tactic(auto)]
