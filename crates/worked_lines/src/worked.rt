//! Worked transcripts: that the definition means what was meant. Each is the contract of a function that does nothing.

ghost use Rattle.worked_lines.specs.Worked.{ElementIsTakenOut, HigherMemberIsFirst, LinesAreRead, LinesEnd, NoStoreOf17, ResendIsKept, StableIsShown};

/// What stands behind the last newline is no line that has ended.
pub fn lines_end_by_newlines()
    ensures { LinesEnd }
{}

/// Stable counts are those that all members are known to have, and not those that were delivered.
pub fn stable_counts_are_shown()
    ensures { StableIsShown }
{}

/// A resend of which messages are kept, and none is delivered, replies kept.
pub fn a_resend_is_kept()
    ensures { ResendIsKept }
{}

/// Lines are read word by word, and those that are no command have their faults.
pub fn lines_are_read()
    ensures read { LinesAreRead }
    ensures store { NoStoreOf17 }
{}

/// An element of a list is taken out, and another stays.
pub fn an_element_is_taken_out()
    ensures { ElementIsTakenOut }
{}

/// Two members put an element at the head of a list.
pub fn the_higher_member_is_first()
    ensures { HigherMemberIsFirst }
{}
