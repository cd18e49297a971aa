//! Laws of trees that are laid out as lists.

ghost use Rattle.list_type.specs.Laws.{LeavesOnce, KeptFromTheEnd, DepthsTell, PutBehind, PutOnTop};

/// What was left out of a tree before more of it was gone is left out after.
pub fn nodes_leave_once<T>()
    ensures { LeavesOnce T }
{}

/// What is kept of a tree is told from its end on.
pub fn kept_is_told_from_the_end<T>()
    ensures { KeptFromTheEnd T }
{}

/// What is kept of a forest by the depths of its nodes is what is kept of it by what stands below each.
pub fn depths_tell_what_is_kept<T, K>()
    ensures { DepthsTell T K }
{}

/// A node that is put into a forest stands in its list behind the node of its place, or at the front, and past those
/// behind that which rank higher.
pub fn nodes_are_put_past_higher_ones<T, K>()
    ensures behind { PutBehind T K }
    ensures on_top { PutOnTop T K }
{}
