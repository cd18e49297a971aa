//! A worked store whose members change: that the definitions mean what was meant. Each is the contract of a function that does
//! nothing.

ghost use Rattle.world_model.specs.WorkedEpochs.{MembersChange, OldFramesAreNone};

/// A third member begins with what the others have settled, and removes an element; then one member is left.
pub fn members_change_at_a_settled_moment()
    ensures { MembersChange }
{}

/// The frames of the epoch before are none now, of either version.
pub fn frames_of_an_epoch_that_is_over_are_none()
    ensures { OldFramesAreNone }
{}
