//! Laws of items while a message is moved into them, each the contract of a function that does nothing.

ghost use Rattle.stable_state.specs.Laws.{NoOpCoversNothing, OthersAreNotApplied, AbsorbedSumsFit, AppliedSumsFit};

/// A message that is a no-op leaves the items, and one of another kind than `counter` leaves them once the log's entries are in.
pub fn other_messages_leave_items()
    ensures noop { NoOpCoversNothing }
    ensures other { OthersAreNotApplied }
{}

/// The sums on the way fit their type.
pub fn sums_fit()
    ensures absorbed { AbsorbedSumsFit }
    ensures applied { AppliedSumsFit }
{}
