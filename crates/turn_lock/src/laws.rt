//! Laws over the words of the contracts. Each is the contract of a function that does nothing.

ghost use Rattle.turn_lock.specs.Laws.{FrontsAreKept, NumbersAreKept, SameTurnsAreRearranged, JoinsAreWorked};

/// A list of turns that grows begins with what it began with, and has the turns of each number in
/// their order. Two lists with the same turns of each number are rearrangements of one another.
pub fn turns_of_numbers<E>()
    ensures fronts { FrontsAreKept E }
    ensures numbers { NumbersAreKept E }
    ensures rearranged { SameTurnsAreRearranged E }
{}

/// Two passes with one turn each are joined, in either order.
pub fn worked_joins()
    ensures { JoinsAreWorked }
{}
