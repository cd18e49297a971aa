//! Worked faults: that the definition means what was meant. It is the contract of a function that does nothing.

ghost use Rattle.frame_codec.specs.Worked.{FaultsAreInOrder};

/// Of a wrong number of members and a wrong origin the former is told, of some bytes; and an origin as great as the number of
/// members is wrong.
pub fn faults_are_told_in_order()
    ensures { FaultsAreInOrder }
{}
