//! A law over the words of the contracts. It is the contract of a function that does nothing.

ghost use Rattle.mailboxes.specs.Laws.{RollsAreWorked};

/// Two forks post an item each, and are joined to the first pass. Its roll has then each number once, with what that pass
/// posted.
pub fn worked_rolls()
    ensures { RollsAreWorked }
{}
