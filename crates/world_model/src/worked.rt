//! A worked store: that the definitions mean what was meant. Each is the contract of a function that does nothing.

ghost use Rattle.world_model.specs.Worked.{AddedAndGiven, AddSettles, BytesAreOffered, EachWaitsForTheOther, RemoveWaits};

/// A message is sent by one member, given to another, and asked for at both.
pub fn an_add_is_given_and_asked_for()
    ensures { AddedAndGiven }
{}

/// Settling brings an add to the other member, and brings back that it is there.
pub fn an_add_settles()
    ensures { AddSettles }
{}

/// Bytes are received as the message of which they are a frame, or have a fault; they are not added to what was sent.
pub fn bytes_are_offered()
    ensures { BytesAreOffered }
{}

/// A remove that comes before its add waits for it.
pub fn a_remove_waits_for_its_add()
    ensures { RemoveWaits }
{}

/// What a member waits to hear, and of which member; an update waits for a no-op, and that for a message in turn.
pub fn each_waits_for_the_other()
    ensures { EachWaitsForTheOther }
{}
