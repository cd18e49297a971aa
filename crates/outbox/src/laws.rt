//! Laws of an outbox, each the contract of a function that does nothing.

ghost use Rattle.outbox.specs.Laws.{NextIsPushed, OtherIsNotPushed};

/// What is pushed by the next message that a member delivers: the message where it is its own, for which there is room, and
/// nothing where it is another member's.
pub fn the_next_message_is_pushed()
    ensures own { NextIsPushed }
    ensures other { OtherIsNotPushed }
{}
