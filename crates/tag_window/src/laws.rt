//! A law of windows, the contract of a function that does nothing.

ghost use Rattle.tag_window.specs.Laws.{NextHasRoom};

/// A window of a member's unstable messages has room for the next message that the member delivers, numbered behind the
/// last that is held of its origin.
pub fn the_next_message_has_room()
    ensures { NextHasRoom }
{}
