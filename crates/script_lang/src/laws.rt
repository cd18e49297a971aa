//! Laws of the texts. Each is the contract of a function that does nothing.

ghost use Rattle.script_lang.specs.Laws.{LinesTellReplies};

/// A reply can be read back from its line, but for the form of an answer and for why messages were dropped: `= on` is a
/// flag's line and that of a set with the value `on`.
pub fn replies_can_be_read_back()
    ensures { LinesTellReplies }
{}
