//! Laws of frames. Each is the contract of a function that does nothing.

ghost use Rattle.frame_codec.specs.Laws.{SomeSpelling, OneSpelling, OneMessage, NoFrameBegins, FramesHaveNoFault, WithoutFaultIsAFrame, FramesAreRead, ReadIsAFrame, FaultsAreRead};

/// A message has one spelling in version 2 and at most one in version 1.
pub fn one_spelling_a_message()
    ensures some { SomeSpelling }
    ensures one { OneSpelling }
{}

/// A frame is the frame of one message.
pub fn one_message_a_frame()
    ensures { OneMessage }
{}

/// No frame, of either version, is the beginning of another, so frames can be read one after the other.
pub fn no_frame_begins_another()
    ensures { NoFrameBegins }
{}

/// A frame has no fault.
pub fn a_frame_has_no_fault()
    ensures { FramesHaveNoFault }
{}

/// Bytes without a fault are a frame of some message.
pub fn without_fault_is_a_frame()
    ensures { WithoutFaultIsAFrame }
{}

/// Bytes are read as a message exactly where they are a frame of it, and as a fault exactly where that is their first.
pub fn what_is_read_is_a_frame()
    ensures frames { FramesAreRead }
    ensures read { ReadIsAFrame }
    ensures faults { FaultsAreRead }
{}
