//! What the calls of a peer answer.

use frame_codec::FrameFault;
use op_base::{ByteList, StepList};

/// What comes of an update.
#[derive(Debug, PartialEq, Eq, Drop)]
pub enum Updated {
    /// The frame to hand to all other members.
    Frame(ByteList),
    /// As many own operations are unstable as the window has. Nothing was sent.
    Busy,
    /// The member has sent all the messages that it may. Nothing was sent.
    End,
    /// There is no memory. Nothing was sent.
    NoMemory,
}

/// What comes of a beat.
#[derive(Debug, PartialEq, Eq, Drop)]
pub enum Beat {
    /// The frame to hand to all other members.
    Frame(ByteList),
    /// No no-op is due: no operation of another member was delivered since the last own message. Nothing was sent.
    Quiet,
    /// As many own no-ops are unstable as their window has. Nothing was sent.
    Held,
    /// The member has sent all the messages that it may. Nothing was sent.
    End,
    /// There is no memory. Nothing was sent.
    NoMemory,
}

/// What comes of bytes that were heard.
#[derive(Debug, PartialEq, Eq, Drop)]
pub enum Heard {
    /// They are no frame of the store, for this first fault.
    Bad(FrameFault),
    /// Their message is an own one, or one of its member and number was delivered. It was let go.
    Old,
    /// A message of its member and number is early already. It was let go.
    Again,
    /// It is too far ahead, by its number or by own messages that it has seen and that weren't sent. It was let go.
    Far,
    /// It is early now: a message that it has seen is missing.
    Kept,
    /// Messages were delivered, or dropped where they didn't fit what was delivered before, in this order.
    Took(StepList),
    /// They are a frame, and there is no memory. Its message was let go, and nothing changed.
    NoMemory,
}
