//! What is held of a message.

use op_base::Tag;

/// The timestamp of an unstable message.
#[derive(Clone, Copy, Debug, PartialEq, Eq)]
pub struct Held {
    /// What its sender had seen and sent, itself included.
    pub tag: Tag,
    /// Whether it is a no-op.
    pub noop: bool,
}
