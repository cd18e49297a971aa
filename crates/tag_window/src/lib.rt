//! The window: the timestamps of the unstable messages of one epoch, each with whether it is a no-op.
//!
//! They are what is needed of the messages that were delivered to tell whether one that comes is crooked.
#![tactic(auto)]

mod block;
mod dropping;
mod held;
mod laws;
mod queue;
mod window;

pub use held::Held;
pub use laws::the_next_message_has_room;
pub use window::TagWindow;
