//! A member's own messages that aren't stable: what it sends again.
//!
//! That a message is kept until it is stable is as in Baquero, Almeida and Shoker (arXiv 1710.04469); how many are is this
//! project's own profile.
#![tactic(auto)]

mod laws;
mod outbox;

pub use laws::the_next_message_is_pushed;
pub use outbox::Outbox;
