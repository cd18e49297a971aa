//! Early messages: those that a member has accepted and that it can't deliver yet.
//!
//! That a message waits until it can be delivered is causal delivery, as in Baquero, Almeida and Shoker
//! (arXiv 1710.04469); how far ahead a message may be is this project's own profile.
#![tactic(auto)]

mod buffer;
mod laws;
mod queue;
mod row;
mod watch;

pub use buffer::{CausalBuffer, Offer, is_deliverable};
pub use laws::{own_messages_leave_a_buffer, states_meet_what_is_asked};
