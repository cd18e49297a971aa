//! A replica that speaks frames, for a program with a network of its own.
//!
//! The program hands each frame that a call gives to all other members, by whatever way it has, and each piece of bytes that
//! comes, from anywhere, to `hear`. Frames may be lost, repeated, held up, reordered and forged.
#![tactic(auto)]

mod answers;
mod hearing;
mod peer;
mod sending;

pub use answers::{Beat, Heard, Updated};
pub use peer::Peer;
pub use replica_core::CreateFault;
