//! Frames: messages as bytes, in two versions.
//!
//! The format, its codes and its faults are this project's own profile. That a message is an operation with a
//! timestamp of causal delivery is the idea of Baquero, Almeida and Shoker (arXiv 1710.04469). Numbers with the
//! greatest byte first are a textbook rule, and are read and written by `byteorder`.
//!
//! A frame is these fields and nothing behind them: the version, the origin, the number of members and the
//! operation's code, one byte each; in version 2 the epoch; a number of 32 bits for each member; then, for an update,
//! the key as a length and that many bytes, and the argument: a value like a key, behind it a place where the act has one, an
//! amount as a number of 32 bits, an id of an element, or nothing. A length has one byte in version 1 and two in version 2.
//! Version 1 has no lists. Version 2 is written; version 1 is read in epoch 0.
#![tactic(auto)]

mod decoding;
mod encoding;
mod fault;
mod fields;
mod laws;
mod version;
mod worked;

pub use decoding::decode;
pub use encoding::encode;
pub use fault::{DecodeFault, FrameFault};
pub use laws::{
    a_frame_has_no_fault, no_frame_begins_another, one_message_a_frame, one_spelling_a_message,
    what_is_read_is_a_frame, without_fault_is_a_frame,
};
pub use version::Version;
pub use worked::faults_are_told_in_order;
