//! Notes: what a replica's calls leave behind, so that its state can be had again.

use op_base::{Message, MessageId};

/// One note of a journal.
#[derive(Debug, PartialEq, Eq, Drop)]
pub enum Note {
    /// A message of its own was sent, and delivered.
    Sent(Message),
    /// A message of another member was accepted, and is early.
    Kept(Message),
    /// The early message of this id was delivered.
    Took(MessageId),
    /// The early message of this id was dropped, since it is crooked.
    Crook(MessageId),
    /// The epoch ended. The replica goes on in epoch `epoch` as member `me` of `n` members.
    Regroup { epoch: u32, n: u8, me: u8 },
}
