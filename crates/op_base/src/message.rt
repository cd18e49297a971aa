//! Messages, as members send them, and the entries that a log makes of them.
//!
//! A message is an operation with the tag of a causal broadcast layer, as Baquero, Almeida and Shoker have it
//! (arXiv 1710.04469); the tag here is a textbook vector timestamp.

ghost use Rattle.std.specs.Prelude.{◌≡◌, ◌<◌, length, IfOk, IsOk};
ghost use Rattle.op_base.specs.CopyRooms.{IsCopyRoomFor};
ghost use Rattle.op_base.specs.InPlace.{IsActInPlace, IsInPlace};
ghost use Rattle.op_base.specs.Timestamp.{id_at};

use crate::memory::NoMemory;
use crate::operation::{Op, Update};
use crate::room::CopyRoom;
use crate::tag::{MessageId, Tag};
use std::alloc::Global;

/// What a member sends. Its number is its timestamp's entry at its origin.
#[derive(Debug, PartialEq, Eq, Drop)]
pub struct Message {
    /// The member that sent it.
    pub origin: u8,
    /// What its sender had seen and sent, itself included.
    pub tag: Tag,
    /// What it carries.
    pub op: Op,
}

/// A message of a log: one that carries an update.
#[derive(Debug, PartialEq, Eq, Drop)]
pub struct Entry {
    /// The member that sent it.
    pub origin: u8,
    /// The message's timestamp.
    pub tag: Tag,
    /// What the message carries.
    pub update: Update,
}

impl Message {
    /// The message's origin and number.
    pub fn id(&self) -> MessageId
        requires { self.now.origin < length self.now.tag }
        ensures { result ≡ id_at self.now.origin self.now.tag }
    {
        MessageId {
            origin: self.origin,
            seq: self.tag.at(self.origin),
        }
    }

    /// An equal message. One whose value, if it has one, stands in place takes no memory; `NoMemory` leaves nothing behind.
    pub fn copy(&self, alloc: Global) -> Result<Message, NoMemory>
        ensures copy { IfOk result (λ copy. copy ≡ self.now) }
        ensures in_place { IsInPlace self.now.op → IsOk result }
    {
        Ok(self.copied(self.op.room(alloc)?))
    }

    /// An equal message, for whose operation memory was taken.
    pub fn copied(&self, room: CopyRoom) -> Message
        requires { IsCopyRoomFor room self.now.op }
        ensures { result ≡ self.now }
    {
        Message {
            origin: self.origin,
            tag: self.tag,
            op: self.op.copied(room),
        }
    }
}

impl Entry {
    /// The entry's origin and number.
    pub fn id(&self) -> MessageId
        requires { self.now.origin < length self.now.tag }
        ensures { result ≡ id_at self.now.origin self.now.tag }
    {
        MessageId {
            origin: self.origin,
            seq: self.tag.at(self.origin),
        }
    }

    /// An equal entry. One whose value, if it has one, stands in place takes no memory; `NoMemory` leaves nothing behind.
    pub fn copy(&self, alloc: Global) -> Result<Entry, NoMemory>
        ensures copy { IfOk result (λ copy. copy ≡ self.now) }
        ensures in_place { IsActInPlace self.now.update.act → IsOk result }
    {
        Ok(Entry {
            origin: self.origin,
            tag: self.tag,
            update: self.update.copy(alloc)?,
        })
    }
}
