//! The marks of a picture.

use crate::label::width_of;
use op_base::MessageId;
use std::alloc::Global;

/// What a mark says.
#[derive(Clone, Copy, Debug, PartialEq, Eq)]
pub enum Mark {
    /// An operation was sent.
    Operation,
    /// A no-op was sent.
    NoOp,
    /// A message was delivered.
    Delivered,
    /// A message came early, and waits.
    Early,
    /// A message was dropped, since it doesn't fit.
    Dropped,
    /// A message came that was here already.
    Repeated,
    /// A question was answered.
    Answer,
    /// A command was refused, or found nothing to do.
    Refusal,
    /// A replica was stopped and opened again.
    Stop,
}

/// A place in a picture: a replica's line, and how far to the right, in pixels.
#[derive(Clone, Copy, Debug, PartialEq, Eq)]
pub struct Spot {
    pub replica: u8,
    pub x: u32,
}

/// A mark with its labels.
#[derive(Debug, Drop)]
pub struct Event {
    pub at: Spot,
    pub mark: Mark,
    /// The message, where the mark is of one that is known.
    pub id: Option<MessageId>,
    /// Where the message was sent, for an arrow from there.
    pub sent: Option<Spot>,
    /// Where the message came early, if it did.
    pub early: Option<u32>,
    pub labels: Labels,
}

/// Labels, one under the other. Each may be empty.
#[derive(Debug, Drop)]
pub struct Labels {
    pub upper: String,
    pub lower: String,
}

/// What stands above the lines of replicas: the number of a line of the script where it begins, and labels.
#[derive(Debug, Drop)]
pub struct Heading {
    pub x: u32,
    pub line: Option<usize>,
    pub labels: Labels,
}

/// From a place on, how many of the script's operations a replica delivered, and how many of these it knows to be
/// everywhere.
#[derive(Clone, Copy, Debug, PartialEq, Eq)]
pub struct Level {
    pub at: Spot,
    pub seen: usize,
    pub stable: usize,
}

/// A stretch of a replica's line: from where it is a member to where it leaves, if it does.
#[derive(Clone, Copy, Debug, PartialEq, Eq)]
pub struct Stretch {
    pub from: Spot,
    pub to: Option<u32>,
}

impl Labels {
    /// No labels.
    pub fn none(alloc: Global) -> Labels {
        Labels {
            upper: String::new(alloc),
            lower: String::new(alloc),
        }
    }

    /// How wide the wider one is.
    pub fn width(&self) -> u32 {
        width_of(&self.upper).max(width_of(&self.lower))
    }
}

impl Event {
    /// Whether a message with this id was sent here.
    pub fn is_sending_of(&self, id: MessageId) -> bool {
        matches!(self.mark, Mark::Operation | Mark::NoOp) && self.id == Some(id)
    }

    /// Whether a message with this id came early here, at this replica.
    pub fn is_early(&self, replica: u8, id: MessageId) -> bool {
        self.mark == Mark::Early && self.at.replica == replica && self.id == Some(id)
    }

    /// Whether an operation was sent here that is among the first of its member's messages, as many as the counts say.
    pub fn is_operation_within(&self, counts: &[u32]) -> bool {
        match (self.mark, self.id) {
            (Mark::Operation, Some(id)) => counts
                .get(usize::from(id.origin))
                .is_some_and(|count| id.seq <= *count),
            _ => false,
        }
    }
}
