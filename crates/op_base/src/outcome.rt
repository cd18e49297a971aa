//! What a store keeps of settled operations, and what it answers.
//!
//! That a stable operation loses its timestamp and becomes plain state is the idea of Baquero, Almeida and Shoker
//! (arXiv 1710.04469). The cells, the causes and the answers are this project's own profile.

use crate::list::ListOf;
use crate::name::{ObjectId, Value};
use crate::tag::MessageId;

/// What is settled of an object, or of one value of it. A mark or a sum that the object's kind has not is `false` or 0.
#[derive(Clone, Copy, Debug, PartialEq, Eq)]
pub struct Cell {
    /// A settled add, enable or write is there.
    pub on: bool,
    /// A settled remove or disable is there, and still counts.
    pub off: bool,
    /// The sum of a counter: of `counter` over all its messages, of `rcounter` over those that are settled.
    pub sum: i128,
}

/// A cell with the object, and the value where the object's kind has values, that it is of.
#[derive(Debug, PartialEq, Eq, Drop)]
pub struct Item {
    /// The object.
    pub object: ObjectId,
    /// The value, where the object's kind has values.
    pub value: Option<Value>,
    /// What is settled of them.
    pub cell: Cell,
}

/// Why a deliverable message is dropped: how it doesn't fit what was delivered.
#[derive(Clone, Copy, Debug, PartialEq, Eq)]
pub enum Crook {
    /// The sender's last timestamp has `had` at `x`, this one has the smaller `got`.
    Regress { x: u8, had: u32, got: u32 },
    /// The message of `x` that this one has seen last has `had` at `y`, this one has the smaller `got`.
    Unclosed { x: u8, y: u8, had: u32, got: u32 },
    /// So many operations of the sender would be unstable, more than the window.
    Overrun { count: u32 },
    /// So many no-ops of the sender would be unstable, more than the no-op window.
    NoopOverrun { count: u32 },
}

/// What became of an early message.
#[derive(Clone, Copy, Debug, PartialEq, Eq)]
pub enum Step {
    /// It was delivered.
    Took(MessageId),
    /// It was dropped, for this reason.
    Crook(MessageId, Crook),
}

/// What a query of an object answers.
#[derive(Debug, PartialEq, Eq, Drop)]
pub enum Answer {
    /// The values of a set or a register, in byte order and each once; or those of a list, in its order, each as often as it is
    /// shown.
    Values(ListOf<Value>),
    /// Whether a flag is on.
    Flag(bool),
    /// The sum of a counter.
    Sum(i128),
}
