//! What comes of a world's commands.

use causal_model::Receive;
use frame_codec::FrameFault;
use op_base::StepList;

/// What comes of giving a message to a replica.
#[derive(Debug, PartialEq, Eq, Drop)]
pub enum Given {
    /// No such message was sent.
    Unsent,
    /// It was offered, and this is what the replica answered.
    Got(Receive),
}

/// What comes of offering an outbox to a replica.
#[derive(Debug, PartialEq, Eq, Drop)]
pub enum Resent {
    /// All steps that were made, in order: there is one.
    Took(StepList),
    /// No step was made, and a message was kept.
    Kept,
    /// No message was accepted.
    Nothing,
    /// There is no memory. The first messages of the outbox were offered.
    NoMemory,
}

/// What comes of offering bytes to a replica.
#[derive(Debug, PartialEq, Eq, Drop)]
pub enum RawGot {
    /// They are no frame, for this first fault.
    Bad(FrameFault),
    /// They are a frame, and this is what the replica answered to its message.
    Got(Receive),
    /// There is no memory, to read them or to take their message in. Nothing changed.
    NoMemory,
}

/// What comes of settling.
#[derive(Clone, Copy, Debug, PartialEq, Eq)]
pub enum Settle {
    /// All replicas have delivered as many messages of each member.
    Settled,
    /// Two replicas have not.
    Unsettled,
    /// There is no memory. The first of the offers and beats were made.
    NoMemory,
}

/// What comes of a change of members.
#[derive(Clone, Copy, Debug, PartialEq, Eq)]
pub enum Regroup {
    /// The next epoch began: this one.
    Regrouped(u32),
    /// Two replicas haven't delivered as many messages of each member, or an operation is unstable at one.
    Unsettled,
    /// The epoch is the last that there can be.
    Last,
    /// There is no memory. Nothing changed.
    NoMemory,
}
