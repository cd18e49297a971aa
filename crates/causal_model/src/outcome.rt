//! What comes of sending and receiving.

ghost use Rattle.std.specs.Prelude.{◌≡◌};
ghost use Rattle.causal_model.specs.Receiving.{accepted, refused};

use op_base::{Message, StepList};

/// What comes of sending an operation.
#[derive(Debug, PartialEq, Eq, Drop)]
pub enum Local {
    /// The message that was sent.
    Sent(Message),
    /// As many own operations are unstable as the window has. Nothing was sent.
    Busy,
    /// The member has sent all the messages that it may. Nothing was sent.
    End,
    /// There is no memory. Nothing was sent.
    NoMemory,
}

/// What comes of sending a no-op.
#[derive(Debug, PartialEq, Eq, Drop)]
pub enum Beat {
    /// The message that was sent.
    Sent(Message),
    /// No no-op is due: no operation of another member was delivered since the last own message. Nothing was sent.
    Quiet,
    /// As many own no-ops are unstable as their window has. Nothing was sent.
    Held,
    /// The member has sent all the messages that it may. Nothing was sent.
    End,
    /// There is no memory. Nothing was sent.
    NoMemory,
}

/// What comes of receiving a message.
#[derive(Debug, PartialEq, Eq, Drop)]
pub enum Receive {
    /// It is an own message, or one of its member and number was delivered. It was let go.
    Old,
    /// One of its id is early already. It was let go.
    Again,
    /// It is too far ahead, by its number or by own messages that it has seen and that weren't sent. It was let go.
    Far,
    /// It is early now: a message that it has seen is missing.
    Kept,
    /// Messages were delivered, or dropped where they were crooked, in this order.
    Took(StepList),
    /// There is no memory. It was let go, and nothing changed.
    NoMemory,
}

impl Receive {
    /// The answer to a message that was accepted, by the steps that then were made.
    pub fn accepted(steps: StepList) -> Receive
        ensures { result ≡ accepted steps }
    {
        if steps.as_slice().is_empty() {
            Receive::Kept
        } else {
            Receive::Took(steps)
        }
    }
}

/// Why a message isn't accepted.
#[derive(Clone, Copy, Debug, PartialEq, Eq)]
pub enum Refusal {
    /// It is an own message, or one of its member and number was delivered.
    Old,
    /// One of its id is early already.
    Again,
    /// It is too far ahead, by its number or by own messages that it has seen and that weren't sent.
    Far,
}

impl Refusal {
    /// The answer to a message that isn't accepted.
    pub fn answer(self) -> Receive
        ensures { result ≡ refused self }
    {
        match self {
            Refusal::Old => Receive::Old,
            Refusal::Again => Receive::Again,
            Refusal::Far => Receive::Far,
        }
    }
}
