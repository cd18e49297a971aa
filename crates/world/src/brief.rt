//! What comes of sending, where a message is told by its id alone.

ghost use Rattle.std.specs.Prelude.{◌≡◌, ◌<◌, length, All};
ghost use Rattle.causal_model.specs.Sending.{local_messages};
ghost use Rattle.world.specs.Brief.{brief};

use causal_model::Local;
use op_base::MessageId;

/// What comes of sending an operation, where the message is told by its id alone.
#[derive(Clone, Copy, Debug, PartialEq, Eq)]
pub enum Brief {
    /// The id of the message that was sent.
    Sent(MessageId),
    /// As many own operations are unstable as the window has. Nothing was sent.
    Busy,
    /// The member has sent all the messages that it may. Nothing was sent.
    End,
    /// There is no memory. Nothing was sent.
    NoMemory,
}

/// What came of sending, with the id of the message in its place.
pub fn brief_of(answer: &Local) -> Brief
    requires { All (λ m. m.origin < length m.tag) (local_messages answer.now) }
    ensures { result ≡ brief answer.now }
{
    match answer {
        Local::Sent(message) => Brief::Sent(message.id()),
        Local::Busy => Brief::Busy,
        Local::End => Brief::End,
        Local::NoMemory => Brief::NoMemory,
    }
}
