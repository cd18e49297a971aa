//! Hearing what comes.

ghost use Rattle.std.specs.Prelude.{◌≡◌, false};
ghost use Rattle.causal_model.specs.Follows.{Follows};
ghost use Rattle.replica_core.specs.Rules.{StandsFor, SameSettings, Unchanged, IsBounded};
ghost use Rattle.peer.specs.Calls.{heard_of, is_read, is_taken};
ghost use Rattle.peer.specs.Rules.{hear_rule};

use crate::answers::Heard;
use crate::peer::Peer;
use causal_model::Receive;
use frame_codec::{DecodeFault, decode};
use op_base::operations_are_valid;
use std::alloc::Global;

impl Peer {
    /// Takes in bytes, which may come from anywhere. Where they are the frame of a message that is neither old nor too far
    /// ahead, nor early already, the message becomes early; then early messages are delivered, or dropped where they don't
    /// fit what was delivered before, until none can be delivered. Every refusal leaves the peer as it was, and memory is
    /// wanted only where they are a frame.
    pub fn hear(&mut self, alloc: Global, bytes: &[u8]) -> Heard
        ensures answer { Follows StandsFor Heard.NoMemory is_read (hear_rule self.old.n self.old.w self.old.limit bytes.now) self.old result self.new }
        ensures settings { SameSettings self.old self.new }
        ensures refused { is_taken result ≡ false → Unchanged self.old self.new }
        ensures bounded { IsBounded self.new }
    {
        let message = match decode(alloc, bytes, self.replica.n, 0, self.replica.limit) {
            Ok(message) => message,
            Err(DecodeFault::Frame(fault)) => return Heard::Bad(fault),
            Err(DecodeFault::NoMemory) => return Heard::NoMemory,
        };
        operations_are_valid(&message.op);
        heard_of(self.replica.receive(alloc, message))
    }
}

/// What the bytes of a message answer.
fn heard_of(answer: Receive) -> Heard
    ensures { result ≡ heard_of answer }
{
    match answer {
        Receive::Old => Heard::Old,
        Receive::Again => Heard::Again,
        Receive::Far => Heard::Far,
        Receive::Kept => Heard::Kept,
        Receive::Took(steps) => Heard::Took(steps),
        Receive::NoMemory => Heard::NoMemory,
    }
}
