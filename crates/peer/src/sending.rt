//! Sending, and sending again.

ghost use Rattle.std.specs.Prelude.{◌≡◌, IsTrue, IfOk, OnErr, All, map, false, ℕ};
ghost use Rattle.op_base.specs.Message.{fits};
ghost use Rattle.causal_model.specs.Follows.{Follows};
ghost use Rattle.causal_model.specs.Sending.{is_sent, is_beat};
ghost use Rattle.causal_model.specs.State.{State, with_own};
ghost use Rattle.frame_codec.specs.Grammar.{frame_of};
ghost use Rattle.replica_core.specs.Rules.{StandsFor, SameSettings, Unchanged, IsBounded, IsDraft};
ghost use Rattle.peer.specs.Calls.{updated_of, beaten_of, is_framed, is_beat_framed};
ghost use Rattle.peer.specs.Rules.{update_rule, peer_beat_rule, frame_at, frames_again};

use crate::answers::{Beat, Updated};
use crate::peer::Peer;
use causal_model::Local;
use frame_codec::{Version, encode};
use op_base::{ByteList, ListOf, Message, NoMemory, Update};
use replica_core::Replica;
use std::alloc::Global;

impl Peer {
    /// Sends an update: the frame goes to all other members. Every refusal leaves the peer as it was, and memory is wanted only
    /// where it would send.
    pub fn update(&mut self, alloc: Global, update: &Update) -> Updated
        ensures answer { Follows StandsFor Updated.NoMemory is_framed (update_rule self.old.n self.old.w self.old.limit update.now) self.old result self.new }
        ensures settings { SameSettings self.old self.new }
        ensures refused { is_framed result ≡ false → Unchanged self.old self.new }
        ensures bounded { IsBounded self.new }
    {
        let message = match self.replica.draft(alloc, update) {
            Ok(message) => message,
            Err(answer) => return unsent(answer),
        };
        match send(alloc, &mut self.replica, message) {
            Ok(frame) => Updated::Frame(frame),
            Err(NoMemory) => Updated::NoMemory,
        }
    }

    /// Sends a no-op where one is due: it tells the others what was delivered here, and the frame goes to all of them. Every
    /// refusal leaves the peer as it was, and memory is wanted only where it would send.
    pub fn beat(&mut self, alloc: Global) -> Beat
        ensures answer { Follows StandsFor Beat.NoMemory is_beat_framed (peer_beat_rule self.old.n self.old.w self.old.limit) self.old result self.new }
        ensures settings { SameSettings self.old self.new }
        ensures refused { is_beat_framed result ≡ false → Unchanged self.old self.new }
        ensures bounded { IsBounded self.new }
    {
        let message = match self.replica.draft_noop() {
            Ok(message) => message,
            Err(answer) => return unbeaten(answer),
        };
        match send(alloc, &mut self.replica, message) {
            Ok(frame) => Beat::Frame(frame),
            Err(NoMemory) => Beat::NoMemory,
        }
    }

    /// The frames of the own messages that aren't known to be everywhere, oldest first: what to send again.
    pub fn to_send_again(&self, alloc: Global) -> Result<ListOf<ByteList>, NoMemory>
        ensures { IfOk result (λ frames. (s : State) → StandsFor self.now s → frames ≡ frames_again self.now s) }
    {
        encode_all(alloc, self.replica.outbox.messages(), self.replica.n)
    }
}

/// What an update answers where nothing is sent.
fn unsent(answer: Local) -> Updated
    requires { is_sent answer ≡ false }
    ensures { (n : ℕ) → result ≡ updated_of n answer }
{
    match answer {
        Local::Sent(_) => unreachable!(),
        Local::Busy => Updated::Busy,
        Local::End => Updated::End,
        Local::NoMemory => Updated::NoMemory,
    }
}

/// What a beat answers where nothing is sent.
fn unbeaten(answer: causal_model::Beat) -> Beat
    requires { is_beat answer ≡ false }
    ensures { (n : ℕ) → result ≡ beaten_of n answer }
{
    match answer {
        causal_model::Beat::Sent(_) => unreachable!(),
        causal_model::Beat::Quiet => Beat::Quiet,
        causal_model::Beat::Held => Beat::Held,
        causal_model::Beat::End => Beat::End,
        causal_model::Beat::NoMemory => Beat::NoMemory,
    }
}

/// Sends a message that was drafted, as its frame. That is made before the message is sent, so that nothing is sent where there
/// is no memory for it.
fn send(alloc: Global, replica: &mut Replica, message: Message) -> Result<ByteList, NoMemory>
    requires fits { IsTrue (fits replica.old.n message) }
    requires draft { (s : State) → StandsFor replica.old s → IsDraft replica.old message s }
    ensures frame { IfOk result (λ frame. frame ≡ frame_at replica.old message) }
    ensures stands { IfOk result (λ frame. (s : State) → StandsFor replica.old s → StandsFor replica.new (with_own s message)) }
    ensures settings { SameSettings replica.old replica.new }
    ensures refused { OnErr result (Unchanged replica.old replica.new) }
{
    let frame = encode(alloc, &message, replica.n, 0)?;
    replica.commit(alloc, message)?;
    Ok(ByteList::from_vec(frame))
}

/// The frames of messages of a store of `n` members, in their order.
fn encode_all(alloc: Global, messages: &[Message], n: u8) -> Result<ListOf<ByteList>, NoMemory>
    requires { All (λ m. IsTrue (fits n m)) messages.now }
    ensures { IfOk result (λ frames. frames ≡ map (frame_of Version.Two n 0) messages.now) }
{
    let mut frames = ListOf::with_capacity(alloc, messages.len())?;
    for message in messages {
        let frame = encode(alloc, message, n, 0)?;
        frames.push(ByteList::from_vec(frame))?;
    }
    Ok(frames)
}
