//! Giving single messages and bytes to a replica of the world.

ghost use Rattle.std.specs.Prelude.{◌≡◌, ◌≢◌, ◌<◌, false, List, length, IsTrue};
ghost use Rattle.op_base.specs.declared.message.Message.{Message};
ghost use Rattle.causal_model.specs.Follows.{Follows};
ghost use Rattle.causal_model.specs.Journal.{receive_notes};
ghost use Rattle.causal_model.specs.Receiving.{is_accepted, receive_rule};
ghost use Rattle.causal_model.specs.declared.note.Note.{Note};
ghost use Rattle.replica_node.specs.Rules.{noting, AsksOnceAtMost};
ghost use Rattle.world_model.specs.Raw.{is_frame, raw_at};
ghost use Rattle.world_model.specs.World.{give_at, takes_frame, wants_frame};
ghost use Rattle.world.specs.Steps.{SameNode, IsFrameOf, raw_noting, raw_got};
ghost use Rattle.world.specs.Asking.{recorders_of, asked_of, is_taken, is_taken_raw};

use crate::world::World;
use causal_model::Receive;
use frame_codec::{DecodeFault, decode};
use op_base::MessageId;
use replica_node::{Journal, Node};
use std::alloc::Global;
use world_model::{Given, RawGot};

impl World {
    ghost use Rattle.world.specs.Answers.{ShowsPlain};
    ghost use Rattle.world.specs.Honest.{ShowsHonest, is_fair_given};

    /// Offers the message of member `k` with a number to replica `r`. Nothing is read of a message that came before or is
    /// early. After `NoMemory` the world is as it was. Room is asked of the journals once at most, and not where a refusal is no
    /// want of memory.
    pub fn give(&mut self, alloc: Global, r: u8, k: u8, seq: u32) -> Given
        requires to { r < length self.old.nodes.items }
        requires of { k < length self.old.nodes.items }
        ensures answer { Follows ShowsPlain (Given.Got Receive.NoMemory) takes_frame (give_at r k seq) self.old result self.new }
        ensures honest { ShowsHonest self.old → ShowsHonest self.new }
        ensures fair { ShowsHonest self.old → IsTrue (is_fair_given result) }
        ensures members { length self.new.nodes.items ≡ length self.old.nodes.items }
        ensures untouched { is_taken result ≡ false → result ≢ Given.Got Receive.NoMemory → recorders_of self.new.nodes.items ≡ recorders_of self.old.nodes.items }
        ensures once { AsksOnceAtMost (asked_of self.old.nodes.items) (asked_of self.new.nodes.items) }
    {
        if seq == 0 {
            return Given::Unsent;
        }
        let frames = &self.sent[k as usize];
        if seq as usize > frames.len() {
            return Given::Unsent;
        }
        let frame = frames.at(seq as usize - 1);
        let id = MessageId { origin: k, seq };
        Given::Got(offer_frame(alloc, &mut self.nodes[r as usize], id, frame))
    }

    /// Offers the message of bytes to replica `r`, where they are a frame. They are not added to what was sent. After
    /// `NoMemory` the world is as it was.
    pub fn raw(&mut self, alloc: Global, r: u8, bytes: &[u8]) -> RawGot
        requires { r < length self.old.nodes.items }
        ensures answer { Follows ShowsPlain RawGot.NoMemory is_frame (raw_at r bytes.now) self.old result self.new }
        ensures members { length self.new.nodes.items ≡ length self.old.nodes.items }
        ensures untouched { is_taken_raw result ≡ false → result ≢ RawGot.NoMemory → recorders_of self.new.nodes.items ≡ recorders_of self.old.nodes.items }
        ensures once { AsksOnceAtMost (asked_of self.old.nodes.items) (asked_of self.new.nodes.items) }
    {
        offer_bytes(alloc, &mut self.nodes[r as usize], bytes)
    }
}

/// Offers the message of an id to a node, whose frame this is. The frame is read where the id doesn't tell that the message
/// came before or is early.
fn offer_frame(alloc: Global, node: &mut Node<Journal>, id: MessageId, frame: &[u8]) -> Receive
    requires of { id.origin < node.old.inner.n }
    requires frame { ∥ ((m : Message) × IsFrameOf node.old.inner.n node.old.inner.epoch node.old.inner.limit id frame.now m) ∥₁ }
    ensures answer { (m : Message) → IsFrameOf node.old.inner.n node.old.inner.epoch node.old.inner.limit id frame.now m
        → Follows (λ (there ns : List Note). there ≡ ns) Receive.NoMemory wants_frame (noting node.old.first (receive_notes m) (receive_rule node.old.inner.w m)) node.old.journal.notes result node.new.journal.notes }
    ensures same { SameNode node.old node.new }
    ensures untouched { is_accepted result ≡ false → result ≢ Receive.NoMemory → node.new.journal ≡ node.old.journal }
    ensures once { AsksOnceAtMost node.old.journal.asked node.new.journal.asked }
{
    if let Some(refusal) = node.inner.known(id) {
        return refusal.answer();
    }
    match decode(
        alloc,
        frame,
        node.inner.n,
        node.inner.epoch,
        node.inner.limit,
    ) {
        Ok(message) => node.receive(alloc, message),
        // It is the frame of a message, so only memory can be wanting.
        Err(_) => Receive::NoMemory,
    }
}

/// Offers the message of bytes to a node, where they are a frame.
fn offer_bytes(alloc: Global, node: &mut Node<Journal>, bytes: &[u8]) -> RawGot
    ensures answer { Follows (λ (there ns : List Note). there ≡ ns) RawGot.NoMemory is_frame (raw_noting node.old.first node.old.inner.n node.old.inner.epoch node.old.inner.w node.old.inner.limit bytes.now) node.old.journal.notes result node.new.journal.notes }
    ensures same { SameNode node.old node.new }
    ensures untouched { is_taken_raw result ≡ false → result ≢ RawGot.NoMemory → node.new.journal ≡ node.old.journal }
    ensures once { AsksOnceAtMost node.old.journal.asked node.new.journal.asked }
{
    match decode(
        alloc,
        bytes,
        node.inner.n,
        node.inner.epoch,
        node.inner.limit,
    ) {
        Ok(message) => raw_got(node.receive(alloc, message)),
        Err(DecodeFault::NoMemory) => RawGot::NoMemory,
        Err(DecodeFault::Frame(fault)) => RawGot::Bad(fault),
    }
}

/// What bytes come to, by what came of their message.
fn raw_got(answer: Receive) -> RawGot
    ensures { result ≡ raw_got answer }
{
    match answer {
        Receive::NoMemory => RawGot::NoMemory,
        answer => RawGot::Got(answer),
    }
}
