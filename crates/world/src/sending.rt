//! Sending at a replica of the world.

ghost use Rattle.std.specs.Prelude.{◌≡◌, ◌≢◌, ◌<◌, ◌++◌, ◌∷◌, [], List, map, length, IsTrue, OnOk, OnErr, false};
ghost use Rattle.op_base.specs.Message.{fits};
ghost use Rattle.causal_model.specs.Follows.{Follows};
ghost use Rattle.causal_model.specs.Journal.{beat_notes};
ghost use Rattle.causal_model.specs.Sending.{is_sent, is_beat, beat_messages, beat_rule};
ghost use Rattle.causal_model.specs.State.{State};
ghost use Rattle.causal_model.specs.declared.note.Note.{Note};
ghost use Rattle.causal_model.specs.declared.note.Note.TheVariants as notes;
ghost use Rattle.frame_codec.specs.Grammar.{frame_of};
ghost use Rattle.replica_core.specs.Rules.{StandsFor, IsDraft};
ghost use Rattle.replica_node.specs.Rules.{noting, AsksOnceAtMost};
ghost use Rattle.world_model.specs.World.{local_at, beat_at};
ghost use Rattle.world.specs.Brief.{brief, is_sent_briefly};
ghost use Rattle.world.specs.Steps.{SameNode, SendsUpdate};
ghost use Rattle.world.specs.Asking.{recorders_of, asked_of};

use crate::brief::{Brief, brief_of};
use crate::frames::FrameRow;
use crate::world::World;
use causal_model::{Beat, Local};
use frame_codec::{Version, encode};
use op_base::{Message, NoMemory, Update, updates_are_valid};
use replica_node::{Journal, Node};
use std::alloc::Global;

impl World {
    ghost use Rattle.world.specs.Answers.{HasGrown, ShowsPlain};
    ghost use Rattle.world.specs.Honest.{ShowsHonest};

    /// Sends an update at replica `r`, and keeps the frame of what was sent. Every refusal leaves the world as it was, and
    /// memory is wanted only where it would send. Room is asked of the journals once at most, and not where a refusal is no
    /// want of memory.
    pub fn local(&mut self, alloc: Global, r: u8, update: &Update) -> Local
        requires { r < length self.old.nodes.items }
        ensures answer { Follows ShowsPlain Local.NoMemory is_sent (local_at r update.now) self.old result self.new }
        ensures honest { ShowsHonest self.old → ShowsHonest self.new }
        ensures members { length self.new.nodes.items ≡ length self.old.nodes.items }
        ensures untouched { is_sent result ≡ false → result ≢ Local.NoMemory → recorders_of self.new.nodes.items ≡ recorders_of self.old.nodes.items }
        ensures once { AsksOnceAtMost (asked_of self.old.nodes.items) (asked_of self.new.nodes.items) }
    {
        let node = &mut self.nodes[r as usize];
        let frames = &mut self.sent[r as usize];
        updates_are_valid(update);
        send(alloc, node, frames, update)
    }

    /// Sends an update at replica `r` as `local` does, but is handed the update, and tells the message by its id: so neither is
    /// copied once more. Every refusal leaves the world as it was, and memory is wanted only where it would send.
    pub fn send(&mut self, alloc: Global, r: u8, update: Update) -> Brief
        requires { r < length self.old.nodes.items }
        ensures answer { (answer : Local) × (result ≡ brief answer) × Follows ShowsPlain Local.NoMemory is_sent (local_at r update) self.old answer self.new }
        ensures honest { ShowsHonest self.old → ShowsHonest self.new }
        ensures members { length self.new.nodes.items ≡ length self.old.nodes.items }
        ensures untouched { is_sent_briefly result ≡ false → result ≢ Brief.NoMemory → recorders_of self.new.nodes.items ≡ recorders_of self.old.nodes.items }
        ensures once { AsksOnceAtMost (asked_of self.old.nodes.items) (asked_of self.new.nodes.items) }
    {
        let node = &mut self.nodes[r as usize];
        let frames = &mut self.sent[r as usize];
        updates_are_valid(&update);
        send_briefly(alloc, node, frames, update)
    }

    /// Sends a no-op at replica `r`, where one is due, and keeps its frame. Every refusal leaves the world as it was, and
    /// memory is wanted only where it would send. Room is asked of the journals as in `local`.
    pub fn beat(&mut self, alloc: Global, r: u8) -> Beat
        requires { r < length self.old.nodes.items }
        ensures answer { Follows ShowsPlain Beat.NoMemory is_beat (beat_at r) self.old result self.new }
        ensures honest { ShowsHonest self.old → ShowsHonest self.new }
        ensures free { ShowsHonest self.old → result ≢ Beat.Held }
        ensures grown { HasGrown self.old self.new }
        ensures members { length self.new.nodes.items ≡ length self.old.nodes.items }
        ensures untouched { is_beat result ≡ false → result ≢ Beat.NoMemory → recorders_of self.new.nodes.items ≡ recorders_of self.old.nodes.items }
        ensures once { AsksOnceAtMost (asked_of self.old.nodes.items) (asked_of self.new.nodes.items) }
    {
        let node = &mut self.nodes[r as usize];
        let frames = &mut self.sent[r as usize];
        send_noop(alloc, node, frames)
    }
}

/// Sends an update at a node, and puts the frame of what was sent behind the others.
fn send(alloc: Global, node: &mut Node<Journal>, frames: &mut FrameRow, update: &Update) -> Local
    ensures sends { SendsUpdate update.now node.old frames.old.items result node.new frames.new.items }
    ensures same { SameNode node.old node.new }
    ensures once { AsksOnceAtMost node.old.journal.asked node.new.journal.asked }
{
    let message = match node.inner.draft(alloc, update) {
        Ok(message) => message,
        Err(answer) => return answer,
    };
    let Ok(sent) = message.copy(alloc) else {
        return Local::NoMemory;
    };
    match commit(alloc, node, frames, message) {
        Ok(()) => Local::Sent(sent),
        Err(NoMemory) => Local::NoMemory,
    }
}

/// Sends an update at a node as `send` does, but is handed it, and tells the message by its id.
fn send_briefly(
    alloc: Global,
    node: &mut Node<Journal>,
    frames: &mut FrameRow,
    update: Update,
) -> Brief
    ensures sends { (answer : Local) × (result ≡ brief answer) × SendsUpdate update node.old frames.old.items answer node.new frames.new.items }
    ensures same { SameNode node.old node.new }
    ensures once { AsksOnceAtMost node.old.journal.asked node.new.journal.asked }
{
    match node.inner.draft_of(update) {
        Ok(message) => {
            let id = message.id();
            match commit(alloc, node, frames, message) {
                Ok(()) => Brief::Sent(id),
                Err(NoMemory) => Brief::NoMemory,
            }
        }
        Err(answer) => brief_of(&answer),
    }
}

/// Sends a no-op at a node, where one is due, and puts its frame behind the others.
fn send_noop(alloc: Global, node: &mut Node<Journal>, frames: &mut FrameRow) -> Beat
    ensures answer { Follows (λ (there ns : List Note). there ≡ ns) Beat.NoMemory is_beat (noting node.old.first beat_notes (beat_rule node.old.inner.w node.old.inner.limit)) node.old.journal.notes result node.new.journal.notes }
    ensures same { SameNode node.old node.new }
    ensures frames { frames.new.items ≡ frames.old.items ++ map (frame_of Version.Two node.old.inner.n node.old.inner.epoch) (beat_messages result) }
    ensures untouched { is_beat result ≡ false → result ≢ Beat.NoMemory → node.new.journal ≡ node.old.journal }
    ensures once { AsksOnceAtMost node.old.journal.asked node.new.journal.asked }
{
    let message = match node.inner.draft_noop() {
        Ok(message) => message,
        Err(answer) => return answer,
    };
    let Ok(sent) = message.copy(alloc) else {
        return Beat::NoMemory;
    };
    match commit(alloc, node, frames, message) {
        Ok(()) => Beat::Sent(sent),
        Err(NoMemory) => Beat::NoMemory,
    }
}

/// Sends a message that a node's replica drafted, and puts its frame behind the others. `NoMemory` leaves the frames as they
/// were, and nothing is sent or noted.
///
/// It is always inlined, since a message that is handed to it would be moved once more.
#[inline(always)]
fn commit(
    alloc: Global,
    node: &mut Node<Journal>,
    frames: &mut FrameRow,
    message: Message,
) -> Result<(), NoMemory>
    requires draft { (s : State) → StandsFor node.old.inner s → IsDraft node.old.inner message s }
    requires fits { IsTrue (fits node.old.inner.n message) }
    ensures noted { OnOk result (node.new.journal.notes ≡ node.old.journal.notes ++ notes.Sent message ∷ []) }
    ensures kept { OnErr result (node.new.journal.notes ≡ node.old.journal.notes) }
    ensures same { SameNode node.old node.new }
    ensures frames { OnOk result (frames.new.items ≡ frames.old.items ++ frame_of Version.Two node.old.inner.n node.old.inner.epoch message ∷ []) }
    ensures no_frame { OnErr result (frames.new.items ≡ frames.old.items) }
    ensures once { AsksOnceAtMost node.old.journal.asked node.new.journal.asked }
{
    let frame = encode(alloc, &message, node.inner.n, node.inner.epoch)?;
    frames.reserve(frame.len())?;
    node.commit(alloc, message)?;
    frames.push_reserved(&frame);
    Ok(())
}
