//! Reading one record: a node makes the call again that the record tells, and the record must be what that call gives.

ghost use Rattle.std.specs.Prelude.{◌≡◌, ◌≤◌, ◌++◌, ◌∷◌, [], ℕ, length, IsTrue, IfOk, Ok};
ghost use Rattle.op_base.specs.Message.{fits};
ghost use Rattle.op_base.specs.Name.{same_text};
ghost use Rattle.op_base.specs.declared.operation.Op.TheVariants as ops;
ghost use Rattle.causal_model.specs.Counts.{is_carried};
ghost use Rattle.causal_model.specs.State.{State};
ghost use Rattle.causal_model.specs.declared.note.Note.TheVariants as notes;
ghost use Rattle.frame_codec.specs.Grammar.{frame_of};
ghost use Rattle.frame_codec.specs.Message.{frame_read};
ghost use Rattle.frame_codec.specs.declared.version.Version.TheVariants as versions;
ghost use Rattle.replica_core.specs.Rules.{StandsFor, IsDraft};
ghost use Rattle.replica_keeper.specs.Replaying.{Replays};
ghost use Rattle.replica_keeper.specs.Open.{IsSame};

use crate::record::{ACCEPTED, SENT};
use causal_model::Local;
use frame_codec::{DecodeFault, decode, encode};
use op_base::{Message, NoMemory, Op, Update};
use replica_node::{Journal, Node};
use std::alloc::Global;

/// Whether a message has this very frame, in a store of n members.
fn has_frame(alloc: Global, message: &Message, n: u8, frame: &[u8]) -> Result<bool, NoMemory>
    requires { IsTrue (fits n message.now) }
    ensures { IfOk result (λ same. same ≡ same_text (frame_of versions.Two n 0 message.now) frame.now) }
{
    let own = encode(alloc, message, n, 0)?;
    Ok(own.as_slice() == frame)
}

/// Sends a drafted message again where its frame is this one, and says whether it is.
fn send_again(
    alloc: Global,
    node: &mut Node<Journal>,
    own: Message,
    frame: &[u8],
) -> Result<bool, NoMemory>
    requires fits { IsTrue (fits node.old.inner.n own) }
    requires draft { (s : State) → StandsFor node.old.inner s → IsDraft node.old.inner own s }
    ensures told { IfOk result (λ told. told ≡ same_text (frame_of versions.Two node.old.inner.n 0 own) frame.now) }
    ensures noted { IfOk result (λ told. IsTrue told → node.new.journal.notes ≡ node.old.journal.notes ++ notes.Sent own ∷ []) }
    ensures same { IsSame node.old node.new }
{
    if !has_frame(alloc, &own, node.inner.n, frame)? {
        return Ok(false);
    }
    node.commit(alloc, own)?;
    Ok(true)
}

/// Sends the no-op again that a record's frame tells.
fn replay_noop(
    alloc: Global,
    node: &mut Node<Journal>,
    message: &Message,
    frame: &[u8],
) -> Result<bool, NoMemory>
    requires read { frame_read node.old.inner.n 0 node.old.inner.limit frame.now ≡ Ok message.now }
    requires op { message.now.op ≡ ops.NoOp }
    ensures replays { IfOk result (λ told. Replays node.old node.new (1 ∷ frame.now) told) }
    ensures same { IsSame node.old node.new }
{
    match node.inner.draft_noop() {
        Ok(own) => send_again(alloc, node, own, frame),
        Err(_) => Ok(false),
    }
}

/// Sends the update again that a record's frame tells.
fn replay_update(
    alloc: Global,
    node: &mut Node<Journal>,
    update: &Update,
    message: &Message,
    frame: &[u8],
) -> Result<bool, NoMemory>
    requires read { frame_read node.old.inner.n 0 node.old.inner.limit frame.now ≡ Ok message.now }
    requires op { message.now.op ≡ ops.Update update.now }
    ensures replays { IfOk result (λ told. Replays node.old node.new (1 ∷ frame.now) told) }
    ensures same { IsSame node.old node.new }
{
    match node.inner.draft(alloc, update) {
        Ok(own) => send_again(alloc, node, own, frame),
        Err(Local::NoMemory) => Err(NoMemory),
        Err(_) => Ok(false),
    }
}

/// Accepts the message again that a record's frame tells.
fn replay_accepted(
    alloc: Global,
    node: &mut Node<Journal>,
    message: Message,
    frame: &[u8],
) -> Result<bool, NoMemory>
    requires read { frame_read node.old.inner.n 0 node.old.inner.limit frame.now ≡ Ok message }
    requires fits { IsTrue (fits node.old.inner.n message) }
    requires carried { IsTrue (is_carried node.old.inner.limit message) }
    ensures replays { IfOk result (λ told. Replays node.old node.new (2 ∷ frame.now) told) }
    ensures same { IsSame node.old node.new }
{
    if let Some(_refusal) = node.inner.refusal(&message) {
        return Ok(false);
    }
    let same = has_frame(alloc, &message, node.inner.n, frame)?;
    if !same {
        return Ok(false);
    }
    node.accept(alloc, message)?;
    Ok(true)
}

/// Sends the message again that a record's frame tells.
fn replay_sent(
    alloc: Global,
    node: &mut Node<Journal>,
    message: &Message,
    frame: &[u8],
) -> Result<bool, NoMemory>
    requires read { frame_read node.old.inner.n 0 node.old.inner.limit frame.now ≡ Ok message.now }
    ensures replays { IfOk result (λ told. Replays node.old node.new (1 ∷ frame.now) told) }
    ensures same { IsSame node.old node.new }
{
    match &message.op {
        Op::NoOp => replay_noop(alloc, node, message, frame),
        Op::Update(update) => replay_update(alloc, node, update, message, frame),
    }
}

/// Makes the call again that a record's content tells, and says whether the record is what that call gives.
pub(crate) fn replay_content(
    alloc: Global,
    node: &mut Node<Journal>,
    content: &[u8],
) -> Result<bool, NoMemory>
    requires { 1 ≤ length content.now }
    ensures replays { IfOk result (λ told. Replays node.old node.new content.now told) }
    ensures same { IsSame node.old node.new }
{
    let [way, frame @ ..] = content else {
        unreachable!()
    };
    let message = match decode(alloc, frame, node.inner.n, 0, node.inner.limit) {
        Ok(message) => message,
        Err(DecodeFault::NoMemory) => return Err(NoMemory),
        Err(DecodeFault::Frame(_fault)) => return Ok(false),
    };
    if *way == SENT {
        replay_sent(alloc, node, &message, frame)
    } else if *way == ACCEPTED {
        replay_accepted(alloc, node, message, frame)
    } else {
        Ok(false)
    }
}
