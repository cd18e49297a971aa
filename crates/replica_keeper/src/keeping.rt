//! What a call keeps: the record of its message, taken memory for before the first change.

ghost use Rattle.std.specs.Prelude.{◌≡◌, ◌≢◌, ◌<◌, ◌++◌, ◌∷◌, [], length, map, IsTrue, IfOk, OnOk, Err, None};
ghost use Rattle.op_base.specs.Message.{fits};
ghost use Rattle.causal_model.specs.Counts.{is_carried};
ghost use Rattle.causal_model.specs.Journal.{step_note};
ghost use Rattle.causal_model.specs.Receiving.{steps, with_early, refusal_of};
ghost use Rattle.causal_model.specs.State.{State};
ghost use Rattle.causal_model.specs.declared.note.Note.TheVariants as notes;
ghost use Rattle.replica_core.specs.Rules.{StandsFor, SameSettings, Unchanged, IsDraft};
ghost use Rattle.replica_node.specs.Nodes.{state_by};
ghost use Rattle.store_io.specs.Keeping.{LeavesOnly};
ghost use Rattle.replica_keeper.specs.Keeping.{groups_of, IsFrontOf};
ghost use Rattle.replica_keeper.specs.Open.{settings_by, IsOpen};

use crate::record::{ACCEPTED, SENT, record};
use op_base::{Message, NoMemory, StepList};
use replica_node::{Journal, Node};
use std::alloc::Global;
use store_io::{Failed, Keeper, append_synced};

/// Why a call kept nothing: there was no memory, or the keeper failed.
#[derive(Clone, Copy, Debug, PartialEq, Eq)]
pub(crate) enum Unkept {
    NoMemory,
    Failed,
}

impl From<NoMemory> for Unkept {
    ghost use Rattle.std.specs.Prelude.{◌≡◌};
    ghost use Rattle.replica_keeper.specs.declared.keeping.Unkept.TheVariants as faults;

    ghost from_gives = { λ _ e. e ≡ faults.NoMemory };

    fn from(_error: NoMemory) -> Unkept {
        Unkept::NoMemory
    }
}

impl From<Failed> for Unkept {
    ghost use Rattle.std.specs.Prelude.{◌≡◌};
    ghost use Rattle.replica_keeper.specs.declared.keeping.Unkept.TheVariants as faults;

    ghost from_gives = { λ _ e. e ≡ faults.Failed };

    fn from(_error: Failed) -> Unkept {
        Unkept::Failed
    }
}

/// Notes a message that the node's replica drafted, and keeps its record, synced: only then is it handed out.
pub(crate) fn send<K: Keeper>(
    alloc: Global,
    node: &mut Node<Journal>,
    keeper: &mut K,
    message: Message,
) -> Result<Message, Unkept>
    requires open { IsOpen node.old (K.held keeper.old) (K.synced keeper.old) }
    requires draft { (s : State) → StandsFor node.old.inner s → IsDraft node.old.inner message s }
    ensures sent { IfOk result (λ m. m ≡ message) }
    ensures noted { OnOk result (node.new.journal.notes ≡ node.old.journal.notes ++ notes.Sent message ∷ []) }
    ensures kept { OnOk result (IsOpen node.new (K.held keeper.new) (K.synced keeper.new)) }
    ensures synced { OnOk result (K.synced keeper.new ≡ length (K.held keeper.new)) }
    ensures unchanged { result ≡ Err Unkept.NoMemory → IsOpen node.new (K.held keeper.new) (K.synced keeper.new) }
    ensures unnoted { result ≡ Err Unkept.NoMemory → node.new.journal.notes ≡ node.old.journal.notes }
    ensures unsynced { result ≡ Err Unkept.NoMemory → K.synced keeper.new ≡ K.synced keeper.old }
    ensures steady { result ≢ Err Unkept.Failed → K.faults keeper.new ≡ K.faults keeper.old }
    ensures fault { result ≡ Err Unkept.Failed → K.faults keeper.old < K.faults keeper.new }
    ensures settings { SameSettings node.old.inner node.new.inner }
    ensures any_moment { LeavesOnly K.moment K.left_since keeper.old keeper.new
        (IsFrontOf (settings_by node.old) (groups_of node.old.journal.notes ++ (notes.Sent message ∷ []) ∷ []) (K.synced keeper.old)) }
{
    let bytes = record(alloc, SENT, &message, node.inner.n)?;
    let sent = message.copy(alloc)?;
    keeper.reserve(bytes.len())?;
    node.commit(alloc, message)?;
    append_synced(keeper, bytes.as_slice())?;
    Ok(sent)
}

/// Takes in a message that the replica's `refusal` doesn't refuse, with each step that follows, notes them, and keeps their
/// record, which isn't synced.
pub(crate) fn accept<K: Keeper>(
    alloc: Global,
    node: &mut Node<Journal>,
    keeper: &mut K,
    message: Message,
) -> Result<StepList, Unkept>
    requires open { IsOpen node.old (K.held keeper.old) (K.synced keeper.old) }
    requires fits { IsTrue (fits node.old.inner.n message) }
    requires carried { IsTrue (is_carried node.old.inner.limit message) }
    requires unrefused { (s : State) → StandsFor node.old.inner s → refusal_of node.old.inner.w s message ≡ None }
    ensures steps { IfOk result (λ made. made ≡ (steps node.old.inner.w (with_early (state_by node.old.first node.old.journal.notes) message)).0) }
    ensures noted { IfOk result (λ made. node.new.journal.notes ≡ node.old.journal.notes ++ notes.Kept message ∷ map step_note made) }
    ensures kept { OnOk result (IsOpen node.new (K.held keeper.new) (K.synced keeper.new)) }
    ensures unchanged { result ≡ Err Unkept.NoMemory → IsOpen node.new (K.held keeper.new) (K.synced keeper.new) }
    ensures unnoted { result ≡ Err Unkept.NoMemory → node.new.journal.notes ≡ node.old.journal.notes }
    ensures unsynced { result ≢ Err Unkept.Failed → K.synced keeper.new ≡ K.synced keeper.old }
    ensures steady { result ≢ Err Unkept.Failed → K.faults keeper.new ≡ K.faults keeper.old }
    ensures fault { result ≡ Err Unkept.Failed → K.faults keeper.old < K.faults keeper.new }
    ensures settings { SameSettings node.old.inner node.new.inner }
    ensures any_moment { LeavesOnly K.moment K.left_since keeper.old keeper.new
        (IsFrontOf (settings_by node.old) (groups_of node.old.journal.notes ++ (notes.Kept message ∷ map step_note (steps node.old.inner.w (with_early (state_by node.old.first node.old.journal.notes) message)).0) ∷ []) (K.synced keeper.old)) }
{
    let bytes = record(alloc, ACCEPTED, &message, node.inner.n)?;
    keeper.reserve(bytes.len())?;
    let steps = node.accept(alloc, message)?;
    keeper.append(bytes.as_slice())?;
    Ok(steps)
}
