//! The calls of a replica whose groups are kept: as the node's, and the record of what a call notes comes behind the others.

ghost use Rattle.std.specs.Prelude.{◌≡◌, ◌≢◌, ◌<◌, ℕ, List, length, All, IsTrue, IfOk, OnOk, OnErr, true, false};
ghost use Rattle.op_base.specs.Message.{fits};
ghost use Rattle.causal_model.specs.Counts.{is_carried};
ghost use Rattle.causal_model.specs.Follows.{Follows};
ghost use Rattle.causal_model.specs.Journal.{local_notes, beat_notes, receive_notes};
ghost use Rattle.causal_model.specs.Receiving.{is_accepted, receive_rule};
ghost use Rattle.causal_model.specs.Sending.{is_sent, is_beat, local_messages, beat_messages, local_rule, beat_rule};
ghost use Rattle.causal_model.specs.declared.note.Note.{Note as ANote};
ghost use Rattle.replica_core.specs.Rules.{SameSettings};
ghost use Rattle.replica_node.specs.Rules.{noting};
ghost use Rattle.store_io.specs.Keeping.{LeavesOnly};
ghost use Rattle.replica_keeper.specs.Calls.{local_list, beat_list, receive_list};
ghost use Rattle.replica_keeper.specs.Keeping.{groups_of, AreSentWithin, IsFrontOf};
ghost use Rattle.replica_keeper.specs.Open.{settings_by, IsOpen};

use crate::keeping::{Unkept, accept, send};
use causal_model::{Beat, Local, Receive};
use op_base::{Message, Update};
use replica_node::{Journal, Node};
use std::alloc::Global;
use store_io::{Failed, Keeper};

/// Sends an update. `Failed` tells that the keeper failed: nothing is handed out.
pub(crate) fn local<K: Keeper>(
    alloc: Global,
    node: &mut Node<Journal>,
    keeper: &mut K,
    update: &Update,
) -> Result<Local, Failed>
    requires { IsOpen node.old (K.held keeper.old) (K.synced keeper.old) }
    ensures open { OnOk result (IsOpen node.new (K.held keeper.new) (K.synced keeper.new)) }
    ensures answer { IfOk result (λ answer. Follows (λ (there ns : List ANote). there ≡ ns) Local.NoMemory is_sent (noting node.old.first local_notes (local_rule node.old.inner.w node.old.inner.limit update.now)) node.old.journal.notes answer node.new.journal.notes) }
    ensures list { IfOk result (λ answer. answer ≢ Local.NoMemory → groups_of node.new.journal.notes ≡ local_list (settings_by node.old) node.old.journal.notes update.now) }
    ensures synced { IfOk result (λ answer. IsTrue (is_sent answer) → K.synced keeper.new ≡ length (K.held keeper.new)) }
    ensures fits { IfOk result (λ answer. All (λ m. IsTrue (fits node.old.inner.n m)) (local_messages answer)) }
    ensures out { IfOk result (λ answer. AreSentWithin node.old.inner.n (K.synced keeper.new) node.new.journal.notes (local_messages answer)) }
    ensures unsynced { IfOk result (λ answer. is_sent answer ≡ false → K.synced keeper.new ≡ K.synced keeper.old) }
    ensures steady { OnOk result (K.faults keeper.new ≡ K.faults keeper.old) }
    ensures fault { OnErr result (K.faults keeper.old < K.faults keeper.new) }
    ensures settings { SameSettings node.old.inner node.new.inner }
    ensures any_moment { LeavesOnly K.moment K.left_since keeper.old keeper.new (IsFrontOf (settings_by node.old) (local_list (settings_by node.old) node.old.journal.notes update.now) (K.synced keeper.old)) }
{
    let message = match node.inner.draft(alloc, update) {
        Ok(message) => message,
        Err(answer) => return Ok(answer),
    };
    match send(alloc, node, keeper, message) {
        Ok(message) => Ok(Local::Sent(message)),
        Err(Unkept::NoMemory) => Ok(Local::NoMemory),
        Err(Unkept::Failed) => Err(Failed),
    }
}

/// Sends a no-op where one is due. `Failed` tells that the keeper failed: nothing is handed out.
pub(crate) fn beat<K: Keeper>(
    alloc: Global,
    node: &mut Node<Journal>,
    keeper: &mut K,
) -> Result<Beat, Failed>
    requires { IsOpen node.old (K.held keeper.old) (K.synced keeper.old) }
    ensures open { OnOk result (IsOpen node.new (K.held keeper.new) (K.synced keeper.new)) }
    ensures answer { IfOk result (λ answer. Follows (λ (there ns : List ANote). there ≡ ns) Beat.NoMemory is_beat (noting node.old.first beat_notes (beat_rule node.old.inner.w node.old.inner.limit)) node.old.journal.notes answer node.new.journal.notes) }
    ensures list { IfOk result (λ answer. answer ≢ Beat.NoMemory → groups_of node.new.journal.notes ≡ beat_list (settings_by node.old) node.old.journal.notes) }
    ensures synced { IfOk result (λ answer. IsTrue (is_beat answer) → K.synced keeper.new ≡ length (K.held keeper.new)) }
    ensures fits { IfOk result (λ answer. All (λ m. IsTrue (fits node.old.inner.n m)) (beat_messages answer)) }
    ensures out { IfOk result (λ answer. AreSentWithin node.old.inner.n (K.synced keeper.new) node.new.journal.notes (beat_messages answer)) }
    ensures unsynced { IfOk result (λ answer. is_beat answer ≡ false → K.synced keeper.new ≡ K.synced keeper.old) }
    ensures steady { OnOk result (K.faults keeper.new ≡ K.faults keeper.old) }
    ensures fault { OnErr result (K.faults keeper.old < K.faults keeper.new) }
    ensures settings { SameSettings node.old.inner node.new.inner }
    ensures any_moment { LeavesOnly K.moment K.left_since keeper.old keeper.new (IsFrontOf (settings_by node.old) (beat_list (settings_by node.old) node.old.journal.notes) (K.synced keeper.old)) }
{
    let message = match node.inner.draft_noop() {
        Ok(message) => message,
        Err(answer) => return Ok(answer),
    };
    match send(alloc, node, keeper, message) {
        Ok(message) => Ok(Beat::Sent(message)),
        Err(Unkept::NoMemory) => Ok(Beat::NoMemory),
        Err(Unkept::Failed) => Err(Failed),
    }
}

/// Receives a message of the store, none of whose entries is above the limit and whose operation is valid. `Failed` tells that
/// the keeper failed.
pub(crate) fn receive<K: Keeper>(
    alloc: Global,
    node: &mut Node<Journal>,
    keeper: &mut K,
    message: Message,
) -> Result<Receive, Failed>
    requires open { IsOpen node.old (K.held keeper.old) (K.synced keeper.old) }
    requires fits { IsTrue (fits node.old.inner.n message) }
    requires carried { IsTrue (is_carried node.old.inner.limit message) }
    ensures open { OnOk result (IsOpen node.new (K.held keeper.new) (K.synced keeper.new)) }
    ensures answer { IfOk result (λ answer. Follows (λ (there ns : List ANote). there ≡ ns) Receive.NoMemory is_accepted (noting node.old.first (receive_notes message) (receive_rule node.old.inner.w message)) node.old.journal.notes answer node.new.journal.notes) }
    ensures list { IfOk result (λ answer. answer ≢ Receive.NoMemory → groups_of node.new.journal.notes ≡ receive_list (settings_by node.old) node.old.journal.notes message) }
    ensures unsynced { OnOk result (K.synced keeper.new ≡ K.synced keeper.old) }
    ensures steady { OnOk result (K.faults keeper.new ≡ K.faults keeper.old) }
    ensures fault { OnErr result (K.faults keeper.old < K.faults keeper.new) }
    ensures settings { SameSettings node.old.inner node.new.inner }
    ensures any_moment { LeavesOnly K.moment K.left_since keeper.old keeper.new (IsFrontOf (settings_by node.old) (receive_list (settings_by node.old) node.old.journal.notes message) (K.synced keeper.old)) }
{
    if let Some(refusal) = node.inner.refusal(&message) {
        return Ok(refusal.answer());
    }
    match accept(alloc, node, keeper, message) {
        Ok(steps) => Ok(Receive::accepted(steps)),
        Err(Unkept::NoMemory) => Ok(Receive::NoMemory),
        Err(Unkept::Failed) => Err(Failed),
    }
}
