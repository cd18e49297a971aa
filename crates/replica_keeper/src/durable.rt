//! A replica that outlives stops: what it let out is never forgotten.

ghost use Rattle.std.specs.Prelude.{◌≡◌, ◌≢◌, ◌↔◌, ◌<◌, List, length, All, IsTrue, false, true, Some, None};
ghost use Rattle.std.specs.Option.{IfSome, IsSome, option_copied};
ghost use Rattle.op_base.specs.Message.{fits};
ghost use Rattle.causal_model.specs.Counts.{is_carried};
ghost use Rattle.causal_model.specs.Follows.{Follows};
ghost use Rattle.causal_model.specs.Journal.{local_notes, beat_notes, receive_notes};
ghost use Rattle.causal_model.specs.Receiving.{is_accepted, receive_rule};
ghost use Rattle.causal_model.specs.Sending.{is_sent, is_beat, local_messages, beat_messages, local_rule, beat_rule};
ghost use Rattle.causal_model.specs.declared.note.Note.{Note as ANote};
ghost use Rattle.replica_core.specs.Numbers.{are_numbers};
ghost use Rattle.replica_node.specs.Rules.{noting};
ghost use Rattle.store_io.specs.Keeping.{LeavesOnly};
ghost use Rattle.replica_keeper.specs.Calls.{local_list, beat_list, receive_list};
ghost use Rattle.replica_keeper.specs.Durably.{IfDone, numbers};
ghost use Rattle.replica_keeper.specs.Keeping.{groups_of, AreSentWithin, IsFrontOf};
ghost use Rattle.replica_keeper.specs.Open.{NotedNode, GoesOn, IsKept, notes_in};
ghost use Rattle.world_model.specs.Records.{records_of};

use crate::calls::{beat, local, receive};
use crate::durably::Durably;
use causal_model::{Beat, Local, Receive};
use op_base::{Message, Update};
use replica_node::{Journal, Node};
use std::alloc::Global;
use store_io::Keeper;

/// A replica whose groups of notes are kept: a message leaves only once its record is synced. Whatever a stop at any moment of
/// a call leaves is read as a front of the groups that the journal had and the one that the rules give for this call, with each
/// whose record was synced before.
///
/// It is open until its keeper fails in a call, and closed from then on.
#[derive(Drop)]
pub struct Durable<K: Keeper> {
    /// Which member it is.
    pub me: u8,
    /// How many members the store has.
    pub n: u8,
    /// The window.
    pub w: u8,
    /// How many messages a member may send.
    pub limit: u32,
    /// Where its records go.
    pub keeper: K,
    /// The replica with its journal, while it is open.
    pub node: Option<Node<Journal>>,
    /// The numbers are in their ranges.
    pub ghost in_range: { are_numbers me n w limit ≡ true },
    /// While it is open, the node has the four numbers, and the bytes held are the records of its groups, with each that sends
    /// among those synced.
    pub ghost kept: { (is : NotedNode) → node ≡ Some is → IsKept (numbers me n w limit) is (K.held keeper) (K.synced keeper) },
}

impl<K: Keeper> Durable<K> {
    /// A closed one, with these numbers.
    pub(crate) fn closed(me: u8, n: u8, w: u8, limit: u32, keeper: K) -> Durable<K>
        requires { are_numbers me n w limit ≡ true }
        ensures settings { numbers result.me result.n result.w result.limit ≡ numbers me n w limit }
    {
        Durable {
            me,
            n,
            w,
            limit,
            keeper,
            node: None,
        }
    }

    /// Sends an update: as the replica's call, and the message is handed out once its record is synced. Every refusal of the
    /// replica's, and want of memory, leaves it as it was.
    pub fn local(&mut self, alloc: Global, update: &Update) -> Durably<Local>
        ensures closed { (result ≡ Durably.Closed) ↔ (self.old.node ≡ None) }
        ensures unmoved { result ≡ Durably.Closed → self.new.keeper ≡ self.old.keeper }
        ensures stays { result ≡ Durably.Closed → self.new.node ≡ None }
        ensures fault { result ≡ Durably.KeeperFault → K.faults self.old.keeper < K.faults self.new.keeper }
        ensures steady { IfDone result (λ _. K.faults self.new.keeper ≡ K.faults self.old.keeper) }
        ensures shut { result ≡ Durably.KeeperFault → self.new.node ≡ None }
        ensures open { IfDone result (λ _. IsSome self.new.node) }
        ensures same { IfDone result (λ _. GoesOn self.old.node self.new.node) }
        ensures answer { IfDone result (λ answer. Follows (λ (there ns : List ANote). there ≡ ns) Local.NoMemory is_sent (noting (self.old.me, self.old.n) local_notes (local_rule self.old.w self.old.limit update.now)) (notes_in self.old.node) answer (notes_in self.new.node)) }
        ensures list { IfDone result (λ answer. answer ≢ Local.NoMemory → groups_of (notes_in self.new.node) ≡ local_list (numbers self.old.me self.old.n self.old.w self.old.limit) (notes_in self.old.node) update.now) }
        ensures held { IfSome self.new.node (λ node. K.held self.new.keeper ≡ records_of self.new.n (groups_of node.journal.notes)) }
        ensures synced { IfDone result (λ answer. IsTrue (is_sent answer) → K.synced self.new.keeper ≡ length (K.held self.new.keeper)) }
        ensures fits { IfDone result (λ answer. All (λ m. IsTrue (fits self.old.n m)) (local_messages answer)) }
        ensures out { IfDone result (λ answer. AreSentWithin self.old.n (K.synced self.new.keeper) (notes_in self.new.node) (local_messages answer)) }
        ensures unsynced { IfDone result (λ answer. is_sent answer ≡ false → K.synced self.new.keeper ≡ K.synced self.old.keeper) }
        ensures settings { numbers self.new.me self.new.n self.new.w self.new.limit ≡ numbers self.old.me self.old.n self.old.w self.old.limit }
        ensures any_moment { IsSome self.old.node → LeavesOnly K.moment K.left_since self.old.keeper self.new.keeper
            (IsFrontOf (numbers self.old.me self.old.n self.old.w self.old.limit) (local_list (numbers self.old.me self.old.n self.old.w self.old.limit) (notes_in self.old.node) update.now) (K.synced self.old.keeper)) }
    {
        let Some(mut node) = self.node.take() else {
            return Durably::Closed;
        };
        match local(alloc, &mut node, &mut self.keeper, update) {
            Ok(answer) => {
                self.node = Some(node);
                Durably::Done(answer)
            }
            Err(_) => Durably::KeeperFault,
        }
    }

    /// Sends a no-op where one is due: as the replica's call, and the message is handed out once its record is synced. Every
    /// refusal of the replica's, and want of memory, leaves it as it was.
    pub fn beat(&mut self, alloc: Global) -> Durably<Beat>
        ensures closed { (result ≡ Durably.Closed) ↔ (self.old.node ≡ None) }
        ensures unmoved { result ≡ Durably.Closed → self.new.keeper ≡ self.old.keeper }
        ensures stays { result ≡ Durably.Closed → self.new.node ≡ None }
        ensures fault { result ≡ Durably.KeeperFault → K.faults self.old.keeper < K.faults self.new.keeper }
        ensures steady { IfDone result (λ _. K.faults self.new.keeper ≡ K.faults self.old.keeper) }
        ensures shut { result ≡ Durably.KeeperFault → self.new.node ≡ None }
        ensures open { IfDone result (λ _. IsSome self.new.node) }
        ensures same { IfDone result (λ _. GoesOn self.old.node self.new.node) }
        ensures answer { IfDone result (λ answer. Follows (λ (there ns : List ANote). there ≡ ns) Beat.NoMemory is_beat (noting (self.old.me, self.old.n) beat_notes (beat_rule self.old.w self.old.limit)) (notes_in self.old.node) answer (notes_in self.new.node)) }
        ensures list { IfDone result (λ answer. answer ≢ Beat.NoMemory → groups_of (notes_in self.new.node) ≡ beat_list (numbers self.old.me self.old.n self.old.w self.old.limit) (notes_in self.old.node)) }
        ensures held { IfSome self.new.node (λ node. K.held self.new.keeper ≡ records_of self.new.n (groups_of node.journal.notes)) }
        ensures synced { IfDone result (λ answer. IsTrue (is_beat answer) → K.synced self.new.keeper ≡ length (K.held self.new.keeper)) }
        ensures fits { IfDone result (λ answer. All (λ m. IsTrue (fits self.old.n m)) (beat_messages answer)) }
        ensures out { IfDone result (λ answer. AreSentWithin self.old.n (K.synced self.new.keeper) (notes_in self.new.node) (beat_messages answer)) }
        ensures unsynced { IfDone result (λ answer. is_beat answer ≡ false → K.synced self.new.keeper ≡ K.synced self.old.keeper) }
        ensures settings { numbers self.new.me self.new.n self.new.w self.new.limit ≡ numbers self.old.me self.old.n self.old.w self.old.limit }
        ensures any_moment { IsSome self.old.node → LeavesOnly K.moment K.left_since self.old.keeper self.new.keeper
            (IsFrontOf (numbers self.old.me self.old.n self.old.w self.old.limit) (beat_list (numbers self.old.me self.old.n self.old.w self.old.limit) (notes_in self.old.node)) (K.synced self.old.keeper)) }
    {
        let Some(mut node) = self.node.take() else {
            return Durably::Closed;
        };
        match beat(alloc, &mut node, &mut self.keeper) {
            Ok(answer) => {
                self.node = Some(node);
                Durably::Done(answer)
            }
            Err(_) => Durably::KeeperFault,
        }
    }

    /// Receives a message of the store, none of whose entries is above the limit and whose operation is valid: as the replica's
    /// call. The record of one that is accepted is not synced. Every refusal of the replica's, and want of memory, leaves it as
    /// it was.
    pub fn receive(&mut self, alloc: Global, message: Message) -> Durably<Receive>
        requires fits { IsTrue (fits self.old.n message) }
        requires carried { IsTrue (is_carried self.old.limit message) }
        ensures closed { (result ≡ Durably.Closed) ↔ (self.old.node ≡ None) }
        ensures unmoved { result ≡ Durably.Closed → self.new.keeper ≡ self.old.keeper }
        ensures stays { result ≡ Durably.Closed → self.new.node ≡ None }
        ensures fault { result ≡ Durably.KeeperFault → K.faults self.old.keeper < K.faults self.new.keeper }
        ensures steady { IfDone result (λ _. K.faults self.new.keeper ≡ K.faults self.old.keeper) }
        ensures shut { result ≡ Durably.KeeperFault → self.new.node ≡ None }
        ensures open { IfDone result (λ _. IsSome self.new.node) }
        ensures same { IfDone result (λ _. GoesOn self.old.node self.new.node) }
        ensures answer { IfDone result (λ answer. Follows (λ (there ns : List ANote). there ≡ ns) Receive.NoMemory is_accepted (noting (self.old.me, self.old.n) (receive_notes message) (receive_rule self.old.w message)) (notes_in self.old.node) answer (notes_in self.new.node)) }
        ensures list { IfDone result (λ answer. answer ≢ Receive.NoMemory → groups_of (notes_in self.new.node) ≡ receive_list (numbers self.old.me self.old.n self.old.w self.old.limit) (notes_in self.old.node) message) }
        ensures held { IfSome self.new.node (λ node. K.held self.new.keeper ≡ records_of self.new.n (groups_of node.journal.notes)) }
        ensures unsynced { IfDone result (λ _. K.synced self.new.keeper ≡ K.synced self.old.keeper) }
        ensures settings { numbers self.new.me self.new.n self.new.w self.new.limit ≡ numbers self.old.me self.old.n self.old.w self.old.limit }
        ensures any_moment { IsSome self.old.node → LeavesOnly K.moment K.left_since self.old.keeper self.new.keeper
            (IsFrontOf (numbers self.old.me self.old.n self.old.w self.old.limit) (receive_list (numbers self.old.me self.old.n self.old.w self.old.limit) (notes_in self.old.node) message) (K.synced self.old.keeper)) }
    {
        let Some(mut node) = self.node.take() else {
            return Durably::Closed;
        };
        match receive(alloc, &mut node, &mut self.keeper, message) {
            Ok(answer) => {
                self.node = Some(node);
                Durably::Done(answer)
            }
            Err(_) => Durably::KeeperFault,
        }
    }

    /// The replica with its journal: none where it is closed.
    pub fn node(&self) -> Option<&Node<Journal>>
        ensures node { option_copied result ≡ self.now.node }
        ensures outbox { IfSome result (λ node. AreSentWithin self.now.n (K.synced self.now.keeper) node.now.journal.notes node.now.inner.outbox.messages) }
    {
        self.node.as_ref()
    }

    /// Ends it, and gives back its keeper.
    pub fn stop(self) -> K
        ensures { result ≡ self.keeper }
    {
        let Durable { keeper, .. } = self;
        keeper
    }
}
