//! A world of durable replicas over memory, which can be stopped.

ghost use Rattle.std.specs.Prelude.{◌≡◌, ◌≢◌, ◌↔◌, ◌<◌, false, true, length, map, IsTrue, IfOk, OnOk, OnErr, IsErrOf};
ghost use Rattle.op_base.specs.declared.name.Kind.TheVariants as kinds;
ghost use Rattle.replica_core.specs.Numbers.{are_numbers};
ghost use Rattle.causal_model.specs.Sending.{is_sent, is_beat};
ghost use Rattle.world_model.specs.Showing.{answer_at, list_ids_at, tombs_at, log_at, entries_at, items_at, stable_at, seen_at};
ghost use Rattle.world_model.specs.Stops.{PlainKeep, keep_opening, keep_local_at, keep_beat_at, keep_give_at, keep_stop_at};
ghost use Rattle.world_model.specs.World.{takes_frame};
ghost use Rattle.replica_keeper.specs.ShowsKeep.{ShowsKeep};

use crate::durable::Durable;
use crate::steady::{
    no_beat, no_local, no_receive, offer_frame, open_replicas, restart, send, send_noop,
};
use causal_model::{Beat, Local, Receive};
use op_base::{
    Answer, ElementIdList, IdList, MessageId, NoMemory, ObjectId, Tag, Update, updates_are_valid,
};
use replica_core::{CreateFault, are_numbers};
use replica_node::{Journal, Node};
use std::alloc::Global;
use store_io::SteadyKeeper;
use world::{FrameTable, Given, empty_rows};

/// A durable replica for each member, members upwards.
pub type DurableList = Vec<Durable<SteadyKeeper>>;

/// The durable replicas of a store's members, over memory, and the frames of all that they sent. Each call answers and does as in
/// the plain keep world that it shows. After `NoMemory` from any call the run is over.
#[derive(Drop)]
pub struct KeepWorld {
    pub replicas: DurableList,
    pub sent: FrameTable,
    /// Memory ran out in a call.
    pub ended: bool,
    /// While it goes on, there is a plain keep world that it shows.
    pub ghost shows: { ended ≡ false → ∥ ((keep : PlainKeep) × ShowsKeep replicas.items (map (λ row. row.items) sent.items) keep) ∥₁ },
}

impl KeepWorld {
    ghost use Rattle.replica_keeper.specs.Worlds.{Shown, FollowsOrEnds, IsNodeAt};

    /// The world of `n` members before anything is sent, with a window of `w` and a limit of messages a member.
    pub fn create(alloc: Global, n: u8, w: u8, limit: u32) -> Result<KeepWorld, CreateFault>
        ensures bad_numbers { IsErrOf result CreateFault.BadNumbers ↔ (are_numbers 0 n w limit ≡ false) }
        ensures members { IfOk result (λ world. length world.replicas.items ≡ n) }
        ensures opening { IfOk result (λ world. Shown world (keep_opening n w limit)) }
    {
        if !are_numbers(0, u32::from(n), u32::from(w), limit) {
            return Err(CreateFault::BadNumbers);
        }
        let replicas = open_replicas(alloc, n, w, limit)?;
        let sent = empty_rows(alloc, n)?;
        Ok(KeepWorld {
            replicas,
            sent,
            ended: false,
        })
    }

    /// Sends an update at replica `r`.
    pub fn local(&mut self, alloc: Global, r: u8, update: &Update) -> Local
        requires to { r < length self.old.replicas.items }
        requires goes_on { self.old.ended ≡ false }
        ensures answer { FollowsOrEnds Local.NoMemory is_sent (keep_local_at r update.now) self.old result self.new }
        ensures ended { result ≡ Local.NoMemory → self.new.ended ≡ true }
        ensures goes_on { result ≢ Local.NoMemory → self.new.ended ≡ false }
        ensures members { length self.new.replicas.items ≡ length self.old.replicas.items }
    {
        let replica = &mut self.replicas[r as usize];
        let frames = &mut self.sent[r as usize];
        updates_are_valid(update);
        let answer = send(alloc, replica, frames, update);
        self.ended = no_local(&answer);
        answer
    }

    /// Sends a no-op at replica `r`, where one is due.
    pub fn beat(&mut self, alloc: Global, r: u8) -> Beat
        requires to { r < length self.old.replicas.items }
        requires goes_on { self.old.ended ≡ false }
        ensures answer { FollowsOrEnds Beat.NoMemory is_beat (keep_beat_at r) self.old result self.new }
        ensures ended { result ≡ Beat.NoMemory → self.new.ended ≡ true }
        ensures goes_on { result ≢ Beat.NoMemory → self.new.ended ≡ false }
        ensures members { length self.new.replicas.items ≡ length self.old.replicas.items }
    {
        let replica = &mut self.replicas[r as usize];
        let frames = &mut self.sent[r as usize];
        let answer = send_noop(alloc, replica, frames);
        self.ended = no_beat(&answer);
        answer
    }

    /// Offers the message of member `k` with a number to replica `r`. Nothing is read of a message that came before or is early.
    pub fn give(&mut self, alloc: Global, r: u8, k: u8, seq: u32) -> Given
        requires to { r < length self.old.replicas.items }
        requires of { k < length self.old.replicas.items }
        requires goes_on { self.old.ended ≡ false }
        ensures answer { FollowsOrEnds (Given.Got Receive.NoMemory) takes_frame (keep_give_at r k seq) self.old result self.new }
        ensures ended { result ≡ Given.Got Receive.NoMemory → self.new.ended ≡ true }
        ensures goes_on { result ≢ Given.Got Receive.NoMemory → self.new.ended ≡ false }
        ensures members { length self.new.replicas.items ≡ length self.old.replicas.items }
    {
        if seq == 0 {
            return Given::Unsent;
        }
        let frames = &self.sent[k as usize];
        if seq as usize > frames.len() {
            return Given::Unsent;
        }
        let frame = frames.at(seq as usize - 1);
        let id = MessageId { origin: k, seq };
        let replica = &mut self.replicas[r as usize];
        let answer = offer_frame(alloc, replica, id, frame);
        self.ended = no_receive(&answer);
        Given::Got(answer)
    }

    /// Stops replica `r` so that of its bytes those synced outlive it and at most `b` behind them, and opens it again. How many
    /// notes it then has.
    pub fn stop(&mut self, alloc: Global, r: u8, b: u64) -> Result<u64, NoMemory>
        requires of { r < length self.old.replicas.items }
        requires goes_on { self.old.ended ≡ false }
        ensures count { (keep : PlainKeep) → Shown self.old keep → IfOk result (λ count. count ≡ (keep_stop_at r b keep).0) }
        ensures world { (keep : PlainKeep) → Shown self.old keep → OnOk result (Shown self.new (keep_stop_at r b keep).1) }
        ensures ended { OnErr result (self.new.ended ≡ true) }
        ensures goes_on { OnOk result (self.new.ended ≡ false) }
        ensures members { length self.new.replicas.items ≡ length self.old.replicas.items }
    {
        self.ended = true;
        let replica = &mut self.replicas[r as usize];
        let count = restart(alloc, replica, b)?;
        self.ended = false;
        Ok(count)
    }

    /// The node of replica `r`.
    fn node(&self, r: u8) -> &Node<Journal>
        requires of { r < length self.now.replicas.items }
        requires goes_on { self.now.ended ≡ false }
        ensures { IsNodeAt self.now r result.now }
    {
        // It is open while the world goes on.
        self.replicas[r as usize].node().unwrap()
    }

    /// What an object is at replica `r`.
    pub fn answer(&mut self, alloc: Global, r: u8, object: &ObjectId) -> Result<Answer, NoMemory>
        requires of { r < length self.old.replicas.items }
        requires goes_on { self.old.ended ≡ false }
        ensures answer { (keep : PlainKeep) → Shown self.old keep → IfOk result (λ a. a ≡ answer_at keep.world r object.now) }
        ensures stays { (keep : PlainKeep) → Shown self.old keep → OnOk result (Shown self.new keep) }
        ensures ended { OnErr result (self.new.ended ≡ true) }
        ensures goes_on { OnOk result (self.new.ended ≡ false) }
        ensures members { length self.new.replicas.items ≡ length self.old.replicas.items }
    {
        let answer = self.node(r).answer(alloc, object);
        self.ended = answer.is_err();
        answer
    }

    /// The ids of a list's elements at replica `r`, in the list's order.
    pub fn list_ids(
        &mut self,
        alloc: Global,
        r: u8,
        object: &ObjectId,
    ) -> Result<ElementIdList, NoMemory>
        requires of { r < length self.old.replicas.items }
        requires goes_on { self.old.ended ≡ false }
        requires kind { object.now.kind ≡ kinds.List }
        ensures ids { (keep : PlainKeep) → Shown self.old keep → IfOk result (λ ids. ids ≡ list_ids_at keep.world r object.now) }
        ensures stays { (keep : PlainKeep) → Shown self.old keep → OnOk result (Shown self.new keep) }
        ensures ended { OnErr result (self.new.ended ≡ true) }
        ensures goes_on { OnOk result (self.new.ended ≡ false) }
        ensures members { length self.new.replicas.items ≡ length self.old.replicas.items }
    {
        let ids = self.node(r).list_ids(alloc, object);
        self.ended = ids.is_err();
        ids
    }

    /// How many elements of a list replica `r` keeps that it doesn't show. It takes no memory.
    pub fn tombs(&self, r: u8, object: &ObjectId) -> usize
        requires of { r < length self.now.replicas.items }
        requires goes_on { self.now.ended ≡ false }
        requires kind { object.now.kind ≡ kinds.List }
        ensures { (keep : PlainKeep) → Shown self.now keep → result ≡ tombs_at keep.world r object.now }
    {
        self.node(r).tombs(object)
    }

    /// The ids of the log of replica `r`, oldest first.
    pub fn kept(&mut self, alloc: Global, r: u8) -> Result<IdList, NoMemory>
        requires of { r < length self.old.replicas.items }
        requires goes_on { self.old.ended ≡ false }
        ensures ids { (keep : PlainKeep) → Shown self.old keep → IfOk result (λ ids. ids ≡ log_at keep.world r) }
        ensures stays { (keep : PlainKeep) → Shown self.old keep → OnOk result (Shown self.new keep) }
        ensures ended { OnErr result (self.new.ended ≡ true) }
        ensures goes_on { OnOk result (self.new.ended ≡ false) }
        ensures members { length self.new.replicas.items ≡ length self.old.replicas.items }
    {
        let ids = self.node(r).replica().log.ids(alloc);
        self.ended = ids.is_err();
        ids
    }

    /// How many entries the log of replica `r` has, and how many settled items there are.
    pub fn size(&self, r: u8) -> (usize, usize)
        requires of { r < length self.now.replicas.items }
        requires goes_on { self.now.ended ≡ false }
        ensures { (keep : PlainKeep) → Shown self.now keep → result ≡ (entries_at keep.world r, items_at keep.world r) }
    {
        let replica = self.node(r).replica();
        (replica.log.len(), replica.items.filled_len())
    }

    /// How many messages of each member are stable at replica `r`.
    pub fn stable(&self, r: u8) -> Tag
        requires of { r < length self.now.replicas.items }
        requires goes_on { self.now.ended ≡ false }
        ensures { (keep : PlainKeep) → Shown self.now keep → result ≡ stable_at keep.world r }
    {
        self.node(r).replica().matrix.stable()
    }

    /// How many messages of each member replica `r` has delivered.
    pub fn seen(&self, r: u8) -> Tag
        requires of { r < length self.now.replicas.items }
        requires goes_on { self.now.ended ≡ false }
        ensures { (keep : PlainKeep) → Shown self.now keep → result ≡ seen_at keep.world r }
    {
        self.node(r).replica().counts
    }
}
