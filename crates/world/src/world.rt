//! The world, and what it shows of a replica.

ghost use Rattle.std.specs.Prelude.{◌≤◌, ◌≡◌, ◌↔◌, ◌<◌, false, [], length, map, None, IsTrue, IfOk, IsErrOf};
ghost use Rattle.op_base.specs.declared.name.Kind.TheVariants as kinds;
ghost use Rattle.causal_model.specs.State.{start};
ghost use Rattle.replica_core.specs.Numbers.{are_numbers};
ghost use Rattle.world_model.specs.Offering.{outbox_in};
ghost use Rattle.honest_worlds.specs.Laws.{honest_noops};
ghost use Rattle.world_model.specs.Honest.{IsHonest};
ghost use Rattle.world_model.specs.World.{PlainWorld, opening, replica_of, size_of};
ghost use Rattle.world_model.specs.Showing.{answer_at, list_ids_at, tombs_at, log_at, entries_at, items_at, stable_at, seen_at, noops_at, lags_at};
ghost use Rattle.world.specs.Shows.{Shows};
ghost use Rattle.world.specs.Steps.{AreNodesOf, are_empty};

use crate::frames::FrameRow;
use crate::lagging::lagging_at;
use op_base::{Answer, ElementIdList, IdList, NoMemory, ObjectId, Tag};
use replica_core::{CreateFault, are_numbers};
use replica_node::{Journal, Node};
use std::alloc::Global;

/// A node for each member, members upwards.
pub type NodeList = Vec<Node<Journal>>;

/// For each member the frames of its messages, in the order of their numbers, which begin with 1.
pub type FrameTable = Vec<FrameRow>;

/// The nodes of a store's members, and the frames of all that they sent. These fields are all that it has.
#[derive(Drop)]
pub struct World {
    pub nodes: NodeList,
    pub sent: FrameTable,
    /// There is a plain world that it shows.
    pub ghost shows: { ∥ ((plain : PlainWorld) × Shows nodes.items (map (λ row. row.items) sent.items) plain) ∥₁ },
}

impl World {
    ghost use Rattle.world.specs.Answers.{ShowsPlain};
    ghost use Rattle.world.specs.Honest.{ShowsHonest};

    /// The world of `n` members before anything is sent, with a window of `w` and a limit of messages a member.
    pub fn create(alloc: Global, n: u8, w: u8, limit: u32) -> Result<World, CreateFault>
        ensures bad_numbers { IsErrOf result CreateFault.BadNumbers ↔ (are_numbers 0 n w limit ≡ false) }
        ensures members { IfOk result (λ world. length world.nodes.items ≡ n) }
        ensures opening { IfOk result (λ world. ShowsPlain world (opening n w limit)) }
        ensures honest { IfOk result ShowsHonest }
    {
        if !are_numbers(0, u32::from(n), u32::from(w), limit) {
            return Err(CreateFault::BadNumbers);
        }
        let nodes = open_nodes(alloc, n, w, limit)?;
        let sent = empty_rows(alloc, n)?;
        Ok(World { nodes, sent })
    }

    /// What an object is at replica `r`.
    pub fn answer(&self, alloc: Global, r: u8, object: &ObjectId) -> Result<Answer, NoMemory>
        requires { r < length self.now.nodes.items }
        ensures { (plain : PlainWorld) → ShowsPlain self.now plain → IfOk result (λ a. a ≡ answer_at plain r object.now) }
    {
        self.nodes[r as usize].answer(alloc, object)
    }

    /// The ids of a list's elements at replica `r`, in the list's order.
    pub fn list_ids(
        &self,
        alloc: Global,
        r: u8,
        object: &ObjectId,
    ) -> Result<ElementIdList, NoMemory>
        requires of { r < length self.now.nodes.items }
        requires kind { object.now.kind ≡ kinds.List }
        ensures { (plain : PlainWorld) → ShowsPlain self.now plain → IfOk result (λ ids. ids ≡ list_ids_at plain r object.now) }
    {
        self.nodes[r as usize].list_ids(alloc, object)
    }

    /// How many elements of a list replica `r` keeps that it doesn't show: their deletion, or that of one below them, isn't
    /// stable yet. It takes no memory.
    pub fn tombs(&self, r: u8, object: &ObjectId) -> usize
        requires of { r < length self.now.nodes.items }
        requires kind { object.now.kind ≡ kinds.List }
        ensures { (plain : PlainWorld) → ShowsPlain self.now plain → result ≡ tombs_at plain r object.now }
    {
        self.nodes[r as usize].tombs(object)
    }

    /// The ids of the log of replica `r`, oldest first.
    pub fn kept(&self, alloc: Global, r: u8) -> Result<IdList, NoMemory>
        requires { r < length self.now.nodes.items }
        ensures { (plain : PlainWorld) → ShowsPlain self.now plain → IfOk result (λ ids. ids ≡ log_at plain r) }
    {
        self.nodes[r as usize].replica().log.ids(alloc)
    }

    /// How many entries the log of replica `r` has, and how many settled items there are.
    pub fn size(&self, r: u8) -> (usize, usize)
        requires { r < length self.now.nodes.items }
        ensures { (plain : PlainWorld) → ShowsPlain self.now plain → result ≡ (entries_at plain r, items_at plain r) }
    {
        let replica = self.nodes[r as usize].replica();
        (replica.log.len(), replica.items.filled_len())
    }

    /// How many messages of each member are stable at replica `r`.
    pub fn stable(&self, r: u8) -> Tag
        requires { r < length self.now.nodes.items }
        ensures { (plain : PlainWorld) → ShowsPlain self.now plain → result ≡ stable_at plain r }
    {
        self.nodes[r as usize].replica().matrix.stable()
    }

    /// How many messages of each member replica `r` has delivered.
    pub fn seen(&self, r: u8) -> Tag
        requires { r < length self.now.nodes.items }
        ensures { (plain : PlainWorld) → ShowsPlain self.now plain → result ≡ seen_at plain r }
    {
        self.nodes[r as usize].replica().counts
    }

    /// How many of its own no-ops replica `r` wasn't told to be everywhere.
    pub fn noops(&self, r: u8) -> u32
        requires { r < length self.now.nodes.items }
        ensures own { (plain : PlainWorld) → ShowsPlain self.now plain → result ≡ noops_at plain r }
        ensures few { (plain : PlainWorld) → ShowsPlain self.now plain → IsHonest plain → result ≤ honest_noops (size_of plain) plain.w }
    {
        let replica = self.nodes[r as usize].replica();
        replica.window.own_unstable(replica.me, true)
    }

    /// The least member of which replica `r` doesn't know that it has the oldest of `r`'s own messages that aren't stable.
    pub fn lags(&self, r: u8) -> Option<u8>
        requires { r < length self.now.nodes.items }
        ensures least { (plain : PlainWorld) → ShowsPlain self.now plain → result ≡ lags_at plain r }
        ensures none { (plain : PlainWorld) → ShowsPlain self.now plain → (result ≡ None) ↔ (outbox_in (replica_of plain r) ≡ []) }
    {
        lagging_at(&self.nodes[r as usize])
    }
}

/// The nodes of `n` members that have noted nothing.
fn open_nodes(alloc: Global, n: u8, w: u8, limit: u32) -> Result<NodeList, NoMemory>
    requires { IsTrue (are_numbers 0 n w limit) }
    ensures { IfOk result (λ nodes. AreNodesOf (start n) w limit n nodes.items) }
{
    let mut nodes = Vec::with_capacity(alloc, n as usize)?;
    for me in 0..n {
        // The numbers are right, so only memory can be wanting.
        let Ok(node) = Node::create(alloc, me, n, w, limit, Journal::new(alloc)) else {
            return Err(NoMemory);
        };
        nodes.push(node)?;
    }
    Ok(nodes)
}

/// An empty row for each of `n` members.
pub fn empty_rows(alloc: Global, n: u8) -> Result<FrameTable, NoMemory>
    ensures { IfOk result (λ rows. map (λ row. row.items) rows.items ≡ are_empty n) }
{
    let mut rows = Vec::with_capacity(alloc, n as usize)?;
    for _ in 0..n {
        rows.push(FrameRow::new(alloc))?;
    }
    Ok(rows)
}
