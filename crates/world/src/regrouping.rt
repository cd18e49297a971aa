//! Changing the members of the world.

ghost use Rattle.std.specs.Prelude.{◌≡◌, ◌≢◌, ◌<◌, ◌≤◌, ◌+◌, ℕ, All, length, map, vec_capacity, IfOk, OnOk, OnErr, IsTrue, if◌then◌else◌};
ghost use Rattle.std.specs.List.{list_all, slice_index_or};
ghost use Rattle.op_base.specs.declared.tag.TheConstants.{MOST_MEMBERS};
ghost use Rattle.causal_model.specs.Follows.{Follows};
ghost use Rattle.causal_model.specs.History.{is_all_stable};
ghost use Rattle.honest_worlds.specs.Laws.{AreBelowLimit};
ghost use Rattle.world_model.specs.Honest.{IsHonest};
ghost use Rattle.world_model.specs.Regrouping.{last_epoch, is_at_rest, next_world, regroup_at, is_regrouped};
ghost use Rattle.world_model.specs.Settling.{world_settled};
ghost use Rattle.world_model.specs.World.{PlainWorld, epoch_in};
ghost use Rattle.world.specs.Entrants.{IsEarly, IsSettled, IsReady, AreAsBefore, IsNextNode, IsEntrant, AreEntrants, AreNext, RegroupsJournals, CanEnter, EntersAs, count_with};
ghost use Rattle.world.specs.Growing.{journals_of};
ghost use Rattle.world.specs.Shows.{NotedNode, state_of};

use crate::world::{FrameTable, NodeList, World, empty_rows};
use op_base::NoMemory;
use replica_core::EpochRoom;
use replica_node::{Journal, Node, Recorder};
use std::alloc::Global;
use world_model::Regroup;

/// How a member begins the next epoch.
#[derive(Drop)]
pub enum Entrant {
    /// It is a member, and its node goes on in this room.
    Stays(EpochRoom),
    /// It is a new member, with this node.
    Comes(Node<Journal>),
}

impl World {
    ghost use Rattle.world.specs.Answers.{ShowsPlain};
    ghost use Rattle.world.specs.Honest.{ShowsHonest};

    /// Changes the members to the first `n`, 1 to 16, where the store is at rest: the next epoch begins. Each goes on where it
    /// was a member, with what it has settled, and begins with what member 0 has else. Of what was sent before, nothing can be
    /// given any more. Where there were as many members, their parts are emptied; else it costs new empty parts for each. For each
    /// member that is new it costs a copy of what member 0 has settled and of its journal. After `NoMemory` it shows what it showed.
    pub fn regroup(&mut self, alloc: Global, n: u8) -> Regroup
        requires some { 1 ≤ n }
        requires few { n ≤ MOST_MEMBERS }
        ensures answer { Follows ShowsPlain Regroup.NoMemory is_regrouped (regroup_at n) self.old result self.new }
        ensures honest { ShowsHonest self.old → ShowsHonest self.new }
        ensures possible { (plain : PlainWorld) → IsHonest plain → ShowsPlain self.old (world_settled plain) → AreBelowLimit (world_settled plain) → result ≢ Regroup.Unsettled }
        ensures members { length self.new.nodes.items ≡ (if is_regrouped result then n else length self.old.nodes.items) }
        ensures journals { RegroupsJournals n (journals_of self.old.nodes.items) result (journals_of self.new.nodes.items) }
    {
        let epoch = self.nodes[0].inner.epoch;
        if epoch == 65535 {
            return Regroup::Last;
        }
        if !self.is_at_rest() {
            return Regroup::Unsettled;
        }
        match self.begin_next(alloc, n) {
            Err(NoMemory) => Regroup::NoMemory,
            Ok(()) => Regroup::Regrouped(epoch + 1),
        }
    }

    /// Whether the epoch can end: all replicas have delivered as many messages of each member, and every operation is stable.
    fn is_at_rest(&self) -> bool
        ensures rests { (plain : PlainWorld) → ShowsPlain self.now plain → result ≡ is_at_rest plain }
        ensures settled { IsTrue result → All IsSettled self.now.nodes.items }
    {
        self.is_quiescent() && are_settled(&self.nodes)
    }

    /// Begins the next epoch. All memory is taken before the first change: `NoMemory` leaves the world as it was.
    fn begin_next(&mut self, alloc: Global, n: u8) -> Result<(), NoMemory>
        requires some { 1 ≤ n }
        requires few { n ≤ MOST_MEMBERS }
        requires early { (plain : PlainWorld) → ShowsPlain self.old plain → epoch_in plain ≢ last_epoch }
        requires rests { (plain : PlainWorld) → ShowsPlain self.old plain → IsTrue (is_at_rest plain) }
        requires settled { All IsSettled self.old.nodes.items }
        ensures begins { (plain : PlainWorld) → ShowsPlain self.old plain → OnOk result (ShowsPlain self.new (next_world n plain)) }
        ensures stays { (plain : PlainWorld) → ShowsPlain self.old plain → OnErr result (ShowsPlain self.new plain) }
        ensures next { OnOk result (AreNext n self.old.nodes.items self.new.nodes.items) }
        ensures same { OnErr result (AreAsBefore self.old.nodes.items self.new.nodes.items) }
    {
        let sent = empty_rows(alloc, n)?;
        let entrants = next_entrants(alloc, &self.nodes, n)?;
        change_nodes(alloc, &mut self.nodes, n, entrants)?;
        self.sent = sent;
        Ok(())
    }
}

/// Whether every operation is stable at each of nodes.
fn are_settled(nodes: &[Node<Journal>]) -> bool
    ensures all { result ≡ list_all (λ s. is_all_stable s.history.present) (map state_of nodes.now) }
    ensures each { IsTrue result → All IsSettled nodes.now }
{
    for node in nodes {
        if !node.replica().all_settled() {
            return false;
        }
    }
    true
}

/// How each of `n` members begins the next epoch, the last first.
fn next_entrants(alloc: Global, nodes: &[Node<Journal>], n: u8) -> Result<Vec<Entrant>, NoMemory>
    requires some { 1 ≤ length nodes.now }
    requires few { n ≤ MOST_MEMBERS }
    requires early { All IsEarly nodes.now }
    requires settled { All IsSettled nodes.now }
    ensures { IfOk result (λ entrants. AreEntrants n nodes.now n entrants.items) }
{
    let mut entrants = Vec::with_capacity(alloc, n as usize)?;
    for i in 0..n {
        entrants.push(next_entrant(alloc, nodes, n - 1 - i, n)?)?;
    }
    Ok(entrants)
}

/// How member `q` of `n` begins the next epoch.
fn next_entrant(alloc: Global, nodes: &[Node<Journal>], q: u8, n: u8) -> Result<Entrant, NoMemory>
    requires some { 1 ≤ length nodes.now }
    requires member { q < n }
    requires few { n ≤ MOST_MEMBERS }
    requires early { All IsEarly nodes.now }
    requires settled { All IsSettled nodes.now }
    ensures { IfOk result (IsEntrant n nodes.now q) }
{
    if (q as usize) < nodes.len() {
        Ok(Entrant::Stays(nodes[q as usize].room(alloc, q, n)?))
    } else {
        Ok(Entrant::Comes(next_node(alloc, &nodes[0], q, n)?))
    }
}

/// The node with which a new member `q` of `n` begins the next epoch: it has what a node has, and its notes.
fn next_node(alloc: Global, node: &Node<Journal>, q: u8, n: u8) -> Result<Node<Journal>, NoMemory>
    requires member { q < n }
    requires few { n ≤ MOST_MEMBERS }
    requires early { IsEarly node.now }
    requires settled { IsSettled node.now }
    ensures { IfOk result (IsNextNode n q node.now) }
{
    let replica = node.next(alloc, q, n)?;
    let mut journal = node.recorder().copy(alloc)?;
    journal.reserve(alloc, 1)?;
    Ok(node.heir(replica, journal))
}

/// Lets members enter the next epoch in place of those of nodes. All memory is taken before the first change: `NoMemory` leaves
/// what the nodes noted.
fn change_nodes(
    alloc: Global,
    nodes: &mut NodeList,
    n: u8,
    entrants: Vec<Entrant>,
) -> Result<(), NoMemory>
    requires some { 1 ≤ length nodes.old.items }
    requires are { AreEntrants n nodes.old.items n entrants.items }
    ensures next { OnOk result (AreNext n nodes.old.items nodes.new.items) }
    ensures stays { OnErr result (AreAsBefore nodes.old.items nodes.new.items) }
{
    nodes.reserve((n as usize).saturating_sub(nodes.len()))?;
    ready_all(alloc, nodes)?;
    nodes.truncate(n as usize);
    enter_all(nodes, n, entrants);
    Ok(())
}

/// Takes room at each of nodes for one note more. `NoMemory` leaves what they noted.
fn ready_all(alloc: Global, nodes: &mut NodeList) -> Result<(), NoMemory>
    ensures same { AreAsBefore nodes.old.items nodes.new.items }
    ensures ready { OnOk result (All IsReady nodes.new.items) }
    ensures capacity { vec_capacity nodes.new ≡ vec_capacity nodes.old }
{
    for q in 0..nodes.len() {
        nodes[q].ready(alloc, 1)?;
    }
    Ok(())
}

/// Lets `n` members enter the next epoch, of which the first have these nodes. It takes no memory.
fn enter_all(nodes: &mut NodeList, n: u8, mut entrants: Vec<Entrant>)
    requires room { n ≤ vec_capacity nodes.old }
    requires few { length nodes.old.items ≤ n }
    requires ready { All IsReady nodes.old.items }
    requires are { AreEntrants n nodes.old.items n entrants.items }
    ensures { AreNext n nodes.old.items nodes.new.items }
{
    for q in 0..n {
        enter(nodes, q as usize, entrants.take_last());
    }
}

/// Lets a member enter at its place: its node goes on there, or it comes with a node behind the others.
fn enter(nodes: &mut NodeList, q: usize, entrant: Entrant)
    requires place { CanEnter nodes.old.items q entrant }
    requires room { q < vec_capacity nodes.old }
    ensures count { length nodes.new.items ≡ count_with (length nodes.old.items) entrant }
    ensures here { (d : NotedNode) → EntersAs nodes.old.items q entrant (slice_index_or nodes.new.items q d) }
    ensures others { (i : ℕ) (d : NotedNode) → i ≢ q → i < length nodes.old.items → slice_index_or nodes.new.items i d ≡ slice_index_or nodes.old.items i d }
    ensures capacity { vec_capacity nodes.new ≡ vec_capacity nodes.old }
{
    match entrant {
        Entrant::Stays(room) => nodes[q].turn(room),
        Entrant::Comes(node) => nodes.push_reserved(node),
    }
}
