//! A world of nodes that worked apart.

ghost use Rattle.std.specs.Prelude.{◌≡◌, ◌≤◌, ℕ, [], ◌∷◌, ◌++◌, length, map, All, IsTrue, IfOk, OnOk};
ghost use Rattle.op_base.specs.Message.{fits};
ghost use Rattle.frame_codec.specs.Grammar.{frame_of};
ghost use Rattle.world_model.specs.Journals.{sent_in, world_of_journals};
ghost use Rattle.world.specs.Apart.{AreApart, frames_by};
ghost use Rattle.world.specs.Growing.{journals_of};

use crate::frames::FrameRow;
use crate::world::{FrameTable, NodeList, World};
use causal_model::Note;
use frame_codec::{Version, encode};
use op_base::NoMemory;
use replica_node::{Journal, Node};
use std::alloc::Global;

impl World {
    ghost use Rattle.world.specs.Answers.{ShowsPlain};

    /// The world of nodes that worked apart, as their journals tell it. It makes a frame of each message that they sent. Where
    /// there is no memory for that the nodes are dropped.
    pub fn of_nodes(alloc: Global, nodes: NodeList) -> Result<World, NoMemory>
        requires apart { ∥ ((w : ℕ) × (limit : ℕ) × AreApart w limit nodes.items) ∥₁ }
        ensures shows { (w limit : ℕ) → AreApart w limit nodes.items → IfOk result (λ world. ShowsPlain world (world_of_journals (length nodes.items) w limit (journals_of nodes.items))) }
        ensures nodes { IfOk result (λ world. world.nodes ≡ nodes) }
    {
        let sent = frames_of(alloc, &nodes)?;
        Ok(World { nodes, sent })
    }
}

/// The frames of all that each of nodes sent.
fn frames_of(alloc: Global, nodes: &[Node<Journal>]) -> Result<FrameTable, NoMemory>
    requires fit { All (λ node. All (λ m. IsTrue (fits node.inner.n m)) (sent_in node.journal.notes)) nodes.now }
    ensures { IfOk result (λ rows. map (λ row. row.items) rows.items ≡ map frames_by nodes.now) }
{
    let mut rows = Vec::with_capacity(alloc, nodes.len())?;
    for node in nodes {
        rows.push(frames_of_one(alloc, node)?)?;
    }
    Ok(rows)
}

/// The frames of all that a node sent.
fn frames_of_one(alloc: Global, node: &Node<Journal>) -> Result<FrameRow, NoMemory>
    requires fit { All (λ m. IsTrue (fits node.now.inner.n m)) (sent_in node.now.journal.notes) }
    ensures { IfOk result (λ row. row.items ≡ frames_by node.now) }
{
    let mut row = FrameRow::new(alloc);
    for note in node.journal.notes() {
        put_frame(alloc, &mut row, note, node.inner.n, node.inner.epoch)?;
    }
    Ok(row)
}

/// Puts the frame of what a note sent behind the others, where it sent something.
fn put_frame(
    alloc: Global,
    row: &mut FrameRow,
    note: &Note,
    n: u8,
    epoch: u32,
) -> Result<(), NoMemory>
    requires epoch { epoch ≤ 65535 }
    requires fit { All (λ m. IsTrue (fits n m)) (sent_in (note.now ∷ [])) }
    ensures { OnOk result (row.new.items ≡ row.old.items ++ map (frame_of Version.Two n epoch) (sent_in (note.now ∷ []))) }
{
    if let Note::Sent(message) = note {
        row.push(&encode(alloc, message, n, epoch)?)?;
    }
    Ok(())
}
