//! Trees that are laid out in rows, each node ahead of those below it.

ghost use Rattle.std.specs.Prelude.{◌≡◌, ℕ, ◌+◌, nat_lt, true, false, List, ◌∷◌, ◌++◌, slice_set, Option, Some, None, IfNone, IfSome, OnSome};
ghost use Rattle.list_type.specs.Chained.{row_at, IsHeld, OfSlot};
ghost use Rattle.list_type.specs.Nodes.{node_leaves, nodes_kept, gone_node, IsTrimmed};
ghost use Rattle.list_type.specs.declared.tree.Node.{Node};

use crate::Chains;

/// A value with its place in a tree.
#[derive(Clone, Drop)]
pub struct Node<T> {
    /// The value.
    pub value: T,
    /// How many nodes it stands below.
    pub depth: usize,
    /// Whether it was taken out. It stands in the tree as long as one below it wasn't.
    pub gone: bool,
}

/// Marks the node in a slot as gone.
pub fn mark_gone<T>(chains: &mut Chains<Node<T>>, slot: usize)
    requires { IsHeld chains.old.rows slot }
    ensures rows { OfSlot chains.old.rows slot (λ row before node after. chains.new.rows ≡ slice_set chains.old.rows row (before ++ (slot, gone_node node) ∷ after)) }
    ensures trimmed { OfSlot chains.old.rows slot (λ row before node after. nodes_kept (row_at chains.old.rows row) ≡ row_at chains.old.rows row
        → IsTrimmed chains.new.rows row (Some slot) (nodes_kept (row_at chains.new.rows row))) }
    ensures spare { chains.new.spare ≡ chains.old.spare }
    ensures row_spare { chains.new.row_spare ≡ chains.old.row_spare }
{
    chains.get_mut(slot).gone = true;
}

/// Takes the node out of a slot, if it leaves, and hands it out with the slot ahead of it, where the next may leave. It is
/// `None` where none leaves any more.
pub fn trim<T>(chains: &mut Chains<Node<T>>, at: Option<usize>) -> Option<(Node<T>, Option<usize>)>
    requires { (slot : ℕ) → at ≡ Some slot → IsHeld chains.old.rows slot }
    ensures unchanged { IfNone result (chains.new ≡ chains.old) }
    ensures ended { (row : ℕ) (aim : List (ℕ × Node T)) → IsTrimmed chains.old.rows row at aim → IfNone result (row_at chains.old.rows row ≡ aim) }
    ensures goes_on { (row : ℕ) (aim : List (ℕ × Node T)) → IsTrimmed chains.old.rows row at aim → IfSome result (λ out. IsTrimmed chains.new.rows row out.1 aim) }
    ensures taken { (slot : ℕ) → at ≡ Some slot → OfSlot chains.old.rows slot (λ row before node after.
        IfSome result (λ out. (out.0 ≡ node) × (chains.new.rows ≡ slice_set chains.old.rows row (before ++ after)))) }
    ensures out { IfSome result (λ out. (slot : ℕ) × (at ≡ Some slot) × (IsHeld chains.new.rows slot → ⊥)) }
    ensures spare { OnSome result (chains.new.spare ≡ chains.old.spare + 1) }
    ensures row_spare { chains.new.row_spare ≡ chains.old.row_spare }
{
    let slot = at?;
    if !leaves(chains, slot) {
        return None;
    }
    let ahead = chains.previous(slot);
    Some((chains.take_out(slot), ahead))
}

/// Whether the node in a slot leaves.
pub(crate) fn leaves<T>(chains: &Chains<Node<T>>, slot: usize) -> bool
    requires { IsHeld chains.now.rows slot }
    ensures { OfSlot chains.now.rows slot (λ row before node after. result ≡ node_leaves (slot, node) after) }
{
    let node = chains.get(slot);
    node.gone && !is_below(chains, node.depth, chains.next(slot))
}

/// Whether the node in a slot, if there is one, is deeper than another.
fn is_below<T>(chains: &Chains<Node<T>>, depth: usize, slot: Option<usize>) -> bool
    requires { (k : ℕ) → slot ≡ Some k → IsHeld chains.now.rows k }
    ensures none { slot ≡ None → result ≡ false }
    ensures some { (k : ℕ) → slot ≡ Some k → OfSlot chains.now.rows k (λ row before node after. result ≡ nat_lt depth node.depth) }
{
    match slot {
        Some(slot) => depth < chains.get(slot).depth,
        None => false,
    }
}
