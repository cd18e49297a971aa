//! Elements are taken out of a list.

ghost use Rattle.std.specs.Prelude.{◌≡◌, ℕ, suc, ◌≤◌, ◌<◌, ◌&&◌, List, ◌∷◌, ◌++◌, Option, Some, None, if◌then◌else◌, slice_get, slice_set, length, IsTrue};
ghost use Rattle.std.specs.HashMap.{get, spare};
ghost use Rattle.op_base.specs.declared.message.Message.{Message};
ghost use Rattle.op_base.specs.declared.name.Kind.TheVariants as kinds;
ghost use Rattle.op_base.specs.declared.tag.ElementId.{ElementId as AnElement};
ghost use Rattle.causal_model.specs.Elements.{same_element, takes_out};
ghost use Rattle.causal_model.specs.History.{History, with_message, is_history, epoch_of};
ghost use Rattle.causal_model.specs.ListSteps.{had_seen, pruned, kept_without};
ghost use Rattle.causal_model.specs.Log.{stripped_of, message_of};
ghost use Rattle.list_type.specs.Chained.{row_at, last_slot, IsHeld, OfSlot};
ghost use Rattle.list_type.specs.Depths.{put_before};
ghost use Rattle.list_type.specs.Heads.{head_of};
ghost use Rattle.list_type.specs.Listed.{AreListsMoved, AreWithin};
ghost use Rattle.list_type.specs.Nodes.{node_depth, node_gone, node_leaves, nodes_kept, IsTrimmed};
ghost use Rattle.list_type.specs.Taking.{kept_without_those, node_gone_where, nodes_gone_where, OneChanged, IsTrimmedFrom};
ghost use Rattle.list_type.specs.declared.lists.Content.{Content as AContent};
ghost use Rattle.list_type.specs.declared.tree.Node.{Node as ANode};

use crate::head::Head;
use crate::lists::{Content, Lists};
use crate::tree::{Node, leaves, mark_gone, trim};
use op_base::{Act, ElementId, Entry, ObjectId};
use std::collections::HashMap;

impl Lists {
    ghost use Rattle.list_type.specs.Shown.{shown};

    /// Takes out what an entry that goes from the log takes out: an element that it deletes, or all that a clear had seen. Such
    /// an element leaves once none stands below it that wasn't taken out. It takes no memory.
    pub fn settle(&mut self, epoch: u32, entry: &Entry)
        requires kind { entry.now.update.object.kind ≡ kinds.List }
        requires pruned { pruned ((shown self.old).kept entry.now.update.object) ≡ (shown self.old).kept entry.now.update.object }
        ensures kept { OneChanged entry.now.update.object (kept_without entry.now.update.object epoch (message_of entry.now) ((shown self.old).kept entry.now.update.object)) (shown self.old) (shown self.new) }
        // where it is the next of the entries that go from a history's log, the lists have gone one entry further
        ensures of { (w : ℕ) (h : History) (m : Message) (k : ℕ) → IsTrue (is_history w (with_message h m)) → epoch ≡ epoch_of h
            → slice_get (stripped_of h m) k ≡ Some (message_of entry.now)
            → AreListsMoved h m k (shown self.old) → AreListsMoved h m (suc k) (shown self.new) }
        ensures deep { (most : ℕ) → AreWithin most (shown self.old) → AreWithin most (shown self.new) }
        ensures spare { (shown self.old).spare ≤ (shown self.new).spare }
    {
        let head = Head::of(epoch, entry);
        self.take(&head, entry.update.object(), entry.update.act());
    }

    /// Takes out what an act of a message takes out.
    #[tactic(auto, using(crate::proofs::Settling::nothing_taken))]
    fn take(&mut self, head: &Head, object: &ObjectId, act: &Act)
        requires pruned { pruned ((shown self.old).kept object.now) ≡ (shown self.old).kept object.now }
        ensures kept { OneChanged object.now
            (kept_without_those (λ e. takes_out e act.now && had_seen head.now.epoch (head_of head.now) e) ((shown self.old).kept object.now)) (shown self.old) (shown self.new) }
        ensures spare { (shown self.old).spare ≤ (shown self.new).spare }
    {
        match act {
            Act::Del(id) => self.take_one(head, object, *id),
            Act::Clear => self.take_all(head, object),
            Act::Add(_) | Act::Rmv(_) | Act::Write(_) | Act::Enable | Act::Disable => {}
            Act::Inc(_) | Act::Dec(_) | Act::Ins(_, _) => {}
        }
    }

    /// Takes out the element of an id, if the sender of a message had seen it.
    fn take_one(&mut self, head: &Head, object: &ObjectId, id: ElementId)
        requires pruned { pruned ((shown self.old).kept object.now) ≡ (shown self.old).kept object.now }
        ensures kept { OneChanged object.now
            (kept_without_those (λ e. same_element id e && had_seen head.now.epoch (head_of head.now) e) ((shown self.old).kept object.now)) (shown self.old) (shown self.new) }
        ensures spare { (shown self.old).spare ≤ (shown self.new).spare }
    {
        if !head.had_seen(id) {
            return;
        }
        if let Some(slot) = self.slot_of(object, id) {
            mark_gone(&mut self.chains, slot);
            self.trim_from(slot);
        }
    }

    /// Takes out all elements that the sender of a message had seen.
    fn take_all(&mut self, head: &Head, object: &ObjectId)
        ensures kept { OneChanged object.now
            (kept_without_those (had_seen head.now.epoch (head_of head.now)) ((shown self.old).kept object.now)) (shown self.old) (shown self.new) }
        ensures spare { (shown self.old).spare ≤ (shown self.new).spare }
    {
        if let Some(row) = self.row_of(object) {
            let last = self.mark_seen(row, head);
            self.prune(row, last);
        }
    }
}

impl Lists {
    ghost use Rattle.list_type.specs.Shown.{shown};

    /// Takes out the node in a slot, which is gone, if none stands below it, and then those above it that stayed for its sake.
    fn trim_from(&mut self, slot: usize)
        requires { IsTrimmedFrom self.old.chains.rows slot }
        ensures rows { self.new.rows ≡ self.old.rows }
        ensures trimmed { (row : ℕ) (aim : List (ℕ × ANode AContent)) → IsTrimmed self.old.chains.rows row (Some slot) aim → self.new.chains.rows ≡ slice_set self.old.chains.rows row aim }
        ensures spare { (shown self.old).spare ≤ (shown self.new).spare }
    {
        let mut at = Some(slot);
        while let Some((node, ahead)) = trim(&mut self.chains, at) {
            forget(&mut self.slots, node);
            at = ahead;
        }
    }

    /// Marks the nodes of a row that the sender of a message had seen as gone. The last slot of the row is the result.
    fn mark_seen(&mut self, row: usize, head: &Head) -> Option<usize>
        requires { row < length self.old.chains.rows }
        ensures last { result ≡ last_slot (row_at self.old.chains.rows row) }
        ensures rows { self.new.rows ≡ self.old.rows }
        ensures marked { self.new.chains.rows ≡ slice_set self.old.chains.rows row (nodes_gone_where (had_seen head.now.epoch (head_of head.now)) (row_at self.old.chains.rows row)) }
        ensures spare { (shown self.old).spare ≤ (shown self.new).spare }
    {
        let mut at = None;
        for _ in 0..self.chains.len(row) {
            let Some(slot) = self.chains.behind(row, at) else {
                break;
            };
            self.mark_if_seen(slot, head);
            at = Some(slot);
        }
        at
    }

    /// Marks the node in a slot as gone, if the sender of a message had seen it.
    fn mark_if_seen(&mut self, slot: usize, head: &Head)
        requires { IsHeld self.old.chains.rows slot }
        ensures rows { self.new.rows ≡ self.old.rows }
        ensures marked { OfSlot self.old.chains.rows slot (λ row before node after. self.new.chains.rows ≡ slice_set self.old.chains.rows row
            (before ++ node_gone_where (had_seen head.now.epoch (head_of head.now)) (slot, node) ∷ after)) }
        ensures spare { (shown self.old).spare ≤ (shown self.new).spare }
    {
        if head.had_seen(self.chains.get(slot).value.id) {
            mark_gone(&mut self.chains, slot);
        }
    }

    /// Takes out the nodes of a row that leave, from its last slot on to the front.
    fn prune(&mut self, row: usize, last: Option<usize>)
        requires row { row < length self.old.chains.rows }
        requires last { last ≡ last_slot (row_at self.old.chains.rows row) }
        ensures rows { self.new.rows ≡ self.old.rows }
        ensures kept { self.new.chains.rows ≡ slice_set self.old.chains.rows row (nodes_kept (row_at self.old.chains.rows row)) }
        ensures spare { (shown self.old).spare ≤ (shown self.new).spare }
    {
        let mut at = last;
        for _ in 0..self.chains.len(row) {
            let Some(slot) = at else {
                break;
            };
            at = self.chains.previous(slot);
            self.take_if_leaves(slot);
        }
    }

    /// Takes out the node in a slot, if it leaves.
    fn take_if_leaves(&mut self, slot: usize)
        requires { IsHeld self.old.chains.rows slot }
        ensures rows { self.new.rows ≡ self.old.rows }
        ensures kept { OfSlot self.old.chains.rows slot (λ row before node after. self.new.chains.rows ≡ slice_set self.old.chains.rows row
            (before ++ put_before node_depth node_gone (node_leaves (slot, node) after) (slot, node) after)) }
        ensures spare { (shown self.old).spare ≤ (shown self.new).spare }
    {
        if leaves(&self.chains, slot) {
            let node = self.chains.take_out(slot);
            forget(&mut self.slots, node);
        }
    }
}

/// Forgets the slot of a node that was taken out.
fn forget(slots: &mut HashMap<ElementId, usize>, node: Node<Content>)
    ensures forgotten { (id : AnElement) → get same_element slots.new id ≡ (if same_element node.value.id id then None else get same_element slots.old id) }
    ensures spare { spare slots.old ≤ spare slots.new }
{
    slots.remove(&node.value.id);
}
