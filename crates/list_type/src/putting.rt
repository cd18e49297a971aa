//! An element is put into a list.

ghost use Rattle.std.specs.Prelude.{◌≡◌, ℕ, ◌+◌, ◌≤◌, ◌<◌, ◌^◌, true, false, not, ◌&&◌, List, ◌++◌, map, filter, All, Some, None, IfNone, IfSome, IsTrue};
ghost use Rattle.std.specs.HashMap.{get, spare, Updates, IsUnique};
ghost use Rattle.std.specs.Ordering.{is_lt};
ghost use Rattle.std.specs.List.{list_any};
ghost use Rattle.op_base.specs.Object.{same_object};
ghost use Rattle.op_base.specs.Order.{text_cmp};
ghost use Rattle.op_base.specs.declared.name.Kind.TheVariants as kinds;
ghost use Rattle.op_base.specs.declared.name.ObjectId.{ObjectId as AnObject};
ghost use Rattle.causal_model.specs.Elements.{same_element};
ghost use Rattle.causal_model.specs.History.{History, with_message, is_history, epoch_of};
ghost use Rattle.causal_model.specs.ListSteps.{had_seen, is_open, kept_with};
ghost use Rattle.causal_model.specs.Log.{log_of, message_of};
ghost use Rattle.causal_model.specs.Order.{happened_before};
ghost use Rattle.causal_model.specs.Parts.{is_on};
ghost use Rattle.list_type.specs.Chained.{passed, from_unpassed, IsParted, IsPlace, OfPlace};
ghost use Rattle.list_type.specs.Heads.{head_of, takes_by};
ghost use Rattle.list_type.specs.ListFields.{rank_in, element_in, StandsIn};
ghost use Rattle.list_type.specs.Listed.{AreListsOf, AreListsMoved, AreWithin};
ghost use Rattle.list_type.specs.Putting.{ranks_above, IsFresh, IsAt, IsAhead, IsPutBehind};

use crate::Chains;
use crate::head::{Head, sum_of, was_taken};
use crate::lists::{Content, Lists};
use crate::tree::Node;
use crate::walk::past;
use op_base::{Act, ElementId, Entry, ObjectId, Update};
use std::collections::HashMap;
use std::hash::Hash;

/// Whether an element ranks below another.
fn is_lower(content: &Content, other: &Content) -> bool
    ensures { result ≡ is_lt (text_cmp (rank_in content.now) (rank_in other.now)) }
{
    let (id, above) = (content.id, other.id);
    (id.epoch, content.sum, id.origin) < (above.epoch, other.sum, above.origin)
}

/// The place in a row behind those that stand behind a slot, or from its front on at `None`, and rank above an element.
fn past_higher(
    chains: &Chains<Node<Content>>,
    row: usize,
    ahead: Option<usize>,
    content: &Content,
) -> Option<usize>
    requires { IsPlace chains.now.rows row ahead }
    ensures place { IsPlace chains.now.rows row result }
    ensures past { OfPlace chains.now.rows row ahead (λ before after.
        IsParted chains.now.rows row (before ++ passed (ranks_above content.now) after) result (from_unpassed (ranks_above content.now) after)) }
{
    past(chains, row, ahead, |other| is_lower(content, &other.value))
}

/// Whether something can be put behind a node of an object of these entries: it isn't gone, it had been seen, and it wasn't
/// taken out then.
fn is_open(head: &Head, node: &Node<Content>, entries: &[Entry]) -> bool
    ensures { result ≡ (not node.now.gone && had_seen head.now.epoch (head_of head.now) node.now.value.id
        && not (list_any (λ e. takes_by head.now.epoch e node.now.value.id && happened_before (message_of e) (head_of head.now)) entries.now)) }
{
    let id = node.value.id;
    !node.gone && head.had_seen(id) && !was_taken(head, entries, id)
}

impl Lists {
    ghost use Rattle.list_type.specs.Shown.{shown};

    /// Puts the element of an insertion into its list: at the head, or behind the element that it names, past those of higher
    /// rank. Nothing is put in where that isn't kept, was taken out, or hadn't been seen, and where the entry is no insertion.
    /// `entries` are those of the object in the log. It takes no memory.
    pub fn insert(&mut self, epoch: u32, entry: Entry, entries: &[Entry])
        requires spare { 1 ≤ (shown self.old).spare }
        requires fresh { IsFresh epoch entry (shown self.old) }
        requires deep { AreWithin (2 ^ 63) (shown self.old) }
        requires own { All (λ e. IsTrue (is_on entry.update.object (message_of e))) entries.now }
        ensures kept { (object : AnObject) → object.kind ≡ kinds.List → (shown self.new).kept object ≡ kept_with object epoch (map message_of entries.now) (message_of entry) ((shown self.old).kept object) }
        // where it is the next of a history, the lists are that history's with its element
        ensures of { (w : ℕ) (h : History) → IsTrue (is_history w (with_message h (message_of entry))) → epoch ≡ epoch_of h
            → map message_of entries.now ≡ filter (is_on entry.update.object) (log_of h)
            → AreListsOf h (shown self.old) → AreListsMoved h (message_of entry) 0 (shown self.new) }
        ensures deep { (most : ℕ) → AreWithin most (shown self.old) → AreWithin (most + 1) (shown self.new) }
        ensures spare { (shown self.old).spare ≤ (shown self.new).spare + 1 }
    {
        let head = Head::of(epoch, &entry);
        let Update { object, act } = entry.update;
        let Act::Ins(value, place) = act else {
            return;
        };
        let Some((ahead, depth)) = self.place(&head, &object, place, entries) else {
            return;
        };
        let content = Content {
            id: head.element(),
            sum: sum_of(&head.tag),
            value,
        };
        let node = Node {
            value: content,
            depth,
            gone: false,
        };
        self.put(object, ahead, node);
    }

    /// What stands ahead of a place of a list, and how deep an element there stands. `None` where nothing can be put there.
    fn place(
        &self,
        head: &Head,
        object: &ObjectId,
        place: Option<ElementId>,
        entries: &[Entry],
    ) -> Option<(Option<usize>, usize)>
        requires deep { AreWithin (2 ^ 63) (shown self.now) }
        requires kind { object.now.kind ≡ kinds.List }
        requires own { All (λ e. IsTrue (is_on object.now (message_of e))) entries.now }
        ensures closed { IfNone result (is_open object.now head.now.epoch (map message_of entries.now) (head_of head.now) ((shown self.now).kept object.now) place ≡ false) }
        ensures open { IfSome result (λ at. is_open object.now head.now.epoch (map message_of entries.now) (head_of head.now) ((shown self.now).kept object.now) place ≡ true) }
        ensures at { IfSome result (λ at. IsAt self.now.rows self.now.chains object.now place at.0 at.1) }
    {
        let Some(id) = place else {
            return Some((None, 1));
        };
        let slot = self.open_slot(head, object, id, entries)?;
        Some((Some(slot), self.chains.get(slot).depth + 1))
    }

    /// The slot of an element behind which something can be put: it is kept, it wasn't taken out, and it had been seen.
    fn open_slot(
        &self,
        head: &Head,
        object: &ObjectId,
        id: ElementId,
        entries: &[Entry],
    ) -> Option<usize>
        requires own { All (λ e. IsTrue (is_on object.now (message_of e))) entries.now }
        ensures closed { IfNone result (is_open object.now head.now.epoch (map message_of entries.now) (head_of head.now) ((shown self.now).kept object.now) (Some id) ≡ false) }
        ensures open { IfSome result (λ slot. is_open object.now head.now.epoch (map message_of entries.now) (head_of head.now) ((shown self.now).kept object.now) (Some id) ≡ true) }
        ensures stands { IfSome result (λ slot. StandsIn self.now.rows self.now.chains object.now slot id) }
    {
        let slot = self.slot_of(object, id)?;
        if is_open(head, self.chains.get(slot), entries) {
            Some(slot)
        } else {
            None
        }
    }

    /// Puts an element into a list: at its head, or behind a slot of it, past those of higher rank.
    fn put(&mut self, object: ObjectId, ahead: Option<usize>, node: Node<Content>)
        requires kind { object.kind ≡ kinds.List }
        requires spare { 1 ≤ (shown self.old).spare }
        requires ahead { IsAhead self.old.rows self.old.chains object ahead }
        requires fresh { get same_element self.old.slots node.value.id ≡ None }
        ensures here { IsPutBehind self.old.rows self.old.chains object ahead (element_in node) ((shown self.old).kept object) ((shown self.new).kept object) }
        ensures others { (other : AnObject) → same_object other object ≡ false → (shown self.new).kept other ≡ (shown self.old).kept other }
        ensures spare { (shown self.old).spare ≤ (shown self.new).spare + 1 }
    {
        let row = self.row_or_new(object);
        let at = past_higher(&self.chains, row, ahead, &node.value);
        let id = node.value.id;
        let slot = self.chains.put_behind(row, at, node);
        note(&mut self.slots, id, slot);
    }

    /// The row of a list, which is empty where it had none.
    fn row_or_new(&mut self, object: ObjectId) -> usize
        requires kind { object.kind ≡ kinds.List }
        requires spare { 1 ≤ (shown self.old).spare }
        ensures row { get same_object self.new.rows object ≡ Some result }
        ensures kept { (shown self.new).kept ≡ (shown self.old).kept }
        ensures had { (row : ℕ) → get same_object self.old.rows object ≡ Some row → self.new ≡ self.old }
        ensures slots { self.new.slots ≡ self.old.slots }
        ensures room { self.new.chains.spare ≡ self.old.chains.spare }
        ensures spare { (shown self.old).spare ≤ (shown self.new).spare + 1 }
    {
        if let Some(row) = self.row_of(&object) {
            return row;
        }
        let row = self.chains.add_row();
        note(&mut self.rows, object, row);
        row
    }
}

/// Notes a number under a key that has none. There is room for it.
fn note<K: Eq + Hash + Drop>(map: &mut HashMap<K, usize>, key: K, number: usize)
    requires spare { 1 ≤ spare map.old }
    ensures updates { Updates K.eq map.old map.new key (Some number) }
    ensures spare { spare map.old ≤ spare map.new + 1 }
    ensures unique { IsUnique K.eq map.new }
{
    // `spare` is a condition, so that it can't fail.
    let _old = map.insert(key, number);
}
