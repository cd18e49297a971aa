//! What is asked of a list: its values or their ids, as far as they are shown, and how many elements are kept beside them.

ghost use Rattle.std.specs.Prelude.{◌≡◌, ℕ, not, ◌&&◌, map, filter, length, All, IfOk, IsTrue};
ghost use Rattle.std.specs.List.{list_any};
ghost use Rattle.op_base.specs.declared.name.Kind.TheVariants as kinds;
ghost use Rattle.causal_model.specs.Elements.{list_values, list_ids};
ghost use Rattle.causal_model.specs.History.{History, is_history, epoch_of, events};
ghost use Rattle.causal_model.specs.KeptElements.{tombs_of};
ghost use Rattle.causal_model.specs.ListSteps.{is_shown};
ghost use Rattle.causal_model.specs.Log.{log_of, message_of};
ghost use Rattle.causal_model.specs.Parts.{is_on};
ghost use Rattle.list_type.specs.Heads.{takes_by};
ghost use Rattle.list_type.specs.Listed.{AreListsOf};
ghost use Rattle.list_type.specs.Removals.{AreTold};

use crate::lists::{Content, Lists};
use crate::removals::Removals;
use crate::tree::Node;
use op_base::{ElementIdList, Entry, NoMemory, ObjectId, ValueList};
use std::alloc::Global;

/// Whether a node is shown: it isn't gone, and no entry of its list in the log takes it out.
#[inline(always)]
fn is_shown(node: &Node<Content>, removals: &Removals, epoch: u32, entries: &[Entry]) -> bool
    requires { AreTold removals.now epoch entries.now }
    ensures { result ≡ (not node.now.gone && not (list_any (λ e. takes_by epoch e node.now.value.id) entries.now)) }
{
    !node.gone && !removals.take(epoch, entries, &node.value.id)
}

impl Lists {
    ghost use Rattle.list_type.specs.Shown.{shown};

    /// The values of a list, in its order. `entries` are those of the object in the log. `NoMemory` leaves nothing behind.
    pub fn values(
        &self,
        alloc: Global,
        epoch: u32,
        entries: &[Entry],
        object: &ObjectId,
    ) -> Result<ValueList, NoMemory>
        requires own { All (λ e. IsTrue (is_on object.now (message_of e))) entries.now }
        ensures values { IfOk result (λ values. values ≡ map (λ e. e.value) (filter (is_shown object.now epoch (map message_of entries.now)) ((shown self.now).kept object.now))) }
        ensures of { IfOk result (λ values. (w : ℕ) (h : History) → IsTrue (is_history w h) → object.now.kind ≡ kinds.List → epoch ≡ epoch_of h
            → map message_of entries.now ≡ filter (is_on object.now) (log_of h) → AreListsOf h (shown self.now) → values ≡ list_values object.now (events h)) }
    {
        let mut values = ValueList::new(alloc);
        let Some(row) = self.row_of(object) else {
            return Ok(values);
        };
        let mut removals = Removals::none();
        removals.read(epoch, entries);
        let mut at = None;
        for _ in 0..self.chains.len(row) {
            let Some(slot) = self.chains.behind(row, at) else {
                break;
            };
            let node = self.chains.get(slot);
            if is_shown(node, &removals, epoch, entries) {
                values.push(node.value.value.copy(alloc)?)?;
            }
            at = Some(slot);
        }
        Ok(values)
    }

    /// The ids of its elements, in its order. `NoMemory` leaves nothing behind.
    pub fn ids(
        &self,
        alloc: Global,
        epoch: u32,
        entries: &[Entry],
        object: &ObjectId,
    ) -> Result<ElementIdList, NoMemory>
        requires own { All (λ e. IsTrue (is_on object.now (message_of e))) entries.now }
        ensures ids { IfOk result (λ ids. ids ≡ map (λ e. e.id) (filter (is_shown object.now epoch (map message_of entries.now)) ((shown self.now).kept object.now))) }
        ensures of { IfOk result (λ ids. (w : ℕ) (h : History) → IsTrue (is_history w h) → object.now.kind ≡ kinds.List → epoch ≡ epoch_of h
            → map message_of entries.now ≡ filter (is_on object.now) (log_of h) → AreListsOf h (shown self.now) → ids ≡ list_ids object.now (events h)) }
    {
        let mut ids = ElementIdList::new(alloc);
        let Some(row) = self.row_of(object) else {
            return Ok(ids);
        };
        let mut removals = Removals::none();
        removals.read(epoch, entries);
        let mut at = None;
        for _ in 0..self.chains.len(row) {
            let Some(slot) = self.chains.behind(row, at) else {
                break;
            };
            let node = self.chains.get(slot);
            if is_shown(node, &removals, epoch, entries) {
                ids.push(node.value.id)?;
            }
            at = Some(slot);
        }
        Ok(ids)
    }

    /// How many of its kept elements aren't shown. It takes no memory.
    pub fn tombs(&self, epoch: u32, entries: &[Entry], object: &ObjectId) -> usize
        requires own { All (λ e. IsTrue (is_on object.now (message_of e))) entries.now }
        ensures count { result ≡ length (filter (λ e. not (is_shown object.now epoch (map message_of entries.now) e)) ((shown self.now).kept object.now)) }
        ensures of { (w : ℕ) (h : History) → IsTrue (is_history w h) → object.now.kind ≡ kinds.List → epoch ≡ epoch_of h
            → map message_of entries.now ≡ filter (is_on object.now) (log_of h) → AreListsOf h (shown self.now) → result ≡ tombs_of h object.now }
    {
        let Some(row) = self.row_of(object) else {
            return 0;
        };
        let mut removals = Removals::none();
        removals.read(epoch, entries);
        let mut count = 0;
        let mut at = None;
        for _ in 0..self.chains.len(row) {
            let Some(slot) = self.chains.behind(row, at) else {
                break;
            };
            let node = self.chains.get(slot);
            if !is_shown(node, &removals, epoch, entries) {
                count += 1;
            }
            at = Some(slot);
        }
        count
    }
}
