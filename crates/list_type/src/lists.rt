//! Lists: their elements, of each list in its order.
//!
//! That one sequence keeps the order, in which an element is put behind the one that it names, past those of higher rank, is the
//! idea of the replicated growable array (Roh, Jeon, Kim and Lee, 2011); which elements stay is this project's own profile.

ghost use Rattle.std.specs.Prelude.{◌≡◌, ℕ, ◌≤◌, [], IfNone, IfSome, IfOk, OnOk, IsOk, All, false};
ghost use Rattle.std.specs.HashMap.{get};
ghost use Rattle.op_base.specs.Object.{same_object};
ghost use Rattle.op_base.specs.declared.name.ObjectId.{ObjectId as AnObject};
ghost use Rattle.causal_model.specs.Elements.{same_element};
ghost use Rattle.causal_model.specs.History.{no_history};
ghost use Rattle.list_type.specs.ListFields.{AreListed, StandsIn};
ghost use Rattle.list_type.specs.Listed.{AreListsOf};

use crate::Chains;
use crate::tree::Node;
use op_base::{ElementId, NoMemory, ObjectId, Value};
use std::alloc::{AllocError, Global};
use std::collections::HashMap;

/// What an element is, wherever it stands.
#[derive(Drop)]
pub(crate) struct Content {
    /// Its id.
    pub(crate) id: ElementId,
    /// The sum of the timestamp of the message that put it in.
    pub(crate) sum: u64,
    /// Its value.
    pub(crate) value: Value,
}

impl Clone for Content {
    ghost is_clone = { λ content copy. copy ≡ content };

    fn clone(&self) -> Result<Content, AllocError> {
        Ok(Content {
            id: self.id,
            sum: self.sum,
            value: self.value.clone()?,
        })
    }
}

/// The elements of all lists that are kept: those that weren't taken out, or whose deletion isn't stable yet, and those with
/// such an element below them. Contracts see those of each list, in its order. `reserve` and `copy`, and what hands a list out,
/// alone take memory. A list that had an element keeps its name until an epoch ends.
#[derive(Drop)]
pub struct Lists {
    /// The row of each list.
    pub(crate) rows: HashMap<ObjectId, usize>,
    /// The slot of each element.
    pub(crate) slots: HashMap<ElementId, usize>,
    /// The elements, as trees.
    pub(crate) chains: Chains<Node<Content>>,
    pub(crate) ghost listed: { AreListed rows slots chains },
}

impl Lists {
    ghost use Rattle.list_type.specs.Shown.{shown};

    /// No lists, and no room. It takes no memory.
    pub fn new(alloc: Global) -> Lists
        ensures kept { (object : AnObject) → (shown result).kept object ≡ [] }
        ensures of { (n me : ℕ) → AreListsOf (no_history n me) (shown result) }
    {
        Lists {
            rows: HashMap::new(alloc),
            slots: HashMap::new(alloc),
            chains: Chains::new(alloc),
        }
    }

    /// Takes room for `k` elements more. `NoMemory` leaves the lists, and no less room.
    pub fn reserve(&mut self, k: usize) -> Result<(), NoMemory>
        ensures room { OnOk result (k ≤ (shown self.new).spare) }
        ensures had_room { k ≤ (shown self.old).spare → IsOk result }
        ensures kept { (shown self.new).kept ≡ (shown self.old).kept }
        ensures spare { (shown self.old).spare ≤ (shown self.new).spare }
    {
        self.rows.reserve(k)?;
        self.slots.reserve(k)?;
        self.chains.reserve(k)
    }

    /// Equal lists. `NoMemory` leaves nothing behind.
    pub fn copy(&self, alloc: Global) -> Result<Lists, NoMemory>
        ensures { IfOk result (λ copy. (shown copy).kept ≡ (shown self.now).kept) }
    {
        Ok(Lists {
            rows: self.rows.clone()?,
            slots: self.slots.clone()?,
            chains: self.chains.copy(alloc)?,
        })
    }

    /// The row of a list, if it has one.
    pub(crate) fn row_of(&self, object: &ObjectId) -> Option<usize>
        ensures { result ≡ get same_object self.now.rows object.now }
    {
        self.rows.get(object).copied()
    }

    /// The slot of an element of a list, if the list has the element.
    pub(crate) fn slot_of(&self, object: &ObjectId, id: ElementId) -> Option<usize>
        ensures none { IfNone result (All (λ e. same_element e.id id ≡ false) ((shown self.now).kept object.now)) }
        ensures some { IfSome result (λ slot. StandsIn self.now.rows self.now.chains object.now slot id) }
    {
        let row = self.row_of(object)?;
        let slot = *self.slots.get(&id)?;
        if self.chains.row(slot) == row {
            Some(slot)
        } else {
            None
        }
    }
}
