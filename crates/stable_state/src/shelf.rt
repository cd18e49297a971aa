//! Settled items in their one order, in slots that don't move.
//!
//! An index in order over records that stay where they are is a textbook rule.

ghost use Rattle.std.specs.Prelude.{◌≡◌, ◌≢◌, ◌⊎◌, ℕ, ◌+◌, ◌-◌, ◌^◌, ◌<◌, ◌≤◌, true, false, [], ◌∷◌, ◌++◌, List, length, take, insert, slice_get};
ghost use Rattle.std.specs.Prelude.{if◌then◌else◌, Option, Some, IsTrue, IfOk, OnOk, OnSome, IfSome, IfErr, None, IsOk, All, AllPairs, Contains, HoldsAt, option_copied};
ghost use Rattle.std.specs.Prelude.{vec_len, vec_capacity};
ghost use Rattle.std.specs.List.{between};
ghost use Rattle.op_base.specs.declared.operation.Op.TheVariants as op;
ghost use Rattle.causal_model.specs.Acts.{value_of};
ghost use Rattle.causal_model.specs.CellSteps.{cell_with};
ghost use Rattle.causal_model.specs.Items.{zero_cell, cell_in, is_at, is_filled, Rise};
ghost use Rattle.stable_state.specs.Filled.{empties, filled_of};
ghost use Rattle.stable_state.specs.Laws.{HasRange};
ghost use Rattle.stable_state.specs.Picked.{is_place};
ghost use Rattle.op_base.specs.declared.name.ObjectId.{ObjectId};
ghost use Rattle.op_base.specs.declared.outcome.Item.{Item};
ghost use Rattle.slab.specs.Slab.{get, ContainsKey, HasRoomFor, slab_len, with_value};
ghost use Rattle.stable_state.specs.Places.{is_before, is_up_to, with_cell, RisesWithOneAt, IsGapFor, IsSpan, IsParted};
ghost use Rattle.stable_state.specs.Ranks.{rank_of, IsNamed};
ghost use Rattle.stable_state.specs.Shelf.{put_at, without_span, IsSlotOf};
ghost use Rattle.stable_state.specs.Slots.{items_in, AreCopied};
ghost use Rattle.stable_state.specs.Touched.{is_touched, IsMarkTouched, StayTouched, KeepTouched, IsLast};

use crate::cell::{NO_CELL, comes_back, is_filled, value_of, with_act};
use crate::chunks::{CHUNK, Spot};
use crate::memo::Memo;
use crate::order::Order;
use crate::rank::{Rank, Ranked, Sought};
use crate::recent::Recent;
use op_base::{Cell, Item, NoMemory, ObjectId, Update, Value};
use slab::Slab;
use std::alloc::Global;
use std::marker::Model;

/// Where an item would stand that isn't there, and its rank.
#[derive(Clone, Copy, Drop)]
pub struct Gap {
    /// Where it would stand.
    pub spot: Spot,
    /// The rank of what is looked for.
    pub rank: Rank,
}

/// Settled items in their one order. Each stands in a slot that doesn't move, and a list of slots has the order. An item may have
/// neither a mark nor a sum: then it is as none, and keeps its place.
/// Contracts see the items, their slots, which of them were touched, and how many more can be put among them without memory.
/// `reserve` and `copy` alone take memory.
#[derive(Drop)]
pub struct Shelf {
    slots: Slab<Ranked>,
    // The slots of the items, lowest item first.
    order: Order,
    // The slots that were given a cell with an off mark, one entry each time, until they are taken from here. An item that
    // is let go stays in it by its slot.
    touched: Vec<usize>,
    // Where items stood of late, which is looked at first for the next.
    recent: Recent,
    // In which slots items were found of late.
    memo: Memo,
    // How many of the items have neither a mark nor a sum.
    empties: usize,
}

impl Model for Shelf {
    ghost use Rattle.stable_state.specs.Shelf.{Shelved};

    ghost Value = { Shelved };

    ghost use Rattle.stable_state.specs.Fields.{shelved, IsShelved};

    ghost view = { shelved };

    ghost invariant = { IsShelved };
}

impl Shelf {
    /// A shelf with no items and no room. It takes no memory.
    pub fn new(alloc: Global) -> Shelf
        ensures { result ≡ record { items = []; slots = []; touched = []; spare = 0 } }
    {
        Shelf {
            slots: Slab::new(alloc),
            order: Order::new(alloc),
            touched: Vec::new(alloc),
            recent: Recent::new(),
            memo: Memo::new(alloc),
            empties: 0,
        }
    }

    /// Takes room for `k` items more. `NoMemory` leaves the items and the room as they were, or more room.
    pub fn reserve(&mut self, k: usize) -> Result<(), NoMemory>
        ensures room { OnOk result (k ≤ self.new.spare) }
        ensures had_room { k ≤ self.old.spare → IsOk result }
        ensures items { self.new.items ≡ self.old.items }
        ensures touched { self.new.touched ≡ self.old.touched }
        ensures spare { self.old.spare ≤ self.new.spare }
    {
        if k <= self.spare() {
            return Ok(());
        }
        self.slots.reserve(k)?;
        self.order.reserve(k)?;
        self.touched.reserve(k)?;
        self.memo.reserve(self.slots.capacity())
    }

    /// How many items more can be put in, or touched, without memory.
    pub fn spare(&self) -> usize
        ensures { result ≡ self.now.spare }
    {
        let slots = self.slots.capacity() - self.slots.len();
        let touched = self.touched.capacity() - self.touched.len();
        slots.min(self.order.spare().min(touched))
    }

    /// A shelf with equal items, none of them touched. `NoMemory` leaves nothing behind.
    pub fn copy(&self, alloc: Global) -> Result<Shelf, NoMemory>
        ensures items { IfOk result (λ copy. copy.items ≡ self.now.items) }
        ensures untouched { IfOk result (λ copy. copy.touched ≡ []) }
    {
        // By the powers of two, as the slots grow: items that come next have room there, and what was let go serves the next copy.
        let len = self.order.len();
        let room = len.checked_next_power_of_two().ok_or(NoMemory)?;
        let mut slots = Slab::with_capacity(alloc, room)?;
        let order = copy_order(alloc, &self.slots, &self.order, &mut slots)?;
        Ok(Shelf {
            slots,
            order,
            touched: Vec::new(alloc),
            recent: Recent::new(),
            memo: Memo::new(alloc),
            empties: self.empties,
        })
    }

    /// How many items there are.
    pub fn len(&self) -> usize
        ensures length { result ≡ length self.now.items }
        ensures rise { Rise self.now.items }
    {
        self.order.len()
    }

    /// How many items have a mark or a sum.
    pub fn filled_len(&self) -> usize
        ensures { result ≡ length (filled_of self.now.items) }
    {
        self.order.len() - self.empties
    }

    /// The item at a place, counted from 0.
    pub fn at(&self, place: usize) -> &Item
        requires { place < length self.now.items }
        ensures { slice_get self.now.items place ≡ Some result.now }
    {
        self.ranked(place).item()
    }

    /// The item at a place with its rank.
    fn ranked(&self, place: usize) -> &Ranked
        requires { place < length self.now.items }
        ensures { slice_get self.now.items place ≡ Some result.now }
    {
        &self.slots[self.order.at(place)]
    }

    /// The item at a spot's place.
    pub fn at_near(&self, spot: Spot) -> &Item
        requires { spot.place < length self.now.items }
        ensures { slice_get self.now.items spot.place ≡ Some result.now }
    {
        self.ranked_near(spot).item()
    }

    /// The item at a spot's place, and the chunk of the place.
    #[inline(always)]
    pub fn at_from(&self, spot: Spot) -> (&Item, usize)
        requires { spot.place < length self.now.items }
        ensures { slice_get self.now.items spot.place ≡ Some result.0.now }
    {
        let (slot, chunk) = self.order.at_from(spot);
        (self.slots[slot].item(), chunk)
    }

    /// The item at a spot's place with its rank.
    fn ranked_near(&self, spot: Spot) -> &Ranked
        requires { spot.place < length self.now.items }
        ensures { slice_get self.now.items spot.place ≡ Some result.now }
    {
        &self.slots[self.order.at_near(spot)]
    }

    /// Where to look first for what is to go, if anywhere. Any spot would do.
    pub fn hint_to_go(&self) -> Option<Spot> {
        self.recent.to_go()
    }

    /// The same for what is to come or to change.
    pub fn hint_to_come(&self) -> Option<Spot> {
        self.recent.to_come()
    }

    /// A place, with its chunk where an item stands there.
    pub fn spot_at(&self, place: usize) -> Spot
        ensures { result.place ≡ place }
    {
        if place < self.len() {
            self.order.spot(place)
        } else {
            Spot {
                place,
                chunk: self.recent.last().chunk,
            }
        }
    }

    /// The place of the item of an object and a value, or `Err` with where it would stand. A spot is looked at first.
    #[inline(always)]
    pub fn find(
        &self,
        near: Option<Spot>,
        object: &ObjectId,
        value: Option<&Value>,
    ) -> Result<Spot, Gap>
        ensures within { IfOk result (λ spot. spot.place < length self.now.items) }
        ensures few { length self.now.items < 2 ^ 64 }
        ensures found { IfOk result
            (λ spot. HoldsAt (λ item. is_at object.now (option_copied value.entry) item ≡ true) self.now.items spot.place) }
        ensures absent { IfErr result (λ gap. IsGapFor object.now (option_copied value.entry) self.now.items gap.spot.place) }
        ensures rises { IfErr result (λ gap. RisesWithOneAt object.now (option_copied value.entry) self.now.items gap.spot.place) }
        ensures rank { IfErr result (λ gap. gap.rank ≡ rank_of object.now (option_copied value.entry)) }
        ensures named { IfErr result (λ gap. IsNamed object.now (option_copied value.entry)) }
    {
        let sought = Sought::new(object, value);
        let spot = self.spot(near, &sought);
        if spot.place < self.len() && is_of(self.ranked_near(spot), &sought) {
            Ok(spot)
        } else {
            Err(Gap {
                spot,
                rank: sought.rank(),
            })
        }
    }

    /// How many of the items are before what is looked for. A place is looked at first, if one is given.
    #[inline(always)]
    fn spot(&self, near: Option<Spot>, sought: &Sought<'_>) -> Spot
        ensures within { result.place ≤ length self.now.items }
        ensures place { IsParted (is_before sought.now.object.now (option_copied sought.now.value)) self.now.items result.place }
    {
        match near {
            Some(near) => match self.spot_near(near, sought) {
                Some(spot) => spot,
                None => self.spot_afar(sought),
            },
            None => self.spot_afar(sought),
        }
    }

    /// The same, where no place is looked at first.
    #[inline(always)]
    fn spot_afar(&self, sought: &Sought<'_>) -> Spot
        ensures within { result.place ≤ length self.now.items }
        ensures place { IsParted (is_before sought.now.object.now (option_copied sought.now.value)) self.now.items result.place }
    {
        place_of(&self.slots, &self.order, sought)
    }

    /// The same, where it is a place that is looked at first, or the next. Items often come in their order.
    #[inline(always)]
    fn spot_near(&self, near: Spot, sought: &Sought<'_>) -> Option<Spot>
        ensures within { IfSome result (λ spot. spot.place ≤ length self.now.items) }
        ensures place { IfSome result (λ spot. IsParted (is_before sought.now.object.now (option_copied sought.now.value)) self.now.items spot.place) }
    {
        if near.place > self.len() || !self.is_behind(near, sought) {
            return None;
        }
        if self.is_up_to(near, sought) {
            return Some(near);
        }
        let next = near.next();
        if self.is_up_to(next, sought) {
            Some(next)
        } else {
            None
        }
    }

    /// Whether the item at a spot's place, if there is one, isn't before what is looked for.
    #[inline(always)]
    fn is_up_to(&self, spot: Spot, sought: &Sought<'_>) -> bool
        ensures rise { Rise self.now.items }
        ensures few { length self.now.items < 2 ^ 64 }
        ensures up_to { result ≡ true → spot.place < length self.now.items
            → HoldsAt (λ item. is_before sought.now.object.now (option_copied sought.now.value) item ≡ false) self.now.items spot.place }
        ensures within { result ≡ false → spot.place < length self.now.items }
        ensures before { result ≡ false
            → HoldsAt (λ item. is_before sought.now.object.now (option_copied sought.now.value) item ≡ true) self.now.items spot.place }
    {
        spot.place >= self.len() || !is_before(self.ranked_near(spot), sought)
    }

    /// Whether the item ahead of a spot's place, if there is one, is before what is looked for.
    #[inline(always)]
    fn is_behind(&self, spot: Spot, sought: &Sought<'_>) -> bool
        requires { spot.place ≤ length self.now.items }
        ensures { result ≡ true → 0 < spot.place
            → HoldsAt (λ item. is_before sought.now.object.now (option_copied sought.now.value) item ≡ true) self.now.items (spot.place - 1) }
    {
        spot.place == 0 || is_before(self.ranked_near(spot.previous()), sought)
    }

    /// The places of an object's items: the first, and the one behind the last. A spot is looked at first, if one is given.
    pub fn span(&self, near: Option<Spot>, object: &ObjectId) -> (Spot, usize)
        ensures { IsSpan object.now self.now.items result.0.place result.1 }
    {
        let from = self.spot(near, &Sought::new(object, None));
        (from, self.end(from, object))
    }

    /// How many of the items are of an object or of one before it, where so many are of one before it. Most objects have
    /// few items, so the next two are looked at first.
    fn end(&self, from: Spot, object: &ObjectId) -> usize
        requires within { from.place ≤ length self.now.items }
        requires before { IsParted (is_before object.now None) self.now.items from.place }
        ensures rise { Rise self.now.items }
        ensures within { result ≤ length self.now.items }
        ensures place { IsParted (is_up_to object.now) self.now.items result }
    {
        if self.is_end(from, object) {
            return from.place;
        }
        let next = from.next();
        if self.is_end(next, object) {
            return next.place;
        }
        place_behind(&self.slots, &self.order, object)
    }

    /// Whether no item stands at a spot's place, or one of an object behind this.
    fn is_end(&self, spot: Spot, object: &ObjectId) -> bool
        requires { spot.place ≤ length self.now.items }
        ensures rise { Rise self.now.items }
        ensures few { length self.now.items < 2 ^ 64 }
        ensures end { result ≡ true → spot.place < length self.now.items
            → HoldsAt (λ item. is_up_to object.now item ≡ false) self.now.items spot.place }
        ensures within { result ≡ false → spot.place < length self.now.items }
        ensures inside { result ≡ false → HoldsAt (λ item. is_up_to object.now item ≡ true) self.now.items spot.place }
    {
        spot.place >= self.len() || !is_up_to(self.ranked_near(spot), object)
    }

    /// Puts an item into its gap among the others. With an off mark it is touched. It takes no memory.
    pub fn insert(&mut self, gap: Gap, item: Item)
        requires spare { 1 ≤ self.old.spare }
        requires within { gap.spot.place ≤ length self.old.items }
        requires filled { IsTrue (is_filled item.cell) }
        requires rise { Rise (put_at gap.spot.place item self.old.items) }
        requires rank { gap.rank ≡ rank_of item.object item.value }
        requires named { IsNamed item.object item.value }
        ensures items { self.new.items ≡ put_at gap.spot.place item self.old.items }
        ensures stay { StayTouched self.old self.new }
        ensures marked { item.cell.off ≡ true → is_touched self.new.touched item.object item.value ≡ true }
        ensures spare { self.old.spare ≤ self.new.spare + 1 }
    {
        let slot = self.slots.vacant_key();
        if item.cell.off {
            add(&mut self.touched, slot);
        }
        let chunk = self.order.insert(gap.spot, slot);
        self.slots.insert_reserved(Ranked::new(gap.rank, item));
        self.memo.miss();
        self.recent.come(Spot {
            place: gap.spot.place,
            chunk,
        });
    }

    /// Lets the items go that stand at places from the first up to, and not with, the second. The others keep their
    /// order.
    pub fn remove_span(&mut self, from: Spot, to: usize)
        requires ordered { from.place ≤ to }
        requires within { to ≤ length self.old.items }
        ensures items { self.new.items ≡ without_span from.place to self.old.items }
        ensures touched { KeepTouched self.old self.new }
        ensures spare { self.old.spare ≤ self.new.spare }
    {
        self.recent.go(from);
        if from.place < to {
            self.take_out(from.place, to, from.chunk);
        }
    }

    /// Takes out the items that stand at places from the first up to, and not with, the second. A chunk is looked at first.
    fn take_out(&mut self, from: usize, to: usize, near: usize)
        requires ordered { from ≤ to }
        requires within { to ≤ length self.old.items }
        ensures items { self.new.items ≡ without_span from to self.old.items }
        ensures touched { KeepTouched self.old self.new }
        ensures spare { self.old.spare ≤ self.new.spare }
    {
        self.empties -= self.empties_in(from, to, near);
        empty_slots(&mut self.slots, &self.order, from, to, near);
        self.order.remove_range(from, to, near);
    }

    /// How many of the items at places from the first up to, and not with, the second have neither a mark nor a sum. A chunk is
    /// looked at first.
    fn empties_in(&self, from: usize, to: usize, near: usize) -> usize
        requires ordered { from ≤ to }
        requires within { to ≤ length self.now.items }
        ensures { result ≡ empties (between from to self.now.items) }
    {
        if self.empties == 0 {
            return 0;
        }
        let mut count = 0;
        for place in from..to {
            if !is_filled(&self.at_near(Spot { place, chunk: near }).cell) {
                count += 1;
            }
        }
        count
    }

    /// Gives the item at a spot's place another cell. With an off mark it is touched. It takes no memory.
    pub fn set_cell(&mut self, spot: Spot, cell: Cell)
        requires within { spot.place < length self.old.items }
        requires spare { IsTrue cell.off → 1 ≤ self.old.spare }
        ensures items { self.new.items ≡ with_cell spot.place cell self.old.items }
        ensures rise { Rise self.new.items }
        ensures stay { StayTouched self.old self.new }
        ensures marked { cell.off ≡ true → HoldsAt (λ item. is_touched self.new.touched item.object item.value ≡ true) self.old.items spot.place }
        ensures unmarked { cell.off ≡ false → KeepTouched self.old self.new }
        ensures spare { self.old.spare ≤ self.new.spare + 1 }
        ensures kept { cell.off ≡ false → self.old.spare ≤ self.new.spare }
    {
        let slot = self.order.at_near(spot);
        self.memo.find(self.slots[slot].rank(), slot);
        self.recent.come(spot);
        self.write(slot, cell);
    }

    /// Sets the mark of an update that comes back, where its item was found of late, and says so. It takes no memory.
    pub fn change_found(&mut self, update: &Update) -> bool
        requires spare { 1 ≤ self.old.spare }
        requires range { HasRange self.old update.now }
        requires rise { Rise self.old.items }
        ensures cells { result ≡ true → (object : ObjectId) (value : Option (List ℕ)) → cell_in self.new.items object value
            ≡ cell_with object value (cell_in self.old.items object value) (op.Update update.now) }
        ensures rise { Rise self.new.items }
        ensures stay { StayTouched self.old self.new }
        ensures marked { result ≡ true → IsMarkTouched self.new update.now.object (value_of update.now.act) }
        ensures spare { self.old.spare ≤ self.new.spare + 1 }
        ensures others { result ≡ false → self.new ≡ self.old }
    {
        if !comes_back(update) {
            return false;
        }
        let Some(slot) = self.slot_found(&update.object, value_of(&update.act)) else {
            return false;
        };
        let cell = with_act(&update.act, self.slots[slot].item().cell);
        if !is_filled(&cell) {
            return false;
        }
        self.write(slot, cell);
        true
    }

    /// Takes marks and sum from the item of an object and a value, if there is one, which keeps its place. It takes no memory.
    pub fn empty(&mut self, object: &ObjectId, value: Option<&Value>)
        ensures cells { (other : ObjectId) (other_value : Option (List ℕ)) → cell_in self.new.items other other_value
            ≡ (if is_place object.now (option_copied value.entry) other other_value then zero_cell else cell_in self.old.items other other_value) }
        ensures rise { Rise self.new.items }
        ensures touched { StayTouched self.old self.new }
        ensures spare { self.old.spare ≤ self.new.spare }
    {
        if let Some(slot) = self.slot_found(object, value) {
            self.write(slot, NO_CELL);
            return;
        }
        match self.find(self.recent.to_go(), object, value) {
            Ok(spot) => {
                self.recent.go(spot);
                self.set_cell(spot, NO_CELL);
            }
            Err(gap) => {
                self.recent.go(gap.spot);
                self.memo.miss();
            }
        }
    }

    /// The slot of the item of an object and a value, where it was found of late.
    #[inline(always)]
    fn slot_found(&self, object: &ObjectId, value: Option<&Value>) -> Option<usize>
        ensures { IfSome result (IsSlotOf object.now (option_copied value.entry) self.now) }
    {
        if !self.memo.helps() {
            return None;
        }
        let sought = Sought::new(object, value);
        let slot = self.memo.slot(sought.rank())?;
        match self.slots.get(slot) {
            Some(ranked) if is_of(ranked, &sought) => Some(slot),
            _ => None,
        }
    }

    /// Gives the item in a slot another cell. With an off mark it is touched. It takes no memory.
    fn write(&mut self, slot: usize, cell: Cell)
        requires held { Contains self.old.slots slot }
        requires spare { IsTrue cell.off → 1 ≤ self.old.spare }
        ensures items { (place : ℕ) → slice_get self.old.slots place ≡ Some slot → self.new.items ≡ with_cell place cell self.old.items }
        ensures rise { Rise self.new.items }
        ensures stay { StayTouched self.old self.new }
        ensures marked { (place : ℕ) → slice_get self.old.slots place ≡ Some slot → cell.off ≡ true
            → HoldsAt (λ item. is_touched self.new.touched item.object item.value ≡ true) self.old.items place }
        ensures unmarked { cell.off ≡ false → KeepTouched self.old self.new }
        ensures spare { self.old.spare ≤ self.new.spare + 1 }
        ensures kept { cell.off ≡ false → self.old.spare ≤ self.new.spare }
    {
        prove!(self.empties <= self.order.len());
        self.empties = recounted(
            self.empties,
            is_filled(&self.slots[slot].item().cell),
            is_filled(&cell),
        );
        if cell.off {
            add(&mut self.touched, slot);
        }
        write_cell(&mut self.slots, slot, cell);
    }

    /// How many times an item was touched.
    pub fn touched_len(&self) -> usize
        ensures { result ≡ length self.now.touched }
    {
        self.touched.len()
    }

    /// Takes what was touched last from what is touched. It is the place of the item, where that is still there.
    pub fn take_touched(&mut self) -> Option<usize>
        requires { 0 < length self.old.touched }
        ensures items { self.new.items ≡ self.old.items }
        ensures few { OnSome result (length self.old.items < 2 ^ 64) }
        ensures last { IsLast self.old self.new.touched result }
        ensures spare { self.old.spare ≤ self.new.spare }
    {
        let place = self.last_touched();
        let _slot = self.touched.pop();
        place
    }

    /// The place of the item that was touched last, where that is still there.
    fn last_touched(&self) -> Option<usize>
        requires { 0 < length self.now.touched }
        ensures few { OnSome result (length self.now.items < 2 ^ 64) }
        ensures last { IsLast self.now (take (length self.now.touched - 1) self.now.touched) result }
    {
        let ranked = self.slots.get(self.touched[self.touched.len() - 1])?;
        let item = ranked.item();
        match self.find(Some(self.recent.last()), &item.object, item.value.as_ref()) {
            Ok(spot) => Some(spot.place),
            Err(_) => None,
        }
    }
}

/// Whether an item is the one that is looked for.
fn is_of(item: &Ranked, sought: &Sought<'_>) -> bool
    ensures { result ≡ is_at sought.now.object.now (option_copied sought.now.value) item.now }
{
    item.order_to(sought).is_eq()
}

/// Whether an item is before the one that is looked for.
fn is_before(item: &Ranked, sought: &Sought<'_>) -> bool
    ensures { result ≡ is_before sought.now.object.now (option_copied sought.now.value) item.now }
{
    item.order_to(sought).is_lt()
}

/// Whether an item is of an object, or of one before it.
fn is_up_to(item: &Ranked, object: &ObjectId) -> bool
    ensures { result ≡ is_up_to object.now item.now }
{
    item.item().object <= *object
}

/// How many of the items in slots are before what is looked for. The items rise.
#[inline(never)]
fn place_of(slots: &Slab<Ranked>, order: &Order, sought: &Sought<'_>) -> Spot
    requires held { All (ContainsKey slots.now) order.now.items }
    requires rise { Rise (items_in slots.now order.now.items) }
    ensures within { result.place ≤ length order.now.items }
    ensures place { IsParted (is_before sought.now.object.now (option_copied sought.now.value)) (items_in slots.now order.now.items) result.place }
{
    order.partition_point(|slot| match slots.get(*slot) {
        Some(item) => is_before(item, sought),
        None => false,
    })
}

/// How many of the items in slots are of an object, or of one before it. The items rise.
fn place_behind(slots: &Slab<Ranked>, order: &Order, object: &ObjectId) -> usize
    requires held { All (ContainsKey slots.now) order.now.items }
    requires rise { Rise (items_in slots.now order.now.items) }
    ensures within { result ≤ length order.now.items }
    ensures place { IsParted (is_up_to object.now) (items_in slots.now order.now.items) result }
{
    let spot = order.partition_point(|slot| match slots.get(*slot) {
        Some(item) => is_up_to(item, object),
        None => false,
    });
    spot.place
}

/// Copies the items in the slots of an order into slots that have none, and gives the order of these.
fn copy_order(
    alloc: Global,
    from: &Slab<Ranked>,
    order: &Order,
    into: &mut Slab<Ranked>,
) -> Result<Order, NoMemory>
    requires held { All (ContainsKey from.now) order.now.items }
    requires none { slab_len into.old ≡ 0 }
    requires room { length order.now.items ≤ into.old.capacity }
    ensures copied { IfOk result (λ copied. AreCopied from.now order.now.items into.new copied.items) }
    ensures capacity { into.new.capacity ≡ into.old.capacity }
{
    let mut copied = Order::new(alloc);
    let mut place = 0;
    while place < order.len() {
        let run = order.run(place);
        let slots = copy_run(alloc, from, run, into)?;
        copied.reserve(CHUNK)?;
        copied.append(&slots);
        place += run.len();
    }
    Ok(copied)
}

/// Copies the items in slots into other slots, and gives these in the same order.
fn copy_run(
    alloc: Global,
    from: &Slab<Ranked>,
    run: &[usize],
    into: &mut Slab<Ranked>,
) -> Result<Vec<usize>, NoMemory>
    requires held { All (ContainsKey from.now) run.now }
    requires room { HasRoomFor into.old (length run.now) }
    ensures copied { IfOk result (λ slots. (order copied : List ℕ) → AreCopied from.now order into.old copied → AreCopied from.now (order ++ run.now) into.new (copied ++ slots.items)) }
    ensures len { IfOk result (λ slots. length slots.items ≡ length run.now) }
    ensures capacity { into.new.capacity ≡ into.old.capacity }
{
    let mut slots = Vec::with_capacity(alloc, run.len())?;
    for slot in run {
        let item = from[*slot].copy(alloc)?;
        slots.push_reserved(into.insert_reserved(item));
    }
    Ok(slots)
}

/// Adds a slot to a list that has room for it.
fn add(list: &mut Vec<usize>, slot: usize)
    requires { vec_len list.old < vec_capacity list.old }
    ensures items { list.new.items ≡ list.old.items ++ slot ∷ [] }
    ensures len { vec_len list.new ≡ vec_len list.old + 1 }
    ensures capacity { vec_capacity list.old ≤ vec_capacity list.new }
{
    let Ok(()) = list.push(slot) else {
        unreachable!()
    };
}

/// Lets the items go in the slots of an order that stand at places from the first up to, and not with, the second. A
/// chunk is looked at first.
fn empty_slots(slots: &mut Slab<Ranked>, order: &Order, from: usize, to: usize, near: usize)
    requires ordered { from ≤ to }
    requires within { to ≤ length order.now.items }
    requires held { All (ContainsKey slots.old) order.now.items }
    requires apart { AllPairs (λ a b. a ≢ b) order.now.items }
    ensures each { (slot : ℕ) → (get slots.new slot ≡ get slots.old slot) ⊎ (Contains (between from to order.now.items) slot × (get slots.new slot ≡ None)) }
    ensures len { slab_len slots.new + (to - from) ≡ slab_len slots.old }
    ensures capacity { slots.new.capacity ≡ slots.old.capacity }
{
    for place in from..to {
        slots.remove(order.at_near(Spot { place, chunk: near }));
    }
}

/// How many items have neither a mark nor a sum, where so many had none, and one may have other marks now or another sum.
fn recounted(empties: usize, was_filled: bool, is_filled: bool) -> usize
    requires some { was_filled ≡ false → 1 ≤ empties }
    requires few { was_filled ≡ true → is_filled ≡ false → empties + 1 < 2 ^ 64 }
    ensures { result + (if was_filled then 0 else 1) ≡ empties + (if is_filled then 0 else 1) }
{
    match (was_filled, is_filled) {
        (true, false) => empties + 1,
        (false, true) => empties - 1,
        _ => empties,
    }
}

/// Gives the item in a slot another cell.
fn write_cell(slots: &mut Slab<Ranked>, slot: usize, cell: Cell)
    requires { ContainsKey slots.old slot }
    ensures written { (item : Item) → get slots.old slot ≡ Some item
        → slots.new ≡ with_value slots.old slot (record item { cell = cell }) }
{
    slots[slot].set_cell(cell);
}
