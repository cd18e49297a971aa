//! Linked sequences of values that share their slots.

ghost use Rattle.std.specs.Prelude.{◌≡◌, ℕ, ◌+◌, ◌-◌, ◌^◌, ◌<◌, ◌≤◌, List, [], ◌∷◌, ◌++◌, length, slice_set, Option, Some, None, IsOk, OnOk, IfOk};
ghost use Rattle.slab.specs.Slab.{ContainsKey};
ghost use Rattle.list_type.specs.Chained.{first_slot, last_slot, row_at, rows_with, IsHeld, OfSlot, IsPlace, OfPlace};

use op_base::NoMemory;
use slab::Slab;
use std::alloc::{AllocError, Global};
use std::marker::Model;

/// Rows of values, numbered from 0 on. Each value stands in a slot, which has a number too, and keeps it until it is taken
/// out. Contracts see each row's slots with their values, first to last, and how many values and rows more there is room
/// for. `reserve` and `copy` alone take memory, and no call but `copy` takes longer where a row is longer.
#[derive(Drop)]
pub struct Chains<T> {
    slots: Slab<Slot<T>>,
    rows: Vec<Row>,
}

/// A value, its row, and the slots ahead of it and behind it there.
#[derive(Drop)]
struct Slot<T> {
    row: usize,
    value: T,
    previous: Option<usize>,
    next: Option<usize>,
}

impl<T: Clone> Clone for Slot<T> {
    ghost use Rattle.list_type.specs.ChainFields.{IsCopyOf};

    ghost is_clone = { IsCopyOf T.is_clone };

    fn clone(&self) -> Result<Self, AllocError> {
        Ok(Slot {
            row: self.row,
            value: self.value.clone()?,
            previous: self.previous,
            next: self.next,
        })
    }
}

impl<T> Slot<T> {
    ghost use Rattle.std.specs.Borrow.{sem};
    ghost use Rattle.list_type.specs.Lending.{LendsContent};

    /// The value, for writing.
    fn value_mut(&mut self) -> &mut T
        ensures* lends { sem 𝓛 (LendsContent T.row self.entry result) }
        ensures value { result.now ≡ self.old.value }
    {
        &mut self.value
    }
}

/// The first slot of a row, and how many it has.
#[derive(Clone, Copy)]
struct Row {
    first: Option<usize>,
    len: usize,
}

impl<T> Model for Chains<T> {
    ghost use Rattle.list_type.specs.Chained.{Chained, chained_code};

    ghost Value = { Chained T };

    ghost coded = { chained_code T.code };

    ghost use Rattle.list_type.specs.ChainFields.{chained, IsChained};

    ghost view = { chained };

    ghost invariant = { IsChained };
}

impl<T> Chains<T> {
    ghost use Rattle.std.specs.Borrow.{sem};
    ghost use Rattle.list_type.specs.Lending.{LendsValue};

    /// No rows, and no room. It takes no memory.
    pub fn new(alloc: Global) -> Chains<T>
        ensures { result ≡ record { rows = []; spare = 0; row_spare = 0 } }
    {
        Chains {
            slots: Slab::new(alloc),
            rows: Vec::new(alloc),
        }
    }

    /// Takes room for `k` values and `k` rows more. `NoMemory` leaves the rows, and no less room.
    pub fn reserve(&mut self, k: usize) -> Result<(), NoMemory>
        ensures room { OnOk result (k ≤ self.new.spare) }
        ensures row_room { OnOk result (k ≤ self.new.row_spare) }
        ensures had_room { k ≤ self.old.spare → k ≤ self.old.row_spare → IsOk result }
        ensures rows { self.new.rows ≡ self.old.rows }
        ensures spare { self.old.spare ≤ self.new.spare }
        ensures row_spare { self.old.row_spare ≤ self.new.row_spare }
    {
        self.slots.reserve(k)?;
        self.rows.reserve(k)?;
        Ok(())
    }

    /// Equal values in the same slots of the same rows. `NoMemory` leaves nothing behind.
    pub fn copy(&self, alloc: Global) -> Result<Chains<T>, NoMemory>
    where
        T: Clone,
        requires { (value copy : T) → T.is_clone value copy → copy ≡ value }
        ensures { IfOk result (λ copy. copy.rows ≡ self.now.rows) }
    {
        let slots = self.slots.clone()?;
        prove!(slots.len() <= slots.capacity());
        Ok(Chains {
            slots,
            rows: Vec::from_slice(alloc, &self.rows)?,
        })
    }

    /// How many rows there are.
    pub fn rows(&self) -> usize
        ensures { result ≡ length self.now.rows }
    {
        self.rows.len()
    }

    /// Puts an empty row behind the others. It takes no memory, and the row's number is the result.
    pub fn add_row(&mut self) -> usize
        requires { 1 ≤ self.old.row_spare }
        ensures row { result ≡ length self.old.rows }
        ensures rows { self.new.rows ≡ self.old.rows ++ [] ∷ [] }
        ensures spare { self.new.spare ≡ self.old.spare }
        ensures row_spare { self.new.row_spare + 1 ≡ self.old.row_spare }
    {
        let row = self.rows.len();
        self.rows.push_reserved(Row {
            first: None,
            len: 0,
        });
        row
    }

    /// How many values a row has.
    pub fn len(&self, row: usize) -> usize
        requires { row < length self.now.rows }
        ensures { result ≡ length (row_at self.now.rows row) }
    {
        self.rows[row].len
    }

    /// The first slot of a row, if it has one.
    pub fn first(&self, row: usize) -> Option<usize>
        requires { row < length self.now.rows }
        ensures { result ≡ first_slot (row_at self.now.rows row) }
    {
        self.rows[row].first
    }

    /// The row of a slot.
    pub fn row(&self, slot: usize) -> usize
        requires { IsHeld self.now.rows slot }
        ensures { OfSlot self.now.rows slot (λ row before value after. result ≡ row) }
    {
        self.slots[slot].row
    }

    /// The value in a slot.
    pub fn get(&self, slot: usize) -> &T
        requires { IsHeld self.now.rows slot }
        ensures { OfSlot self.now.rows slot (λ row before value after. result.now ≡ value) }
    {
        &self.slots[slot].value
    }

    /// The slot behind another in its row, if there is one.
    pub fn next(&self, slot: usize) -> Option<usize>
        requires { IsHeld self.now.rows slot }
        ensures { OfSlot self.now.rows slot (λ row before value after. result ≡ first_slot after) }
    {
        self.slots[slot].next
    }

    /// The slot ahead of another in its row, if there is one.
    pub fn previous(&self, slot: usize) -> Option<usize>
        requires { IsHeld self.now.rows slot }
        ensures { OfSlot self.now.rows slot (λ row before value after. result ≡ last_slot before) }
    {
        self.slots[slot].previous
    }

    /// The value in a slot, for writing.
    pub fn get_mut(&mut self, slot: usize) -> &mut T
        requires { IsHeld self.old.rows slot }
        ensures* lends { sem 𝓛 (LendsValue T.row self.entry slot result) }
        ensures value { OfSlot self.old.rows slot (λ row before value after. result.now ≡ value) }
        ensures written { (other : T) → OfSlot self.old.rows slot (λ row before value after. rows_with self.old.rows slot other ≡ slice_set self.old.rows row (before ++ (slot, other) ∷ after)) }
    {
        self.slots[slot].value_mut()
    }

    /// Puts a value in a row behind a slot of it, or at its front at `None`. It takes no memory. The result is the slot that
    /// it stands in, which no value had; all others stay in theirs.
    pub fn put_behind(&mut self, row: usize, ahead: Option<usize>, value: T) -> usize
        requires spare { 1 ≤ self.old.spare }
        requires place { IsPlace self.old.rows row ahead }
        ensures rows { OfPlace self.old.rows row ahead (λ before after. self.new.rows ≡ slice_set self.old.rows row (before ++ (result, value) ∷ after)) }
        ensures fresh { IsHeld self.old.rows result → ⊥ }
        ensures spare { self.new.spare + 1 ≡ self.old.spare }
        ensures row_spare { self.new.row_spare ≡ self.old.row_spare }
    {
        let next = self.behind(row, ahead);
        let slot = self.slots.insert_reserved(Slot {
            row,
            value,
            previous: ahead,
            next,
        });
        set_next(&mut self.slots, ahead, Some(slot));
        set_previous(&mut self.slots, next, Some(slot));
        let head = self.rows[row];
        prove!(head.len < self.slots.len());
        self.rows[row] = Row {
            first: first_behind(ahead, Some(slot), head.first),
            len: head.len + 1,
        };
        slot
    }

    /// The slot behind another in a row, or the row's first at `None`, if there is one.
    pub fn behind(&self, row: usize, ahead: Option<usize>) -> Option<usize>
        requires { IsPlace self.now.rows row ahead }
        ensures { OfPlace self.now.rows row ahead (λ before after. result ≡ first_slot after) }
    {
        match ahead {
            Some(slot) => self.slots[slot].next,
            None => self.rows[row].first,
        }
    }

    /// Takes the value out of a slot. All others stay in theirs, in the same order.
    pub fn take_out(&mut self, slot: usize) -> T
        requires { IsHeld self.old.rows slot }
        ensures rows { OfSlot self.old.rows slot (λ row before value after. self.new.rows ≡ slice_set self.old.rows row (before ++ after)) }
        ensures value { OfSlot self.old.rows slot (λ row before value after. result ≡ value) }
        ensures out { IsHeld self.new.rows slot → ⊥ }
        ensures spare { self.new.spare ≡ self.old.spare + 1 }
        ensures row_spare { self.new.row_spare ≡ self.old.row_spare }
    {
        let Slot {
            row,
            value,
            previous,
            next,
        } = self.slots.remove(slot);
        set_next(&mut self.slots, previous, next);
        set_previous(&mut self.slots, next, previous);
        let head = self.rows[row];
        self.rows[row] = Row {
            first: first_behind(previous, next, head.first),
            len: head.len - 1,
        };
        value
    }
}

ghost use Rattle.list_type.specs.ChainFields.{Relinks, first_behind};

/// Makes a slot the one behind another, if there is another.
fn set_next<T>(slots: &mut Slab<Slot<T>>, slot: Option<usize>, next: Option<usize>)
    requires { (k : ℕ) → slot ≡ Some k → ContainsKey slots.old k }
    ensures { Relinks (λ had. record had { next = next }) slots.old slots.new slot }
{
    if let Some(slot) = slot {
        slots[slot].next = next;
    }
}

/// Makes a slot the one ahead of another, if there is another.
fn set_previous<T>(slots: &mut Slab<Slot<T>>, slot: Option<usize>, previous: Option<usize>)
    requires { (k : ℕ) → slot ≡ Some k → ContainsKey slots.old k }
    ensures { Relinks (λ had. record had { previous = previous }) slots.old slots.new slot }
{
    if let Some(slot) = slot {
        slots[slot].previous = previous;
    }
}

/// The first slot of a row, where the one behind a place is this and the one at the front was that.
fn first_behind(ahead: Option<usize>, behind: Option<usize>, first: Option<usize>) -> Option<usize>
    ensures { result ≡ first_behind ahead behind first }
{
    match ahead {
        Some(_) => first,
        None => behind,
    }
}
