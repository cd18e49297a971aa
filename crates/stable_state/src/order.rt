//! A list of slots in chunks, so that putting one in or taking some out moves no more than a chunk.

ghost use Rattle.std.specs.Prelude.{◌≡◌, ℕ, ◌+◌, ◌-◌, ◌++◌, ◌^◌, ◌<◌, ◌≤◌, Bool, true, false, [], length, IsOk, OnOk, take, slice_set, slice_index_or, All};
ghost use Rattle.std.specs.List.{concat, insert, remove_range};
ghost use Rattle.std.specs.List.Sorted.{IsPartitionPoint, IsPartitionedBy};
ghost use Rattle.std.specs.Fn.{ComputesKey};
ghost use Rattle.stable_state.specs.Chunks.{IsHome, opened};

use crate::chunks::{CHUNK, Chunks, HALF, Spot};
use op_base::NoMemory;
use std::alloc::Global;
use std::marker::Model;

/// A list of slots. Contracts see the slots, and how many more can be put in without memory. `reserve` alone takes
/// memory.
#[derive(Drop)]
pub struct Order {
    chunks: Chunks,
    // How many slots chunks have over half of what each has room for, all together.
    excess: usize,
}

impl Model for Order {
    ghost use Rattle.stable_state.specs.Listed.{Listed};

    ghost Value = { Listed };

    ghost use Rattle.stable_state.specs.OrderFields.{listed, IsListed};

    ghost view = { listed };

    ghost invariant = { IsListed };
}

impl Order {
    /// No slots, and no room. It takes no memory.
    pub fn new(alloc: Global) -> Order
        ensures { result ≡ record { items = []; spare = 0 } }
    {
        Order {
            chunks: Chunks::new(alloc),
            excess: 0,
        }
    }

    /// Takes room for `k` slots more. `NoMemory` leaves the slots, and no less room.
    pub fn reserve(&mut self, k: usize) -> Result<(), NoMemory>
        ensures room { OnOk result (k ≤ self.new.spare) }
        ensures had_room { k ≤ self.old.spare → IsOk result }
        ensures items { self.new.items ≡ self.old.items }
        ensures spare { self.old.spare ≤ self.new.spare }
    {
        while self.spare() < k {
            self.grow()?;
        }
        Ok(())
    }

    /// How many slots can be put in without memory.
    pub fn spare(&self) -> usize
        ensures { result ≡ self.now.spare }
    {
        let first = 1usize.saturating_sub(self.chunks.count());
        self.chunks.free().saturating_sub(first) * HALF - self.excess
    }

    /// Takes more room.
    fn grow(&mut self) -> Result<(), NoMemory>
        ensures room { OnOk result (self.old.spare < self.new.spare) }
        ensures items { self.new.items ≡ self.old.items }
        ensures spare { self.old.spare ≤ self.new.spare }
    {
        if self.chunks.count() + self.chunks.free() == 0 {
            self.chunks.add()?;
        }
        self.chunks.add()
    }

    /// How many slots there are.
    pub fn len(&self) -> usize
        ensures { result ≡ length self.now.items }
    {
        self.chunks.len()
    }

    /// The slot at a place, counted from 0.
    pub fn at(&self, place: usize) -> usize
        requires { place < length self.now.items }
        ensures { result ≡ slice_index_or self.now.items place result }
    {
        self.chunks.slot(place)
    }

    /// A place, with its chunk.
    pub fn spot(&self, place: usize) -> Spot
        requires { place < length self.now.items }
        ensures { result.place ≡ place }
    {
        prove!(place < self.len());
        Spot {
            place,
            chunk: self.chunks.chunk_to(place + 1),
        }
    }

    /// The slot at a spot's place.
    pub fn at_near(&self, spot: Spot) -> usize
        requires { spot.place < length self.now.items }
        ensures { result ≡ slice_index_or self.now.items spot.place result }
    {
        self.chunks.slot_near(spot)
    }

    /// The slot at a spot's place, and the chunk of the place.
    #[inline(always)]
    pub fn at_from(&self, spot: Spot) -> (usize, usize)
        requires { spot.place < length self.now.items }
        ensures { result.0 ≡ slice_index_or self.now.items spot.place result.0 }
    {
        self.chunks.slot_from(spot)
    }

    /// How many of the slots pass a test, where those that pass stand before the others.
    pub fn partition_point<P: Fn(&usize) -> bool>(&self, test: P) -> Spot
        requires { P.IsAlwaysCallable test }
        ensures bound { result.place ≤ length self.now.items }
        ensures partitioned { (p : ℕ → Bool) → ComputesKey P.FnMut p test → IsPartitionedBy p self.now.items
            → IsPartitionPoint (λ slot. p slot ≡ true) (λ slot. p slot ≡ false) self.now.items result.place }
    {
        self.chunks.partition_point(test)
    }

    /// Puts a slot at a spot's place, and says in which chunk it is to be looked for. It takes no memory.
    pub fn insert(&mut self, spot: Spot, slot: usize) -> usize
        requires spare { 1 ≤ self.old.spare }
        requires within { spot.place ≤ length self.old.items }
        ensures items { self.new.items ≡ insert self.old.items spot.place slot }
        ensures spare { self.old.spare ≤ self.new.spare + 1 }
    {
        open_first(&mut self.chunks);
        let chunk = put(&mut self.chunks, spot, slot);
        let len = self.chunks.part(chunk).len();
        if len == CHUNK {
            self.chunks.split(chunk);
            self.excess -= HALF - 1;
            return chunk + 1;
        }
        if len > HALF {
            self.excess += 1;
        }
        chunk
    }

    /// The slots from a place to the end of its chunk.
    pub fn run(&self, place: usize) -> &[usize]
        requires { place < length self.now.items }
        ensures some { 0 < length result.now }
        ensures short { length result.now < 256 }
        ensures within { place + length result.now ≤ length self.now.items }
        ensures run { take (place + length result.now) self.now.items ≡ take place self.now.items ++ result.now }
    {
        prove!(place < self.len());
        let chunk = self.chunks.chunk_to(place + 1);
        let part = self.chunks.part(chunk);
        &part[place - self.chunks.start(chunk)..]
    }

    /// Puts slots behind the others, in a chunk of their own. It takes no memory.
    pub fn append(&mut self, slots: &[usize])
        requires spare { 256 ≤ self.old.spare }
        requires some { 0 < length slots.now }
        requires short { length slots.now < 256 }
        ensures { self.new.items ≡ self.old.items ++ slots.now }
    {
        self.chunks.append(slots);
        self.excess += slots.len().saturating_sub(HALF);
    }

    /// Takes out the slots that stand at places from the first up to, and not with, the second. A chunk is looked at first.
    pub fn remove_range(&mut self, from: usize, to: usize, near: usize)
        requires ordered { from ≤ to }
        requires within { to ≤ length self.old.items }
        ensures items { self.new.items ≡ remove_range self.old.items from to }
        ensures spare { self.old.spare ≤ self.new.spare }
    {
        let mut end = to;
        while from < end {
            end -= self.remove_some(from, end, near);
        }
    }

    /// Takes out the first of the slots that stand at places from the first up to, and not with, the second, as many as
    /// are in one chunk, and says how many these are.
    fn remove_some(&mut self, from: usize, to: usize, near: usize) -> usize
        requires ordered { from < to }
        requires within { to ≤ length self.old.items }
        ensures some { 0 < result }
        ensures within { result ≤ to - from }
        ensures items { self.new.items ≡ remove_range self.old.items from (from + result) }
        ensures spare { self.old.spare ≤ self.new.spare }
    {
        let chunk = self.chunks.chunk_of(Spot {
            place: from + 1,
            chunk: near,
        });
        let first = from - self.chunks.start(chunk);
        let len = self.chunks.part(chunk).len();
        let removed = (to - from).min(len - first);
        self.chunks.cut(chunk, first, first + removed);
        self.excess -= len.saturating_sub(HALF) - (len - removed).saturating_sub(HALF);
        if removed == len {
            self.chunks.close(chunk);
        }
        removed
    }
}

/// Takes a chunk into use where none is.
fn open_first(chunks: &mut Chunks)
    requires { length chunks.old.parts ≡ 0 → 1 ≤ chunks.old.free }
    ensures parts { chunks.new.parts ≡ opened chunks.old.parts }
    ensures free { chunks.new.free + (1 - length chunks.old.parts) ≡ chunks.old.free }
{
    if chunks.count() == 0 {
        chunks.append(&[]);
    }
}

/// Puts a slot into the chunk of a spot's place, and says which that is.
fn put(chunks: &mut Chunks, spot: Spot, slot: usize) -> usize
    requires some { 0 < length chunks.old.parts }
    requires short { All (λ part. length part < 256) chunks.old.parts }
    requires within { spot.place ≤ length (concat chunks.old.parts) }
    ensures home { IsHome chunks.old.parts spot.place result }
    ensures parts { let part = slice_index_or chunks.old.parts result [] in let start = length (concat (take result chunks.old.parts)) in
        chunks.new.parts ≡ slice_set chunks.old.parts result (insert part (spot.place - start) slot) }
    ensures free { chunks.new.free ≡ chunks.old.free }
    ensures few { length chunks.new.parts + chunks.new.free ≤ 2 ^ 23 }
{
    let chunk = chunks.chunk_of(spot);
    let at = spot.place - chunks.start(chunk);
    chunks.put(chunk, at, slot);
    chunk
}
