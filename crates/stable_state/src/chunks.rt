//! Slots in chunks of bounded length, with the place at which each chunk ends.

ghost use Rattle.std.specs.Prelude.{◌≡◌, ℕ, ◌+◌, ◌-◌, ◌*◌, ◌^◌, ◌<◌, ◌≤◌, [], ◌∷◌, ◌++◌, length, take, drop, map, slice_set, slice_index_or, Bool, true, false, OnOk, OnErr, All, IfSome, vec_len, vec_capacity};
ghost use Rattle.std.specs.List.{concat, insert, remove, remove_range};
ghost use Rattle.std.specs.List.Sorted.{IsPartitionPoint, IsPartitionedBy};
ghost use Rattle.std.specs.Fn.{ComputesKey};
ghost use Rattle.stable_state.specs.Chunks.{IsHome, first_passes};
ghost use Rattle.stable_state.specs.Near.{is_near};

use op_base::NoMemory;
use std::alloc::Global;
use std::marker::Model;

/// How many slots a chunk has room for.
pub const CHUNK: usize = 256;

/// How many slots are in each half of a chunk that is parted.
pub const HALF: usize = 128;

/// The most chunks: so the place at which one ends has 32 bits, and more of them are moved at once.
const MOST: usize = 1 << 23;

/// A place, and the chunk in which it is looked for first, which may be any.
#[derive(Clone, Copy, Drop)]
pub struct Spot {
    /// The place, counted from 0.
    pub place: usize,
    /// The chunk.
    pub chunk: usize,
}

impl Spot {
    /// The next place, looked for in the same chunk.
    pub fn next(self) -> Spot
        requires { self.place + 1 < 2 ^ 64 }
        ensures { result.place ≡ self.place + 1 }
    {
        Spot {
            place: self.place + 1,
            chunk: self.chunk,
        }
    }

    /// The place ahead, looked for in the same chunk.
    pub fn previous(self) -> Spot
        requires { 0 < self.place }
        ensures { result.place ≡ self.place - 1 }
    {
        Spot {
            place: self.place - 1,
            chunk: self.chunk,
        }
    }

    /// Whether its place is that of another spot, or the next: so far a look at the other first goes.
    pub fn is_near(self, other: Spot) -> bool
        ensures { result ≡ is_near self other }
    {
        self.place >= other.place && self.place - other.place <= 1
    }
}

/// Chunks of slots, each with room for `CHUNK`, and empty ones that are free. `add` alone takes memory.
#[derive(Drop)]
pub struct Chunks {
    alloc: Global,
    // The chunks in use.
    lists: Vec<Vec<usize>>,
    // The place at which each of them ends.
    ends: Vec<u32>,
    // Empty chunks.
    free: Vec<Vec<usize>>,
}

impl Model for Chunks {
    ghost use Rattle.stable_state.specs.Chunks.{Chunked};

    ghost Value = { Chunked };

    ghost use Rattle.stable_state.specs.ChunkFields.{chunked, IsChunked};

    ghost view = { chunked };

    ghost invariant = { IsChunked };
}

impl Chunks {
    /// No chunks. It takes no memory.
    pub fn new(alloc: Global) -> Chunks
        ensures { result ≡ record { parts = []; free = 0 } }
    {
        Chunks {
            alloc,
            lists: Vec::new(alloc),
            ends: Vec::new(alloc),
            free: Vec::new(alloc),
        }
    }

    /// Takes memory for one free chunk more.
    pub fn add(&mut self) -> Result<(), NoMemory>
        ensures parts { self.new.parts ≡ self.old.parts }
        ensures more { OnOk result (self.new.free ≡ self.old.free + 1) }
        ensures none { OnErr result (self.new.free ≡ self.old.free) }
    {
        let count = self.lists.len() + self.free.len();
        if count == MOST {
            return Err(NoMemory);
        }
        let more = self.free.len() + 1;
        self.ends.reserve(more)?;
        self.lists.reserve(more)?;
        self.free.reserve(self.lists.len() + 1)?;
        self.free
            .push_reserved(Vec::with_capacity(self.alloc, CHUNK)?);
        Ok(())
    }

    /// How many chunks are in use.
    pub fn count(&self) -> usize
        ensures value { result ≡ length self.now.parts }
        ensures few { length self.now.parts + self.now.free ≤ 2 ^ 23 }
        ensures slots { length (concat self.now.parts) ≤ 256 * length self.now.parts }
    {
        self.lists.len()
    }

    /// How many chunks are free.
    pub fn free(&self) -> usize
        ensures { result ≡ self.now.free }
    {
        self.free.len()
    }

    /// How many slots the chunks in use have.
    pub fn len(&self) -> usize
        ensures { result ≡ length (concat self.now.parts) }
    {
        match self.ends.last() {
            Some(end) => *end as usize,
            None => 0,
        }
    }

    /// The slots of a chunk.
    pub fn part(&self, chunk: usize) -> &[usize]
        requires { chunk < length self.now.parts }
        ensures { result.now ≡ slice_index_or self.now.parts chunk [] }
    {
        self.lists[chunk].as_slice()
    }

    /// The place at which a chunk begins.
    pub fn start(&self, chunk: usize) -> usize
        requires { chunk < length self.now.parts }
        ensures { result ≡ length (concat (take chunk self.now.parts)) }
    {
        self.ends[chunk] as usize - self.lists[chunk].len()
    }

    /// The first chunk that doesn't end before a place.
    pub fn chunk_to(&self, place: usize) -> usize
        requires some { 0 < length self.now.parts }
        requires within { place ≤ length (concat self.now.parts) }
        ensures { IsHome self.now.parts place result }
    {
        self.ends.partition_point(|end| (*end as usize) < place)
    }

    /// The same, where the spot's chunk is looked at first.
    pub fn chunk_of(&self, spot: Spot) -> usize
        requires some { 0 < length self.now.parts }
        requires within { spot.place ≤ length (concat self.now.parts) }
        ensures { IsHome self.now.parts spot.place result }
    {
        if self.is_home(spot) {
            spot.chunk
        } else {
            self.chunk_to(spot.place)
        }
    }

    /// Whether a spot's chunk is the first that doesn't end before its place.
    fn is_home(&self, spot: Spot) -> bool
        ensures { result ≡ true → IsHome self.now.parts spot.place spot.chunk }
    {
        if spot.chunk >= self.lists.len() {
            return false;
        }
        let start = self.start(spot.chunk);
        if start > spot.place || start == spot.place && spot.chunk > 0 {
            return false;
        }
        spot.place - start <= self.part(spot.chunk).len()
    }

    /// The slot at a place.
    pub fn slot(&self, place: usize) -> usize
        requires { place < length (concat self.now.parts) }
        ensures { result ≡ slice_index_or (concat self.now.parts) place result }
    {
        let lists = &self.lists;
        let chunk = self.chunk_to(place + 1);
        lists[chunk][place - self.start(chunk)]
    }

    /// The slot at a spot's place.
    pub fn slot_near(&self, spot: Spot) -> usize
        requires { spot.place < length (concat self.now.parts) }
        ensures { result ≡ slice_index_or (concat self.now.parts) spot.place result }
    {
        match self.slot_at(spot) {
            Some(slot) => slot,
            None => self.slot(spot.place),
        }
    }

    /// The slot at a spot's place, and the chunk that has it. The spot's is looked at first.
    #[inline(always)]
    pub fn slot_from(&self, spot: Spot) -> (usize, usize)
        requires { spot.place < length (concat self.now.parts) }
        ensures { result.0 ≡ slice_index_or (concat self.now.parts) spot.place result.0 }
    {
        match self.slot_at(spot) {
            Some(slot) => (slot, spot.chunk),
            None => self.slot_afar(spot.place),
        }
    }

    /// The slot at a place, and the chunk that has it, where another was looked at first: seldom, and so it stands apart.
    #[inline(never)]
    fn slot_afar(&self, place: usize) -> (usize, usize)
        requires { place < length (concat self.now.parts) }
        ensures { result.0 ≡ slice_index_or (concat self.now.parts) place result.0 }
    {
        prove!(place < self.len());
        (self.slot(place), self.chunk_to(place + 1))
    }

    /// The slot at a spot's place, where its chunk has it.
    #[inline(always)]
    fn slot_at(&self, spot: Spot) -> Option<usize>
        ensures { IfSome result (λ slot. slot ≡ slice_index_or (concat self.now.parts) spot.place slot) }
    {
        if spot.chunk >= self.count() {
            return None;
        }
        let part = self.part(spot.chunk);
        let start = self.start(spot.chunk);
        if spot.place < start || spot.place - start >= part.len() {
            return None;
        }
        Some(part[spot.place - start])
    }

    /// How many of the slots pass a test, where those that pass stand before the others. No chunk is empty.
    pub fn partition_point<P: Fn(&usize) -> bool>(&self, test: P) -> Spot
        requires callable { P.IsAlwaysCallable test }
        requires some { All (λ part. 0 < length part) self.now.parts }
        ensures bound { result.place ≤ length (concat self.now.parts) }
        ensures partitioned { (p : ℕ → Bool) → ComputesKey P.FnMut p test → IsPartitionedBy p (concat self.now.parts)
            → IsPartitionPoint (λ slot. p slot ≡ true) (λ slot. p slot ≡ false) (concat self.now.parts) result.place }
    {
        let behind = self.begun(&test);
        if behind == 0 {
            return Spot { place: 0, chunk: 0 };
        }
        let chunk = behind - 1;
        let place = self.start(chunk) + passed(self.part(chunk), &test);
        Spot { place, chunk }
    }

    /// How many of the chunks begin with a slot that passes a test, where those that do stand before the others. No chunk is
    /// empty.
    #[inline(always)]
    fn begun<P: Fn(&usize) -> bool>(&self, test: &P) -> usize
        requires callable { P.IsAlwaysCallable test.now }
        requires some { All (λ part. 0 < length part) self.now.parts }
        // so a place among all slots fits its number
        ensures few { length (concat self.now.parts) < 2 ^ 64 }
        ensures bound { result ≤ length self.now.parts }
        ensures partitioned { (p : ℕ → Bool) → ComputesKey P.FnMut p test.now → IsPartitionedBy (first_passes p) self.now.parts
            → IsPartitionPoint (λ part. first_passes p part ≡ true) (λ part. first_passes p part ≡ false) self.now.parts result }
    {
        let mut from = 0;
        let mut to = self.count();
        while from < to {
            let middle = (from + to) / 2;
            if test(&self.part(middle)[0]) {
                from = middle + 1;
            } else {
                to = middle;
            }
        }
        from
    }

    /// Puts a slot into a chunk that has room for it.
    pub fn put(&mut self, chunk: usize, at: usize, slot: usize)
        requires chunk { chunk < length self.old.parts }
        requires at { at ≤ length (slice_index_or self.old.parts chunk []) }
        requires room { length (slice_index_or self.old.parts chunk []) < 256 }
        ensures few { length self.new.parts + self.new.free ≤ 2 ^ 23 }
        ensures value { self.new ≡ record self.old { parts = slice_set self.old.parts chunk (insert (slice_index_or self.old.parts chunk []) at slot) } }
    {
        put_in(&mut self.lists[chunk], at, slot);
        raise_from(&mut self.ends, chunk);
    }

    /// Takes the slots out of a chunk that stand in it from the first up to, and not with, the second.
    pub fn cut(&mut self, chunk: usize, from: usize, to: usize)
        requires chunk { chunk < length self.old.parts }
        requires ordered { from ≤ to }
        requires within { to ≤ length (slice_index_or self.old.parts chunk []) }
        ensures { self.new ≡ record self.old { parts = slice_set self.old.parts chunk (remove_range (slice_index_or self.old.parts chunk []) from to) } }
    {
        cut_out(&mut self.lists[chunk], from, to);
        lower_from(&mut self.ends, chunk, (to - from) as u32);
    }

    /// Parts a chunk into its first `HALF` slots and the others, which go into a free chunk.
    pub fn split(&mut self, chunk: usize)
        requires chunk { chunk < length self.old.parts }
        requires free { 1 ≤ self.old.free }
        requires long { 128 ≤ length (slice_index_or self.old.parts chunk []) }
        ensures parts { self.new.parts ≡ take chunk self.old.parts
            ++ take 128 (slice_index_or self.old.parts chunk []) ∷ drop 128 (slice_index_or self.old.parts chunk []) ∷ drop (chunk + 1) self.old.parts }
        ensures free { self.new.free + 1 ≡ self.old.free }
    {
        let mut upper = self.free.take_last();
        let end = self.ends[chunk];
        let moved = halve(&mut self.lists[chunk], &mut upper);
        put_in(&mut self.ends, chunk, end - moved as u32);
        put_in(&mut self.lists, chunk + 1, upper);
    }

    /// Takes a free chunk into use behind the others, with these slots.
    pub fn append(&mut self, slots: &[usize])
        requires free { 1 ≤ self.old.free }
        requires short { length slots.now ≤ 256 }
        ensures parts { self.new.parts ≡ self.old.parts ++ slots.now ∷ [] }
        ensures free { self.new.free + 1 ≡ self.old.free }
        ensures few { length self.new.parts + self.new.free ≤ 2 ^ 23 }
    {
        let end = self.len() + slots.len();
        let mut list = self.free.take_last();
        fill(&mut list, slots);
        self.lists.push_reserved(list);
        self.ends.push_reserved(end as u32);
    }

    /// Frees a chunk that is empty.
    pub fn close(&mut self, chunk: usize)
        requires chunk { chunk < length self.old.parts }
        requires empty { slice_index_or self.old.parts chunk [] ≡ [] }
        ensures parts { self.new.parts ≡ remove self.old.parts chunk }
        ensures free { self.new.free ≡ self.old.free + 1 }
    {
        self.ends.remove(chunk);
        self.free.push_reserved(self.lists.remove(chunk));
    }
}

/// How many of some slots pass a test, where those that pass stand before the others. A loop of its own, as that over chunks:
/// the library's `partition_point` does the same, and took up to a fifth more instructions of a search.
#[inline(always)]
fn passed<P: Fn(&usize) -> bool>(slots: &[usize], test: &P) -> usize
    requires { P.IsAlwaysCallable test.now }
    ensures bound { result ≤ length slots.now }
    ensures partitioned { (p : ℕ → Bool) → ComputesKey P.FnMut p test.now → IsPartitionedBy p slots.now
        → IsPartitionPoint (λ slot. p slot ≡ true) (λ slot. p slot ≡ false) slots.now result }
{
    let mut from = 0;
    let mut to = slots.len();
    while from < to {
        let middle = (from + to) / 2;
        if test(&slots[middle]) {
            from = middle + 1;
        } else {
            to = middle;
        }
    }
    from
}

/// Puts an element into a list that has room for it. What is behind moves at once, which it doesn't by the library's `insert`.
fn put_in<T>(list: &mut Vec<T>, place: usize, element: T)
    requires within { place ≤ vec_len list.old }
    requires room { vec_len list.old < vec_capacity list.old }
    ensures items { list.new.items ≡ insert list.old.items place element }
    ensures len { vec_len list.new ≡ vec_len list.old + 1 }
    ensures capacity { vec_capacity list.old ≤ vec_capacity list.new }
{
    let behind = place < list.len();
    list.push_reserved(element);
    if behind {
        list[place..].rotate_right(1);
    }
}

/// Takes the slots out of a list that stand at places from the first up to, and not with, the second.
fn cut_out(list: &mut Vec<usize>, from: usize, to: usize)
    requires ordered { from ≤ to }
    requires within { to ≤ vec_len list.old }
    ensures items { list.new.items ≡ remove_range list.old.items from to }
    ensures capacity { vec_capacity list.old ≤ vec_capacity list.new }
{
    drop(list.drain(from..to));
}

/// Moves the slots of a list from `HALF` on into an empty one, and says how many these are.
fn halve(list: &mut Vec<usize>, upper: &mut Vec<usize>) -> usize
    requires long { 128 ≤ vec_len list.old }
    requires empty { vec_len upper.old ≡ 0 }
    requires room { vec_len list.old ≤ 128 + vec_capacity upper.old }
    ensures lower { list.new.items ≡ take 128 list.old.items }
    ensures upper { upper.new.items ≡ drop 128 list.old.items }
    ensures capacity { vec_capacity list.old ≤ vec_capacity list.new }
    ensures upper_capacity { vec_capacity upper.old ≤ vec_capacity upper.new }
    ensures moved { result + 128 ≡ vec_len list.old }
{
    let moved = list.len() - HALF;
    let Ok(()) = upper.extend_from_slice(&list[HALF..]) else {
        unreachable!()
    };
    list.truncate(HALF);
    moved
}

/// Puts slots into an empty list that has room for them.
fn fill(list: &mut Vec<usize>, slots: &[usize])
    requires empty { list.old.items ≡ [] }
    requires room { length slots.now ≤ vec_capacity list.old }
    ensures items { list.new.items ≡ slots.now }
    ensures capacity { vec_capacity list.old ≤ vec_capacity list.new }
{
    let Ok(()) = list.extend_from_slice(slots) else {
        unreachable!()
    };
}

/// Raises each end from a place on by one.
fn raise_from(ends: &mut Vec<u32>, from: usize)
    requires within { from ≤ vec_len ends.old }
    requires fits { All (λ end. end + 1 < 2 ^ 32) ends.old.items }
    ensures items { ends.new.items ≡ take from ends.old.items ++ map (λ end. end + 1) (drop from ends.old.items) }
    ensures capacity { vec_capacity ends.new ≡ vec_capacity ends.old }
{
    raise(ends.slice_mut(from..));
}

/// Lowers each end from a place on.
fn lower_from(ends: &mut Vec<u32>, from: usize, by: u32)
    requires within { from ≤ vec_len ends.old }
    requires above { All (λ end. by ≤ end) (drop from ends.old.items) }
    ensures items { ends.new.items ≡ take from ends.old.items ++ map (λ end. end - by) (drop from ends.old.items) }
    ensures capacity { vec_capacity ends.new ≡ vec_capacity ends.old }
{
    lower(ends.slice_mut(from..), by);
}

/// Raises each number by one.
fn raise(ends: &mut [u32])
    requires { All (λ end. end + 1 < 2 ^ 32) ends.old }
    ensures { ends.new ≡ map (λ end. end + 1) ends.old }
{
    for end in ends.iter_mut() {
        *end += 1;
    }
}

/// Lowers each number.
fn lower(ends: &mut [u32], by: u32)
    requires { All (λ end. by ≤ end) ends.old }
    ensures { ends.new ≡ map (λ end. end - by) ends.old }
{
    for end in ends.iter_mut() {
        *end -= by;
    }
}
