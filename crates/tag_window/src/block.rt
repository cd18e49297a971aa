//! A queue in a block of memory, of which little is touched while it holds few.

ghost use Rattle.std.specs.Prelude.{◌≡◌, ◌↔◌, ◌+◌, ◌*◌, ◌<◌, ◌≤◌, [], ◌∷◌, ◌++◌, length, drop, slice_index_or, vec_capacity, IsSome, IfOk};
ghost use Rattle.std.specs.Option.{IfSome};

use crate::held::Held;
use op_base::NoMemory;
use std::alloc::Global;
use std::marker::Model;

/// A queue that has its whole room from the start.
///
/// What it holds stands behind places that are free again. Where these are as many as it holds when more is put in, all moves
/// to the front: so at most one is moved for each one that goes, and of a block with much room only as much is touched as is
/// twice what was held at once. The block has twice the room, so that there is no other reason to move.
#[derive(Drop)]
pub struct Block {
    room: usize,
    /// How many places are free in front.
    start: usize,
    places: Vec<Held>,
}

impl Model for Block {
    ghost use Rattle.std.specs.Prelude.{◌≤◌, ◌*◌, length, drop, vec_capacity};
    ghost use Rattle.tag_window.specs.Filled.{Filled};

    ghost Value = { Filled };

    ghost view = { λ b. record { room = b.room; items = drop b.start b.places.items } };

    ghost invariant = { λ b. (b.start ≤ length b.places.items) × (2 * b.room ≤ vec_capacity b.places) };
}

impl Block {
    /// The empty queue with room for so many. `NoMemory` leaves nothing behind.
    pub fn create(alloc: Global, room: usize) -> Result<Block, NoMemory>
        requires { room ≤ 65535 }
        ensures { IfOk result (λ b. b ≡ record { room = room; items = [] }) }
    {
        Ok(Block {
            room,
            start: 0,
            places: Vec::with_capacity(alloc, 2 * room)?,
        })
    }

    /// How many it holds.
    pub fn len(&self) -> usize
        ensures { result ≡ length self.now.items }
    {
        self.places.len() - self.start
    }

    /// The one with so many before it.
    pub fn get(&self, i: usize) -> Option<&Held>
        ensures variant { IsSome result ↔ (i < length self.now.items) }
        ensures lookup { IfSome result (λ h. h.now ≡ slice_index_or self.now.items i h.now) }
    {
        if i < self.len() {
            Some(&self.places[self.start + i])
        } else {
            None
        }
    }

    /// The first.
    pub fn front(&self) -> Option<&Held>
        ensures variant { IsSome result ↔ (0 < length self.now.items) }
        ensures lookup { IfSome result (λ h. h.now ≡ slice_index_or self.now.items 0 h.now) }
    {
        self.get(0)
    }

    /// Takes one in behind the others.
    pub fn push(&mut self, held: Held)
        requires { length self.old.items < self.old.room }
        ensures { self.new ≡ record self.old { items = self.old.items ++ held ∷ [] } }
    {
        self.start = with_room(&mut self.places, self.start);
        self.places.push_reserved(held);
    }

    /// Lets go of all that it holds.
    pub fn clear(&mut self)
        ensures { self.new ≡ record self.old { items = [] } }
    {
        self.places.clear();
        self.start = 0;
    }

    /// Lets go of the first.
    pub fn pop_front(&mut self)
        requires { 0 < length self.old.items }
        ensures { self.new ≡ record self.old { items = drop 1 self.old.items } }
    {
        self.start += 1;
    }
}

/// Makes room for one more behind those that stand behind so many free places, and tells how many these are then. The block
/// has twice the room.
fn with_room(places: &mut Vec<Held>, start: usize) -> usize
    requires within { start ≤ length places.old.items }
    requires room { 2 * (length places.old.items + 1) ≤ vec_capacity places.old + 2 * start }
    ensures same { drop result places.new.items ≡ drop start places.old.items }
    ensures within { result ≤ length places.new.items }
    ensures room { length places.new.items < vec_capacity places.new }
    ensures capacity { vec_capacity places.new ≡ vec_capacity places.old }
{
    let held = places.len() - start;
    if start < held {
        return start;
    }
    move_to_front(places, start);
    0
}

/// Moves those that stand behind so many free places to the front.
fn move_to_front(places: &mut Vec<Held>, start: usize)
    requires { start ≤ length places.old.items }
    ensures items { places.new.items ≡ drop start places.old.items }
    ensures capacity { vec_capacity places.new ≡ vec_capacity places.old }
{
    let held = places.len() - start;
    for i in 0..held {
        places[i] = places[start + i];
    }
    places.truncate(held);
}
