//! Places for the early messages of one member, in a block of memory of which little is touched while there are few.

ghost use Rattle.std.specs.Prelude.{◌≡◌, true, ◌+◌, ◌-◌, ◌*◌, ◌^◌, ◌<◌, ◌≤◌, [], ◌++◌, length, take, drop, replicate, min, slice_index_or, slice_set, vec_capacity, IfOk, Some, None};
ghost use Rattle.std.specs.Option.{is_some, option_copied};

use op_base::{Message, NoMemory};
use std::alloc::Global;
use std::marker::Model;

/// A row of places, each empty or with a message, with its whole room from the start.
///
/// The row stands behind places of the block that are free again. Where there are more of these than the row has, and it
/// grows, it moves to the front: so at most one place is moved for each one that goes, and of a block with much room only as
/// much is touched as is twice the longest row. The block has twice the room, so that there is no other reason to move.
#[derive(Debug, Drop)]
pub struct Places {
    room: usize,
    /// How many places of the block are free in front.
    start: usize,
    block: Vec<Option<Message>>,
}

impl Model for Places {
    ghost use Rattle.std.specs.Prelude.{◌≤◌, ◌*◌, length, drop, vec_capacity};
    ghost use Rattle.causal_buffer.specs.Row.{Row};

    ghost Value = { Row };

    ghost view = { λ p. record { room = p.room; items = drop p.start p.block.items } };

    ghost invariant = { λ p. (p.start ≤ length p.block.items) × (length (drop p.start p.block.items) ≤ p.room) × (2 * p.room ≤ vec_capacity p.block) };
}

impl Places {
    /// No places, with room for so many. `NoMemory` leaves nothing behind.
    pub fn create(alloc: Global, room: usize) -> Result<Places, NoMemory>
        requires { room ≤ 65535 }
        ensures { IfOk result (λ p. p ≡ record { room = room; items = [] }) }
    {
        Ok(Places {
            room,
            start: 0,
            block: Vec::with_capacity(alloc, 2 * room)?,
        })
    }

    /// How many places there are.
    fn len(&self) -> usize
        ensures { result ≡ length self.now.items }
    {
        self.block.len() - self.start
    }

    /// The message at a place. `None` where it is empty, or behind all.
    pub fn get(&self, place: usize) -> Option<&Message>
        ensures { option_copied result ≡ slice_index_or self.now.items place None }
    {
        if place < self.len() {
            self.block[self.start + place].as_ref()
        } else {
            None
        }
    }

    /// Takes out the message at a place, which is empty then. `None` where it is empty, or behind all.
    pub fn take(&mut self, place: usize) -> Option<Message>
        ensures taken { result ≡ slice_index_or self.old.items place None }
        ensures left { self.new ≡ record self.old { items = slice_set self.old.items place None } }
    {
        if place < self.len() {
            self.block[self.start + place].take()
        } else {
            None
        }
    }

    /// Moves the message at a place into another, and leaves the place empty.
    pub fn move_out(&mut self, place: usize, into: &mut Message)
        requires there { place < length self.old.items }
        requires some { is_some (slice_index_or self.old.items place None) ≡ true }
        ensures moved { Some into.new ≡ slice_index_or self.old.items place None }
        ensures left { self.new ≡ record self.old { items = slice_set self.old.items place None } }
    {
        move_out(&mut self.block[self.start + place], into);
    }

    /// Puts a message at an empty place.
    pub fn fill(&mut self, place: usize, message: Message)
        requires there { place < length self.old.items }
        requires empty { slice_index_or self.old.items place None ≡ None }
        ensures { self.new ≡ record self.old { items = slice_set self.old.items place (Some message) } }
    {
        fill(&mut self.block[self.start + place], message);
    }

    /// Lets go of all places, and of what stands there.
    pub fn clear(&mut self)
        ensures { self.new ≡ record self.old { items = [] } }
    {
        self.block.clear();
        self.start = 0;
    }

    /// Lets go of so many places in front, in which there is no message.
    pub fn pop_front(&mut self, count: usize)
        ensures { self.new ≡ record self.old { items = drop count self.old.items } }
    {
        self.start += count.min(self.len());
    }

    /// Makes so many empty places in front, as there is room for them, and lets go of those at the back that have none then.
    /// It makes none while counts only rise.
    pub fn push_front(&mut self, count: usize)
        ensures { self.new ≡ record self.old { items = replicate (min count self.old.room) None ++ take (self.old.room - count) self.old.items } }
    {
        self.start = put_before(&mut self.block, self.start, self.room, count);
    }

    /// Makes empty places at the back until there is this one.
    pub fn reach(&mut self, place: usize)
        requires { place < self.old.room }
        ensures made { self.new ≡ record self.old { items = self.old.items ++ replicate (place + 1 - length self.old.items) None } }
        ensures within { length self.new.items ≤ self.new.room }
        ensures small { self.new.room < 2 ^ 63 }
    {
        let row = self.block.len() - self.start;
        let more = (place + 1).saturating_sub(row);
        self.start = with_room(&mut self.block, self.start, more);
        put_behind(&mut self.block, more);
    }
}

/// Makes room for so many places more behind a row that stands behind free places, and tells how many these are then. The
/// block has twice the room.
fn with_room(block: &mut Vec<Option<Message>>, start: usize, more: usize) -> usize
    requires within { start ≤ length block.old.items }
    requires room { 2 * (length block.old.items + more) ≤ vec_capacity block.old + 2 * start }
    ensures same { drop result block.new.items ≡ drop start block.old.items }
    ensures within { result ≤ length block.new.items }
    ensures room { length block.new.items + more ≤ vec_capacity block.new }
    ensures capacity { vec_capacity block.new ≡ vec_capacity block.old }
{
    let row = block.len() - start;
    if start <= row {
        return start;
    }
    move_to_front(block, start);
    0
}

/// Moves a row that stands behind so many free places to the front.
fn move_to_front(block: &mut Vec<Option<Message>>, start: usize)
    requires { start ≤ length block.old.items }
    ensures items { block.new.items ≡ drop start block.old.items }
    ensures capacity { vec_capacity block.new ≡ vec_capacity block.old }
{
    let row = block.len() - start;
    for i in 0..row {
        move_one(block, start + i, i);
    }
    block.truncate(row);
}

/// Moves what stands at a place of a block to another.
fn move_one(block: &mut Vec<Option<Message>>, from: usize, to: usize)
    requires from { from < length block.old.items }
    requires to { to < length block.old.items }
    ensures items { block.new.items ≡ slice_set (slice_set block.old.items from None) to (slice_index_or block.old.items from None) }
    ensures capacity { vec_capacity block.new ≡ vec_capacity block.old }
{
    let place = block[from].take();
    block[to] = place;
}

/// Puts so many empty places behind all.
fn put_behind(block: &mut Vec<Option<Message>>, count: usize)
    requires { length block.old.items + count ≤ vec_capacity block.old }
    ensures items { block.new.items ≡ block.old.items ++ replicate count None }
    ensures capacity { vec_capacity block.new ≡ vec_capacity block.old }
{
    for _ in 0..count {
        block.push_reserved(None);
    }
}

/// Puts so many empty places before a row that stands behind free places, as there is room for them, and tells how many of
/// these there are then.
fn put_before(block: &mut Vec<Option<Message>>, start: usize, room: usize, count: usize) -> usize
    requires within { start ≤ length block.old.items }
    requires row { length (drop start block.old.items) ≤ room }
    requires room { room ≤ vec_capacity block.old }
    ensures made { drop result block.new.items ≡ replicate (min count room) None ++ take (room - count) (drop start block.old.items) }
    ensures within { result ≤ length block.new.items }
    ensures capacity { vec_capacity block.new ≡ vec_capacity block.old }
{
    if count == 0 {
        return start;
    }
    move_to_front(block, start);
    block.truncate(room.saturating_sub(count));
    let count = count.min(room);
    put_behind(block, count);
    block.rotate_right(count);
    0
}

/// Puts a message at an empty place. It is told to be empty, so that nothing of it is read: it may lie far away in memory.
fn fill(place: &mut Option<Message>, message: Message)
    requires { place.old ≡ None }
    ensures { place.new ≡ Some message }
{
    let None = place else { unreachable!() };
    *place = Some(message);
}

/// Moves the message at a place into another, and leaves the place empty.
fn move_out(place: &mut Option<Message>, into: &mut Message)
    requires { is_some place.old ≡ true }
    ensures moved { Some into.new ≡ place.old }
    ensures empty { place.new ≡ None }
{
    let Some(message) = place.take() else {
        unreachable!()
    };
    *into = message;
}
