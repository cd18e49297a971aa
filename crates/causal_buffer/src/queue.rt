//! The early messages of one member: a row with a place for each number, so that a message is found by its number alone.

ghost use Rattle.std.specs.Prelude.{◌≡◌, ℕ, ◌+◌, ◌-◌, ◌<◌, ◌≤◌, true, false, ◌||◌, ◌&&◌, ◌==◌, nat_lt, [], ◌∷◌, length, All, IsTrue, IfOk, if◌then◌else◌};
ghost use Rattle.std.specs.List.{find};
ghost use Rattle.std.specs.Option.{is_some, option_copied, option_map, option_to_list, IfSome, IfNone};
ghost use Rattle.op_base.specs.Timestamp.{entry};
ghost use Rattle.op_base.specs.Message.{number, id_of, fits};
ghost use Rattle.causal_model.specs.Early.{has_id, without, put_early};
ghost use Rattle.causal_buffer.specs.Buffer.{IsNextId};
ghost use Rattle.causal_buffer.specs.Queue.{IsQueue, IsEmptied, AreWithin, IsFirstMissing, AreSeen, AreTold, can_be_taken, is_ready, messages};
ghost use Rattle.causal_buffer.specs.Watch.{HasNoneAfter, NextWaits};
ghost use Rattle.causal_buffer.specs.declared.queue.TheConstants.{NO_WAIT};

use crate::buffer::is_deliverable;
use crate::row::Places;
use op_base::{Message, MessageId, NoMemory, Tag};
use std::alloc::Global;

/// A message's number, and 0 where its origin is no member.
pub fn number(message: &Message) -> u32
    ensures { result ≡ number message.now }
{
    if message.origin < message.tag.members() {
        message.tag.at(message.origin)
    } else {
        0
    }
}

/// The first member but its origin of whom a message has seen more than was delivered. `None` exactly where there is none.
fn first_missing(message: &Message, counts: &Tag) -> Option<u8>
    requires { length message.now.tag ≡ length counts.now }
    ensures first { IfSome result (IsFirstMissing counts.now message.now) }
    ensures none { IfNone result (AreSeen (length counts.now) counts.now message.now) }
{
    for member in 0..message.tag.members() {
        if member != message.origin && message.tag.at(member) > counts.at(member) {
            return Some(member);
        }
    }
    None
}

/// Forgets what the message of a number waits for.
fn forget(wait: &mut Wait, seq: u32)
    ensures { wait.new ≡ (if wait.old.seq == seq then NO_WAIT else wait.old) }
{
    if wait.seq == seq {
        *wait = NO_WAIT;
    }
}

/// Takes over what the message of a number waits for, where that is known: of the member no more are awaited then.
fn lower(wait: &Wait, seq: u32, awaited: &mut Tag)
    requires { wait.now.member < length awaited.old }
    ensures members { length awaited.new ≡ length awaited.old }
    ensures lower { (x : ℕ) → entry awaited.new x ≤ entry awaited.old x }
    ensures known { wait.now.seq ≡ seq → entry awaited.new wait.now.member ≤ wait.now.count }
{
    if wait.seq == seq && wait.count < awaited.at(wait.member) {
        awaited.set(wait.member, wait.count);
    }
}

/// The early messages of one member: a place for each number from `first` on, empty where none of that number is early.
///
/// A number's place is found by one subtraction. While the member's count only rises, a place is made once for each number,
/// and moved at most once for each that goes, so a message costs the same however many are early, and in whatever order they
/// come.
#[derive(Debug, Drop)]
pub struct Queue {
    first: u32,
    places: Places,
    filled: usize,
    /// What was found when a message was looked at last.
    wait: Wait,
}

/// What the message of a number waits for: so many messages of another member, which it has seen. So one look tells that it
/// can't be delivered yet, and its place isn't looked at again until they were delivered. Of number 0, which no message has,
/// it tells nothing.
#[derive(Debug, Clone, Copy)]
pub struct Wait {
    /// The number of the message that waits.
    pub seq: u32,
    /// The member for one of whose messages it waits.
    pub member: u8,
    /// How many of them it has seen.
    pub count: u32,
}

/// What is known where no message was looked at.
const NO_WAIT: Wait = Wait {
    seq: 0,
    member: 0,
    count: 0,
};

impl Queue {
    /// The queue with no message and with room for so many places. `NoMemory` leaves nothing behind.
    pub fn create(alloc: Global, room: usize) -> Result<Queue, NoMemory>
        requires { room ≤ 65535 }
        ensures kept { IfOk result (λ queue. (member : ℕ) → IsQueue member queue) }
        ensures empty { IfOk result (λ queue. messages queue ≡ []) }
        ensures room { IfOk result (λ queue. queue.places.room ≡ room) }
        ensures wait { IfOk result (λ queue. queue.wait.member ≡ 0) }
    {
        Ok(Queue {
            first: 1,
            places: Places::create(alloc, room)?,
            filled: 0,
            wait: NO_WAIT,
        })
    }

    /// How many messages there are.
    pub fn len(&self) -> usize
        ensures { result ≡ self.now.filled }
    {
        self.filled
    }

    /// The message of an id of the queue's member. `None` exactly where there is none.
    pub fn get(&self, id: MessageId) -> Option<&Message>
        requires { IsQueue id.origin self.now }
        ensures { option_copied result ≡ find (has_id id) (messages self.now) }
    {
        if self.filled == 0 {
            return None;
        }
        let place = id.seq.checked_sub(self.first)?;
        self.places.get(place as usize)
    }

    /// Takes out the message of an id of the queue's member. `None` exactly where there is none.
    pub fn take(&mut self, id: MessageId) -> Option<Message>
        requires { IsQueue id.origin self.old }
        ensures taken { result ≡ find (has_id id) (messages self.old) }
        ensures others { messages self.new ≡ without id (messages self.old) }
        ensures fewer { length (messages self.new) + length (option_to_list result) ≡ length (messages self.old) }
        ensures kept { IsQueue id.origin self.new }
        ensures room { self.new.places.room ≡ self.old.places.room }
        ensures wait { self.new.wait ≡ self.old.wait }
    {
        let place = id.seq.checked_sub(self.first)?;
        let message = self.places.take(place as usize)?;
        self.filled -= 1;
        Some(message)
    }

    /// Puts a new message of the queue's member at its place. It and those that are there are above the member's count, by no
    /// more than there is room.
    pub fn put(&mut self, message: Message, count: u32)
        requires queue { IsQueue message.origin self.old }
        requires new { find (has_id (id_of message)) (messages self.old) ≡ None }
        requires near { AreWithin count self.old.places.room (message ∷ messages self.old) }
        ensures put { messages self.new ≡ put_early message (messages self.old) }
        ensures kept { IsQueue message.origin self.new }
        ensures room { self.new.places.room ≡ self.old.places.room }
        ensures wait { self.new.wait.member ≤ self.old.wait.member }
    {
        let seq = number(&message);
        let first = count + 1;
        self.places
            .pop_front(first.saturating_sub(self.first) as usize);
        self.places
            .push_front(self.first.saturating_sub(first) as usize);
        self.first = first;
        let place = (seq - first) as usize;
        self.places.reach(place);
        self.places.fill(place, message);
        self.filled += 1;
        forget(&mut self.wait, seq);
    }

    /// Lets all messages go.
    pub fn clear(&mut self)
        ensures { IsEmptied self.old self.new }
    {
        self.first = 1;
        self.places.clear();
        self.filled = 0;
        self.wait = NO_WAIT;
    }

    /// Moves the message of an id of the queue's member, which is there, into a place.
    pub fn move_out(&mut self, id: MessageId, into: &mut Message)
        requires queue { IsQueue id.origin self.old }
        requires there { is_some (find (has_id id) (messages self.old)) ≡ true }
        ensures moved { Some into.new ≡ find (has_id id) (messages self.old) }
        ensures others { messages self.new ≡ without id (messages self.old) }
        ensures fewer { length (messages self.new) + 1 ≡ length (messages self.old) }
        ensures kept { IsQueue id.origin self.new }
        ensures room { self.new.places.room ≡ self.old.places.room }
        ensures wait { self.new.wait ≡ self.old.wait }
    {
        let place = id.seq - self.first;
        self.places.move_out(place as usize, into);
        self.filled -= 1;
    }

    /// Whether the message after that of an id of the queue's member is there.
    pub fn has_after(&self, id: MessageId) -> bool
        requires { IsQueue id.origin self.now }
        ensures { result ≡ false → HasNoneAfter id (messages self.now) }
    {
        let Some(seq) = id.seq.checked_add(1) else {
            return false;
        };
        let after = MessageId {
            origin: id.origin,
            seq,
        };
        self.get(after).is_some()
    }

    /// The id of the member's next message, where it is there and can be delivered. Where it can't, what it waits for is kept,
    /// and awaited.
    #[inline(always)]
    pub fn next_ready(&mut self, member: u8, counts: &Tag, awaited: &mut Tag) -> Option<MessageId>
        requires member { member < length counts.now }
        requires queue { IsQueue member self.old }
        requires fit { All (λ m. IsTrue (fits (length counts.now) m)) (messages self.old) }
        requires wait { self.old.wait.member < length counts.now }
        requires awaited { length awaited.old ≡ length counts.now }
        ensures ready { result ≡ option_map id_of (find (is_ready (length counts.now) counts.now member) (messages self.old)) }
        ensures is_next { IfSome result (IsNextId (length counts.now) counts.now) }
        ensures same { self.new ≡ record self.old { wait = self.new.wait } }
        ensures kept { IsQueue member self.new }
        ensures wait { self.new.wait.member < length counts.now }
        ensures waits { IfNone result (NextWaits counts.now awaited.new member (messages self.new)) }
        ensures awaited { length awaited.new ≡ length awaited.old }
        ensures lower { (x : ℕ) → entry awaited.new x ≤ entry awaited.old x }
    {
        let seq = counts.at(member).checked_add(1)?;
        let id = MessageId {
            origin: member,
            seq,
        };
        if self.is_ready(id, counts) {
            return Some(id);
        }
        lower(&self.wait, seq, awaited);
        None
    }

    /// Whether the message of an id of the queue's member, which is its next, is there and can be delivered. It looks at the
    /// message only where it isn't known to wait.
    #[inline(always)]
    fn is_ready(&mut self, id: MessageId, counts: &Tag) -> bool
        requires queue { IsQueue id.origin self.old }
        requires fit { All (λ m. IsTrue (fits (length counts.now) m)) (messages self.old) }
        requires wait { self.old.wait.member < length counts.now }
        requires next { id.seq ≡ entry counts.now id.origin + 1 }
        ensures ready { result ≡ can_be_taken (length counts.now) counts.now (find (has_id id) (messages self.old)) }
        ensures same { self.new ≡ record self.old { wait = self.new.wait } }
        ensures kept { IsQueue id.origin self.new }
        ensures wait { self.new.wait.member < length counts.now }
        ensures told { result ≡ false → AreTold id.seq counts.now self.new.wait (messages self.new) }
    {
        !self.waits(id.seq, counts) && self.look(id, counts)
    }

    /// Whether there is no message, or the one of a number is known to wait for more than was delivered.
    #[inline(always)]
    fn waits(&self, seq: u32, counts: &Tag) -> bool
        requires { self.now.wait.member < length counts.now }
        ensures { result ≡ ((self.now.filled == 0) || ((self.now.wait.seq == seq) && nat_lt (entry counts.now self.now.wait.member) self.now.wait.count)) }
    {
        self.filled == 0 || self.wait.seq == seq && counts.at(self.wait.member) < self.wait.count
    }

    /// Whether the message of an id of the queue's member is there and can be delivered. Where it can't, what it waits for is
    /// kept.
    fn look(&mut self, id: MessageId, counts: &Tag) -> bool
        requires queue { IsQueue id.origin self.old }
        requires fit { All (λ m. IsTrue (fits (length counts.now) m)) (messages self.old) }
        requires wait { self.old.wait.member < length counts.now }
        requires next { id.seq ≡ entry counts.now id.origin + 1 }
        ensures ready { result ≡ can_be_taken (length counts.now) counts.now (find (has_id id) (messages self.old)) }
        ensures same { self.new ≡ record self.old { wait = self.new.wait } }
        ensures kept { IsQueue id.origin self.new }
        ensures wait { self.new.wait.member < length counts.now }
        ensures told { result ≡ false → AreTold id.seq counts.now self.new.wait (messages self.new) }
    {
        let Some(message) = self.get(id) else {
            return false;
        };
        if is_deliverable(message, counts) {
            return true;
        }
        if let Some(member) = first_missing(message, counts) {
            self.wait = Wait {
                seq: id.seq,
                member,
                count: message.tag.at(member),
            };
        }
        false
    }
}
