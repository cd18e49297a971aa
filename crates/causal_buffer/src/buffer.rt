//! The buffer of early messages.

ghost use Rattle.std.specs.Prelude.{◌≡◌, ◌↔◌, ℕ, ◌+◌, ◌^◌, ◌<◌, ◌≤◌, true, false, List, [], length, slice_index_or, slice_set, IsTrue, IfOk, Some, None, if◌then◌else◌};
ghost use Rattle.std.specs.List.{find, list_any, flat_map};
ghost use Rattle.std.specs.Option.{is_some, option_map, IfSome, IfNone};
ghost use Rattle.op_base.specs.Timestamp.{entry};
ghost use Rattle.op_base.specs.Message.{number, id_of, fits};
ghost use Rattle.op_base.specs.declared.tag.TheConstants.{MOST_MEMBERS};
ghost use Rattle.causal_model.specs.Counts.{is_deliverable};
ghost use Rattle.causal_model.specs.Receiving.{is_old, is_far, next_early};
ghost use Rattle.causal_model.specs.State.{start};
ghost use Rattle.causal_model.specs.Early.{has_id, is_again, put_early, without};
ghost use Rattle.causal_buffer.specs.Buffer.{with_messages, offer_of, after_offer, AreAhead, AreNear, IsNextId, KeepsAhead, KeepsNear};
ghost use Rattle.causal_buffer.specs.Queue.{is_ready, messages, AreKept, AreUnready, IsLowest, IsEmptied};
ghost use Rattle.causal_buffer.specs.declared.queue.Queue.{Queue};
ghost use Rattle.causal_buffer.specs.Watch.{IsClosed, IsWatch};
ghost use Rattle.causal_buffer.specs.Standing.{HasStepsWithin};

use crate::queue::{Queue, number};
use crate::watch::Watch;
use causal_model::{MOST_WINDOW, most_unstable};
use op_base::{Message, MessageId, NoMemory, Tag};
use std::alloc::Global;
use std::marker::Model;

/// What comes of an offer: the message is kept, or it comes back.
#[derive(Debug, PartialEq, Eq, Drop)]
pub enum Offer {
    /// It is early now.
    Kept,
    /// A message of its id is early already.
    Again(Message),
    /// It is too far ahead: by its number, or by own messages that it has seen and that aren't sent.
    Far(Message),
}

/// The early messages of a store of 1 to 16 members with a window of at most 64, with room for all that can be early at once.
///
/// It is a queue for each member, with a place for each number from that of the member's next message on. So a message is
/// kept, found and removed at once by its number, whatever else is early and in whatever order messages come, and what is next
/// is found by one look at each member. A member's next message is looked at itself only where it isn't known to wait: what it
/// was found to wait for is kept. Contracts see the early messages as one list, by origin and then by number; where that is a
/// state's, they say what each call makes of the state.
#[derive(Debug, Drop)]
pub struct CausalBuffer {
    n: u8,
    w: u8,
    /// How many messages the queues have.
    held: usize,
    queues: Vec<Queue>,
    watch: Watch,
}

impl Model for CausalBuffer {
    ghost use Rattle.std.specs.List.{flat_map};
    ghost use Rattle.causal_buffer.specs.Buffer.{Buffer};
    ghost use Rattle.causal_buffer.specs.Queue.{AreQueues, messages};

    ghost Value = { Buffer };

    ghost view = { λ b. record { n = b.n; w = b.w; early = flat_map messages b.queues.items } };

    ghost invariant = { λ b. AreQueues b.n b.w b.held b.queues.items b.watch };
}

/// Whether a message can be delivered where so many of each member were: it is its origin's next, and its number there is
/// the only one above what was delivered.
pub fn is_deliverable(message: &Message, counts: &Tag) -> bool
    requires { IsTrue (fits (length counts.now) message.now) }
    ensures { result ≡ is_deliverable (length counts.now) counts.now message.now }
{
    let origin = message.origin;
    message.tag.at(origin) - 1 == counts.at(origin) && message.tag.count_above(counts) == 1
}

/// The id of the message that is taken next of those of members below one, where so many of each member were delivered as it is
/// known for. `None` exactly where none of them can be delivered.
fn first_ready(
    queues: &mut Vec<Queue>,
    watch: &mut Watch,
    end: u8,
    counts: &Tag,
) -> Option<MessageId>
    requires members { length queues.old.items ≡ length counts.now }
    requires end { end ≤ length counts.now }
    requires kept { (w : ℕ) × AreKept (length counts.now) w queues.old.items }
    requires watch { IsWatch (length counts.now) watch.old (flat_map messages queues.old.items) }
    requires counts { watch.old.counts ≡ counts.now }
    ensures found { IfSome result (IsLowest end (length counts.now) counts.now (flat_map messages queues.old.items)) }
    ensures none { IfNone result (AreUnready end (length counts.now) counts.now (flat_map messages queues.old.items)) }
    ensures members { length queues.new.items ≡ length queues.old.items }
    ensures kept { (w : ℕ) → AreKept (length counts.now) w queues.old.items → AreKept (length counts.now) w queues.new.items }
    ensures same { flat_map messages queues.new.items ≡ flat_map messages queues.old.items }
    ensures watch { IsWatch (length counts.now) watch.new (flat_map messages queues.new.items) }
    ensures counts { watch.new.counts ≡ counts.now }
    ensures waiting { IfNone result ((x : ℕ) → x < end → IsClosed watch.new x) }
{
    for member in watch.from..end.min(watch.end) {
        let ready = queues[member as usize].next_ready(member, counts, &mut watch.awaited);
        if ready.is_some() {
            return ready;
        }
        watch.from = member + 1;
    }
    None
}

/// For how many steps there has to be room where a message becomes early.
fn most_steps(
    queues: &mut Vec<Queue>,
    watch: &mut Watch,
    held: usize,
    message: &Message,
    counts: &Tag,
) -> usize
    requires fits { IsTrue (fits (length counts.now) message.now) }
    requires held { held ≡ length (flat_map messages queues.old.items) }
    requires few { held < 2 ^ 32 }
    requires members { length queues.old.items ≡ length counts.now }
    requires apart { is_again (flat_map messages queues.old.items) message.now ≡ false }
    requires kept { (w : ℕ) × AreKept (length counts.now) w queues.old.items }
    requires watch { IsWatch (length counts.now) watch.old (flat_map messages queues.old.items) }
    requires counts { watch.old.counts ≡ counts.now }
    ensures most { HasStepsWithin counts.now message.now (flat_map messages queues.old.items) result }
    ensures members { length queues.new.items ≡ length queues.old.items }
    ensures kept { (w : ℕ) → AreKept (length counts.now) w queues.old.items → AreKept (length counts.now) w queues.new.items }
    ensures same { flat_map messages queues.new.items ≡ flat_map messages queues.old.items }
    ensures watch { IsWatch (length counts.now) watch.new (flat_map messages queues.new.items) }
{
    let all = held + 1;
    if first_ready(queues, watch, counts.members(), counts).is_some() {
        return all;
    }
    if !is_deliverable(message, counts) {
        return 0;
    }
    let id = message.id();
    if watch.wakes(id) || queues[id.origin as usize].has_after(id) {
        return all;
    }
    1
}

impl CausalBuffer {
    ghost use Rattle.causal_buffer.specs.Standing.{IsBufferOf, AnswersInState, KeepsOffered, OfferKeepsState, KeepsEarly, KeepKeepsState, IsNextInState, TakesNext, IsTakenInState, KeepsStep};

    /// The buffer of a store of `n` members with a window `w`, with no message. It takes all the room that it will ever need,
    /// and doesn't fill it. `NoMemory` leaves nothing behind.
    pub fn create(alloc: Global, n: u8, w: u8) -> Result<CausalBuffer, NoMemory>
        requires some { 1 ≤ n }
        requires few { n ≤ MOST_MEMBERS }
        requires narrow { w ≤ MOST_WINDOW }
        ensures empty { IfOk result (λ buffer. buffer ≡ record { n = n; w = w; early = [] }) }
        ensures stands { IfOk result (λ buffer. (me : ℕ) → IsBufferOf w (start n me) buffer) }
    {
        let room = most_unstable(n, w) as usize;
        let mut queues = Vec::with_capacity(alloc, n as usize)?;
        for _ in 0..n {
            queues.push(Queue::create(alloc, room)?)?;
        }
        Ok(CausalBuffer {
            n,
            w,
            held: 0,
            queues,
            watch: Watch::create(n),
        })
    }

    /// Keeps a message of another member that wasn't delivered, unless one of its id is early already or it is too far ahead:
    /// then it comes back, and nothing changes. `me` is the member itself, and `counts` how many of each were delivered.
    pub fn offer(&mut self, message: Message, me: u8, counts: &Tag) -> Offer
        requires fits { IsTrue (fits self.old.n message) }
        requires me { me < self.old.n }
        requires counts { length counts.now ≡ self.old.n }
        requires new { is_old me counts.now message ≡ false }
        requires held_ahead { AreAhead counts.now self.old.early }
        requires held_near { AreNear self.old.n self.old.w counts.now self.old.early }
        ensures answer { result ≡ offer_of self.old me counts.now message }
        ensures early { self.new ≡ with_messages self.old (after_offer self.old.early message result) }

        // What was asked of the messages that are held holds of them again.
        ensures held_ahead { AreAhead counts.now self.new.early }
        ensures held_near { AreNear self.new.n self.new.w counts.now self.new.early }

        // Where it is a state's buffer:
        ensures in_state { AnswersInState me counts.now message self.old result }
        ensures stands { KeepsOffered message result self.old self.new }
        ensures is_state { OfferKeepsState me counts.now message result self.old }
    {
        if self.holds(message.id()) {
            return Offer::Again(message);
        }
        if self.is_far(&message, me, counts) {
            return Offer::Far(message);
        }
        self.keep(message, me, counts);
        Offer::Kept
    }

    /// Keeps a message of another member that wasn't delivered, is not early already and not too far ahead. It takes no
    /// memory.
    pub fn keep(&mut self, message: Message, me: u8, counts: &Tag)
        requires fits { IsTrue (fits self.old.n message) }
        requires me { me < self.old.n }
        requires counts { length counts.now ≡ self.old.n }
        requires new { is_old me counts.now message ≡ false }
        requires apart { is_again self.old.early message ≡ false }
        requires near { is_far self.old.n self.old.w me counts.now message ≡ false }
        requires held_ahead { AreAhead counts.now self.old.early }
        requires held_near { AreNear self.old.n self.old.w counts.now self.old.early }
        ensures early { self.new ≡ with_messages self.old (put_early message self.old.early) }

        // What was asked of the messages that are held holds of them again.
        ensures held_ahead { AreAhead counts.now self.new.early }
        ensures held_near { AreNear self.new.n self.new.w counts.now self.new.early }

        // Where it is a state's buffer:
        ensures stands { KeepsEarly message self.old self.new }
        ensures is_state { KeepKeepsState me counts.now message self.old }
    {
        let member = message.origin;
        self.watch.keep(member, number(&message));
        self.queues[member as usize].put(message, counts.at(member));
        self.held += 1;
    }

    /// Whether a message is too far ahead to be kept: by its number, which is above its origin's count, or by own messages
    /// that it has seen and that `me` hasn't sent.
    pub fn is_far(&self, message: &Message, me: u8, counts: &Tag) -> bool
        requires fits { IsTrue (fits self.now.n message.now) }
        requires me { me < self.now.n }
        requires counts { length counts.now ≡ self.now.n }
        requires ahead { entry counts.now message.now.origin < number message.now }
        ensures { result ≡ is_far self.now.n self.now.w me counts.now message.now }
    {
        number(message) - counts.at(message.origin) > most_unstable(self.n, self.w)
            || message.tag.at(me) > counts.at(me)
    }

    /// The id of the message that is taken next: of those that can be delivered, that of the lowest member. `None` exactly
    /// where no message can be delivered.
    pub fn next(&self, counts: &Tag) -> Option<MessageId>
        requires counts { length counts.now ≡ self.now.n }
        requires held_ahead { AreAhead counts.now self.now.early }
        ensures next { result ≡ option_map id_of (next_early self.now.n counts.now self.now.early) }
        ensures is_next { IfSome result (IsNextId self.now.n counts.now) }

        // Where it is a state's buffer:
        ensures in_state { IsNextInState counts.now self.now result }
    {
        if self.held == 0 {
            return None;
        }
        for member in 0..self.n {
            if let Some(id) = self.ready(member, counts) {
                return Some(id);
            }
        }
        None
    }

    /// Whether a message that isn't early, and can be delivered, would be taken next if it were kept: whether no early message of a
    /// lower member can be delivered. Where it is `true`, the message is meant to be delivered or dropped next: what is known of
    /// which messages wait counts it already. Nothing would be wrong otherwise, but more would be searched.
    pub fn comes_next(&mut self, message: &Message, counts: &Tag) -> bool
        requires fits { IsTrue (fits self.old.n message.now) }
        requires counts { length counts.now ≡ self.old.n }
        requires apart { is_again self.old.early message.now ≡ false }
        requires deliverable { is_deliverable self.old.n counts.now message.now ≡ true }
        ensures next { IsTrue result ↔ (next_early self.old.n counts.now (put_early message.now self.old.early) ≡ Some message.now) }
        ensures unchanged { self.new ≡ self.old }
    {
        if self.held == 0 {
            return true;
        }
        if self.ready_below(message.origin, counts).is_some() {
            return false;
        }
        self.count(message.id());
        true
    }

    /// Takes the message that is taken next out, into a place: of those that can be delivered, that of the lowest member. `false`
    /// exactly where no message can be delivered, and then nothing changes.
    pub fn take_next(&mut self, counts: &Tag, into: &mut Message) -> bool
        requires counts { length counts.now ≡ self.old.n }
        ensures taken { (if result then Some into.new else None) ≡ next_early self.old.n counts.now self.old.early }
        ensures others { self.new ≡ (if result then with_messages self.old (without (id_of into.new) self.old.early) else self.old) }
        ensures unwritten { result ≡ false → into.new ≡ into.old }

        // What was asked of the messages that are held holds of them again, once the message is counted.
        ensures held_ahead { IsTrue result → KeepsAhead (id_of into.new) self.old self.new }
        ensures held_near { IsTrue result → KeepsNear (id_of into.new) self.old self.new }

        // Where it is a state's buffer:
        ensures in_state { IsTakenInState counts.now self.old (if result then Some into.new else None) }
        ensures stands { IsTrue result → KeepsStep (id_of into.new) self.old self.new }
    {
        if self.held == 0 {
            return false;
        }
        match self.ready_below(self.n, counts) {
            Some(id) => {
                self.move_out(id, into);
                self.count(id);
                true
            }
            None => false,
        }
    }

    /// Moves the early message of an id, which is there, into a place.
    fn move_out(&mut self, id: MessageId, into: &mut Message)
        requires member { id.origin < self.old.n }
        requires there { is_some (find (has_id id) self.old.early) ≡ true }
        ensures moved { Some into.new ≡ find (has_id id) self.old.early }
        ensures others { self.new ≡ with_messages self.old (without id self.old.early) }
    {
        self.queues[id.origin as usize].move_out(id, into);
        self.held -= 1;
    }

    /// The id of the message that is taken next of those of members below one. `None` exactly where none of them can be
    /// delivered.
    fn ready_below(&mut self, end: u8, counts: &Tag) -> Option<MessageId>
        requires end { end ≤ self.old.n }
        requires counts { length counts.now ≡ self.old.n }
        ensures found { IfSome result (IsLowest end self.old.n counts.now self.old.early) }
        ensures none { IfNone result (AreUnready end self.old.n counts.now self.old.early) }
        ensures unchanged { self.new ≡ self.old }
    {
        self.watch.go_on(counts);
        first_ready(&mut self.queues, &mut self.watch, end, counts)
    }

    /// Goes on where the message of an id, which isn't early, is counted.
    fn count(&mut self, id: MessageId)
        requires { id.origin < self.old.n }
        ensures unchanged { self.new ≡ self.old }
    {
        let follows = self.queues[id.origin as usize].has_after(id);
        self.watch.count(id, follows);
    }

    /// The id of a member's next message, where that is early and can be delivered.
    fn ready(&self, member: u8, counts: &Tag) -> Option<MessageId>
        requires member { member < self.now.n }
        requires counts { length counts.now ≡ self.now.n }
        ensures ready { result ≡ option_map id_of (find (is_ready self.now.n counts.now member) self.now.early) }
        ensures is_next { IfSome result (IsNextId self.now.n counts.now) }
    {
        let queue = &self.queues[member as usize];
        let seq = counts.at(member).checked_add(1)?;
        let id = MessageId {
            origin: member,
            seq,
        };
        let message = queue.get(id)?;
        is_deliverable(message, counts).then_some(id)
    }

    /// For how many steps there has to be room where a message that isn't early becomes so, and then what can be delivered is
    /// taken: no fewer than these steps are. It is 1 where none is early, or it is known that no other follows; 0 where others
    /// are early and it is known that none can be delivered; and else one for each early message and one for it.
    pub fn most_steps(&mut self, message: &Message, counts: &Tag) -> usize
        requires fits { IsTrue (fits self.old.n message.now) }
        requires counts { length counts.now ≡ self.old.n }
        requires apart { is_again self.old.early message.now ≡ false }
        ensures most { HasStepsWithin counts.now message.now self.old.early result }
        ensures unchanged { self.new ≡ self.old }
    {
        if self.held == 0 {
            return 1;
        }
        self.watch.go_on(counts);
        most_steps(
            &mut self.queues,
            &mut self.watch,
            self.held,
            message,
            counts,
        )
    }

    /// Takes out the message of an id. `None` exactly where none has it, and then nothing changes.
    pub fn remove(&mut self, id: MessageId) -> Option<Message>
        requires { id.origin < self.old.n }
        ensures taken { result ≡ find (has_id id) self.old.early }
        ensures others { self.new ≡ with_messages self.old (without id self.old.early) }

        // What was asked of the messages that are held holds of them again, once a next message of its origin is counted.
        ensures held_ahead { KeepsAhead id self.old self.new }
        ensures held_near { KeepsNear id self.old self.new }

        // Where it is a state's buffer, and the id of its next message:
        ensures in_state { TakesNext id self.old result }
        ensures stands { KeepsStep id self.old self.new }
    {
        let taken = self.queues[id.origin as usize].take(id);
        self.held -= usize::from(taken.is_some());
        taken
    }

    /// Lets all messages go: it is as `create` makes it. It takes no memory.
    pub fn clear(&mut self)
        ensures empty { self.new ≡ record { n = self.old.n; w = self.old.w; early = [] } }
        ensures stands { (me : ℕ) → IsBufferOf self.old.w (start self.old.n me) self.new }
    {
        self.watch = Watch::create(self.n);
        clear_each(&mut self.queues);
        self.held = 0;
    }

    /// Whether a message of an id is early.
    pub fn holds(&self, id: MessageId) -> bool
        requires { id.origin < self.now.n }
        ensures { result ≡ list_any (has_id id) self.now.early }
    {
        self.queues[id.origin as usize].get(id).is_some()
    }

    /// How many messages are early.
    pub fn len(&self) -> usize
        ensures { result ≡ length self.now.early }
    {
        self.held
    }

    /// Whether no message is early.
    pub fn is_empty(&self) -> bool
        ensures { IsTrue result ↔ (self.now.early ≡ []) }
    {
        self.held == 0
    }
}

/// Lets all messages of all members go.
fn clear_each(queues: &mut Vec<Queue>)
    ensures same { length queues.new.items ≡ length queues.old.items }
    ensures empty { (member : ℕ) (q : Queue) → member < length queues.old.items → IsEmptied (slice_index_or queues.old.items member q) (slice_index_or queues.new.items member q) }
{
    for member in 0..queues.len() {
        queues[member].clear();
    }
}
