//! A member's own messages that aren't stable.

ghost use Rattle.std.specs.Prelude.{◌≡◌, ◌≢◌, ℕ, ◌<◌, ◌≤◌, List, [], ◌∷◌, ◌++◌, length, drop, take, nat_le, IsTrue, IfOk, All, AllPairs};
ghost use Rattle.op_base.specs.Message.{fits, number};
ghost use Rattle.op_base.specs.declared.message.Message.{Message};
ghost use Rattle.causal_model.specs.Chapter.{is_chapter};
ghost use Rattle.causal_model.specs.Sending.{outbox_of};
ghost use Rattle.causal_model.specs.Stability.{stable_vector};
ghost use Rattle.outbox.specs.Sent.{ComesAfter, IsHusk, AreAbove, room_of, unstable_in};

use causal_model::{MOST_WINDOW, most_unstable};
use op_base::{MOST_MEMBERS, Message, NoMemory, Op, Tag};
use std::alloc::Global;
use std::marker::Model;

/// Own messages that aren't stable, oldest first: at most a window of operations and one of no-ops. Contracts see them with
/// the numbers of their store.
///
/// A drop moves nothing. A message that goes leaves a husk in its place, which carries the no-op, so that its operation's
/// memory is freed at once. There is room for twice as many as may be kept. When that is full at a push, the husks go and
/// the messages move to the front; all of these were pushed since the last such move, so no message is ever moved twice.
/// When a drop leaves no message, the husks go too.
#[derive(Drop)]
pub struct Outbox {
    n: u8,
    w: u8,
    /// The husks, and behind them the messages.
    kept: Vec<Message>,
    /// How many husks there are.
    gone: usize,
}

impl Model for Outbox {
    ghost use Rattle.outbox.specs.Sent.{Sent};

    ghost Value = { Sent };

    ghost use Rattle.outbox.specs.Fields.{sent_of, IsKept};

    ghost view = { sent_of };

    ghost invariant = { IsKept };
}

impl Outbox {
    ghost use Rattle.outbox.specs.Standing.{SendsNext, DropsAfter};

    /// The empty outbox of a member of a store of `n` members with a window `w`, with the memory for all that it may hold.
    /// `NoMemory` leaves nothing behind.
    pub fn create(alloc: Global, n: u8, w: u8) -> Result<Outbox, NoMemory>
        requires some { 1 ≤ n }
        requires few { n ≤ MOST_MEMBERS }
        requires window { 1 ≤ w }
        requires narrow { w ≤ MOST_WINDOW }
        ensures empty { IfOk result (λ o. o ≡ record { n = n; w = w; messages = [] }) }
        ensures sent { IfOk result (λ o. (me : ℕ) → o.messages ≡ outbox_of n me []) }
    {
        let room = 2 * most_unstable(n, w) as usize;
        Ok(Outbox {
            n,
            w,
            kept: Vec::with_capacity(alloc, room)?,
            gone: 0,
        })
    }

    /// Puts a message at the end.
    pub fn push(&mut self, message: Message)
        requires room { length self.old.messages < room_of self.old.n self.old.w }
        requires fits { IsTrue (fits self.old.n message) }
        requires next { All (λ m. ComesAfter m message) self.old.messages }
        ensures pushed { self.new ≡ record { n = self.old.n; w = self.old.w; messages = self.old.messages ++ message ∷ [] } }
        ensures sent { SendsNext message self.old.messages self.new.messages }
    {
        if self.kept.len() == self.kept.capacity() {
            drop(self.kept.drain(..self.gone));
            self.gone = 0;
        }
        // There is room now, which `create` took.
        self.kept.push_reserved(message);
    }

    /// Lets the messages go that are stable where these are the stable counts. It looks no further than the first that
    /// stays, and moves none.
    pub fn drop_stable(&mut self, stable: &Tag)
        requires { length stable.now ≡ self.old.n }
        ensures dropped { self.new ≡ record { n = self.old.n; w = self.old.w; messages = unstable_in stable.now self.old.messages } }
        ensures sent { DropsAfter stable.now self.old self.new }
    {
        self.gone += drop_front(&mut self.kept[self.gone..], stable);
        if self.gone == self.kept.len() {
            self.kept.clear();
            self.gone = 0;
        }
    }

    /// Lets all messages go: it is as `create` makes it. It takes no memory.
    pub fn clear(&mut self)
        ensures { self.new ≡ record { n = self.old.n; w = self.old.w; messages = [] } }
    {
        self.kept.clear();
        self.gone = 0;
    }

    /// The messages, oldest first.
    pub fn messages(&self) -> &[Message]
        ensures { result.now ≡ self.now.messages }
    {
        &self.kept[self.gone..]
    }

    /// The messages with a number above this one, oldest first: those that a replica with so many messages of the member lacks.
    /// However many are left out, finding the others costs a few looks.
    pub fn messages_above(&self, seq: u32) -> &[Message]
        ensures { AreAbove seq self.now.messages result.now }
    {
        let kept = &self.kept;
        above(&kept[self.gone..], seq)
    }
}

/// Those of messages that have a number above this one.
fn above(messages: &[Message], seq: u32) -> &[Message]
    requires rise { AllPairs ComesAfter messages.now }
    ensures { AreAbove seq messages.now result.now }
{
    &messages[count_up_to(messages, seq)..]
}

/// How many messages in front have a number up to this one. Where it is that of the newest or a greater one, one look tells.
fn count_up_to(sent: &[Message], seq: u32) -> usize
    requires rise { AllPairs ComesAfter sent.now }
    ensures some { result ≤ length sent.now }
    ensures front { All (λ m. number m ≤ seq) (take result sent.now) }
    ensures rest { All (λ m. seq < number m) (drop result sent.now) }
{
    match sent.last() {
        Some(newest) if number(newest) <= seq => sent.len(),
        _ => sent.partition_point(
            |message: &Message| -> bool
                ensures { result ≡ nat_le (number message.now) seq }
            { number(message) <= seq },
        ),
    }
}

/// A message's number, and 0 where its origin is no member.
fn number(message: &Message) -> u32
    ensures { result ≡ number message.now }
{
    if message.origin < message.tag.members() {
        message.tag.at(message.origin)
    } else {
        0
    }
}

/// Leaves husks of the stable messages in front. How many they are.
fn drop_front(messages: &mut [Message], stable: &Tag) -> usize
    requires fit { All (λ m. IsTrue (fits (length stable.now) m)) messages.old }
    requires rise { AllPairs ComesAfter messages.old }
    ensures some { result ≤ length messages.new }
    ensures husks { All IsHusk (take result messages.new) }
    ensures rest { drop result messages.new ≡ unstable_in stable.now messages.old }
{
    let gone = stable_len(messages, stable);
    make_husks(&mut messages[..gone]);
    gone
}

/// Leaves a husk in each message's place: one that carries the no-op.
fn make_husks(messages: &mut [Message])
    ensures { All IsHusk messages.new }
{
    for message in messages.iter_mut() {
        message.op = Op::NoOp;
    }
}

/// How many messages in front are stable.
fn stable_len(messages: &[Message], stable: &Tag) -> usize
    requires fit { All (λ m. IsTrue (fits (length stable.now) m)) messages.now }
    requires rise { AllPairs ComesAfter messages.now }
    ensures some { result ≤ length messages.now }
    ensures rest { drop result messages.now ≡ unstable_in stable.now messages.now }
{
    for (i, message) in messages.iter().enumerate() {
        if !stable.covers_id(message.id()) {
            return i;
        }
    }
    messages.len()
}
