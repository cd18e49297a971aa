//! The window of all members, and the check of a message that comes.

ghost use Rattle.std.specs.Prelude.{◌≡◌, ◌≢◌, ℕ, ◌+◌, ◌<◌, ◌≤◌, Bool, true, false, not, ◌&&◌, List, [], ◌∷◌, ◌++◌, length, filter, map, min, replicate, slice_set, nat_lt, IfOk, IfSome, IsTrue, None, if◌then◌else◌};
ghost use Rattle.op_base.specs.Message.{fits, number};
ghost use Rattle.op_base.specs.Timestamp.{entry};
ghost use Rattle.op_base.specs.declared.message.Message.{Message as AMessage};
ghost use Rattle.causal_model.specs.Chapter.{is_chapter};
ghost use Rattle.causal_model.specs.Counts.{counts, is_deliverable, members};
ghost use Rattle.causal_model.specs.Crook.{first_below, first_some, crook_of};
ghost use Rattle.causal_model.specs.Stability.{last_tag, stable_vector, is_stable, carries_operation, noop_window, unstable_operations, unstable_noops};
ghost use Rattle.tag_window.specs.Window.{held_of, held_count, IsNextNumber};
ghost use Rattle.tag_window.specs.Check.{verdict, regress_in, unclosed_in, overrun_in, noop_overrun_in, added, crook_in};
ghost use Rattle.tag_window.specs.History.{IsWindowOf, IsWindowWith};

use crate::dropping::{clear_each, drop_of_each, is_everywhere_below};
use crate::held::Held;
use crate::queue::Queue;
use causal_model::{MOST_WINDOW, most_noops, most_unstable};
use op_base::{Crook, MOST_MEMBERS, Message, NoMemory, Op, Tag};
use std::alloc::Global;
use std::marker::Model;

/// The timestamps of the unstable messages of one epoch, each with whether it is a no-op.
///
/// Contracts see the window of operations, and for each member what is held of it, the lowest number first.
#[derive(Drop)]
pub struct TagWindow {
    w: u8,
    /// The no-op window.
    z: u32,
    /// A number for each member that is not above any number held of it.
    firsts: Tag,
    queues: Vec<Queue>,
}

impl Model for TagWindow {
    ghost use Rattle.std.specs.Prelude.{map};
    ghost use Rattle.tag_window.specs.Window.{Window};

    ghost Value = { Window };

    ghost use Rattle.tag_window.specs.Queues.{AreHeld};

    ghost view = { λ t. record { w = t.w; held = map (λ q. q.held) t.queues.items } };

    ghost invariant = { λ t. AreHeld t.w t.z t.firsts t.queues.items };
}

/// The least member at which a timestamp is below another of as many members.
fn first_below(had: &Tag, got: &Tag) -> Option<u8>
    requires { length had.now ≡ length got.now }
    ensures least { result ≡ first_below (length had.now) had.now got.now }
    ensures member { IfSome result (λ x. x < length had.now) }
{
    if had.at_most(got) {
        return None;
    }
    for x in 0..had.members() {
        if got.at(x) < had.at(x) {
            return Some(x);
        }
    }
    None
}

/// Why a message falls behind its sender's last.
fn regress(message: &Message, last: &Tag) -> Option<Crook>
    requires { length last.now ≡ length message.now.tag }
    ensures { result ≡ regress_in (length last.now) message.now last.now }
{
    let x = first_below(last, &message.tag)?;
    Some(Crook::Regress {
        x,
        had: last.at(x),
        got: message.tag.at(x),
    })
}

/// Whether a message's sender has seen no message of another member since its last one.
fn has_seen_no_more(message: &Message, last: &Tag) -> bool
    requires origin { message.now.origin < length message.now.tag }
    requires last { length last.now ≡ length message.now.tag }
    ensures { IsTrue result → (x : ℕ) → x ≢ message.now.origin → entry message.now.tag x ≤ entry last.now x }
{
    message.tag.at(message.origin) > last.at(message.origin) && message.tag.count_above(last) == 1
}

/// Whether a message isn't stable where these are the stable counts.
fn is_unstable(message: &Message, stable: &Tag) -> bool
    requires tag { message.now.origin < length message.now.tag }
    requires stable { message.now.origin < length stable.now }
    ensures { result ≡ not (is_stable stable.now message.now) }
{
    !stable.covers_id(message.id())
}

/// How many operations a message adds to the unstable ones: one, or none.
fn more_operations(message: &Message, stable: &Tag) -> u32
    requires tag { message.now.origin < length message.now.tag }
    requires stable { message.now.origin < length stable.now }
    ensures value { result ≡ added false stable.now message.now }
    ensures one { result ≤ 1 }
{
    match &message.op {
        Op::Update(_) => u32::from(is_unstable(message, stable)),
        Op::NoOp => 0,
    }
}

/// How many no-ops a message adds to the unstable ones: one, or none.
fn more_noops(message: &Message, stable: &Tag) -> u32
    requires tag { message.now.origin < length message.now.tag }
    requires stable { message.now.origin < length stable.now }
    ensures value { result ≡ added true stable.now message.now }
    ensures one { result ≤ 1 }
{
    match &message.op {
        Op::NoOp => u32::from(is_unstable(message, stable)),
        Op::Update(_) => 0,
    }
}

/// Lowers a timestamp's number at a member to another, where that is less. Else nothing is written, as nearly always: all numbers are
/// compared next, and would wait for what was just written.
#[inline(always)]
fn lower_to(firsts: &mut Tag, x: u8, number: u32)
    requires { x < length firsts.old }
    ensures { firsts.new ≡ slice_set firsts.old x (min (entry firsts.old x) number) }
{
    if number < firsts.at(x) {
        firsts.set(x, number);
    }
}

impl TagWindow {
    /// The empty window of so many members, 1 to 16, and a window of 1 to 64 operations. It takes the memory for all that
    /// can be unstable, and `NoMemory` leaves nothing behind.
    pub fn create(alloc: Global, n: u8, w: u8) -> Result<TagWindow, NoMemory>
        requires some { 1 ≤ n }
        requires few { n ≤ MOST_MEMBERS }
        requires window_some { 1 ≤ w }
        requires window_few { w ≤ MOST_WINDOW }
        ensures empty { IfOk result (λ t. t ≡ record { w = w; held = replicate n [] }) }
        // it is of what any member delivered before there was a message
        ensures nothing { IfOk result (λ t. (me : ℕ) → IsWindowOf n w me [] t) }
    {
        let z = most_noops(n, w);
        let room = most_unstable(n, w) as usize;
        let mut queues = Vec::with_capacity(alloc, n as usize)?;
        for origin in 0..n {
            queues.push(Queue::create(alloc, n, origin, room)?)?;
        }
        Ok(TagWindow {
            w,
            z,
            firsts: Tag::zero(n),
            queues,
        })
    }

    /// Why a message is crooked that can be delivered, where `last` is its sender's last timestamp and `stable_after` has
    /// the stable counts after it: the first of the four causes that applies.
    pub fn check(&self, message: &Message, last: &Tag, stable_after: &Tag) -> Result<(), Crook>
        requires fits { IsTrue (fits (length self.now.held) message.now) }
        requires last { length last.now ≡ length self.now.held }
        requires stable { length stable_after.now ≡ length self.now.held }
        ensures held { result ≡ verdict (crook_in self.now message.now last.now stable_after.now) }
        // where it is of a member's unstable messages, the cause is the one over all that the member delivered
        ensures told { (n w me : ℕ) (ms : List AMessage) → me < n → IsTrue (is_chapter n w me ms) → IsWindowOf n w me ms self.now → IsTrue (is_deliverable n (counts n ms) message.now) → message.now.origin ≢ me → last.now ≡ last_tag n ms message.now.origin → stable_after.now ≡ stable_vector n me (ms ++ message.now ∷ []) → result ≡ verdict (crook_of n w me ms message.now) }
    {
        match self.crook(message, last, stable_after) {
            Some(crook) => Err(crook),
            None => Ok(()),
        }
    }

    /// Holds the next timestamp of a member.
    pub fn push(&mut self, origin: u8, tag: Tag, noop: bool)
        requires member { origin < length self.old.held }
        requires entries { length tag ≡ length self.old.held }
        requires room { length (held_of self.old origin) < self.old.w + noop_window (length self.old.held) self.old.w }
        requires next { IsNextNumber origin (held_of self.old origin) tag }
        ensures held { self.new ≡ record self.old { held = slice_set self.old.held origin (held_of self.old origin ++ record { tag = tag; noop = noop } ∷ []) } }
        // where it was of a member's unstable messages, it has the message beside them
        ensures with { (n w me : ℕ) (ms : List AMessage) (m : AMessage) → m.origin ≡ origin → m.tag ≡ tag → not (carries_operation m.op) ≡ noop → IsWindowOf n w me ms self.old → IsWindowWith n w me ms m self.new }
    {
        let queue = &mut self.queues[origin as usize];
        queue.push(Held { tag, noop });
        lower_to(&mut self.firsts, origin, tag.at(origin));
    }

    /// Lets go of the timestamps of all messages that are stable where these are the stable counts.
    pub fn drop_stable(&mut self, stable: &Tag)
        requires { length stable.now ≡ length self.old.held }
        ensures window { self.new.w ≡ self.old.w }
        ensures members { length self.new.held ≡ length self.old.held }
        ensures held { (x : ℕ) → x < length self.old.held → held_of self.new x ≡ filter (λ h. nat_lt (entry stable.now x) (entry h.tag x)) (held_of self.old x) }
        // where it had a message beside a member's unstable ones, it is of the unstable ones after the message
        ensures of { (n w me : ℕ) (ms : List AMessage) (m : AMessage) → me < n → IsTrue (is_chapter n w me (ms ++ m ∷ [])) → stable.now ≡ stable_vector n me (ms ++ m ∷ []) → IsWindowWith n w me ms m self.old → IsWindowOf n w me (ms ++ m ∷ []) self.new }
    {
        if is_everywhere_below(stable, &self.firsts) {
            return;
        }
        drop_of_each(&mut self.queues, &mut self.firsts, stable);
    }

    /// Lets go of all timestamps: it is as `create` makes it of as many members. It takes no memory.
    pub fn clear(&mut self)
        ensures empty { self.new ≡ record { w = self.old.w; held = replicate (length self.old.held) [] } }
        // it is of what any member delivered before there was a message
        ensures nothing { (me : ℕ) → IsWindowOf (length self.old.held) self.old.w me [] self.new }
    {
        self.firsts = Tag::zero(self.members());
        clear_each(&mut self.queues);
    }

    /// How many no-ops, or how many operations, of a member are held.
    pub fn own_unstable(&self, me: u8, noop: bool) -> u32
        requires { me < length self.now.held }
        ensures held { result ≡ held_count self.now me noop }
        // where it is of unstable messages, so many of the member's are
        ensures of { (n w x : ℕ) (ms : List AMessage) → IsWindowOf n w x ms self.now → result ≡ (if noop then unstable_noops n x ms me else unstable_operations n x ms me) }
        ensures small { result ≤ 65535 }
    {
        let queue = &self.queues[me as usize];
        if noop {
            queue.noops()
        } else {
            queue.operations()
        }
    }

    /// How many members it is of, 1 to 16.
    fn members(&self) -> u8
        ensures members { result ≡ length self.now.held }
        ensures few { result ≤ 16 }
    {
        self.queues.len() as u8
    }

    /// The first of the four causes that applies.
    fn crook(&self, message: &Message, last: &Tag, stable_after: &Tag) -> Option<Crook>
        requires fits { IsTrue (fits (length self.now.held) message.now) }
        requires last { length last.now ≡ length self.now.held }
        requires stable { length stable_after.now ≡ length self.now.held }
        ensures { result ≡ crook_in self.now message.now last.now stable_after.now }
    {
        let crook = regress(message, last);
        if crook.is_some() {
            return crook;
        }
        let crook = self.unclosed(message, last);
        if crook.is_some() {
            return crook;
        }
        let crook = self.overrun(message, stable_after);
        if crook.is_some() {
            return crook;
        }
        self.noop_overrun(message, stable_after)
    }

    /// Why a message is unclosed, at the least member where it is.
    fn unclosed(&self, message: &Message, last: &Tag) -> Option<Crook>
        requires origin { message.now.origin < length self.now.held }
        requires tag { length message.now.tag ≡ length self.now.held }
        requires last { length last.now ≡ length self.now.held }
        ensures { result ≡ first_some (map (unclosed_in (length self.now.held) self.now message.now last.now) (members (length self.now.held))) }
    {
        if has_seen_no_more(message, last) {
            return None;
        }
        for x in 0..self.members() {
            let crook = self.unclosed_at(message, last, x);
            if crook.is_some() {
                return crook;
            }
        }
        None
    }

    /// Why a message is unclosed at a member. It is not where its sender had seen all of the member that it has seen.
    fn unclosed_at(&self, message: &Message, last: &Tag, x: u8) -> Option<Crook>
        requires member { x < length self.now.held }
        requires tag { length message.now.tag ≡ length self.now.held }
        requires last { length last.now ≡ length self.now.held }
        ensures { result ≡ unclosed_in (length self.now.held) self.now message.now last.now x }
    {
        let seq = message.tag.at(x);
        if x == message.origin || seq <= last.at(x) {
            return None;
        }
        let queue = &self.queues[x as usize];
        let had = queue.find(seq)?;
        let y = first_below(had, &message.tag)?;
        Some(Crook::Unclosed {
            x,
            y,
            had: had.at(y),
            got: message.tag.at(y),
        })
    }

    /// Whether more operations of the sender would be unstable than the window has.
    fn overrun(&self, message: &Message, stable_after: &Tag) -> Option<Crook>
        requires fits { IsTrue (fits (length self.now.held) message.now) }
        requires stable { length stable_after.now ≡ length self.now.held }
        ensures { result ≡ overrun_in self.now.w self.now message.now stable_after.now }
    {
        let count = self.own_unstable(message.origin, false)
            + more_operations(message, stable_after);
        if count > self.w as u32 {
            Some(Crook::Overrun { count })
        } else {
            None
        }
    }

    /// Whether more no-ops of the sender would be unstable than the no-op window has.
    fn noop_overrun(&self, message: &Message, stable_after: &Tag) -> Option<Crook>
        requires fits { IsTrue (fits (length self.now.held) message.now) }
        requires stable { length stable_after.now ≡ length self.now.held }
        ensures { result ≡ noop_overrun_in (noop_window (length self.now.held) self.now.w) self.now message.now stable_after.now }
    {
        let count = self.own_unstable(message.origin, true) + more_noops(message, stable_after);
        if count > self.z {
            Some(Crook::NoopOverrun { count })
        } else {
            None
        }
    }
}
