//! Timestamps: one number a member, as a textbook vector clock has it.

ghost use Rattle.std.specs.Prelude.{◌≡◌, ℕ, ◌≤◌, ◌<◌, ◌^◌, ◌↔◌, min, length, slice_index, slice_set, IsTrue};
ghost use Rattle.op_base.specs.Timestamp.{entry, zero_tag, join, count_above, at_most, covers, IsBelowChange};
ghost use Rattle.op_base.specs.declared.tag.TheConstants.{MOST_MEMBERS};

use std::marker::Model;

/// A store has at most so many members.
pub const MOST_MEMBERS: usize = 16;

/// A timestamp of 1 to 16 numbers, one a member. Contracts see the list of them.
#[derive(Clone, Copy, Debug, PartialEq, Eq)]
pub struct Tag {
    n: u8,
    parts: [u32; 16],
}

impl Model for Tag {
    ghost use Rattle.std.specs.Prelude.{ℕ, List};

    ghost Value = { List ℕ };

    ghost use Rattle.op_base.specs.TagFields.{IsPadded, numbers_of, padded, padded-numbers_of};

    ghost view = { numbers_of };

    ghost invariant = { IsPadded };

    ghost inverse = { padded };

    ghost inverse_ok = { padded-numbers_of };
}

/// The id of a message: its origin and its number. It is printed `origin:number`.
#[derive(Clone, Copy, Debug, PartialEq, Eq, Hash)]
pub struct MessageId {
    /// The member that sent it.
    pub origin: u8,
    /// How many messages the member had sent in its epoch with it, from 1.
    pub seq: u32,
}

/// The id of an element of a list: that of the message which put it in, and its epoch. It is printed `epoch.origin.number`.
#[derive(Clone, Copy, Debug, PartialEq, Eq, PartialOrd, Ord, Hash)]
pub struct ElementId {
    /// The epoch in which it was put in.
    pub epoch: u32,
    /// The member that put it in.
    pub origin: u8,
    /// How many messages the member had sent in that epoch with the one that put it in, from 1.
    pub seq: u32,
}

impl ElementId {
    ghost use Rattle.op_base.specs.Operation.{is_element};

    /// Whether an element can have it: it is of a member below 16, with a number from 1.
    pub fn is_element(self) -> bool
        ensures { result ≡ is_element self }
    {
        self.origin <= 15 && self.seq >= 1
    }
}

impl Tag {
    /// The timestamp of so many members before anything was sent: all zeros.
    pub fn zero(n: u8) -> Tag
        requires some { 1 ≤ n }
        requires few { n ≤ MOST_MEMBERS }
        ensures { result ≡ zero_tag n }
    {
        Tag { n, parts: [0; 16] }
    }

    /// How many members it is of, 1 to 16.
    pub fn members(&self) -> u8
        ensures members { result ≡ length self.now }
        ensures some { 1 ≤ result }
        ensures few { result ≤ MOST_MEMBERS }
    {
        self.n
    }

    /// The number at a member.
    pub fn at(&self, x: u8) -> u32
        requires { x < length self.now }
        ensures { result ≡ entry self.now x }
    {
        self.parts[x as usize]
    }

    /// Sets the number at a member.
    pub fn set(&mut self, x: u8, v: u32)
        requires { x < length self.old }
        ensures { self.new ≡ slice_set self.old x v }
    {
        self.parts[x as usize] = v;
    }

    /// The greater of each two numbers.
    pub fn join(&self, other: &Tag) -> Tag
        requires { length self.now ≡ length other.now }
        ensures { result ≡ join self.now other.now }
    {
        let mut joined = *self;
        for x in 0..self.members() {
            joined.set(x, self.at(x).max(other.at(x)));
        }
        joined
    }

    /// The lesser of each two numbers.
    pub fn meet(&self, other: &Tag) -> Tag
        requires { length self.now ≡ length other.now }
        ensures members { length result ≡ length self.now }
        ensures entries { (x : ℕ) → entry result x ≡ min (entry self.now x) (entry other.now x) }
    {
        Tag {
            n: self.n,
            parts: lesser_at_places(&self.parts, &other.parts),
        }
    }

    /// At how many members the number is above the other timestamp's.
    pub fn count_above(&self, other: &Tag) -> u32
        requires { length self.now ≡ length other.now }
        ensures { result ≡ count_above self.now other.now }
    {
        count_at_places(&self.parts, &other.parts)
    }

    /// Whether no number is above the other timestamp's.
    pub fn at_most(&self, other: &Tag) -> bool
        requires { length self.now ≡ length other.now }
        ensures { result ≡ at_most self.now other.now }
    {
        self.count_above(other) == 0
    }

    /// Whether, at each member where one timestamp differs from another, the number is below theirs.
    pub fn is_below_changes(&self, from: &Tag, to: &Tag) -> bool
        requires from { length from.now ≡ length self.now }
        requires to { length to.now ≡ length self.now }
        ensures { IsTrue result ↔ ((x : ℕ) → x < length self.now → IsBelowChange (entry self.now x) (entry from.now x) (entry to.now x)) }
    {
        are_below_changes(&self.parts, &from.parts, &to.parts)
    }

    /// Whether the number at the id's origin is at least the id's.
    pub fn covers_id(&self, id: MessageId) -> bool
        requires { id.origin < length self.now }
        ensures { result ≡ covers self.now id }
    {
        self.at(id.origin) >= id.seq
    }
}

/// At how many places the first number is above the second. It goes through all, so that several are compared at once.
fn count_at_places(parts: &[u32; 16], others: &[u32; 16]) -> u32
    ensures { result ≡ count_above parts.now others.now }
{
    let mut above = 0;
    for x in 0..16 {
        above += u32::from(parts[x] > others[x]);
    }
    above
}

/// The lesser of the two numbers at each place.
fn lesser_at_places(parts: &[u32; 16], others: &[u32; 16]) -> [u32; 16]
    ensures len { length result ≡ 16 }
    ensures each { (x : ℕ) → x < 16 → slice_index result x ≡ min (slice_index parts.now x) (slice_index others.now x) }
{
    let mut lesser = *parts;
    for x in 0..16 {
        lesser[x] = lesser[x].min(others[x]);
    }
    lesser
}

/// Whether, at each place where one array differs from another, the number is below theirs. There is no early end, so that several
/// places are told at once.
fn are_below_changes(parts: &[u32; 16], from: &[u32; 16], to: &[u32; 16]) -> bool
    ensures { IsTrue result ↔ ((x : ℕ) → x < 16 → IsBelowChange (slice_index parts.now x) (slice_index from.now x) (slice_index to.now x)) }
{
    let mut below = true;
    for x in 0..16 {
        below &= (from[x] == to[x]) | (parts[x] < from[x].min(to[x]));
    }
    below
}
