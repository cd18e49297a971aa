//! Entries beside the stamps of their arrival.

ghost use Rattle.std.specs.Prelude.{◌≡◌, ◌≢◌, ◌+◌, ◌<◌, ◌≤◌, ℕ, [], ◌∷◌, ◌++◌, ◌-◌, suc, not, true, false, length, take, drop, set, slice_index_or, vec_len, vec_capacity, IfOk, IfNone, IfSome, IsTrue};
ghost use Rattle.std.specs.List.{insert, remove, swap};
ghost use Rattle.op_base.specs.declared.message.Entry.{Entry};
ghost use Rattle.polog.specs.Marks.{mark_of};
ghost use Rattle.polog.specs.declared.marks.Stamp.{Stamp};
ghost use Rattle.polog.specs.Order.{Pairwise, items_of};
ghost use Rattle.polog.specs.Rows.{Table, with_rows, turned, is_used, is_live, idle_of, IsFreed};

use crate::idle::Idle;
use crate::marks::{FREE, Stamp, next_marked};
use op_base::{Entry, NoMemory};
use std::alloc::Global;
use std::marker::Model;
use std::mem::replace;

/// Rows of a number and an entry, with room for so many, all of which `create` takes. The entries stand side by side in
/// memory, so that some of them can be lent as a slice.
#[derive(Debug, Drop)]
pub struct Rows {
    room: usize,
    entries: Vec<Entry>,
    /// The stamp of each entry.
    stamps: Vec<Stamp>,
}

impl Model for Rows {
    ghost use Rattle.std.specs.Prelude.{◌≡◌, ◌≤◌, length, vec_capacity};
    ghost use Rattle.polog.specs.Marks.{AreMarked};
    ghost use Rattle.polog.specs.Order.{rows};
    ghost use Rattle.polog.specs.Rows.{Table};

    ghost Value = { Table };

    ghost view = { λ t. record { room = t.room; rows = rows t.stamps.items t.entries.items } };

    ghost invariant = { λ t. (length t.stamps.items ≡ length t.entries.items)
        × (t.room ≤ vec_capacity t.entries) × (t.room ≤ vec_capacity t.stamps)
        × AreMarked t.stamps.items t.entries.items };
}

impl Rows {
    /// No rows, with room for so many. `NoMemory` leaves nothing behind.
    pub fn create(alloc: Global, room: usize) -> Result<Rows, NoMemory>
        ensures { IfOk result (λ t. t ≡ record { room = room; rows = [] }) }
    {
        Ok(Rows {
            room,
            entries: Vec::with_capacity(alloc, room)?,
            stamps: Vec::with_capacity(alloc, room)?,
        })
    }

    /// For how many rows there is room in all.
    pub fn room(&self) -> usize
        ensures { result ≡ self.now.room }
    {
        self.room
    }

    /// How many rows there are.
    pub fn len(&self) -> usize
        ensures { result ≡ length self.now.rows }
    {
        self.entries.len()
    }

    /// The entries, row by row.
    pub fn entries(&self) -> &[Entry]
        ensures { result.now ≡ items_of self.now.rows }
    {
        &self.entries
    }

    /// The entry of a row.
    pub fn entry(&self, at: usize) -> &Entry
        requires { at < length self.now.rows }
        ensures { (d : ℕ × Entry) → result.now ≡ (slice_index_or self.now.rows at d).1 }
    {
        &self.entries[at]
    }

    /// The number of a row.
    pub fn number(&self, at: usize) -> u64
        requires { at < length self.now.rows }
        ensures { (d : ℕ × Entry) → result ≡ (slice_index_or self.now.rows at d).0 }
    {
        self.stamps[at].number
    }

    /// Whether a row is free: its entry isn't one of the log.
    pub fn is_free(&self, at: usize) -> bool
        requires { at < length self.now.rows }
        ensures { (d : ℕ × Entry) → result ≡ not (is_live (slice_index_or self.now.rows at d)) }
    {
        self.stamps[at].number == FREE
    }

    /// Up to which place the rows from one place up to another aren't free, where free ones stand behind the others. The guess is tried
    /// first.
    #[inline(always)]
    pub fn live_end(&self, from: usize, to: usize, guess: usize) -> usize
        requires order { from ≤ to }
        requires places { to ≤ length self.now.rows }
        requires behind { (j k : ℕ) (d : ℕ × Entry) → from ≤ j → j < k → k < to → is_live (slice_index_or self.now.rows k d) ≡ true → is_live (slice_index_or self.now.rows j d) ≡ true }
        ensures least { from ≤ result }
        ensures most { result ≤ to }
        ensures live { (k : ℕ) (d : ℕ × Entry) → from ≤ k → k < result → is_live (slice_index_or self.now.rows k d) ≡ true }
        ensures free { (k : ℕ) (d : ℕ × Entry) → result ≤ k → k < to → is_live (slice_index_or self.now.rows k d) ≡ false }
    {
        if from == to || !self.is_free(to - 1) {
            return to;
        }
        if from < guess && guess < to && !self.is_free(guess - 1) && self.is_free(guess) {
            return guess;
        }
        first_free(&self.stamps, from, to)
    }

    /// The first place from a place on and up to a later one where the entry's act has a mark, or the later place.
    pub fn next_marked(&self, mark: u32, from: usize, to: usize) -> usize
        requires order { from ≤ to }
        requires places { to ≤ length self.now.rows }
        ensures least { from ≤ result }
        ensures most { result ≤ to }
        ensures passed { (k : ℕ) (d : ℕ × Entry) → from ≤ k → k < result → mark_of (slice_index_or self.now.rows k d).1.update.act ≢ mark }
        ensures marked { (d : ℕ × Entry) → result < to → mark_of (slice_index_or self.now.rows result d).1.update.act ≡ mark }
    {
        next_marked(&self.stamps, mark, from, to)
    }

    /// Puts a row in at a place. Its stamp has the mark of its entry's act.
    pub fn insert(&mut self, at: usize, stamp: Stamp, entry: Entry)
        requires place { at ≤ length self.old.rows }
        requires room { length self.old.rows < self.old.room }
        requires mark { stamp.mark ≡ mark_of entry.update.act }
        ensures { self.new ≡ with_rows self.old (insert self.old.rows at (stamp.number, entry)) }
    {
        put(&mut self.entries, at, entry);
        put(&mut self.stamps, at, stamp);
    }

    /// Puts a row in the place of another.
    #[inline(always)]
    pub fn set(&mut self, at: usize, stamp: Stamp, entry: Entry)
        requires place { at < length self.old.rows }
        requires mark { stamp.mark ≡ mark_of entry.update.act }
        ensures { self.new ≡ with_rows self.old (set self.old.rows at (stamp.number, entry)) }
    {
        self.entries[at] = entry;
        self.stamps[at] = stamp;
    }

    /// Puts so many free rows in at a place.
    #[inline(never)]
    pub fn open(&mut self, at: usize, idle: Idle, many: usize)
        requires place { at ≤ length self.old.rows }
        requires room { length self.old.rows + many ≤ self.old.room }
        ensures { IsFreed idle many at at self.old self.new }
    {
        let len = self.len();
        for _ in 0..many {
            let end = self.len();
            self.insert(end, FREE_STAMP, idle.entry());
        }
        self.turn(at, len, self.len());
    }

    /// Frees the rows from one place up to another, and lets their entries go.
    #[inline(never)]
    pub fn release(&mut self, from: usize, to: usize, idle: Idle)
        requires order { from ≤ to }
        requires places { to ≤ length self.old.rows }
        ensures { IsFreed idle (to - from) from to self.old self.new }
    {
        for at in from..to {
            self.set(at, FREE_STAMP, idle.entry());
        }
    }

    /// Exchanges two rows. Where they are one, nothing is moved.
    pub fn swap(&mut self, a: usize, b: usize)
        requires first { a < length self.old.rows }
        requires second { b < length self.old.rows }
        ensures { self.new ≡ with_rows self.old (swap self.old.rows a b) }
    {
        if a != b {
            self.entries.swap(a, b);
            self.stamps.swap(a, b);
        }
    }

    /// Moves the rows from one place up to another in front of those from an earlier place on.
    pub fn turn(&mut self, to: usize, from: usize, end: usize)
        requires earlier { to ≤ from }
        requires order { from ≤ end }
        requires places { end ≤ length self.old.rows }
        ensures { self.new ≡ with_rows self.old (turned to from end self.old.rows) }
    {
        turn(&mut self.entries, to, from, end);
        turn(&mut self.stamps, to, from, end);
    }

    /// Lets go of the rows from one place up to another.
    pub fn cut(&mut self, from: usize, to: usize)
        requires order { from ≤ to }
        requires places { to ≤ length self.old.rows }
        ensures { self.new ≡ with_rows self.old (take from self.old.rows ++ drop to self.old.rows) }
    {
        if from < to {
            drop(self.entries.drain(from..to));
            drop(self.stamps.drain(from..to));
        }
    }

    /// Takes out a row, and hands out its entry.
    pub fn remove(&mut self, at: usize) -> Entry
        requires { at < length self.old.rows }
        ensures entry { (d : ℕ × Entry) → result ≡ (slice_index_or self.old.rows at d).1 }
        ensures others { self.new ≡ with_rows self.old (remove self.old.rows at) }
    {
        self.stamps.remove(at);
        self.entries.remove(at)
    }

    /// Moves the last row to the end of others, where there is room for it.
    pub fn move_last(&mut self, into: &mut Rows)
        requires some { 0 < length self.old.rows }
        requires room { length into.old.rows < into.old.room }
        ensures left { self.new ≡ with_rows self.old (take (length self.old.rows - 1) self.old.rows) }
        ensures moved { into.new ≡ with_rows into.old (into.old.rows ++ drop (length self.old.rows - 1) self.old.rows) }
    {
        into.entries.push_reserved(self.entries.take_last());
        into.stamps.push_reserved(self.stamps.take_last());
    }

    /// Moves a row to the end of others, where there is room for it. In its place is then a row that is free for its object.
    #[inline(always)]
    pub fn move_out(&mut self, at: usize, into: &mut Rows)
        requires place { at < length self.old.rows }
        requires room { length into.old.rows < into.old.room }
        ensures freed { (d : ℕ × Entry) → IsFreed (idle_of (slice_index_or self.old.rows at d).1) 1 at (at + 1) self.old self.new }
        ensures moved { (d : ℕ × Entry) → into.new ≡ with_rows into.old (into.old.rows ++ slice_index_or self.old.rows at d ∷ []) }
    {
        let idle = Idle::of(&self.entries[at]);
        let entry = replace(&mut self.entries[at], idle.entry());
        into.entries.push_reserved(entry);
        into.stamps.push_reserved(self.stamps[at]);
        self.stamps[at] = FREE_STAMP;
    }

    /// Takes out the last row, and hands out its entry. It is `None` exactly where there is no row.
    pub fn pop(&mut self) -> Option<Entry>
        ensures none { IfNone result (self.old.rows ≡ []) }
        ensures room { self.new.room ≡ self.old.room }
        ensures still { IfNone result (self.new.rows ≡ []) }
        ensures last { IfSome result (λ entry. items_of self.old.rows ≡ items_of self.new.rows ++ entry ∷ []) }
    {
        self.stamps.pop();
        self.entries.pop()
    }

    /// Whether some row has a lesser number than the one ahead of it, as where entries of several objects arrived in turn. Nothing is
    /// told of it.
    pub fn are_mixed(&self) -> bool {
        for at in 1..self.stamps.len() {
            if self.stamps[at].number < self.stamps[at - 1].number {
                return true;
            }
        }
        false
    }

    /// Whether no row comes before one with a lesser number.
    pub fn falls(&self) -> bool
        ensures { IsTrue result → Pairwise (λ a b. b.0 ≤ a.0) self.now.rows }
    {
        are_falling(&self.stamps)
    }
}

/// What stands beside the entry of a free row.
const FREE_STAMP: Stamp = Stamp {
    number: FREE,
    mark: 0,
};

/// The first free place from a place on and up to a later one, where free ones stand behind the others, or the later place.
fn first_free(stamps: &[Stamp], from: usize, to: usize) -> usize
    requires order { from ≤ to }
    requires places { to ≤ length stamps.now }
    requires behind { (j k : ℕ) (d : Stamp) → from ≤ j → j < k → k < to → is_used (slice_index_or stamps.now k d) ≡ true → is_used (slice_index_or stamps.now j d) ≡ true }
    ensures least { from ≤ result }
    ensures most { result ≤ to }
    ensures used { (k : ℕ) (d : Stamp) → from ≤ k → k < result → is_used (slice_index_or stamps.now k d) ≡ true }
    ensures free { (k : ℕ) (d : Stamp) → result ≤ k → k < to → is_used (slice_index_or stamps.now k d) ≡ false }
{
    from + stamps[from..to].partition_point(
        |stamp: &Stamp| -> bool
            ensures { result ≡ is_used stamp.now }
        { stamp.number != FREE },
    )
}

/// Whether no stamp comes before one with a lesser number.
fn are_falling(stamps: &[Stamp]) -> bool
    ensures { IsTrue result → (k : ℕ) (d : Stamp) → suc k < length stamps.now → (slice_index_or stamps.now (suc k) d).number ≤ (slice_index_or stamps.now k d).number }
{
    for at in 1..stamps.len() {
        if stamps[at - 1].number < stamps[at].number {
            return false;
        }
    }
    true
}

/// Puts an item in at a place, where there is room for it.
#[inline(always)]
fn put<T>(items: &mut Vec<T>, at: usize, item: T)
    requires place { at ≤ vec_len items.old }
    requires room { vec_len items.old < vec_capacity items.old }
    ensures items { items.new.items ≡ insert items.old.items at item }
    ensures capacity { vec_capacity items.old ≤ vec_capacity items.new }
{
    let behind = at < items.len();
    items.push_reserved(item);
    if behind {
        items[at..].rotate_right(1);
    }
}

/// Moves the items from one place up to another in front of those from an earlier place on.
fn turn<T>(items: &mut [T], to: usize, from: usize, end: usize)
    requires earlier { to ≤ from }
    requires order { from ≤ end }
    requires places { end ≤ length items.old }
    ensures { items.new ≡ turned to from end items.old }
{
    items[to..end].rotate_left(from - to);
}
