//! The queue of one member: its unstable timestamps in the order of their numbers.

ghost use Rattle.std.specs.Prelude.{◌≡◌, ◌+◌, ◌<◌, ◌≤◌, [], ◌∷◌, ◌++◌, length, All, count_by, not, IfOk, IfSome, IfNone};
ghost use Rattle.op_base.specs.Timestamp.{entry, zero_tag};
ghost use Rattle.tag_window.specs.Window.{IsNextNumber};
ghost use Rattle.tag_window.specs.Queue.{tag_held, left_of};

use crate::block::Block;
use crate::held::Held;
use op_base::{NoMemory, Tag};
use std::alloc::Global;
use std::marker::Model;

/// What is held of one member. It has its whole room from the start.
#[derive(Drop)]
pub struct Queue {
    n: u8,
    origin: u8,
    room: usize,
    held: Block,
    noops: u32,
}

impl Model for Queue {
    ghost use Rattle.tag_window.specs.Queue.{Line, IsSound};

    ghost Value = { Line };

    ghost view = { λ q. record { n = q.n; origin = q.origin; room = q.room; held = q.held.items } };

    ghost invariant = { λ q. IsSound (record { n = q.n; origin = q.origin; room = q.room; held = q.held.items }) q.held.room q.noops };
}

impl Queue {
    /// The empty queue of a member of a store of so many, with its room. `NoMemory` leaves nothing behind.
    pub fn create(alloc: Global, n: u8, origin: u8, room: usize) -> Result<Queue, NoMemory>
        requires member { origin < n }
        requires small { room ≤ 65535 }
        ensures { IfOk result (λ q. q ≡ record { n = n; origin = origin; room = room; held = [] }) }
    {
        Ok(Queue {
            n,
            origin,
            room,
            held: Block::create(alloc, room)?,
            noops: 0,
        })
    }

    /// Holds the next timestamp.
    pub fn push(&mut self, held: Held)
        requires room { length self.old.held < self.old.room }
        requires entries { length held.tag ≡ self.old.n }
        requires next { IsNextNumber self.old.origin self.old.held held.tag }
        ensures { self.new ≡ record self.old { held = self.old.held ++ held ∷ [] } }
    {
        if held.noop {
            self.noops += 1;
        }
        self.held.push(held);
    }

    /// Lets go of all whose number is at most the stable count, and tells a number that is not above any that is left.
    pub fn drop_stable(&mut self, stable: &Tag) -> u32
        requires { length stable.now ≡ self.old.n }
        ensures left { self.new ≡ left_of stable.now self.old }
        ensures first { All (λ h. result ≤ entry h.tag self.old.origin) self.new.held }
    {
        let count = stable.at(self.origin);
        while let Some(first) = self.held.front() {
            let number = first.tag.at(self.origin);
            if number > count {
                return number;
            }
            if first.noop {
                self.noops -= 1;
            }
            self.held.pop_front();
        }
        u32::MAX
    }

    /// Lets go of all.
    pub fn clear(&mut self)
        ensures { self.new ≡ record self.old { held = [] } }
    {
        self.held.clear();
        self.noops = 0;
    }

    /// The timestamp with a number, where it is held.
    pub fn find(&self, seq: u32) -> Option<&Tag>
        ensures found { IfSome result (λ tag. tag.now ≡ tag_held self.now.n self.now.origin self.now.held seq) }
        ensures entries { IfSome result (λ tag. length tag.now ≡ self.now.n) }
        ensures none { IfNone result (tag_held self.now.n self.now.origin self.now.held seq ≡ zero_tag self.now.n) }
    {
        let first = self.held.front()?.tag.at(self.origin);
        if seq < first {
            return None;
        }
        let place = (seq - first) as usize;
        Some(&self.held.get(place)?.tag)
    }

    /// How many no-ops are held.
    pub fn noops(&self) -> u32
        ensures value { result ≡ count_by (λ h. h.noop) self.now.held }
        ensures few { result ≤ self.now.room }
        ensures small { result ≤ 65535 }
    {
        self.noops
    }

    /// How many operations are held.
    pub fn operations(&self) -> u32
        ensures value { result ≡ count_by (λ h. not h.noop) self.now.held }
        ensures small { result ≤ 65535 }
    {
        self.held.len() as u32 - self.noops
    }
}
