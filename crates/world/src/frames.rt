//! The frames of all that a member sent.

ghost use Rattle.std.specs.Prelude.{◌≡◌, ◌≤◌, ◌<◌, ◌++◌, ◌∷◌, [], List, ℕ, length, slice_index_or, OnOk, OnErr};
ghost use Rattle.std.specs.List.{between};
ghost use Rattle.world.specs.FrameRows.{begin_of};

use op_base::NoMemory;
use std::alloc::Global;
use std::marker::Model;

/// The frames of a member's messages, in the order of their numbers, which begin with 1. They stand one behind the other in one
/// list of bytes, so that none takes memory of its own. Contracts see the list of them, and for how much more there is room.
#[derive(Drop)]
pub struct FrameRow {
    bytes: Vec<u8>,
    /// Where each frame ends.
    ends: Vec<usize>,
}

impl Model for FrameRow {
    ghost use Rattle.std.specs.Prelude.{◌-◌, length, vec_capacity};
    ghost use Rattle.std.specs.List.{between};
    ghost use Rattle.world.specs.FrameRows.{Frames, frames_from, RisesTo};

    ghost Value = { Frames };

    ghost view = { λ row. record {
      items = frames_from 0 row.ends.items row.bytes.items;
      bytes_left = vec_capacity row.bytes - length row.bytes.items;
      frames_left = vec_capacity row.ends - length row.ends.items;
    } };

    ghost invariant = { λ row. RisesTo (length row.bytes.items) 0 row.ends.items };
}

impl FrameRow {
    /// No frames. It takes no memory.
    pub fn new(alloc: Global) -> FrameRow
        ensures { result.items ≡ [] }
    {
        FrameRow {
            bytes: Vec::new(alloc),
            ends: Vec::new(alloc),
        }
    }

    /// How many frames there are.
    pub fn len(&self) -> usize
        ensures { result ≡ length self.now.items }
    {
        self.ends.len()
    }

    /// The frame at a place, counted from 0.
    pub fn at(&self, place: usize) -> &[u8]
        requires { place < length self.now.items }
        ensures { (d : List ℕ) → result.now ≡ slice_index_or self.now.items place d }
    {
        let begin = begin_of(&self.ends, place);
        part(&self.bytes, begin, self.ends[place])
    }

    /// Takes room for a frame of so many bytes. `NoMemory` leaves the frames.
    pub fn reserve(&mut self, len: usize) -> Result<(), NoMemory>
        ensures items { self.new.items ≡ self.old.items }
        ensures bytes { OnOk result (len ≤ self.new.bytes_left) }
        ensures frames { OnOk result (1 ≤ self.new.frames_left) }
    {
        // Both grow by a factor, so that many single reserves take constant time each.
        self.bytes.reserve(len)?;
        self.ends.reserve(1)?;
        Ok(())
    }

    /// Puts a frame behind the others. It takes no memory.
    pub fn push_reserved(&mut self, frame: &[u8])
        requires bytes { length frame.now ≤ self.old.bytes_left }
        requires frames { 1 ≤ self.old.frames_left }
        ensures { self.new.items ≡ self.old.items ++ frame.now ∷ [] }
    {
        let Ok(()) = self.bytes.extend_from_slice(frame) else {
            unreachable!()
        };
        self.ends.push_reserved(self.bytes.len());
    }

    /// Puts a frame behind the others. `NoMemory` leaves them.
    pub fn push(&mut self, frame: &[u8]) -> Result<(), NoMemory>
        ensures ok { OnOk result (self.new.items ≡ self.old.items ++ frame.now ∷ []) }
        ensures err { OnErr result (self.new.items ≡ self.old.items) }
    {
        self.reserve(frame.len())?;
        self.push_reserved(frame);
        Ok(())
    }
}

/// Where the frame at a place begins, by where each ends.
fn begin_of(ends: &[usize], place: usize) -> usize
    requires { place < length ends.now }
    ensures { result ≡ begin_of 0 ends.now place }
{
    if place == 0 { 0 } else { ends[place - 1] }
}

/// The bytes from a place up to another.
fn part(bytes: &[u8], from: usize, to: usize) -> &[u8]
    requires order { from ≤ to }
    requires places { to ≤ length bytes.now }
    ensures { result.now ≡ between from to bytes.now }
{
    &bytes[from..to]
}
