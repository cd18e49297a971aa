//! A keeper in memory, for tests and for worlds in which replicas are stopped: which of its calls fail is given.

ghost use Rattle.std.specs.Prelude.{◌≡◌, ◌+◌, ◌<◌, ◌≤◌, ◌^◌, ◌↔◌, ◌++◌, length, take, drop, min, max, vec_capacity, IsTrue, IsErr, IfOk, OnOk, OnErr};
ghost use Rattle.store_io.specs.Keeping.{Leaves, LeavesEither, HasFront, Elapses};
ghost use Rattle.store_io.specs.MemoryKeeping.{KeeperState, LeftSince, nothing_held, fails_next, counted, with_piece, with_stage, after_append, after_cut, after_sync, after_stop};
ghost use Rattle.store_io.specs.MemoryMoments.{counts_now, only_now};

use crate::keeper::Keeper;
use crate::memory::is_listed;
use crate::past::{Contents, Past};
use crate::traits::Failed;
use op_base::NoMemory;
use std::marker::Model;

/// A keeper of bytes in memory. Its calls of `read`, `append`, `cut` and `sync` are counted together from 1, and exactly those
/// whose numbers it was given fail. An `append` that fails leaves the first half of the piece, rounded down.
#[derive(Drop)]
pub struct MemoryKeeper {
    contents: Contents,
    spare: usize,
    failing: Vec<u32>,
    calls: u64,
    faults: u64,
}

impl Model for MemoryKeeper {
    ghost Value = { KeeperState };

    ghost view = { λ k. record {
      held = k.contents.held.items;
      synced = k.contents.synced;
      spare = k.spare;
      failing = k.failing.items;
      calls = k.calls;
      faults = k.faults;
      past = k.contents.past.stages;
    } };

    ghost invariant = { λ k. (k.contents.synced ≤ length k.contents.held.items) × (length k.contents.held.items + k.spare ≤ vec_capacity k.contents.held) × (k.faults ≤ k.calls) };
}

impl MemoryKeeper {
    /// A keeper that holds nothing and has room for nothing. Its calls whose numbers are in `failing` fail.
    pub fn new(failing: Vec<u32>) -> MemoryKeeper
        ensures { result ≡ nothing_held failing.items }
    {
        let alloc = *failing.allocator();
        MemoryKeeper {
            contents: Contents {
                past: Past::none(),
                held: Vec::new(alloc),
                synced: 0,
            },
            spare: 0,
            failing,
            calls: 0,
            faults: 0,
        }
    }

    /// What a stop leaves that loses all but the synced bytes and the next `bytes` bytes behind them, or all of those where
    /// there are fewer. All that is left is synced. Calls are counted on, and those that were to fail still do.
    pub fn crash(self, bytes: u64) -> MemoryKeeper
        ensures stopped { result ≡ after_stop self bytes }
        ensures left { Leaves self.held self.synced result.held }
    {
        let MemoryKeeper {
            contents,
            spare,
            failing,
            calls,
            faults,
        } = self;
        let Contents {
            mut held,
            synced,
            ..
        } = contents;
        let lost = (held.len() - synced) as u64;
        if bytes < lost {
            held.truncate(synced + bytes as usize);
        }
        let synced = held.len();
        MemoryKeeper {
            contents: Contents {
                past: Past::none(),
                held,
                synced,
            },
            spare,
            failing,
            calls,
            faults,
        }
    }

    /// Counts a call, and says whether it fails.
    fn fails(&mut self) -> bool
        ensures fails { result ≡ fails_next self.old }
        ensures counted { self.new ≡ counted self.old }
    {
        self.calls = self.calls.saturating_add(1);
        let fails = is_listed(&self.failing, self.calls);
        if fails {
            self.faults += 1;
        }
        fails
    }

    /// Puts bytes for which there is room at the end.
    fn put(&mut self, piece: &[u8])
        requires { length piece.now ≤ self.old.spare }
        ensures { self.new ≡ with_piece self.old piece.now }
    {
        // The room was taken before, so this needs no memory.
        self.contents.held.extend_from_slice(piece).unwrap();
        self.spare -= piece.len();
    }

    /// Keeps so many bytes, and notes what was held.
    fn keep(&mut self, len: usize)
        requires { len ≤ length self.old.held }
        ensures { self.new ≡ with_stage self.old (take len self.old.held) (min len self.old.synced) }
    {
        self.contents.past = Past::with(&self.contents);
        self.contents.held.truncate(len);
        self.contents.synced = self.contents.synced.min(len);
    }

    /// Syncs all bytes, and notes what was held.
    fn sync_all(&mut self)
        ensures after { self.new ≡ with_stage self.old self.old.held (length self.old.held) }
        ensures within { self.old.synced ≤ length self.old.held }
    {
        self.contents.past = Past::with(&self.contents);
        self.contents.synced = self.contents.held.len();
    }
}

impl Keeper for MemoryKeeper {
    ghost held = { λ k. k.held };

    ghost synced = { λ k. k.synced };

    ghost spare = { λ k. k.spare };

    ghost faults = { λ k. k.faults };

    ghost moment = { λ k. length k.past };

    ghost left_since = { LeftSince };

    ghost counts_now = { counts_now };

    ghost only_now = { only_now };

    fn len(&self) -> u64 {
        self.contents.held.len() as u64
    }

    fn reserve(&mut self, count: usize) -> Result<(), NoMemory>
        ensures reserved { OnOk result (self.new ≡ record self.old { spare = max count self.old.spare }) }
        ensures unchanged { OnErr result (self.new ≡ self.old) }
        ensures few { OnOk result (length self.old.held + count < 2 ^ 63) }
        ensures time { Elapses (length self.old.past) (length self.new.past) (LeftSince self.old) (LeftSince self.new) (Leaves self.old.held self.old.synced) }
    {
        self.contents.held.reserve(count)?;
        self.spare = self.spare.max(count);
        Ok(())
    }

    fn read(&mut self, at: u64, buf: &mut [u8]) -> Result<usize, Failed>
        requires within { at ≤ length self.old.held }
        requires some { 0 < length buf.old }
        ensures fails { IsErr result ↔ IsTrue (fails_next self.old) }
        ensures counted { self.new ≡ counted self.old }
        ensures all { IfOk result (λ count. count ≡ min (length buf.old) (length (drop at self.old.held))) }
        ensures moved { IfOk result (λ count. take count buf.new ≡ take count (drop at self.old.held)) }
        ensures end { IfOk result (λ count. count ≡ 0 → at ≡ length self.old.held) }
        ensures time { Elapses (length self.old.past) (length self.new.past) (LeftSince self.old) (LeftSince self.new) (Leaves self.old.held self.old.synced) }
    {
        if self.fails() {
            return Err(Failed);
        }
        let left = &self.contents.held[at as usize..];
        let count = left.len().min(buf.len());
        buf[..count].copy_from_slice(&left[..count]);
        Ok(count)
    }

    fn append(&mut self, piece: &[u8]) -> Result<(), Failed>
        requires { length piece.now ≤ self.old.spare }
        ensures fails { IsErr result ↔ IsTrue (fails_next self.old) }
        ensures after { self.new ≡ after_append self.old piece.now }
        ensures front { OnErr result (HasFront self.old.held piece.now self.new.held) }
        ensures time { Elapses (length self.old.past) (length self.new.past) (LeftSince self.old) (LeftSince self.new) (Leaves (self.old.held ++ piece.now) self.old.synced) }
    {
        if self.fails() {
            self.put(&piece[..piece.len() / 2]);
            return Err(Failed);
        }
        self.put(piece);
        Ok(())
    }

    fn cut(&mut self, len: u64) -> Result<(), Failed>
        requires { len ≤ length self.old.held }
        ensures fails { IsErr result ↔ IsTrue (fails_next self.old) }
        ensures after { self.new ≡ after_cut self.old len }
        ensures time { Elapses (length self.old.past) (length self.new.past) (LeftSince self.old) (LeftSince self.new) (LeavesEither self.old.held self.old.synced (take len self.old.held) (min len self.old.synced)) }
    {
        if self.fails() {
            return Err(Failed);
        }
        self.keep(len as usize);
        Ok(())
    }

    fn sync(&mut self) -> Result<(), Failed>
        ensures fails { IsErr result ↔ IsTrue (fails_next self.old) }
        ensures after { self.new ≡ after_sync self.old }
        ensures no_less { self.old.synced ≤ self.new.synced }
        ensures time { Elapses (length self.old.past) (length self.new.past) (LeftSince self.old) (LeftSince self.new) (Leaves self.old.held self.old.synced) }
    {
        if self.fails() {
            return Err(Failed);
        }
        self.sync_all();
        Ok(())
    }
}
