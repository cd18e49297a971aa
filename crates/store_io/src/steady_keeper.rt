//! A keeper in memory of which no call fails.

ghost use Rattle.std.specs.Prelude.{◌≡◌, ◌+◌, ◌<◌, ◌≤◌, ◌^◌, ◌++◌, [], length, take, drop, min, IfOk, OnOk, OnErr};
ghost use Rattle.store_io.specs.Keeping.{Leaves, LeavesEither, HasFront, Elapses};
ghost use Rattle.store_io.specs.MemoryKeeping.{KeeperState, LeftSince, nothing_held, after_stop};
ghost use Rattle.store_io.specs.MemoryMoments.{counts_now, only_now};

use crate::keeper::Keeper;
use crate::memory_keeper::MemoryKeeper;
use crate::traits::Failed;
use op_base::NoMemory;
use std::alloc::Global;
use std::marker::Model;

/// A keeper of bytes in memory, of which no call fails.
#[derive(Drop)]
pub struct SteadyKeeper {
    inner: MemoryKeeper,
}

impl Model for SteadyKeeper {
    ghost Value = { KeeperState };

    ghost view = { λ k. k.inner };

    ghost invariant = { λ k. (k.inner.failing ≡ []) × (k.inner.faults ≡ 0) };
}

impl SteadyKeeper {
    /// A keeper that holds nothing and has room for nothing.
    pub fn new(alloc: Global) -> SteadyKeeper
        ensures { result ≡ nothing_held [] }
    {
        SteadyKeeper {
            inner: MemoryKeeper::new(Vec::new(alloc)),
        }
    }

    /// What a stop leaves that loses all but the synced bytes and the next `bytes` bytes behind them, or all of those where
    /// there are fewer. All that is left is synced.
    pub fn crash(self, bytes: u64) -> SteadyKeeper
        ensures stopped { result ≡ after_stop self bytes }
        ensures left { Leaves self.held self.synced result.held }
    {
        let SteadyKeeper { inner } = self;
        SteadyKeeper {
            inner: inner.crash(bytes),
        }
    }
}

impl Keeper for SteadyKeeper {
    ghost held = { λ k. k.held };

    ghost synced = { λ k. k.synced };

    ghost spare = { λ k. k.spare };

    ghost faults = { λ _. 0 };

    ghost moment = { λ k. length k.past };

    ghost left_since = { LeftSince };

    ghost counts_now = { counts_now };

    ghost only_now = { only_now };

    fn len(&self) -> u64 {
        self.inner.len()
    }

    fn reserve(&mut self, count: usize) -> Result<(), NoMemory> {
        self.inner.reserve(count)
    }

    fn read(&mut self, at: u64, buf: &mut [u8]) -> Result<usize, Failed> {
        self.inner.read(at, buf)
    }

    fn append(&mut self, piece: &[u8]) -> Result<(), Failed> {
        self.inner.append(piece)
    }

    fn cut(&mut self, len: u64) -> Result<(), Failed> {
        self.inner.cut(len)
    }

    fn sync(&mut self) -> Result<(), Failed> {
        self.inner.sync()
    }
}
