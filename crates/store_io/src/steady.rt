//! A source over bytes in memory that never fails.

ghost use Rattle.std.specs.Prelude.{◌≡◌, ◌<◌, ◌≤◌, List, ℕ, Some, length, take, drop, min, IfOk, IsOk};

use crate::traits::{Failed, Source};
use std::marker::Model;

/// A source of bytes in memory, which contracts see as the bytes that are left. It gives as many at
/// each call as the buffer takes, and never fails.
#[derive(Drop)]
pub struct SteadySource {
    bytes: Vec<u8>,
    given: usize,
}

impl Model for SteadySource {
    ghost Value = { List ℕ };

    ghost view = { λ s. drop s.given s.bytes.items };

    ghost invariant = { λ s. s.given ≤ length s.bytes.items };
}

impl SteadySource {
    /// A source that has these bytes to give.
    pub fn new(bytes: Vec<u8>) -> SteadySource
        ensures { result ≡ bytes.items }
    {
        SteadySource { bytes, given: 0 }
    }
}

impl Source for SteadySource {
    ghost left = { λ s. Some s };

    ghost faults = { λ _. 0 };

    fn read(&mut self, buf: &mut [u8]) -> Result<usize, Failed>
        requires { 0 < length buf.old }
        ensures succeeds { IsOk result }
        ensures count { IfOk result (λ count. count ≡ min (length buf.old) (length self.old)) }
        ensures bytes { IfOk result (λ count. take count buf.new ≡ take count self.old) }
        ensures left { IfOk result (λ count. self.new ≡ drop count self.old) }
        ensures beyond { IfOk result (λ count. drop count buf.new ≡ drop count buf.old) }
    {
        let left = &self.bytes[self.given..];
        let count = left.len().min(buf.len());
        buf[..count].copy_from_slice(&left[..count]);
        self.given += count;
        Ok(count)
    }
}
