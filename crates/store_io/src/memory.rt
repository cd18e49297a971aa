//! A source and a sink in memory, for tests: how large their pieces are and which of their calls
//! fail is given.

ghost use Rattle.std.specs.Prelude.{◌≡◌, ◌^◌, ◌<◌, ◌≤◌, ◌↔◌, [], Some, length, take, drop, vec_capacity, IsTrue, IsErr, IfOk, OnErr};
ghost use Rattle.store_io.specs.Memory.{SourceState, SinkState, is_failing, fails_next, given_next, after_read, after_failed_read, refuses_next, taken_next, after_write, after_failed_write};

use crate::counts::FaultCount;
use crate::traits::{Failed, Sink, Source};
use op_base::NoMemory;
use std::alloc::Global;
use std::marker::Model;

/// Whether the call of this number is one of those that are to fail.
pub(crate) fn is_listed(failing: &[u32], number: u64) -> bool
    ensures listed { result ≡ is_failing failing.now number }
    ensures small { IsTrue result → number < 2 ^ 32 }
{
    failing.iter().any(|call| u64::from(*call) == number)
}

/// A source of bytes in memory. It gives at each call as many bytes as its piece, unless the buffer
/// or what is left is shorter, and fails at the calls whose numbers it was given.
#[derive(Drop)]
pub struct MemorySource {
    bytes: Vec<u8>,
    given: usize,
    piece: usize,
    failing: Vec<u32>,
    calls: u64,
    faults: u64,
}

impl Model for MemorySource {
    ghost Value = { SourceState };

    ghost view = { λ s. record {
      left = drop s.given s.bytes.items;
      piece = s.piece;
      failing = s.failing.items;
      calls = s.calls;
      faults = s.faults;
    } };

    ghost invariant = { λ s. (s.given ≤ length s.bytes.items) × (1 ≤ s.piece) × (s.faults ≤ s.calls) };
}

impl MemorySource {
    /// A source that has `bytes` to give, `piece` of them at a call at most. Its calls are counted
    /// from 1, and those whose numbers are in `failing` fail.
    pub fn new(bytes: Vec<u8>, piece: usize, failing: Vec<u32>) -> MemorySource
        requires { 1 ≤ piece }
        ensures { result ≡ record {
          left = bytes.items;
          piece = piece;
          failing = failing.items;
          calls = 0;
          faults = 0;
        } }
    {
        MemorySource {
            bytes,
            given: 0,
            piece,
            failing,
            calls: 0,
            faults: 0,
        }
    }
}

impl Source for MemorySource {
    ghost left = { λ s. Some s.left };

    ghost faults = { λ s. s.faults };

    fn read(&mut self, buf: &mut [u8]) -> Result<usize, Failed>
        requires { 0 < length buf.old }
        ensures fails { IsErr result ↔ IsTrue (fails_next self.old) }
        ensures count { IfOk result (λ count. count ≡ given_next self.old (length buf.old)) }
        ensures bytes { IfOk result (λ count. take count buf.new ≡ take count self.old.left) }
        ensures beyond { IfOk result (λ count. drop count buf.new ≡ drop count buf.old) }
        ensures read { IfOk result (λ count. self.new ≡ after_read self.old count) }
        ensures failed { OnErr result (self.new ≡ after_failed_read self.old) }
        ensures unmoved { OnErr result (buf.new ≡ buf.old) }
        ensures end { IfOk result (λ count. count ≡ 0 → self.new.left ≡ []) }
    {
        self.calls = self.calls.saturating_add(1);
        if is_listed(&self.failing, self.calls) {
            self.faults += 1;
            return Err(Failed);
        }
        let left = &self.bytes[self.given..];
        let count = self.piece.min(buf.len()).min(left.len());
        buf[..count].copy_from_slice(&left[..count]);
        self.given += count;
        Ok(count)
    }
}

/// A sink in memory, with room for so many bytes. It takes at each call as many bytes as its piece,
/// unless what it is given or its room is shorter, and fails at the calls whose numbers it was
/// given and where its room is used up.
#[derive(Drop)]
pub struct MemorySink {
    held: Vec<u8>,
    room: usize,
    piece: usize,
    failing: Vec<u32>,
    calls: u64,
    faults: FaultCount,
}

impl Model for MemorySink {
    ghost Value = { SinkState };

    ghost view = { λ s. record {
      held = s.held.items;
      room = s.room;
      piece = s.piece;
      failing = s.failing.items;
      calls = s.calls;
      faults = s.faults.faults;
    } };

    ghost invariant = { λ s. (length s.held.items ≤ s.room) × (s.room ≤ vec_capacity s.held) × (1 ≤ s.piece) };
}

impl MemorySink {
    /// A sink that takes `room` bytes, `piece` of them at a call at most, with the memory for them.
    /// Its calls are counted from 1, and those whose numbers are in `failing` fail.
    pub fn create(
        alloc: Global,
        room: usize,
        piece: usize,
        failing: Vec<u32>,
    ) -> Result<MemorySink, NoMemory>
        requires { 1 ≤ piece }
        ensures { IfOk result (λ sink. sink ≡ record {
          held = [];
          room = room;
          piece = piece;
          failing = failing.items;
          calls = 0;
          faults = 0;
        }) }
    {
        Ok(MemorySink {
            held: Vec::with_capacity(alloc, room)?,
            room,
            piece,
            failing,
            calls: 0,
            faults: FaultCount::none(),
        })
    }

    /// The bytes that it holds.
    pub fn bytes(&self) -> &[u8]
        ensures { result.now ≡ self.now.held }
    {
        self.held.as_slice()
    }
}

impl Sink for MemorySink {
    ghost held = { λ s. Some s.held };

    ghost faults = { λ s. s.faults };

    fn write(&mut self, piece: &[u8]) -> Result<usize, Failed>
        requires { 0 < length piece.now }
        ensures fails { IsErr result ↔ IsTrue (refuses_next self.old) }
        ensures count { IfOk result (λ count. count ≡ taken_next self.old (length piece.now)) }
        ensures some { IfOk result (λ count. 1 ≤ count) }
        ensures written { IfOk result (λ count. self.new ≡ after_write self.old (take count piece.now)) }
        ensures failed { OnErr result (self.new ≡ after_failed_write self.old) }
    {
        self.calls = self.calls.saturating_add(1);
        let room = self.room - self.held.len();
        if room == 0 || is_listed(&self.failing, self.calls) {
            self.faults = self.faults.one_more();
            return Err(Failed);
        }
        let count = self.piece.min(piece.len()).min(room);
        // The room was taken when the sink was made, so this needs no memory.
        self.held.extend_from_slice(&piece[..count]).unwrap();
        Ok(count)
    }
}
