//! Marks of acts, by which rows of other values are passed over.

ghost use Rattle.std.specs.Prelude.{◌≡◌, ◌≢◌, ◌≤◌, ◌<◌, ℕ, false, length, slice_index_or};
ghost use Rattle.polog.specs.Marks.{mark_of, mark_of_text};
ghost use Rattle.polog.specs.declared.marks.Stamp.{Stamp};

use op_base::Act;

/// What stands beside an entry.
#[derive(Clone, Copy, Debug)]
pub struct Stamp {
    /// The number of the entry's arrival.
    pub number: u64,
    /// The mark of its act.
    pub mark: u32,
}

/// The number of a row that is free: no entry has it.
pub const FREE: u64 = u64::MAX;

/// So many of a value's last bytes make its mark.
const MARKED: usize = 32;

/// What a mark is multiplied by for each byte. It is the prime of the hash of Fowler, Noll and Vo for 32 bits.
const FACTOR: u32 = 16_777_619;

/// The mark of an act. Acts that name the same value have the same.
pub fn mark_of(act: &Act) -> u32
    ensures { result ≡ mark_of act.now }
{
    match act {
        Act::Add(value) | Act::Rmv(value) | Act::Write(value) => mark_of_text(value.as_slice()),
        Act::Clear | Act::Enable | Act::Disable | Act::Inc(_) | Act::Dec(_) => 0,
        Act::Ins(_, _) | Act::Del(_) => 0,
    }
}

/// The mark of a value's bytes.
fn mark_of_text(bytes: &[u8]) -> u32
    ensures { result ≡ mark_of_text bytes.now }
{
    let last = &bytes[bytes.len().saturating_sub(MARKED)..];
    let mut mark = 0u32;
    for byte in last {
        mark = mark.wrapping_mul(FACTOR).wrapping_add(u32::from(*byte));
    }
    mark
}

/// So many stamps are looked at together.
const BLOCK: usize = 8;

/// Whether a mark stands among stamps. All are looked at, so that several are compared at once.
#[inline(always)]
fn is_among(stamps: &[Stamp], mark: u32) -> bool
    ensures { result ≡ false → (k : ℕ) (d : Stamp) → k < length stamps.now → (slice_index_or stamps.now k d).mark ≢ mark }
{
    let mut found = false;
    for stamp in stamps {
        found |= stamp.mark == mark;
    }
    found
}

/// A place from a place on and up to a later one, before which a mark doesn't stand. Where it isn't near the later one, the mark
/// stands soon behind it.
fn block_marked(stamps: &[Stamp], mark: u32, from: usize, to: usize) -> usize
    requires order { from ≤ to }
    requires places { to ≤ length stamps.now }
    ensures least { from ≤ result }
    ensures most { result ≤ to }
    ensures passed { (k : ℕ) (d : Stamp) → from ≤ k → k < result → (slice_index_or stamps.now k d).mark ≢ mark }
{
    let mut at = from;
    while to - at >= BLOCK && !is_among(&stamps[at..at + BLOCK], mark) {
        at += BLOCK;
    }
    at
}

/// The first place from a place on and up to a later one where a mark stands, or the later place.
pub fn next_marked(stamps: &[Stamp], mark: u32, from: usize, to: usize) -> usize
    requires order { from ≤ to }
    requires places { to ≤ length stamps.now }
    ensures least { from ≤ result }
    ensures most { result ≤ to }
    ensures passed { (k : ℕ) (d : Stamp) → from ≤ k → k < result → (slice_index_or stamps.now k d).mark ≢ mark }
    ensures marked { (d : Stamp) → result < to → (slice_index_or stamps.now result d).mark ≡ mark }
{
    for at in block_marked(stamps, mark, from, to)..to {
        if stamps[at].mark == mark {
            return at;
        }
    }
    to
}
