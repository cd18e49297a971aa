//! Reading records: their whole ones, one after the other, up to the first fault.

ghost use Rattle.std.specs.Prelude.{◌≡◌, ◌≤◌, [], ℕ, length, take, IfOk, OnErr, Err, Some, false};
ghost use Rattle.replica_keeper.specs.Keeping.{groups_of};
ghost use Rattle.replica_keeper.specs.Open.{settings_by, IsOpen};
ghost use Rattle.world_model.specs.Records.{kept_reading, kept_fault};
ghost use Rattle.replica_keeper.specs.Reads.{IsHead, IsReadAs};
ghost use Rattle.replica_keeper.specs.Open.{IsSame};

use crate::replay::replay_content;
use byteorder::{BigEndian, ByteOrder};
use op_base::NoMemory;
use replica_node::{Journal, Node};
use std::alloc::Global;

/// The most bytes that stand behind a record's length.
const MOST_RECORD_BYTES: usize = 8192;

/// What stands at the front of bytes: no whole record, a length that no record has, or a record with so many bytes behind its
/// length.
#[derive(Clone, Copy, Debug, PartialEq, Eq)]
enum Head {
    Torn,
    Misfit,
    Whole(usize),
}

/// What one step of reading found: no whole record, a fault, or a record of so many bytes that was replayed.
#[derive(Clone, Copy, Debug, PartialEq, Eq)]
enum Read {
    End,
    Fault,
    Record(usize),
}

/// Why records weren't replayed: there was no memory, or the first fault stands at this byte.
#[derive(Clone, Copy, Debug, PartialEq, Eq)]
pub(crate) enum Unread {
    NoMemory,
    Damaged(usize),
}

impl From<NoMemory> for Unread {
    ghost use Rattle.std.specs.Prelude.{◌≡◌};
    ghost use Rattle.replica_keeper.specs.declared.reading.Unread.TheVariants as faults;

    ghost from_gives = { λ _ e. e ≡ faults.NoMemory };

    fn from(_error: NoMemory) -> Unread {
        Unread::NoMemory
    }
}

/// What stands at the front of bytes.
fn front_of(bytes: &[u8]) -> Head
    ensures { IsHead result bytes.now }
{
    if bytes.len() < 4 {
        return Head::Torn;
    }
    let len = BigEndian::read_u32(bytes) as usize;
    if len == 0 || len > MOST_RECORD_BYTES {
        return Head::Misfit;
    }
    if bytes.len() - 4 < len {
        return Head::Torn;
    }
    Head::Whole(len)
}

/// Replays the record at the front of bytes.
fn step(alloc: Global, node: &mut Node<Journal>, bytes: &[u8]) -> Result<Read, NoMemory>
    ensures read { IfOk result (λ read. IsReadAs node.old node.new bytes.now read) }
    ensures same { IsSame node.old node.new }
{
    match front_of(bytes) {
        Head::Torn => Ok(Read::End),
        Head::Misfit => Ok(Read::Fault),
        Head::Whole(len) => {
            if replay_content(alloc, node, &bytes[4..4 + len])? {
                Ok(Read::Record(4 + len))
            } else {
                Ok(Read::Fault)
            }
        }
    }
}

/// Replays all whole records of bytes, and says how many bytes they have.
pub(crate) fn replay(alloc: Global, node: &mut Node<Journal>, bytes: &[u8]) -> Result<usize, Unread>
    requires first { node.old.first ≡ (node.old.inner.me, node.old.inner.n) }
    requires none { node.old.journal.notes ≡ [] }
    ensures within { IfOk result (λ at. at ≤ length bytes.now) }
    ensures open { IfOk result (λ at. IsOpen node.new (take at bytes.now) at) }
    ensures read { IfOk result (λ at. kept_reading (settings_by node.old) bytes.now ≡ record { groups = groups_of node.new.journal.notes; len = at; faulty = false }) }
    ensures damaged { (at : ℕ) → result ≡ Err (Unread.Damaged at) → kept_fault (settings_by node.old) bytes.now ≡ Some at }
    ensures same { IsSame node.old node.new }
{
    let mut at = 0;
    'records: loop {
        match step(alloc, node, &bytes[at..])? {
            Read::End => return Ok(at),
            Read::Fault => return Err(Unread::Damaged(at)),
            Read::Record(len) => at += len,
        }
    }
}
