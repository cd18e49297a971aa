//! Sources and sinks of bytes, as the layers above see them.
//!
//! A source or a sink may tell the bytes that it has left or holds, so that a caller's contract can
//! name them, and counts its own faults, so that a caller can tell a failure that happened from one
//! that was made up. The profile is this project's own. The counts of bytes are those of `read` and
//! `write` in Rust's `std::io`.

ghost use Rattle.std.specs.Prelude.{◌≡◌, ◌<◌, ◌≤◌, ℕ, List, Option, Some, codes, length, take, IfOk, OnOk, OnErr};
ghost use Rattle.store_io.specs.Bytes.{Gave, Ended, Took, TookPrefix};

use std::error::Error;
use std::fmt;

/// A read or a write failed. It moved no byte.
#[derive(Clone, Copy, Debug, PartialEq, Eq)]
pub struct Failed;

impl fmt::Display for Failed {
    ghost output = { λ _. Some (codes "a read or a write failed") };

    fn fmt<W: fmt::Write>(&self, f: &mut fmt::Formatter<W>) -> fmt::Result {
        f.write_str("a read or a write failed")
    }
}

impl Error for Failed {}

/// Where bytes are read from.
pub trait Source {
    /// The bytes that are left, where the source tells them.
    ghost left: { Self → Option (List ℕ) };

    /// A count that rises in each call that fails, and in no other.
    ghost faults: { Self → ℕ };

    /// Moves the first bytes that are left to the front of `buf`, and says how many. `Ok(0)` is the
    /// end of the input. `Failed` comes only where the source had a fault, and leaves it the bytes
    /// that it had.
    fn read(&mut self, buf: &mut [u8]) -> Result<usize, Failed>
        requires { 0 < length buf.old }
        ensures within { IfOk result (λ count. count ≤ length buf.old) }
        ensures moved { IfOk result (λ count. Gave (left self.old) (left self.new) (take count buf.new)) }
        ensures end { IfOk result (λ count. count ≡ 0 → Ended (left self.new)) }
        ensures steady { OnOk result (faults self.new ≡ faults self.old) }
        ensures fault { OnErr result (faults self.old < faults self.new) }
        ensures kept { OnErr result (left self.new ≡ left self.old) };
}

/// Where bytes are written to.
pub trait Sink {
    /// The bytes that it holds, where it tells them.
    ghost held: { Self → Option (List ℕ) };

    /// A count that rises in each call that fails, and in no other.
    ghost faults: { Self → ℕ };

    /// Appends the first bytes of `piece`, at least one, and says how many. `Failed` comes only
    /// where the sink had a fault, and leaves it the bytes that it held.
    fn write(&mut self, piece: &[u8]) -> Result<usize, Failed>
        requires { 0 < length piece.now }
        ensures within { IfOk result (λ count. (1 ≤ count) × (count ≤ length piece.now)) }
        ensures appended { IfOk result (λ count. Took (held self.old) (held self.new) (take count piece.now)) }
        ensures steady { OnOk result (faults self.new ≡ faults self.old) }
        ensures fault { OnErr result (faults self.old < faults self.new) }
        ensures kept { OnErr result (held self.new ≡ held self.old) };
}

/// Appends all of `piece`, in as many writes as the sink needs. On `Failed`, which comes only where
/// the sink had a fault, it holds a front of `piece`, and not all of it, behind what it held.
pub fn write_whole<K: Sink>(sink: &mut K, piece: &[u8]) -> Result<(), Failed>
    ensures ok { OnOk result (Took (K.held sink.old) (K.held sink.new) piece.now) }
    ensures steady { OnOk result (K.faults sink.new ≡ K.faults sink.old) }
    ensures fault { OnErr result (K.faults sink.old < K.faults sink.new) }
    ensures prefix { OnErr result (TookPrefix (K.held sink.old) (K.held sink.new) piece.now) }
{
    let mut done = 0;
    while done < piece.len() {
        done += sink.write(&piece[done..])?;
    }
    Ok(())
}
