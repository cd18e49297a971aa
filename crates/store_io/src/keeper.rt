//! A keeper of bytes that outlive a stop, as the layers above see it.
//!
//! A stop at any moment leaves a front of the bytes held then, at least as long as what is synced then. So that a clause can
//! speak of the midst of a call, a keeper counts its moments, and each call says what a stop since a given moment may have left.
//!
//! What is built here is a keeper in memory. Nothing here keeps bytes in a file: no contract can say what a disk does, so that a
//! keeper over one would owe an argument of its own for each call, which its docs below name.

ghost use Rattle.std.specs.Prelude.{◌≡◌, ◌+◌, ◌<◌, ◌≤◌, ◌^◌, ◌++◌, ℕ, List, min, length, take, drop, IfOk, OnOk, OnErr};
ghost use Rattle.store_io.specs.Keeping.{Leaves, LeavesEither, HasFront, Elapses, LeavesOnly};

use crate::traits::Failed;
use op_base::NoMemory;

/// Bytes, of which the first are synced: they outlive each stop.
///
/// Over a file, a keeper would owe more than any call's clauses show: that no other program writes to the file, and that after a
/// stop the bytes are read again before anything is appended.
pub trait Keeper {
    /// The bytes held.
    ghost held: { Self → List ℕ };

    /// How many of them are synced.
    ghost synced: { Self → ℕ };

    /// How many bytes more can be appended without memory.
    ghost spare: { Self → ℕ };

    /// A count that rises in each call that fails, and in no other.
    ghost faults: { Self → ℕ };

    /// The moment, as a number that doesn't fall.
    ghost moment: { Self → ℕ };

    /// What a stop at some moment from that one on might have left, in the midst of a call or between two.
    ghost left_since: { Self → ℕ → List ℕ → Type 0 };

    /// How many bytes are held. Over a file: the length as this program's own calls made it, kept beside the file, since asking
    /// the system may fail.
    fn len(&self) -> u64
        ensures len { result ≡ length (held self.now) }
        ensures within { synced self.now ≤ length (held self.now) };

    /// Takes room for so many bytes more, where there are then fewer than 2^63, and for what is recorded of them. `NoMemory`
    /// changes nothing and is no fault. Over a file: no disk is asked for room here, so that a full disk is a fault of `append`.
    fn reserve(&mut self, count: usize) -> Result<(), NoMemory>
        ensures room { OnOk result (count ≤ spare self.new) }
        ensures few { OnOk result (length (held self.old) + count < 2 ^ 63) }
        ensures spare { spare self.old ≤ spare self.new }
        ensures no_more { OnErr result (spare self.new ≡ spare self.old) }
        ensures held { held self.new ≡ held self.old }
        ensures synced { synced self.new ≡ synced self.old }
        ensures steady { faults self.new ≡ faults self.old }
        ensures time { Elapses (moment self.old) (moment self.new) (left_since self.old) (left_since self.new) (Leaves (held self.old) (synced self.old)) };

    /// Moves bytes from a place on to the front of `buf`, and says how many: none exactly at the end. Over a file: a read shows
    /// what was appended, whether it is synced or not, and a disk that gives other bytes than it was given is a fault that this
    /// call has to find, by a checksum of its own.
    fn read(&mut self, at: u64, buf: &mut [u8]) -> Result<usize, Failed>
        requires within { at ≤ length (held self.old) }
        requires some { 0 < length buf.old }
        ensures count { IfOk result (λ count. count ≤ min (length buf.old) (length (drop at (held self.old)))) }
        ensures moved { IfOk result (λ count. take count buf.new ≡ take count (drop at (held self.old))) }
        ensures end { IfOk result (λ count. count ≡ 0 → at ≡ length (held self.old)) }
        ensures held { held self.new ≡ held self.old }
        ensures synced { synced self.new ≡ synced self.old }
        ensures spare { spare self.old ≤ spare self.new }
        ensures steady { OnOk result (faults self.new ≡ faults self.old) }
        ensures fault { OnErr result (faults self.old < faults self.new) }
        ensures time { Elapses (moment self.old) (moment self.new) (left_since self.old) (left_since self.new) (Leaves (held self.old) (synced self.old)) };

    /// Appends a piece for which there is room. It takes no memory. `Failed` leaves a front of the piece appended. Over a file:
    /// writes go to the end in order, so that no later byte outlives a stop without those before it, and what a stop leaves
    /// behind the last byte written is cut off, as zeros that a longer file would show.
    fn append(&mut self, piece: &[u8]) -> Result<(), Failed>
        requires { length piece.now ≤ spare self.old }
        ensures appended { OnOk result (held self.new ≡ held self.old ++ piece.now) }
        ensures front { OnErr result (HasFront (held self.old) piece.now (held self.new)) }
        ensures synced { synced self.new ≡ synced self.old }
        ensures spare { spare self.old ≤ spare self.new + length piece.now }
        ensures steady { OnOk result (faults self.new ≡ faults self.old) }
        ensures fault { OnErr result (faults self.old < faults self.new) }
        ensures time { Elapses (moment self.old) (moment self.new) (left_since self.old) (left_since self.new) (Leaves (held self.old ++ piece.now) (synced self.old)) };

    /// Cuts the bytes to a length. It takes no memory. `Failed` leaves them as they were. Over a file: the system sets the length
    /// at once, or not at all.
    fn cut(&mut self, len: u64) -> Result<(), Failed>
        requires { len ≤ length (held self.old) }
        ensures held { OnOk result (held self.new ≡ take len (held self.old)) }
        ensures synced { OnOk result (synced self.new ≡ min len (synced self.old)) }
        ensures kept { OnErr result (held self.new ≡ held self.old) }
        ensures kept_synced { OnErr result (synced self.new ≡ synced self.old) }
        ensures spare { spare self.old ≤ spare self.new }
        ensures steady { OnOk result (faults self.new ≡ faults self.old) }
        ensures fault { OnErr result (faults self.old < faults self.new) }
        ensures time { Elapses (moment self.old) (moment self.new) (left_since self.old) (left_since self.new)
            (LeavesEither (held self.old) (synced self.old) (take len (held self.old)) (min len (synced self.old))) };

    /// Syncs all bytes held. It takes no memory. `Failed` leaves them, and no less synced. Over a file: the system's sync of data
    /// and length, by a disk that doesn't tell it done before it is; and after one that failed the next may not tell success of
    /// bytes that were lost, as some systems do.
    fn sync(&mut self) -> Result<(), Failed>
        ensures synced { OnOk result (synced self.new ≡ length (held self.old)) }
        ensures held { held self.new ≡ held self.old }
        ensures no_less { synced self.old ≤ synced self.new }
        ensures spare { spare self.old ≤ spare self.new }
        ensures steady { OnOk result (faults self.new ≡ faults self.old) }
        ensures fault { OnErr result (faults self.old < faults self.new) }
        ensures time { Elapses (moment self.old) (moment self.new) (left_since self.old) (left_since self.new) (Leaves (held self.old) (synced self.old)) };

    /// This moment is one of those since an earlier one.
    ghost counts_now: { (keeper : Self) (t : ℕ) (left : List ℕ) → t ≤ moment keeper → Leaves (held keeper) (synced keeper) left → left_since keeper t left };

    /// Since this moment there is no other.
    ghost only_now: { (keeper : Self) (left : List ℕ) → left_since keeper (moment keeper) left → Leaves (held keeper) (synced keeper) left };
}

/// Appends a piece and syncs it. A stop at any moment leaves a front of what was held and the piece, no shorter than what was
/// synced.
pub fn append_synced<K: Keeper>(keeper: &mut K, piece: &[u8]) -> Result<(), Failed>
    requires { length piece.now ≤ K.spare keeper.old }
    ensures held { OnOk result (K.held keeper.new ≡ K.held keeper.old ++ piece.now) }
    ensures synced { OnOk result (K.synced keeper.new ≡ length (K.held keeper.new)) }
    ensures front { HasFront (K.held keeper.old) piece.now (K.held keeper.new) }
    ensures no_less { K.synced keeper.old ≤ K.synced keeper.new }
    ensures spare { K.spare keeper.old ≤ K.spare keeper.new + length piece.now }
    ensures steady { OnOk result (K.faults keeper.new ≡ K.faults keeper.old) }
    ensures fault { OnErr result (K.faults keeper.old < K.faults keeper.new) }
    ensures any_moment { LeavesOnly K.moment K.left_since keeper.old keeper.new (Leaves (K.held keeper.old ++ piece.now) (K.synced keeper.old)) }
{
    keeper.append(piece)?;
    keeper.sync()
}
