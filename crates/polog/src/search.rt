//! Where an object's entries stand among entries that are side by side by object.

ghost use Rattle.std.specs.Prelude.{◌≡◌, ◌^◌, ◌<◌, ◌≤◌, true, false, take, drop, length, slice_index_or, IsTrue};
ghost use Rattle.std.specs.Ordering.{is_lt, is_le};
ghost use Rattle.op_base.specs.Order.{object_cmp};
ghost use Rattle.polog.specs.Value.{is_of};
ghost use Rattle.op_base.specs.declared.message.Entry.{Entry};
ghost use Rattle.polog.specs.Order.{Each, Pairwise};
ghost use Rattle.polog.specs.Rows.{IsSpan, IsStand, is_live};

use crate::guesses::Stand;
use crate::rows::Rows;
use op_base::{Entry, ObjectId};

/// Whether an entry stands before those of an object. Where it is of the object, that is told sooner than the order.
fn stands_before(entry: &Entry, object: &ObjectId) -> bool
    ensures { result ≡ is_lt (object_cmp entry.now.update.object object.now) }
{
    if entry.update.object.is_same(object) {
        return false;
    }
    entry.update.object.cmp(object).is_lt()
}

/// Whether an entry stands before those of an object, or is of it.
fn stands_within(entry: &Entry, object: &ObjectId) -> bool
    ensures { result ≡ is_le (object_cmp entry.now.update.object object.now) }
{
    if entry.update.object.is_same(object) {
        return true;
    }
    entry.update.object.cmp(object).is_le()
}

/// Whether an entry stands at a place and is of an object.
fn is_at(entries: &[Entry], object: &ObjectId, at: usize) -> bool
    ensures inside { IsTrue result → at < length entries.now }
    ensures of { at < length entries.now → (d : Entry) → result ≡ is_of object.now (slice_index_or entries.now at d) }
{
    at < entries.len() && entries[at].update.object.is_same(object)
}

/// Whether an object's entries, of which there are some, stand from one place up to another. Where their order tells it, it isn't
/// looked at.
fn is_span(entries: &[Entry], object: &ObjectId, from: usize, to: usize) -> bool
    requires { Pairwise (λ a b. is_le (object_cmp a.update.object b.update.object) ≡ true) entries.now }
    ensures { IsTrue result → IsSpan object.now entries.now from to }
{
    if from >= to || !is_at(entries, object, from) || !is_at(entries, object, to - 1) {
        return false;
    }
    if from > 0 && is_at(entries, object, from - 1) {
        return false;
    }
    !is_at(entries, object, to)
}

/// How many entries stand before those of an object.
pub fn count_before(entries: &[Entry], object: &ObjectId) -> usize
    requires { Pairwise (λ a b. is_le (object_cmp a.update.object b.update.object) ≡ true) entries.now }
    ensures bound { result ≤ length entries.now }
    ensures before { Each (λ e. is_lt (object_cmp e.update.object object.now) ≡ true) (take result entries.now) }
    ensures after { Each (λ e. is_lt (object_cmp e.update.object object.now) ≡ false) (drop result entries.now) }
{
    entries.partition_point(
        |entry: &Entry| -> bool
            ensures { result ≡ is_lt (object_cmp entry.now.update.object object.entry.now) }
        { stands_before(entry, object) },
    )
}

/// How many entries stand before those of an object, or are of it.
pub fn count_through(entries: &[Entry], object: &ObjectId) -> usize
    requires { Pairwise (λ a b. is_le (object_cmp a.update.object b.update.object) ≡ true) entries.now }
    ensures bound { result ≤ length entries.now }
    ensures before { Each (λ e. is_le (object_cmp e.update.object object.now) ≡ true) (take result entries.now) }
    ensures after { Each (λ e. is_le (object_cmp e.update.object object.now) ≡ false) (drop result entries.now) }
{
    entries.partition_point(
        |entry: &Entry| -> bool
            ensures { result ≡ is_le (object_cmp entry.now.update.object object.entry.now) }
        { stands_within(entry, object) },
    )
}

/// From which place on and up to which place an object's entries stand, or would stand. The guess is tried first.
pub fn span_of(entries: &[Entry], object: &ObjectId, guess: (usize, usize)) -> (usize, usize)
    requires { Pairwise (λ a b. is_le (object_cmp a.update.object b.update.object) ≡ true) entries.now }
    ensures { IsSpan object.now entries.now result.0 result.1 }
{
    let (from, to) = (guess.0, guess.1.min(entries.len()));
    if is_span(entries, object, from, to) {
        return (from, to);
    }
    let from = count_before(entries, object);
    (from, from + count_through(&entries[from..], object))
}

/// Where the rows of an object stand, or would stand. The guess is tried first.
#[inline(always)]
pub fn stand_of(rows: &Rows, object: &ObjectId, guess: Stand) -> Stand
    requires ordered { Pairwise (λ a b. is_le (object_cmp a.1.update.object b.1.update.object) ≡ true) rows.now.rows }
    requires behind { Pairwise (λ a b. a.1.update.object ≡ b.1.update.object → is_live b ≡ true → is_live a ≡ true) rows.now.rows }
    ensures stand { IsStand object.now rows.now.rows result }
    ensures small { result.to < 2 ^ 63 }
{
    let (from, to) = span_of(rows.entries(), object, (guess.from, guess.to));
    Stand {
        from,
        end: rows.live_end(from, to, guess.end),
        to,
    }
}
