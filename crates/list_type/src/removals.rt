//! What the log's entries of an object take out of its list, told once for all of its elements.

ghost use Rattle.std.specs.Prelude.{◌≡◌, ℕ, ◌<◌, max, ◌||◌, true, [], slice_index};
ghost use Rattle.std.specs.List.{list_any};
ghost use Rattle.op_base.specs.declared.tag.ElementId.{ElementId as AnElement};
ghost use Rattle.list_type.specs.Heads.{head_of, takes_by};
ghost use Rattle.list_type.specs.Removals.{is_clear, clears_by, seen_below, is_cleared, AreJoined, AreTold};

use crate::deletions::Deletions;
use crate::head::Head;
use op_base::{Act, ElementId, Entry};

/// What clears take out: what earlier epochs put in, and of each member's elements of this epoch those below a number.
#[derive(Drop)]
struct Clears {
    /// Whether there is a clear.
    any: bool,
    /// The number, at each member.
    below: [u64; 16],
}

/// Whether an act is a clear.
fn is_clear(act: &Act) -> bool
    ensures { result ≡ is_clear act.now }
{
    match act {
        Act::Clear => true,
        Act::Add(_) | Act::Rmv(_) | Act::Write(_) | Act::Enable | Act::Disable => false,
        Act::Inc(_) | Act::Dec(_) | Act::Ins(_, _) | Act::Del(_) => false,
    }
}

/// Whether an entry of an epoch clears an element.
fn does_clear(epoch: u32, entry: &Entry, id: ElementId) -> bool
    ensures { result ≡ clears_by epoch entry.now id }
{
    is_clear(entry.update.act()) && Head::of(epoch, entry).had_seen(id)
}

/// Whether one of the entries clears an element.
#[inline(never)]
fn is_cleared(epoch: u32, entries: &[Entry], id: &ElementId) -> bool
    ensures { result ≡ list_any (λ e. clears_by epoch e id.now) entries.now }
{
    entries.iter().any(|entry| does_clear(epoch, entry, *id))
}

impl Clears {
    /// No clear was read.
    #[inline(always)]
    fn none() -> Clears
        ensures { (epoch : ℕ) → AreJoined result epoch [] }
    {
        Clears {
            any: false,
            below: [0; 16],
        }
    }

    /// Reads an object's entries of an epoch.
    fn read(&mut self, epoch: u32, entries: &[Entry])
        requires { AreJoined self.old epoch [] }
        ensures { AreJoined self.new epoch entries.now }
    {
        for entry in entries {
            self.take_in(epoch, entry);
        }
    }

    /// What an entry clears is taken out too.
    fn take_in(&mut self, epoch: u32, entry: &Entry)
        ensures { (id : AnElement) → id.origin < 16 → is_cleared self.new epoch id ≡ (is_cleared self.old epoch id || clears_by epoch entry.now id) }
    {
        if is_clear(entry.update.act()) {
            self.join(&Head::of(epoch, entry));
        }
    }

    /// What the sender of a clear had seen is taken out too.
    fn join(&mut self, head: &Head)
        ensures any { self.new.any ≡ true }
        ensures below { (x : ℕ) → x < 16 → slice_index self.new.below x ≡ max (slice_index self.old.below x) (seen_below (head_of head.now) x) }
    {
        self.any = true;
        for x in 0..16 {
            self.below[x] = self.below[x].max(head.seen_below(x as u8));
        }
    }

    /// Whether a clear takes an element out.
    #[inline(always)]
    fn take(&self, epoch: u32, entries: &[Entry], id: &ElementId) -> bool
        requires { AreJoined self.now epoch entries.now }
        ensures { result ≡ list_any (λ e. clears_by epoch e id.now) entries.now }
    {
        if id.origin >= 16 {
            return is_cleared(epoch, entries, id);
        }
        if id.epoch == epoch {
            u64::from(id.seq) < self.below[id.origin as usize]
        } else {
            self.any && id.epoch < epoch
        }
    }
}

/// What clears and deletions take out. It is filled where it stands, since a copy would take as long as many looks.
#[derive(Drop)]
pub(crate) struct Removals {
    /// The clears.
    clears: Clears,
    /// The deletions.
    deletions: Deletions,
}

impl Removals {
    /// No entry was read.
    #[inline(always)]
    pub(crate) fn none() -> Removals
        ensures { (epoch : ℕ) → AreTold result epoch [] }
    {
        Removals {
            clears: Clears::none(),
            deletions: Deletions::none(),
        }
    }

    /// Reads an object's entries of an epoch.
    pub(crate) fn read(&mut self, epoch: u32, entries: &[Entry])
        requires { AreTold self.old epoch [] }
        ensures { AreTold self.new epoch entries.now }
    {
        self.clears.read(epoch, entries);
        self.deletions.read(entries);
    }

    /// Whether one of the entries takes an element out.
    #[inline(always)]
    pub(crate) fn take(&self, epoch: u32, entries: &[Entry], id: &ElementId) -> bool
        requires { AreTold self.now epoch entries.now }
        ensures { result ≡ list_any (λ e. takes_by epoch e id.now) entries.now }
    {
        if entries.is_empty() {
            return false;
        }
        self.clears.take(epoch, entries, id) || self.deletions.take(epoch, entries, id)
    }
}
