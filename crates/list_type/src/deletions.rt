//! Which of the log's entries of an object delete which element of its list, told in one pass for all of its elements.

ghost use Rattle.std.specs.Prelude.{◌≡◌, ℕ, ◌+◌, ◌<◌, ◌≤◌, min, [], length, IfSome};
ghost use Rattle.std.specs.List.{list_any};
ghost use Rattle.list_type.specs.Deletions.{group_of, is_in, is_group, AreLinked};
ghost use Rattle.list_type.specs.Removals.{is_deletion, deletes_by};

use crate::head::Head;
use op_base::{Act, ElementId, Entry};

/// Which of the first 1024 entries are deletions, by groups of ids: those of a group are linked, from the last on to the first. A
/// link is an entry's place, counted from 1 on, or 0 where there is no further one. They stand on the stack.
#[derive(Drop)]
pub(crate) struct Deletions {
    /// The last of a group, at each group.
    last: [u16; 1024],
    /// The last of its group ahead of a deletion, at the deletion's place.
    ahead: [u16; 1024],
}

/// The group of an id. Where members number their elements alike, their groups lie far apart.
fn group_of(id: ElementId) -> usize
    ensures is { result ≡ group_of id }
    ensures within { result < 1024 }
{
    ((u64::from(id.seq) + 633 * u64::from(id.origin)) % 1024) as usize
}

/// The group of the element that an act deletes, if it's a deletion.
fn group(act: &Act) -> Option<usize>
    ensures is { (g : ℕ) → is_in g act.now ≡ is_group result g }
    ensures within { IfSome result (λ g. g < 1024) }
{
    match act {
        Act::Del(id) => Some(group_of(*id)),
        Act::Add(_) | Act::Rmv(_) | Act::Write(_) | Act::Enable | Act::Disable => None,
        Act::Inc(_) | Act::Dec(_) | Act::Ins(_, _) | Act::Clear => None,
    }
}

/// Whether an act is the deletion of an element.
fn is_deletion(act: &Act, id: ElementId) -> bool
    ensures { result ≡ is_deletion id act.now }
{
    match act {
        Act::Del(other) => *other == id,
        Act::Add(_) | Act::Rmv(_) | Act::Write(_) | Act::Enable | Act::Disable => false,
        Act::Inc(_) | Act::Dec(_) | Act::Ins(_, _) | Act::Clear => false,
    }
}

/// Whether an entry of an epoch deletes an element.
fn does_delete(epoch: u32, entry: &Entry, id: ElementId) -> bool
    ensures { result ≡ deletes_by epoch entry.now id }
{
    is_deletion(entry.update.act(), id) && Head::of(epoch, entry).had_seen(id)
}

/// Whether one of the entries deletes an element.
fn is_deleted(epoch: u32, entries: &[Entry], id: ElementId) -> bool
    ensures { result ≡ list_any (λ e. deletes_by epoch e id) entries.now }
{
    entries.iter().any(|entry| does_delete(epoch, entry, id))
}

impl Deletions {
    /// No entry was read.
    #[inline(always)]
    pub(crate) fn none() -> Deletions
        ensures { AreLinked result [] 0 }
    {
        Deletions {
            last: [0; 1024],
            ahead: [0; 1024],
        }
    }

    /// Reads the first 1024 of an object's entries.
    pub(crate) fn read(&mut self, entries: &[Entry])
        requires { AreLinked self.old [] 0 }
        ensures { AreLinked self.new entries.now (min (length entries.now) 1024) }
    {
        for k in 0..entries.len().min(1024) {
            self.take_in(entries, k);
        }
    }

    /// Reads the entry at a place.
    fn take_in(&mut self, entries: &[Entry], k: usize)
        requires k { k < length entries.now }
        requires few { k < 1024 }
        requires linked { AreLinked self.old entries.now k }
        ensures { AreLinked self.new entries.now (k + 1) }
    {
        if let Some(group) = group(entries[k].update.act()) {
            self.ahead[k] = self.last[group];
            self.last[group] = k as u16 + 1;
        }
    }

    /// Whether one of the entries deletes an element. Where none is of its group, one look tells.
    #[inline(always)]
    pub(crate) fn take(&self, epoch: u32, entries: &[Entry], id: &ElementId) -> bool
        requires { AreLinked self.now entries.now (min (length entries.now) 1024) }
        ensures { result ≡ list_any (λ e. deletes_by epoch e id.now) entries.now }
    {
        if self.last[group_of(*id)] == 0 && entries.len() <= 1024 {
            return false;
        }
        self.walk(epoch, entries, id)
    }

    /// The same by a walk over its group, and over the entries behind the first 1024.
    #[inline(never)]
    fn walk(&self, epoch: u32, entries: &[Entry], id: &ElementId) -> bool
        requires { AreLinked self.now entries.now (min (length entries.now) 1024) }
        ensures { result ≡ list_any (λ e. deletes_by epoch e id.now) entries.now }
    {
        let mut link = self.last[group_of(*id)];
        while link > 0 {
            let k = usize::from(link - 1);
            if does_delete(epoch, &entries[k], *id) {
                return true;
            }
            link = self.ahead[k];
        }
        is_deleted(epoch, &entries[entries.len().min(1024)..], *id)
    }
}
