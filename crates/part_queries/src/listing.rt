//! The values of a set or a register. The queries of the kinds are this project's own profile.

ghost use Rattle.std.specs.Prelude.{◌≡◌, ◌↔◌, ◌≤◌, ℕ, Bool, List, length, drop, All, [], ◌∷◌, ◌++◌, map, Contains, IfOk, OnOk, IsTrue, Some, if◌then◌else◌, ◌<◌, ◌+◌, vec_len, vec_capacity};
ghost use Rattle.std.specs.List.{list_any};
ghost use Rattle.causal_model.specs.History.{History, events, is_history};
ghost use Rattle.causal_model.specs.Items.{cell_in};
ghost use Rattle.causal_model.specs.Query.{TextsRise, values_that};
ghost use Rattle.causal_model.specs.Log.{message_of};
ghost use Rattle.causal_model.specs.Parts.{has, has_by_parts, is_in, ArePartsOf};
ghost use Rattle.part_queries.specs.Asked.{has_values};
ghost use Rattle.op_base.specs.Name.{same_text};
ghost use Rattle.op_base.specs.Object.{same_object};
ghost use Rattle.part_queries.specs.Headed.{founds};
ghost use Rattle.part_queries.specs.Finds.{is_put, is_taken, or_put, or_taken, AreRising, AreListed, AreListedPast, AreNone};

use crate::found::{Found, logged};
use crate::grouping::grouped;
use crate::heads::Headed;
use crate::marks::Marks;
use causal_model::ItemView;
use op_base::{Entry, Kind, NoMemory, ObjectId, Value, ValueList};
use std::alloc::Global;
use std::cmp::Ordering;

/// The values of a set or a register, in byte order and each once: by the object's entries and items. Entries and items of
/// other objects are passed over. `NoMemory` leaves nothing behind.
pub fn values<V: ItemView>(
    alloc: Global,
    entries: &[Entry],
    items: &V,
    object: &ObjectId,
) -> Result<ValueList, NoMemory>
    requires { IsTrue (has_values object.now.kind) }
    ensures rise { IfOk result (λ values. TextsRise values) }
    ensures by_parts { IfOk result (λ values. (v : List ℕ) → (Contains values v
        ↔ IsTrue (has_by_parts object.now.kind object.now (cell_in (V.items items.now) object.now (Some v)) (map message_of entries.now) (Some v)))) }

    // So over a whole history of which these are the object's part.
    ensures of { IfOk result (λ values. (w : ℕ) (h : History) → IsTrue (is_history w h) → ArePartsOf h object.now (map message_of entries.now) (V.items items.now)
        → values ≡ values_that (λ v. has object.now.kind object.now (events h) (Some v)) object.now (events h)) }
{
    let finds = grouped(alloc, logged(alloc, entries, object)?)?;
    listed(alloc, &finds, items, object)
}

/// The values that are in an object by its items and by finds, in byte order and each once. Items of other objects are passed
/// over. `NoMemory` leaves nothing behind.
fn listed<V: ItemView>(
    alloc: Global,
    finds: &[Headed<'_>],
    items: &V,
    object: &ObjectId,
) -> Result<ValueList, NoMemory>
    requires { AreRising (founds finds.now) }
    ensures rise { IfOk result (λ values. TextsRise values) }
    ensures exact { IfOk result (λ values. (v : List ℕ) → list_any (λ value. same_text value v) values
        ≡ is_in object.now.kind (is_put object.now (V.items items.now) (founds finds.now) v) (is_taken object.now (V.items items.now) (founds finds.now) v)) }
{
    let all = are_all_of(items, object);
    if all && finds.is_empty() {
        return settled(alloc, items, object);
    }
    let mut values = Vec::with_capacity(alloc, items.len().saturating_add(finds.len()))?;
    let mut done = 0;
    let mut near = 0;
    for place in 0..items.len() {
        let (owner, value, cell, next) = items.item_near(place, near);
        near = next;
        if let Some(value) = value {
            if is_of(owner, object, all) {
                let marks = Marks {
                    put: cell.on,
                    taken: cell.off,
                };
                let own = Found { value, marks };
                done += put_item(alloc, object.kind, &mut values, &finds[done..], own)?;
            }
        }
    }
    put_finds(alloc, object.kind, &mut values, &finds[done..])?;
    Ok(ValueList::from_vec(values))
}

/// The values that are in an object whose items these are, where its log says nothing of values. `NoMemory` leaves nothing
/// behind.
#[inline(never)]
fn settled<V: ItemView>(alloc: Global, items: &V, object: &ObjectId) -> Result<ValueList, NoMemory>
    requires { All (λ item. item.object ≡ object.now) (V.items items.now) }
    ensures rise { IfOk result (λ values. TextsRise values) }
    ensures exact { IfOk result (λ values. (v : List ℕ) → list_any (λ value. same_text value v) values
        ≡ is_in object.now.kind (is_put object.now (V.items items.now) [] v) (is_taken object.now (V.items items.now) [] v)) }
{
    let kind = object.kind;
    let mut values = Vec::with_capacity(alloc, items.len())?;
    let mut near = 0;
    for place in 0..items.len() {
        let (_, value, cell, next) = items.item_near(place, near);
        near = next;
        if let Some(value) = value {
            let marks = Marks {
                put: cell.on,
                taken: cell.off,
            };
            add(alloc, kind, &mut values, value, marks)?;
        }
    }
    Ok(ValueList::from_vec(values))
}

/// Whether all items are of an object, as the first and the last tell. No answer but `false` where there are none.
fn are_all_of<V: ItemView>(items: &V, object: &ObjectId) -> bool
    ensures { IsTrue result → All (λ item. item.object ≡ object.now) (V.items items.now) }
{
    let len = items.len();
    if len == 0 {
        return false;
    }
    let (first, _, _) = items.item_at(0);
    let (last, _, _) = items.item_at(len - 1);
    first.is_same(object) && last.is_same(object)
}

/// Whether an owner is an object, where it may be known that it is.
#[inline(always)]
fn is_of(owner: &ObjectId, object: &ObjectId, known: bool) -> bool
    requires { IsTrue known → owner.now ≡ object.now }
    ensures { result ≡ same_object owner.now object.now }
{
    known || owner.is_same(object)
}

/// Puts the values of the finds up to one of an item, and the item's own, at the end, each that is in. How many finds these
/// are.
#[inline(always)]
fn put_item(
    alloc: Global,
    kind: Kind,
    values: &mut Vec<Value>,
    finds: &[Headed<'_>],
    own: Found<'_>,
) -> Result<usize, NoMemory>
    requires { AreRising (founds finds.now) }
    ensures count { IfOk result (λ count. count ≤ length finds.now) }

    ensures listed { IfOk result (λ count. AreListedPast kind own.entry (founds finds.now) (founds (drop count finds.now)) values.old.items values.new.items) }
{
    if finds.is_empty() {
        put_in(alloc, kind, values, own)?;
        return Ok(0);
    }
    put_between(alloc, kind, values, finds, own)
}

/// Puts the values of the finds up to one of an item, and the item's own, where there are such finds. It stands apart, so that
/// a list with none is short work.
#[inline(never)]
fn put_between(
    alloc: Global,
    kind: Kind,
    values: &mut Vec<Value>,
    finds: &[Headed<'_>],
    own: Found<'_>,
) -> Result<usize, NoMemory>
    requires { AreRising (founds finds.now) }
    ensures count { IfOk result (λ count. count ≤ length finds.now) }

    ensures listed { IfOk result (λ count. AreListedPast kind own.entry (founds finds.now) (founds (drop count finds.now)) values.old.items values.new.items) }
{
    let mut marks = own.marks;
    let mut count = 0;
    for find in finds {
        let found = find.found;
        match found.value.cmp(own.value) {
            Ordering::Less => put_in(alloc, kind, values, found)?,
            Ordering::Equal => marks = marks.join(found.marks),
            Ordering::Greater => break,
        }
        count += 1;
    }
    let value = own.value;
    put_in(alloc, kind, values, Found { value, marks })?;
    Ok(count)
}

/// Puts the values of finds at the end, each that is in.
fn put_finds(
    alloc: Global,
    kind: Kind,
    values: &mut Vec<Value>,
    finds: &[Headed<'_>],
) -> Result<(), NoMemory>
    requires { AreRising (founds finds.now) }
    ensures { OnOk result ((on off whole : List ℕ → Bool) → AreNone on → AreNone off
        → AreListed kind (or_put on (founds finds.now)) (or_taken off (founds finds.now)) whole values.old.items
        → AreListed kind on off whole values.new.items) }
{
    values.reserve(finds.len())?;
    for find in finds {
        add(alloc, kind, values, find.found.value, find.found.marks)?;
    }
    Ok(())
}

/// Puts a value at the end of a list that has room for it, where it is in by its marks.
#[inline(always)]
fn add(
    alloc: Global,
    kind: Kind,
    values: &mut Vec<Value>,
    value: &Value,
    marks: Marks,
) -> Result<(), NoMemory>
    requires { vec_len values.old < vec_capacity values.old }
    ensures items { OnOk result (values.new.items ≡ (if is_in kind marks.put marks.taken then values.old.items ++ value.now ∷ [] else values.old.items)) }
    ensures len { vec_len values.new ≤ vec_len values.old + 1 }
    ensures capacity { vec_capacity values.new ≡ vec_capacity values.old }
{
    if !marks.is_in(kind) {
        return Ok(());
    }
    value.push_copy(alloc, values)
}

/// Puts the value of a find at the end, where it is in.
#[inline(always)]
fn put_in(
    alloc: Global,
    kind: Kind,
    values: &mut Vec<Value>,
    found: Found<'_>,
) -> Result<(), NoMemory>
    ensures { OnOk result (values.new.items ≡ (if is_in kind found.entry.marks.put found.entry.marks.taken then values.old.items ++ found.entry.value.now ∷ [] else values.old.items)) }
{
    if found.marks.is_in(kind) {
        values.push(found.value.copy(alloc)?)?;
    }
    Ok(())
}
