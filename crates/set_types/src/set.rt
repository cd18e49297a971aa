//! The values of a set. What its acts do is this project's own profile.

ghost use Rattle.std.specs.Prelude.{◌≡◌, ◌↔◌, ℕ, List, map, Contains, IfOk, IsTrue, Some};
ghost use Rattle.op_base.specs.declared.name.Kind.TheVariants.{AwSet, RwSet};
ghost use Rattle.op_base.specs.declared.outcome.Answer.TheVariants.{Values};
ghost use Rattle.causal_model.specs.History.{History, events, is_history};
ghost use Rattle.causal_model.specs.Items.{cell_in};
ghost use Rattle.causal_model.specs.Query.{TextsRise, awset_has, rwset_has, answer};
ghost use Rattle.causal_model.specs.Log.{message_of};
ghost use Rattle.causal_model.specs.Parts.{has_by_parts, ArePartsOf};
ghost use Rattle.part_queries.specs.Asked.{is_set};

use causal_model::ItemView;
use op_base::{Entry, NoMemory, ObjectId, Value, ValueList};
use std::alloc::Global;

/// The values of a set, in byte order and each once: by its items and its entries. Entries and items of other objects are
/// passed over. `NoMemory` leaves nothing behind.
pub fn set_values<V: ItemView>(
    alloc: Global,
    entries: &[Entry],
    items: &V,
    object: &ObjectId,
) -> Result<ValueList, NoMemory>
    requires { IsTrue (is_set object.now.kind) }
    ensures rise { IfOk result (λ values. TextsRise values) }
    ensures by_parts { IfOk result (λ values. (v : List ℕ) → (Contains values v
        ↔ IsTrue (has_by_parts object.now.kind object.now (cell_in (V.items items.now) object.now (Some v)) (map message_of entries.now) (Some v)))) }

    // So over a whole history of which these are the object's part.
    ensures of { IfOk result (λ values. (w : ℕ) (h : History) → IsTrue (is_history w h) → ArePartsOf h object.now (map message_of entries.now) (V.items items.now)
        → Values values ≡ answer object.now (events h)) }
{
    part_queries::values(alloc, entries, items, object)
}

/// Whether a value is in a set: by its item and its entries. Entries and items of other objects are passed over. It takes
/// no memory.
pub fn set_contains<V: ItemView>(
    entries: &[Entry],
    items: &V,
    object: &ObjectId,
    value: &Value,
) -> bool
    requires { IsTrue (is_set object.now.kind) }
    ensures by_parts { result
        ≡ has_by_parts object.now.kind object.now (cell_in (V.items items.now) object.now (Some value.now)) (map message_of entries.now) (Some value.now) }

    // So over a whole history of which these are the object's part.
    ensures add_wins { (w : ℕ) (h : History) → IsTrue (is_history w h) → ArePartsOf h object.now (map message_of entries.now) (V.items items.now)
        → object.now.kind ≡ AwSet → result ≡ awset_has object.now (events h) value.now }
    ensures remove_wins { (w : ℕ) (h : History) → IsTrue (is_history w h) → ArePartsOf h object.now (map message_of entries.now) (V.items items.now)
        → object.now.kind ≡ RwSet → result ≡ rwset_has object.now (events h) value.now }
{
    part_queries::has(entries, items, object, Some(value))
}
