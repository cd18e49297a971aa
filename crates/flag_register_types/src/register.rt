//! The values of a register. What its acts do is this project's own profile.

ghost use Rattle.std.specs.Prelude.{◌≡◌, ◌↔◌, ℕ, List, map, Contains, IfOk, IsTrue, Some};
ghost use Rattle.op_base.specs.declared.name.Kind.TheVariants.{MvReg};
ghost use Rattle.op_base.specs.declared.outcome.Answer.TheVariants.{Values};
ghost use Rattle.causal_model.specs.History.{History, events, is_history};
ghost use Rattle.causal_model.specs.Items.{cell_in};
ghost use Rattle.causal_model.specs.Query.{TextsRise, answer};
ghost use Rattle.causal_model.specs.Log.{message_of};
ghost use Rattle.causal_model.specs.Parts.{has_by_parts, ArePartsOf};

use causal_model::ItemView;
use op_base::{Entry, NoMemory, ObjectId, ValueList};
use std::alloc::Global;

/// The values of a register, in byte order and each once: by its items and its entries. Entries and items of other objects
/// are passed over. `NoMemory` leaves nothing behind.
pub fn mvreg_values<V: ItemView>(
    alloc: Global,
    entries: &[Entry],
    items: &V,
    object: &ObjectId,
) -> Result<ValueList, NoMemory>
    requires { object.now.kind ≡ MvReg }
    ensures rise { IfOk result (λ values. TextsRise values) }
    ensures by_parts { IfOk result (λ values. (v : List ℕ) → (Contains values v
        ↔ IsTrue (has_by_parts MvReg object.now (cell_in (V.items items.now) object.now (Some v)) (map message_of entries.now) (Some v)))) }

    // So over a whole history of which these are the object's part.
    ensures of { IfOk result (λ values. (w : ℕ) (h : History) → IsTrue (is_history w h) → ArePartsOf h object.now (map message_of entries.now) (V.items items.now)
        → Values values ≡ answer object.now (events h)) }
{
    part_queries::values(alloc, entries, items, object)
}
