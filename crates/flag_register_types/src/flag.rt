//! Whether a flag is on. What its acts do is this project's own profile.

ghost use Rattle.std.specs.Prelude.{◌≡◌, ℕ, map, IsTrue};
ghost use Rattle.op_base.specs.declared.outcome.Answer.TheVariants.{Flag};
ghost use Rattle.causal_model.specs.History.{History, events, is_history};
ghost use Rattle.causal_model.specs.Items.{cell_in};
ghost use Rattle.causal_model.specs.Log.{message_of};
ghost use Rattle.causal_model.specs.Parts.{has_by_parts, ArePartsOf};
ghost use Rattle.causal_model.specs.Query.{answer};
ghost use Rattle.part_queries.specs.Asked.{is_flag};

use causal_model::ItemView;
use op_base::{Entry, ObjectId};

/// Whether a flag is on: by its item and its entries. Entries and items of other objects are passed over. It takes no
/// memory.
pub fn flag_on<V: ItemView>(entries: &[Entry], items: &V, object: &ObjectId) -> bool
    requires { IsTrue (is_flag object.now.kind) }
    ensures by_parts { result
        ≡ has_by_parts object.now.kind object.now (cell_in (V.items items.now) object.now None) (map message_of entries.now) None }

    // So over a whole history of which these are the object's part.
    ensures of { (w : ℕ) (h : History) → IsTrue (is_history w h) → ArePartsOf h object.now (map message_of entries.now) (V.items items.now)
        → Flag result ≡ answer object.now (events h) }
{
    part_queries::has(entries, items, object, None)
}
