//! Whether a value is in an object, or a flag is on. The queries of the kinds are this project's own profile.

ghost use Rattle.std.specs.Prelude.{◌≡◌, ℕ, ◌||◌, map, IsTrue, option_copied};
ghost use Rattle.causal_model.specs.History.{History, events, is_history};
ghost use Rattle.causal_model.specs.Items.{cell_in};
ghost use Rattle.causal_model.specs.Log.{message_of};
ghost use Rattle.causal_model.specs.Parts.{has, has_by_parts, has_logged, puts, takes, ArePartsOf};
ghost use Rattle.part_queries.specs.Asked.{is_asked};

use crate::marks::{Marks, puts, takes};
use causal_model::ItemView;
use op_base::{Cell, Entry, ObjectId, Value};

/// Whether a value is in a set or a register, or whether a flag is on where no value is given: by the object's entries
/// and items. Entries and items of other objects are passed over. It takes no memory.
pub fn has<V: ItemView>(
    entries: &[Entry],
    items: &V,
    object: &ObjectId,
    value: Option<&Value>,
) -> bool
    requires { IsTrue (is_asked object.now.kind (option_copied value)) }
    ensures by_parts { result
        ≡ has_by_parts object.now.kind object.now (cell_in (V.items items.now) object.now (option_copied value.entry)) (map message_of entries.now) (option_copied value.entry) }

    // So over a whole history of which these are the object's part.
    ensures of { (w : ℕ) (h : History) → IsTrue (is_history w h) → ArePartsOf h object.now (map message_of entries.now) (V.items items.now)
        → result ≡ has object.now.kind object.now (events h) (option_copied value.entry) }
{
    let cell = items.cell(object, value);
    marks_with(entries, object, value, cell).is_in(object.kind)
}

/// The marks of a cell, with those of the entries of its object and value.
fn marks_with(entries: &[Entry], object: &ObjectId, value: Option<&Value>, cell: Cell) -> Marks
    ensures put { result.put
        ≡ (cell.on || has_logged object.now (map message_of entries.now) (puts (option_copied value.entry))) }
    ensures taken { result.taken
        ≡ (cell.off || has_logged object.now (map message_of entries.now) (takes (option_copied value.entry))) }
{
    let mut marks = Marks {
        put: cell.on,
        taken: cell.off,
    };
    for entry in entries {
        if entry.update.object().is_same(object) {
            marks.put |= puts(value, entry.update.act());
            marks.taken |= takes(value, entry.update.act());
        }
    }
    marks
}
