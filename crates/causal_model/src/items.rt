//! Settled items as their readers see them.

ghost use Rattle.std.specs.Prelude.{◌≡◌, ◌<◌, ℕ, List, Option, length, slice_get, Some, option_copied};
ghost use Rattle.op_base.specs.declared.name.ObjectId.{ObjectId};
ghost use Rattle.op_base.specs.declared.outcome.Cell.{Cell};
ghost use Rattle.op_base.specs.declared.outcome.Item.{Item};
ghost use Rattle.causal_model.specs.Items.{cell_in, Rise, IsItem};

use op_base::{Cell, ObjectId, Value};

/// A finite map from an object, and a value or none, to a cell. An item whose cell has no mark and the sum 0 is as none. No call
/// takes memory.
pub trait ItemView {
    /// The items, in the order of their places.
    ghost items: { Self → List Item };

    /// The item's cell, or the cell with no mark and the sum 0 where there is no item.
    fn cell(&self, object: &ObjectId, value: Option<&Value>) -> Cell
        ensures { result ≡ cell_in (items self.now) object.now (option_copied value.entry) };

    /// How many items there are.
    fn len(&self) -> usize
        ensures { result ≡ length (items self.now) };

    /// The item at a place.
    fn item_at(&self, place: usize) -> (&ObjectId, Option<&Value>, Cell)
        requires { place < length (items self.now) }
        ensures { IsItem (slice_get (items self.now) place) result.0.now (option_copied result.1) result.2 };

    /// The same, and where the next item is to be looked for. What the call before gave is a good place to look at first, and
    /// any number would do.
    fn item_near(&self, place: usize, near: usize) -> (&ObjectId, Option<&Value>, Cell, usize)
        requires { place < length (items self.now) }
        ensures { IsItem (slice_get (items self.now) place) result.0.now (option_copied result.1) result.2 }
    {
        let (object, value, cell) = self.item_at(place);
        (object, value, cell, near)
    }

    /// The items stand in their one order, so no two are of one object and value.
    ghost rise: { (v : Self) → Rise (items v) };
}
