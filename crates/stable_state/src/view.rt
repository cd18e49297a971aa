//! Settled items as their readers see them: all, or those that stand side by side.
//!
//! A finite map as a sorted list is a textbook rule.

ghost use Rattle.std.specs.Prelude.{◌≡◌, ◌≤◌, length};
ghost use Rattle.std.specs.List.{between};
ghost use Rattle.causal_model.specs.Items.{Rise};

use crate::cell::NO_CELL;
use crate::chunks::Spot;
use crate::shelf::Shelf;
use causal_model::ItemView;
use op_base::{Cell, ObjectId, Value};

/// Items that stand side by side, as those of one object do.
#[derive(Clone, Copy)]
pub struct ItemSpan<'a> {
    shelf: &'a Shelf,
    from: usize,
    to: usize,
    ghost ordered: { from ≤ to },
    ghost within: { to ≤ length shelf.now.items },
    ghost rise: { Rise shelf.now.items },
}

impl<'a> ItemSpan<'a> {
    /// The items at places from the first up to, and not with, the second.
    pub(crate) fn new(shelf: &'a Shelf, from: usize, to: usize) -> ItemSpan<'a>
        requires ordered { from ≤ to }
        requires within { to ≤ length shelf.now.items }
        requires rise { Rise shelf.now.items }
        ensures { between result.from result.to result.shelf.now.items ≡ between from to shelf.now.items }
    {
        ItemSpan { shelf, from, to }
    }
}

impl ItemView for ItemSpan<'_> {
    ghost use Rattle.std.specs.List.{between};
    ghost use Rattle.stable_state.specs.View.{rise_between};

    ghost items = { λ span. between span.from span.to span.shelf.now.items };

    fn cell(&self, object: &ObjectId, value: Option<&Value>) -> Cell {
        let near = self.shelf.spot_at(self.from);
        let Ok(spot) = self.shelf.find(Some(near), object, value) else {
            return NO_CELL;
        };
        if (self.from..self.to).contains(&spot.place) {
            self.shelf.at_near(spot).cell
        } else {
            NO_CELL
        }
    }

    fn len(&self) -> usize {
        self.to - self.from
    }

    fn item_at(&self, place: usize) -> (&ObjectId, Option<&Value>, Cell) {
        let item = self.shelf.at(self.from + place);
        (&item.object, item.value.as_ref(), item.cell)
    }

    #[inline(always)]
    fn item_near(&self, place: usize, near: usize) -> (&ObjectId, Option<&Value>, Cell, usize) {
        let (item, chunk) = self.shelf.at_from(Spot {
            place: self.from + place,
            chunk: near,
        });
        (&item.object, item.value.as_ref(), item.cell, chunk)
    }

    ghost rise = { λ span. rise_between span.shelf.now.items span.from span.to span.ordered span.within span.rise };
}
