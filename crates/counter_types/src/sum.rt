//! The sum of a counter. What its acts add is this project's own profile.

ghost use Rattle.std.specs.Prelude.{◌≡◌, ℕ, ◌^◌, ◌+ℤ◌, map, IsTrue};
ghost use Rattle.op_base.specs.declared.operation.Op.TheVariants as op;
ghost use Rattle.op_base.specs.declared.outcome.Answer.TheVariants.{Sum};
ghost use Rattle.causal_model.specs.History.{History, events, is_history};
ghost use Rattle.causal_model.specs.Items.{cell_in};
ghost use Rattle.causal_model.specs.Log.{message_of};
ghost use Rattle.causal_model.specs.Parts.{ArePartsOf};
ghost use Rattle.causal_model.specs.Query.{total_of, answer, IsWithin};
ghost use Rattle.causal_model.specs.Acts.{share_of};
ghost use Rattle.counter_types.specs.Asked.{has_sum};

use causal_model::ItemView;
use op_base::{Act, Entry, ObjectId, Update};

/// The sum of a counter: that of its item, and what its entries add. Entries and items of other objects are passed over.
/// It takes no memory.
pub fn count_sum<V: ItemView>(entries: &[Entry], items: &V, object: &ObjectId) -> i128
    requires kind { IsTrue (has_sum object.now.kind) }
    requires range { IsWithin (2 ^ 126) (cell_in (V.items items.now) object.now None).sum }
    ensures by_parts { result
        ≡ (cell_in (V.items items.now) object.now None).sum +ℤ total_of object.now (map (λ m. m.op) (map message_of entries.now)) }

    // So over a whole history of which these are the object's part.
    ensures of { (w : ℕ) (h : History) → IsTrue (is_history w h) → ArePartsOf h object.now (map message_of entries.now) (V.items items.now)
        → Sum result ≡ answer object.now (events h) }
{
    let mut sum = items.cell(object, None).sum;
    for entry in entries {
        sum += share(object, &entry.update);
    }
    sum
}

/// What an update adds to a counter: nothing, where it is of another object.
fn share(object: &ObjectId, update: &Update) -> i128
    ensures share { result ≡ share_of object.now (op.Update update.now) }
    ensures small { IsWithin (2 ^ 32) result }
{
    if !update.object().is_same(object) {
        return 0;
    }
    match update.act() {
        Act::Inc(amount) => i128::from(*amount),
        Act::Dec(amount) => -i128::from(*amount),
        _ => 0,
    }
}
