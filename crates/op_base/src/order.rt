//! The order of items, in which a store keeps them and prints them. It is this project's own profile.

ghost use Rattle.std.specs.Prelude.{◌≡◌};
ghost use Rattle.std.specs.Option.{option_copied};
ghost use Rattle.op_base.specs.Order.{item_cmp};

use crate::name::{ObjectId, Value};
use std::cmp::Ordering;

/// How an item of an object and a value, or of an object alone, stands to another: by kind in the order of
/// declaration, by the bytes of the key, no value before any value, and by the bytes of the value.
pub fn item_order(
    object: &ObjectId,
    value: Option<&Value>,
    other_object: &ObjectId,
    other_value: Option<&Value>,
) -> Ordering
    ensures { result
        ≡ item_cmp object.now (option_copied value.entry) other_object.now (option_copied other_value.entry) }
{
    match object.cmp(other_object) {
        Ordering::Equal => value.cmp(&other_value),
        unequal => unequal,
    }
}
