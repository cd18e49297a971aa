//! What is found of the values of an object among its items and its entries. The kinds are this project's own profile.

ghost use Rattle.std.specs.Prelude.{◌≡◌, ℕ, List, map, IfOk, Some};
ghost use Rattle.std.specs.List.{list_any};
ghost use Rattle.causal_model.specs.Log.{message_of};
ghost use Rattle.causal_model.specs.Parts.{has_logged, puts, takes};
ghost use Rattle.part_queries.specs.Headed.{head_puts_in, head_takes_out};
ghost use Rattle.part_queries.specs.Finds.{IsFoundOf};

use crate::heads::Headed;
use crate::marks::Marks;
use op_base::{Act, Entry, NoMemory, ObjectId, Value};
use std::alloc::Global;

/// A value, with what an item or an entry says of it.
#[derive(Clone, Copy, Debug, PartialEq, Eq, PartialOrd, Ord)]
pub struct Found<'a> {
    /// The value.
    pub value: &'a Value,
    /// What was done with it.
    pub marks: Marks,
}

/// What an act says of the value that it names.
fn found_of(act: &Act) -> Option<Found<'_>>
    ensures { IsFoundOf act.now result }
{
    match act {
        Act::Add(value) | Act::Write(value) => Some(Found {
            value,
            marks: Marks {
                put: true,
                taken: false,
            },
        }),
        Act::Rmv(value) => Some(Found {
            value,
            marks: Marks {
                put: false,
                taken: true,
            },
        }),
        Act::Clear | Act::Enable | Act::Disable | Act::Inc(_) | Act::Dec(_) => None,
        Act::Ins(_, _) | Act::Del(_) => None,
    }
}

/// What the entries of an object say of its values, oldest first. `NoMemory` leaves nothing behind.
#[inline(never)]
pub fn logged<'a>(
    alloc: Global,
    entries: &'a [Entry],
    object: &ObjectId,
) -> Result<Vec<Headed<'a>>, NoMemory>
    ensures put { IfOk result (λ finds. (v : List ℕ) → list_any (head_puts_in v) finds.items ≡ has_logged object.now (map message_of entries.now) (puts (Some v))) }
    ensures taken { IfOk result (λ finds. (v : List ℕ) → list_any (head_takes_out v) finds.items ≡ has_logged object.now (map message_of entries.now) (takes (Some v))) }
{
    let mut finds = Vec::with_capacity(alloc, entries.len())?;
    // A copy, so that it need not be read anew beside each entry.
    let object = *object;
    for entry in entries {
        if entry.update.object().is_same(&object) {
            if let Some(found) = found_of(entry.update.act()) {
                finds.push_reserved(Headed::new(found));
            }
        }
    }
    Ok(finds)
}
