//! The ids of a log's entries.

ghost use Rattle.std.specs.Prelude.{◌≡◌, ◌<◌, length, map, IfOk};
ghost use Rattle.op_base.specs.Message.{id_of};
ghost use Rattle.causal_model.specs.Log.{message_of};
ghost use Rattle.polog.specs.Order.{Each};
ghost use Rattle.polog.specs.Rows.{live_rows};

use crate::rows::Rows;
use op_base::{IdList, MessageId, NoMemory};
use std::alloc::Global;

/// The id of each entry beside its number, where the row isn't free. `NoMemory` leaves nothing behind.
pub fn numbered_ids(rows: &Rows, alloc: Global) -> Result<Vec<(u64, MessageId)>, NoMemory>
    requires { Each (λ r. r.1.origin < length r.1.tag) rows.now.rows }
    ensures { IfOk result (λ v. v.items ≡ map (λ r. (r.0, id_of (message_of r.1))) (live_rows rows.now.rows)) }
{
    let mut ids = Vec::with_capacity(alloc, rows.len())?;
    for at in 0..rows.len() {
        if !rows.is_free(at) {
            ids.push((rows.number(at), rows.entry(at).id()))?;
        }
    }
    Ok(ids)
}

/// The ids of rows, without their numbers. `NoMemory` leaves nothing behind.
pub fn without_numbers(rows: &[(u64, MessageId)], alloc: Global) -> Result<IdList, NoMemory>
    ensures { IfOk result (λ ids. ids ≡ map (λ r. r.1) rows.now) }
{
    let mut ids = Vec::with_capacity(alloc, rows.len())?;
    for (_, id) in rows {
        ids.push(*id)?;
    }
    Ok(IdList::from_vec(ids))
}
