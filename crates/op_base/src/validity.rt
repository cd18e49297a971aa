//! What the types of an operation's parts keep, for contracts that speak of plain data: each is the contract of a function
//! that does nothing.

ghost use Rattle.std.specs.Prelude.{IsTrue};
ghost use Rattle.op_base.specs.Valid.{is_valid_id, is_valid_act, is_valid_update, is_valid};

use crate::operation::{Act, Op, Update};
use crate::tag::ElementId;

/// The numbers of an id are ones of 32 bits and 8.
fn ids_are_valid(id: ElementId)
    ensures { IsTrue (is_valid_id id) }
{
    let _numbers = (id.epoch, id.origin, id.seq);
}

/// The value that an act names is a value, and its amount a number of 32 bits.
fn acts_are_valid(act: &Act)
    ensures { IsTrue (is_valid_act act.now) }
{
    match act {
        Act::Add(value) | Act::Rmv(value) | Act::Write(value) | Act::Ins(value, None) => {
            let _bytes = value.as_slice();
        }
        Act::Inc(amount) | Act::Dec(amount) => {
            let _amount = *amount;
        }
        Act::Ins(value, Some(id)) => {
            let _bytes = value.as_slice();
            ids_are_valid(*id);
        }
        Act::Del(id) => ids_are_valid(*id),
        Act::Clear | Act::Enable | Act::Disable => {}
    }
}

/// The key of an update's object is a key, and its act is valid.
pub fn updates_are_valid(update: &Update)
    ensures { IsTrue (is_valid_update update.now) }
{
    let _bytes = update.object.key.as_slice();
    acts_are_valid(&update.act);
}

/// An operation is one that a frame can carry.
pub fn operations_are_valid(op: &Op)
    ensures { IsTrue (is_valid op.now) }
{
    match op {
        Op::NoOp => {}
        Op::Update(update) => updates_are_valid(update),
    }
}
