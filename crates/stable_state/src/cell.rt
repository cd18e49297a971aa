//! Cells, one at a time: when one has something, what an act makes of it, and which one is emptied for a while. The cells are this
//! project's own profile.

ghost use Rattle.std.specs.Prelude.{◌≡◌, ◌↔◌, ℕ, ◌^◌, true, false, ◌+ℤ◌, List, Option, option_copied};
ghost use Rattle.op_base.specs.declared.name.ObjectId.{ObjectId};
ghost use Rattle.op_base.specs.declared.operation.Op.TheVariants as op;
ghost use Rattle.causal_model.specs.Acts.{value_of, amount_of};
ghost use Rattle.causal_model.specs.CellSteps.{covers_place, marks_on, marks_off, marks_settled, puts_in, with_act};
ghost use Rattle.causal_model.specs.Items.{is_filled};
ghost use Rattle.causal_model.specs.Query.{IsWithin};
ghost use Rattle.stable_state.specs.Picked.{is_place};

use op_base::{Act, Cell, Kind, Update, Value};

/// The cell with no mark and the sum 0, which is no item.
pub const NO_CELL: Cell = Cell {
    on: false,
    off: false,
    sum: 0,
};

/// Whether a cell has a mark or a sum other than 0, and so is an item.
pub fn is_filled(cell: &Cell) -> bool
    ensures { result ≡ is_filled cell.now }
{
    cell.on || cell.off || cell.sum != 0
}

/// What an act adds to a counter.
fn amount_of(act: &Act) -> i128
    ensures { result ≡ amount_of act.now }
{
    match act {
        Act::Inc(amount) => i128::from(*amount),
        Act::Dec(amount) => -i128::from(*amount),
        _ => 0,
    }
}

/// Whether an act sets the on mark.
fn marks_on(act: &Act) -> bool
    ensures { result ≡ marks_on act.now }
{
    matches!(act, Act::Add(_) | Act::Write(_) | Act::Enable)
}

/// Whether an act sets the off mark.
fn marks_off(act: &Act) -> bool
    ensures { result ≡ marks_off act.now }
{
    matches!(act, Act::Rmv(_) | Act::Disable)
}

/// Whether the sum of a cell with the amount of an act is one of 128 bits, but not the least.
pub fn is_in_range(act: &Act, cell: Cell) -> bool
    ensures { (result ≡ true) ↔ IsWithin (2 ^ 127) (cell.sum +ℤ amount_of act.now) }
{
    match cell.sum.checked_add(amount_of(act)) {
        Some(sum) => sum > i128::MIN,
        None => false,
    }
}

/// The cell with the mark or the amount of an act.
pub fn with_act(act: &Act, cell: Cell) -> Cell
    requires { IsWithin (2 ^ 127) (cell.sum +ℤ amount_of act.now) }
    ensures { result ≡ with_act act.now cell }
{
    Cell {
        on: cell.on || marks_on(act),
        off: cell.off || marks_off(act),
        sum: cell.sum + amount_of(act),
    }
}

/// The cell where a remove wins and no add is pending: the off mark has taken what it could.
pub fn without_pending(cell: Cell) -> Cell
    ensures { result ≡ marks_settled false cell }
{
    Cell {
        on: cell.on && !cell.off,
        off: false,
        sum: cell.sum,
    }
}

/// The value that an act names.
pub fn value_of(act: &Act) -> Option<&Value>
    ensures { option_copied result ≡ value_of act.now }
{
    match act {
        Act::Add(value) | Act::Rmv(value) | Act::Write(value) => Some(value),
        _ => None,
    }
}

/// The same, taken out of the act.
pub fn into_value(act: Act) -> Option<Value>
    ensures { result ≡ value_of act }
{
    match act {
        Act::Add(value) | Act::Rmv(value) | Act::Write(value) => Some(value),
        _ => None,
    }
}

/// Whether an act puts in what an object's value says, or turns on an object without one.
pub fn puts_in(value: Option<&Value>, act: &Act) -> bool
    ensures { result ≡ puts_in (option_copied value.entry) act.now }
{
    match (value, act) {
        (None, Act::Enable) => true,
        (Some(value), Act::Add(added)) => added == value,
        _ => false,
    }
}

/// Whether an update covers what is settled of one value alone, and puts that in again once it is stable. A value that is longer than
/// what stands in place isn't kept for that: to compare it takes more than to take it out and put it back.
pub fn comes_back(update: &Update) -> bool
    ensures { result ≡ true → (object : ObjectId) (value : Option (List ℕ))
        → covers_place (op.Update update.now) object value ≡ is_place update.now.object (value_of update.now.act) object value }
{
    match (update.object.kind, &update.act) {
        (Kind::AwSet, Act::Add(value)) => value.is_in_place(),
        (Kind::RwSet, Act::Add(value)) => value.is_in_place(),
        (Kind::RwSet, Act::Rmv(value)) => value.is_in_place(),
        _ => false,
    }
}
