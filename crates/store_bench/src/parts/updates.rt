//! Adds and removes of numbers as values of sets, and increments of counters.

ghost use Rattle.std.specs.Prelude.{◌≡◌, pos, IfOk};
ghost use Rattle.causal_model.specs.Acts.{amount_of};

use anyhow::{Result, bail};
use op_base::{Act, Key, Kind, ObjectId, Update, Value};
use std::alloc::Global;

/// The set of a letter, in which a remove wins.
pub fn set(alloc: Global, letter: u8) -> Result<ObjectId> {
    Ok(ObjectId {
        kind: Kind::RwSet,
        key: Key::read(alloc, &[letter])?,
    })
}

/// A number as a value: its last eight digits.
pub fn value(alloc: Global, number: u32) -> Result<Value> {
    let mut text = [b'0'; 8];
    let mut rest = number;
    for place in (0..8).rev() {
        text[place] = b'0' + (rest % 10) as u8;
        rest /= 10;
    }
    Ok(Value::read(alloc, &text)?)
}

/// The add of a number to a set.
pub fn add(alloc: Global, letter: u8, number: u32) -> Result<Update>
    ensures { IfOk result (λ update. amount_of update.act ≡ pos 0) }
{
    let Ok(update) = Update::new(set(alloc, letter)?, Act::Add(value(alloc, number)?)) else {
        bail!("a set has no add");
    };
    Ok(update)
}

/// The remove of a number from a set.
pub fn remove(alloc: Global, letter: u8, number: u32) -> Result<Update>
    ensures { IfOk result (λ update. amount_of update.act ≡ pos 0) }
{
    let Ok(update) = Update::new(set(alloc, letter)?, Act::Rmv(value(alloc, number)?)) else {
        bail!("a set has no remove");
    };
    Ok(update)
}

/// The increment of a counter by one.
pub fn inc(alloc: Global, letter: u8) -> Result<Update> {
    let object = ObjectId {
        kind: Kind::Counter,
        key: Key::read(alloc, &[letter])?,
    };
    let Ok(update) = Update::new(object, Act::Inc(1)) else {
        bail!("a counter has no increment");
    };
    Ok(update)
}
