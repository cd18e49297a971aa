//! The acts that words make, and their updates.

ghost use Rattle.std.specs.Prelude.{◌≡◌, map};
ghost use Rattle.script_lang.specs.Acts.{verb_in, act_in, kind_act, are_few, update_in};
ghost use Rattle.script_lang.specs.Memory.{Reads, IsAmple, has_long_value};

use crate::fault::Fault;
use crate::name::{read_amount, read_element, read_object, read_place, read_value};
use op_base::{Act, Kind, Update, Verb};
use std::alloc::Global;

/// The verb whose word this is.
fn read_verb(word: &[u8]) -> Result<Verb, Fault>
    ensures { result ≡ verb_in word.now }
{
    Verb::read(word).ok_or(Fault::Operation)
}

/// The act of a verb with its arguments.
fn read_act(alloc: Global, verb: Verb, arguments: &[&[u8]]) -> Result<Act, Fault>
    ensures act { Reads (act_in verb (map (λ word. word.now) arguments.now)) result }
    ensures ample { IsAmple has_long_value (act_in verb (map (λ word. word.now) arguments.now)) result }
{
    match (verb, arguments) {
        (Verb::Add, [value]) => Ok(Act::Add(read_value(alloc, value)?)),
        (Verb::Rmv, [value]) => Ok(Act::Rmv(read_value(alloc, value)?)),
        (Verb::Enable, []) => Ok(Act::Enable),
        (Verb::Disable, []) => Ok(Act::Disable),
        (Verb::Write, [value]) => Ok(Act::Write(read_value(alloc, value)?)),
        (Verb::Inc, [amount]) => Ok(Act::Inc(read_amount(amount)?)),
        (Verb::Dec, [amount]) => Ok(Act::Dec(read_amount(amount)?)),
        (Verb::Ins, [value, place]) => {
            let value = read_value(alloc, value)?;
            Ok(Act::Ins(value, read_place(place)?))
        }
        (Verb::Del, [id]) => Ok(Act::Del(read_element(id)?)),
        (Verb::Clear, []) => Ok(Act::Clear),
        _ => Err(Fault::Operation),
    }
}

/// The same, where the verb is one of what is done to objects of a kind.
fn read_kind_act(alloc: Global, kind: Kind, verb: Verb, arguments: &[&[u8]]) -> Result<Act, Fault>
    ensures act { Reads (kind_act kind verb (map (λ word. word.now) arguments.now)) result }
    ensures ample { IsAmple has_long_value (kind_act kind verb (map (λ word. word.now) arguments.now)) result }
{
    if verb.code(kind).is_none() {
        return Err(Fault::Operation);
    }
    read_act(alloc, verb, arguments)
}

/// Whether no more than two arguments stand behind a verb.
pub fn are_few(arguments: &[&[u8]]) -> bool
    ensures { result ≡ are_few (map (λ word. word.now) arguments.now) }
{
    !matches!(arguments, [_, _, _, ..])
}

/// The update of an object, a verb and its arguments.
#[inline(always)]
pub fn read_update(
    alloc: Global,
    object: &[u8],
    verb: &[u8],
    arguments: &[&[u8]],
) -> Result<Update, Fault>
    ensures update { Reads (update_in object.now verb.now (map (λ word. word.now) arguments.now)) result }
    ensures ample { IsAmple (λ update. has_long_value update.act) (update_in object.now verb.now (map (λ word. word.now) arguments.now)) result }
{
    let object = read_object(alloc, object)?;
    let verb = read_verb(verb)?;
    let act = read_kind_act(alloc, object.kind, verb, arguments)?;
    Ok(Update { object, act })
}
