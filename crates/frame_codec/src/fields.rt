//! The fields of a frame, each read from the front of the bytes that are left.
//!
//! A reader answers a value and the bytes behind it, or the field's fault. Want of memory is no fault of the bytes: a
//! fault of a later field comes before it. So the reader of the last field also tells whether bytes are left behind it,
//! and the operation is made once, when nothing but memory can be wanting.

ghost use Rattle.std.specs.Prelude.{◌≡◌, ◌≢◌, ◌*◌, ◌≤◌, ◌<◌, ◌||◌, ◌==◌, nat_lt, nat_le, length, take, drop, slice_index, is_ok, IsOk, IfOk, IfErr, IfSome, is_some, MatchResult, true, Ok, Some, None};
ghost use Rattle.std.specs.List.{list_any};
ghost use Rattle.std.specs.Int.{w32, from_be_bytes};
ghost use Rattle.op_base.specs.Name.{is_key};
ghost use Rattle.op_base.specs.declared.name.TheConstants.{VALUE_BYTES_IN_PLACE};
ghost use Rattle.op_base.specs.declared.operation.Op.{Op as AnOp};
ghost use Rattle.op_base.specs.InPlace.{IsActInPlace, IsInPlace};
ghost use Rattle.frame_codec.specs.Grammar.{is_sent};
ghost use Rattle.frame_codec.specs.Fault.{numbers, length_len, length_at, text_of, behind_text, is_text_field, element_at, is_id_field, is_place_field, behind_place};
ghost use Rattle.frame_codec.specs.Reading.{is_name, place_at, act_at, rest_fault, value_fault, amount_fault, insertion_fault, id_fault, act_fault, fields_fault, IsWhy, SaysOperation};

use crate::fault::{DecodeFault, FrameFault};
use crate::version::Version;
use byteorder::{BigEndian, ByteOrder};
use op_base::{
    Act, ElementId, Key, NameFault, NoMemory, ObjectId, Op, Tag, Update, Value, Verb, operation_of,
};
use std::alloc::Global;

/// The timestamp of n members, 1 to 16, whose numbers stand at the front.
pub fn timestamp(bytes: &[u8], n: u8) -> Tag
    requires some { 1 ≤ n }
    requires few { n ≤ 16 }
    requires whole { 4 * n ≤ length bytes.now }
    ensures { result ≡ numbers n bytes.now }
{
    let mut tag = Tag::zero(n);
    for x in 0..n {
        tag.set(x, BigEndian::read_u32(&bytes[4 * x as usize..]));
    }
    tag
}

/// Whether the origin's entry is 0, or some entry is above the limit.
pub fn is_bad_number(tag: &Tag, origin: u8, limit: u32) -> bool
    requires { origin < length tag.now }
    ensures { result ≡ ((slice_index tag.now origin == 0) || list_any (λ e. nat_lt limit e) tag.now) }
{
    tag.at(origin) == 0 || is_above(tag, limit)
}

/// Whether some entry is above the limit.
fn is_above(tag: &Tag, limit: u32) -> bool
    ensures { result ≡ list_any (λ e. nat_lt limit e) tag.now }
{
    for x in 0..tag.members() {
        if tag.at(x) > limit {
            return true;
        }
    }
    false
}

/// A length, and what stands behind it. `None` where it is cut.
fn length_field(version: Version, bytes: &[u8]) -> Option<(usize, &[u8])>
    ensures whole { is_some result ≡ nat_le (length_len version) (length bytes.now) }
    ensures length { IfSome result (λ x. x.0 ≡ length_at version bytes.now) }
    ensures rest { IfSome result (λ x. x.1.now ≡ drop (length_len version) bytes.now) }
{
    let (field, rest) = bytes.split_at_checked(version.length_len())?;
    let len = match version {
        Version::One => field[0] as usize,
        Version::Two => BigEndian::read_u16(field) as usize,
    };
    Some((len, rest))
}

/// A text behind its length, and what stands behind it. `None` where it is cut.
fn text_field(version: Version, bytes: &[u8]) -> Option<(&[u8], &[u8])>
    ensures whole { is_some result ≡ is_text_field version (λ _. true) bytes.now }
    ensures text { IfSome result (λ x. x.0.now ≡ text_of version bytes.now) }
    ensures rest { IfSome result (λ x. x.1.now ≡ behind_text version bytes.now) }
{
    let (len, rest) = length_field(version, bytes)?;
    rest.split_at_checked(len)
}

/// A name that was read, or want of memory for it. Where the text was none, this fault.
fn name_or<T>(
    read: Result<T, NameFault>,
    fault: FrameFault,
) -> Result<Result<T, NoMemory>, FrameFault>
    ensures tested { is_ok result ≡ is_name read }
    ensures fault { IfErr result (λ e. e ≡ fault) }
    ensures name { IfOk result (λ r. IfOk r (λ name. read ≡ Ok name)) }
    ensures memory { IfErr read (λ fault. fault ≢ NameFault.NoMemory) → IfOk result (λ r. IsOk r) }
{
    match read {
        Ok(name) => Ok(Ok(name)),
        Err(error) => match error {
            NameFault::NoMemory => Ok(Err(NoMemory)),
            _ => Err(fault),
        },
    }
}

/// A key behind its length, and what stands behind it. It takes no memory.
fn key_field(alloc: Global, version: Version, bytes: &[u8]) -> Result<(Key, &[u8]), FrameFault>
    ensures tested { is_ok result ≡ is_text_field version is_key bytes.now }
    ensures fault { IfErr result (λ fault. fault ≡ FrameFault.BadKey) }
    ensures key { IfOk result (λ x. x.0 ≡ text_of version bytes.now) }
    ensures rest { IfOk result (λ x. x.1.now ≡ behind_text version bytes.now) }
{
    let Some((text, rest)) = text_field(version, bytes) else {
        return Err(FrameFault::BadKey);
    };
    match Key::read(alloc, text) {
        Ok(key) => Ok((key, rest)),
        Err(_fault) => Err(FrameFault::BadKey),
    }
}

/// Nothing is left behind the last field.
fn no_rest(rest: &[u8]) -> Result<(), FrameFault>
    ensures { MatchResult result (λ _. rest_fault rest.now ≡ None) (λ fault. rest_fault rest.now ≡ Some fault) }
{
    if rest.is_empty() {
        Ok(())
    } else {
        Err(FrameFault::Rest)
    }
}

/// A value behind its length, or want of memory for it, and what stands behind it.
#[inline(always)]
fn value_field(
    alloc: Global,
    version: Version,
    bytes: &[u8],
) -> Result<(Result<Value, NoMemory>, &[u8]), FrameFault>
    ensures tested { is_ok result ≡ is_text_field version (is_sent version) bytes.now }
    ensures fault { IfErr result (λ fault. fault ≡ FrameFault.Argument) }
    ensures value { IfOk result (λ x. IfOk x.0 (λ value. value ≡ text_of version bytes.now)) }
    ensures in_place { length (text_of version bytes.now) ≤ VALUE_BYTES_IN_PLACE → IfOk result (λ x. IsOk x.0) }
    ensures rest { IfOk result (λ x. x.1.now ≡ behind_text version bytes.now) }
{
    let Some((text, rest)) = text_field(version, bytes) else {
        return Err(FrameFault::Argument);
    };
    if !version.carries(text.len()) {
        return Err(FrameFault::Argument);
    }
    name_or(Value::read(alloc, text), FrameFault::Argument).map(|value| (value, rest))
}

/// A value behind its length, with nothing behind it.
fn last_value(alloc: Global, version: Version, bytes: &[u8]) -> Result<Value, DecodeFault>
    ensures fault { MatchResult result (λ _. value_fault version bytes.now ≡ None) (IsWhy (value_fault version bytes.now)) }
    ensures value { IfOk result (λ value. value ≡ text_of version bytes.now) }
    ensures in_place { length (text_of version bytes.now) ≤ VALUE_BYTES_IN_PLACE → IfErr result (λ fault. fault ≢ DecodeFault.NoMemory) }
{
    let (value, rest) = value_field(alloc, version, bytes)?;
    no_rest(rest)?;
    Ok(value?)
}

/// An id that an element can have, and what stands behind it. `None` where it is cut or can't be one.
fn id_field(bytes: &[u8]) -> Option<(ElementId, &[u8])>
    ensures whole { is_some result ≡ is_id_field bytes.now }
    ensures id { IfSome result (λ x. x.0 ≡ element_at bytes.now) }
    ensures rest { IfSome result (λ x. x.1.now ≡ drop 9 bytes.now) }
{
    let (front, rest) = bytes.split_at_checked(9)?;
    let epoch = BigEndian::read_u32(front);
    let seq = BigEndian::read_u32(&front[5..]);
    let id = ElementId {
        epoch,
        origin: front[4],
        seq,
    };
    if id.is_element() {
        Some((id, rest))
    } else {
        None
    }
}

/// A place in a list, and what stands behind it. `None` where it is cut or is none.
fn place_field(bytes: &[u8]) -> Option<(Option<ElementId>, &[u8])>
    ensures whole { is_some result ≡ is_place_field bytes.now }
    ensures place { IfSome result (λ x. x.0 ≡ place_at bytes.now) }
    ensures rest { IfSome result (λ x. x.1.now ≡ behind_place bytes.now) }
{
    let (first, rest) = bytes.split_first()?;
    match *first {
        0 => Some((None, rest)),
        1 => {
            let (id, behind) = id_field(rest)?;
            Some((Some(id), behind))
        }
        _ => None,
    }
}

/// A value behind its length and its place, with nothing behind them.
fn last_insertion(
    alloc: Global,
    version: Version,
    bytes: &[u8],
) -> Result<(Value, Option<ElementId>), DecodeFault>
    ensures fault { MatchResult result (λ _. insertion_fault version bytes.now ≡ None) (IsWhy (insertion_fault version bytes.now)) }
    ensures value { IfOk result (λ x. x.0 ≡ text_of version bytes.now) }
    ensures place { IfOk result (λ x. x.1 ≡ place_at (behind_text version bytes.now)) }
    ensures in_place { length (text_of version bytes.now) ≤ VALUE_BYTES_IN_PLACE → IfErr result (λ fault. fault ≢ DecodeFault.NoMemory) }
{
    let (value, behind) = value_field(alloc, version, bytes)?;
    let Some((place, rest)) = place_field(behind) else {
        return Err(DecodeFault::Frame(FrameFault::Argument));
    };
    no_rest(rest)?;
    Ok((value?, place))
}

/// An id, with nothing behind it.
fn last_id(bytes: &[u8]) -> Result<ElementId, FrameFault>
    ensures fault { MatchResult result (λ _. id_fault bytes.now ≡ None) (λ fault. id_fault bytes.now ≡ Some fault) }
    ensures id { IfOk result (λ id. id ≡ element_at bytes.now) }
{
    let (id, rest) = id_field(bytes).ok_or(FrameFault::Argument)?;
    no_rest(rest)?;
    Ok(id)
}

/// An amount, with nothing behind it.
fn last_amount(bytes: &[u8]) -> Result<u32, FrameFault>
    ensures fault { MatchResult result (λ _. amount_fault bytes.now ≡ None) (λ fault. amount_fault bytes.now ≡ Some fault) }
    ensures amount { IfOk result (λ amount. amount ≡ from_be_bytes w32 (take 4 bytes.now)) }
{
    let (front, rest) = bytes.split_at_checked(4).ok_or(FrameFault::Argument)?;
    no_rest(rest)?;
    Ok(BigEndian::read_u32(front))
}

/// The act of a verb, with its argument and nothing behind it.
fn last_act(alloc: Global, version: Version, verb: Verb, bytes: &[u8]) -> Result<Act, DecodeFault>
    ensures fault { MatchResult result (λ _. act_fault version verb bytes.now ≡ None) (IsWhy (act_fault version verb bytes.now)) }
    ensures act { IfOk result (λ act. act ≡ act_at version verb bytes.now) }
    ensures in_place { IsActInPlace (act_at version verb bytes.now) → IfErr result (λ fault. fault ≢ DecodeFault.NoMemory) }
{
    match verb {
        Verb::Add => Ok(Act::Add(last_value(alloc, version, bytes)?)),
        Verb::Rmv => Ok(Act::Rmv(last_value(alloc, version, bytes)?)),
        Verb::Write => Ok(Act::Write(last_value(alloc, version, bytes)?)),
        Verb::Inc => Ok(Act::Inc(last_amount(bytes)?)),
        Verb::Dec => Ok(Act::Dec(last_amount(bytes)?)),
        Verb::Ins => {
            let (value, place) = last_insertion(alloc, version, bytes)?;
            Ok(Act::Ins(value, place))
        }
        Verb::Del => Ok(Act::Del(last_id(bytes)?)),
        Verb::Clear => {
            no_rest(bytes)?;
            Ok(Act::Clear)
        }
        Verb::Enable => {
            no_rest(bytes)?;
            Ok(Act::Enable)
        }
        Verb::Disable => {
            no_rest(bytes)?;
            Ok(Act::Disable)
        }
    }
}

/// The operation of a code, with its key and its argument and nothing behind them.
pub fn operation(alloc: Global, version: Version, code: u8, bytes: &[u8]) -> Result<Op, DecodeFault>
    requires { code ≤ 22 }
    ensures fault { MatchResult result (λ _. fields_fault version code bytes.now ≡ None) (IsWhy (fields_fault version code bytes.now)) }
    ensures operation { IfOk result (λ op. SaysOperation version code bytes.now op) }
    ensures in_place { (op : AnOp) → SaysOperation version code bytes.now op → IsInPlace op → IfErr result (λ fault. fault ≢ DecodeFault.NoMemory) }
{
    if code == 0 {
        no_rest(bytes)?;
        return Ok(Op::NoOp);
    }
    let (kind, verb) = operation_of(code);
    // By a match and not by `?`, for which the borrow checker has no rule on a pair of a `Copy` key and a slice.
    let (key, rest) = match key_field(alloc, version, bytes) {
        Ok(field) => field,
        Err(fault) => return Err(fault.into()),
    };
    let act = last_act(alloc, version, verb, rest)?;
    let object = ObjectId { kind, key };
    Ok(Op::Update(Update { object, act }))
}
