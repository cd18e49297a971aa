//! What single words name.

ghost use Rattle.std.specs.Prelude.{◌≡◌, ◌<◌, ◌≤◌, [], ◌∷◌, IfOk, MatchOption, option_copied};
ghost use Rattle.std.specs.List.{position, slice_split};
ghost use Rattle.script_lang.specs.Names.{member_of, object_in, list_in, value_in, bytes_in, amount_in, size_in, is_point, element_where, element_in, place_in, client_digits};
ghost use Rattle.script_lang.specs.Memory.{Reads, IsAmple, is_long};

use crate::fault::Fault;
use crate::header::is_from_to;
use crate::number::{are_digits, read_number};
use crate::word::is_text;
use hex::FromHexError;
use op_base::{ByteList, ElementId, Kind, MOST_MEMBERS, ObjectId, Value};
use std::alloc::Global;

/// The member of `n` that a word names; of `n` clients too.
pub fn read_member(n: u8, word: &[u8]) -> Result<u8, Fault>
    ensures member { result ≡ member_of n word.now }
    ensures within { IfOk result (λ r. r < n) }
{
    match read_number(word) {
        Some(r) if r < u32::from(n) => Ok(r as u8),
        _ => Err(Fault::Member),
    }
}

/// The object that a word names. It takes no memory. It is read where it will stand, as an update is: to be moved once more
/// takes longer than its instructions tell, since what was just written in pieces isn't there at once to be read whole.
#[inline(always)]
pub fn read_object(alloc: Global, word: &[u8]) -> Result<ObjectId, Fault>
    ensures { result ≡ object_in word.now }
{
    match ObjectId::read(alloc, word) {
        Ok(object) => Ok(object),
        Err(_) => Err(Fault::Object),
    }
}

/// The list that a word names. It takes no memory.
pub fn read_list(alloc: Global, word: &[u8]) -> Result<ObjectId, Fault>
    ensures list { result ≡ list_in word.now }
    ensures of_kind { IfOk result (λ object. object.kind ≡ Kind.List) }
{
    let object = read_object(alloc, word)?;
    match object.kind {
        Kind::List => Ok(object),
        _ => Err(Fault::Object),
    }
}

/// The value that a word is. One of at most 24 bytes takes no memory.
pub fn read_value(alloc: Global, word: &[u8]) -> Result<Value, Fault>
    ensures value { Reads (value_in word.now) result }
    ensures ample { IsAmple is_long (value_in word.now) result }
{
    Value::read(alloc, word).map_err(|why| Fault::Value.of_name(why))
}

/// The bytes that a word writes in hexadecimal.
pub fn read_hex(alloc: Global, word: &[u8]) -> Result<ByteList, Fault>
    ensures { Reads (bytes_in word.now) result }
{
    match hex::decode(alloc, word) {
        Ok(bytes) => Ok(ByteList::from_vec(bytes)),
        Err(FromHexError::OutOfMemory) => Err(Fault::NoMemory),
        Err(_) => Err(Fault::Value),
    }
}

/// The amount, or the number of a message, that a word is.
pub fn read_amount(word: &[u8]) -> Result<u32, Fault>
    ensures { result ≡ amount_in word.now }
{
    read_number(word).ok_or(Fault::Number)
}

/// How many members a word says, 1 to 16.
pub fn read_size(word: &[u8]) -> Result<u8, Fault>
    ensures size { result ≡ size_in word.now }
    ensures within { IfOk result (λ n. (1 ≤ n) × (n ≤ 16)) }
{
    let n = read_amount(word)?;
    if is_from_to(1, MOST_MEMBERS as u32, n) {
        Ok(n as u8)
    } else {
        Err(Fault::Number)
    }
}

/// The place of a word's first point.
fn point_place(word: &[u8]) -> Option<usize>
    ensures { result ≡ position is_point word.now }
{
    word.iter().position(|b| *b == b'.')
}

/// What stands before a word's first point, and what stands behind it.
fn split_point(word: &[u8]) -> Option<(&[u8], &[u8])>
    ensures { MatchOption result (slice_split is_point word.now ≡ word.now ∷ []) (λ parts. slice_split is_point word.now ≡ parts.0.now ∷ slice_split is_point parts.1.now) }
{
    let at = point_place(word)?;
    Some((&word[..at], &word[at + 1..]))
}

/// The id of these numbers, where an element can have it.
fn element_where(epoch: u32, origin: u32, seq: u32) -> Result<ElementId, Fault>
    ensures { result ≡ element_where (record { epoch = epoch; origin = origin; seq = seq }) }
{
    if origin > 15 || seq == 0 {
        return Err(Fault::Number);
    }
    Ok(ElementId {
        epoch,
        origin: origin as u8,
        seq,
    })
}

/// The id of an element that a word is.
pub fn read_element(word: &[u8]) -> Result<ElementId, Fault>
    ensures { result ≡ element_in word.now }
{
    let Some((epoch, rest)) = split_point(word) else {
        return Err(Fault::Number);
    };
    let Some((origin, seq)) = split_point(rest) else {
        return Err(Fault::Number);
    };
    match split_point(seq) {
        Some(_) => Err(Fault::Number),
        None => element_where(read_amount(epoch)?, read_amount(origin)?, read_amount(seq)?),
    }
}

/// The place that a word is: the head, or behind an element.
pub fn read_place(word: &[u8]) -> Result<Option<ElementId>, Fault>
    ensures { result ≡ place_in word.now }
{
    if is_text(word, b"head") {
        return Ok(None);
    }
    Ok(Some(read_element(word)?))
}

/// The digits of a word that is one or more of them with a colon behind them.
pub fn client_digits(word: &[u8]) -> Option<&[u8]>
    ensures { option_copied result ≡ client_digits word.now }
{
    match word {
        [digits @ .., b':'] if !digits.is_empty() && are_digits(digits) => Some(digits),
        _ => None,
    }
}
