//! The spelling of a message in version 2, the one that is written.

ghost use Rattle.std.specs.Prelude.{◌≡◌, ◌+◌, ◌≤◌, ◌<◌, ◌++◌, ℕ, length, IsTrue, IfOk, OnOk, All};
ghost use Rattle.std.specs.List.{flat_map};
ghost use Rattle.op_base.specs.Message.{fits};
ghost use Rattle.op_base.specs.Valid.{is_valid_id, is_valid_place};
ghost use Rattle.frame_codec.specs.Grammar.{number_field, length_field, text_field, id_field, place_field, argument_field, operation_fields, frame_of, IsArgument, IsOperation, IsSpelling};

use crate::version::Version;
use byteorder::{BigEndian, ByteOrder};
use op_base::{Act, ElementId, Message, NoMemory, Op, Tag};
use std::alloc::Global;

/// How many bytes a place has, 1 or 10.
fn place_len(place: &Option<ElementId>) -> usize
    ensures exact { result ≡ length (place_field place.now) }
    ensures few { result ≤ 10 }
{
    match place {
        None => 1,
        Some(_) => 10,
    }
}

/// How many bytes an act's argument has, 0 to 4108.
fn argument_len(act: &Act) -> usize
    ensures exact { result ≡ length (argument_field Version.Two act.now) }
    ensures few { result ≤ 4108 }
{
    match act {
        Act::Add(value) | Act::Rmv(value) | Act::Write(value) => 2 + value.as_slice().len(),
        Act::Clear | Act::Enable | Act::Disable => 0,
        Act::Inc(_) | Act::Dec(_) => 4,
        Act::Ins(value, place) => 2 + value.as_slice().len() + place_len(place),
        Act::Del(_) => 9,
    }
}

/// How many bytes the key and the argument have, 0 to 4142.
fn operation_len(op: &Op) -> usize
    ensures exact { result ≡ length (operation_fields Version.Two op.now) }
    ensures few { result ≤ 4142 }
{
    match op {
        Op::NoOp => 0,
        Op::Update(update) => 2 + update.object().key.as_slice().len() + argument_len(update.act()),
    }
}

/// How many bytes a message's frame has.
fn frame_len(message: &Message) -> usize
    ensures { (n epoch : ℕ) → result ≡ length (frame_of Version.Two n epoch message.now) }
{
    8 + 4 * message.tag.members() as usize + operation_len(&message.op)
}

/// Puts a number of 32 bits at the end, its greatest byte first.
fn put_number(out: &mut Vec<u8>, number: u32) -> Result<(), NoMemory>
    ensures { OnOk result (out.new.items ≡ out.old.items ++ number_field number) }
{
    let mut field = [0; 4];
    BigEndian::write_u32(&mut field, number);
    Ok(out.extend_from_slice(&field)?)
}

/// Puts the numbers of a timestamp at the end, members upwards.
fn put_timestamp(out: &mut Vec<u8>, tag: &Tag) -> Result<(), NoMemory>
    ensures { OnOk result (out.new.items ≡ out.old.items ++ flat_map number_field tag.now) }
{
    for x in 0..tag.members() {
        put_number(out, tag.at(x))?;
    }
    Ok(())
}

/// Puts a length of 16 bits at the end, its greater byte first.
fn put_length(out: &mut Vec<u8>, len: u16) -> Result<(), NoMemory>
    ensures { OnOk result (out.new.items ≡ out.old.items ++ length_field Version.Two len) }
{
    let mut field = [0; 2];
    BigEndian::write_u16(&mut field, len);
    Ok(out.extend_from_slice(&field)?)
}

/// Puts a text's length and the text at the end.
fn put_text(out: &mut Vec<u8>, text: &[u8]) -> Result<(), NoMemory>
    requires { length text.now < 65536 }
    ensures { OnOk result (out.new.items ≡ out.old.items ++ text_field Version.Two text.now) }
{
    put_length(out, text.len() as u16)?;
    Ok(out.extend_from_slice(text)?)
}

/// Puts an element's id at the end.
fn put_id(out: &mut Vec<u8>, id: ElementId) -> Result<(), NoMemory>
    ensures written { OnOk result (out.new.items ≡ out.old.items ++ id_field id) }
    ensures valid { IsTrue (is_valid_id id) }
{
    put_number(out, id.epoch)?;
    out.push(id.origin)?;
    put_number(out, id.seq)
}

/// Puts a place at the end.
fn put_place(out: &mut Vec<u8>, place: Option<ElementId>) -> Result<(), NoMemory>
    ensures written { OnOk result (out.new.items ≡ out.old.items ++ place_field place) }
    ensures valid { OnOk result (IsTrue (is_valid_place place)) }
{
    match place {
        None => Ok(out.push(0)?),
        Some(id) => {
            out.push(1)?;
            put_id(out, id)
        }
    }
}

/// Puts an act's argument at the end.
fn put_argument(out: &mut Vec<u8>, act: &Act) -> Result<(), NoMemory>
    ensures written { OnOk result (out.new.items ≡ out.old.items ++ argument_field Version.Two act.now) }
    ensures valid { OnOk result (IsArgument Version.Two act.now) }
{
    match act {
        Act::Add(value) | Act::Rmv(value) | Act::Write(value) => put_text(out, value.as_slice()),
        Act::Clear | Act::Enable | Act::Disable => Ok(()),
        Act::Inc(amount) | Act::Dec(amount) => put_number(out, *amount),
        Act::Ins(value, place) => {
            put_text(out, value.as_slice())?;
            put_place(out, *place)
        }
        Act::Del(id) => put_id(out, *id),
    }
}

/// Puts the key and the argument at the end.
fn put_operation(out: &mut Vec<u8>, op: &Op) -> Result<(), NoMemory>
    ensures written { OnOk result (out.new.items ≡ out.old.items ++ operation_fields Version.Two op.now) }
    ensures valid { OnOk result (IsOperation Version.Two op.now) }
{
    match op {
        Op::NoOp => Ok(()),
        Op::Update(update) => {
            put_text(out, update.object().key.as_slice())?;
            put_argument(out, update.act())
        }
    }
}

/// The spelling of a message in version 2, in a store of n members and an epoch of at most 65535. Its length is known
/// first, and it is allocated at once.
pub fn encode(alloc: Global, message: &Message, n: u8, epoch: u32) -> Result<Vec<u8>, NoMemory>
    requires message { IsTrue (fits n message.now) }
    requires epoch { epoch ≤ 65535 }
    ensures spelled { IfOk result (λ bytes. bytes.items ≡ frame_of Version.Two n epoch message.now) }
    ensures frame { (limit : ℕ) → All (λ e. e ≤ limit) message.now.tag → IfOk result (λ bytes. IsSpelling Version.Two n epoch limit bytes.items message.now) }
{
    let mut out = Vec::with_capacity(alloc, frame_len(message))?;
    out.extend_from_slice(&[Version::Two.byte(), message.origin, n, message.op.code()])?;
    put_number(&mut out, epoch)?;
    put_timestamp(&mut out, &message.tag)?;
    put_operation(&mut out, &message.op)?;
    Ok(out)
}
