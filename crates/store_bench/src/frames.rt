//! One message that is encoded, decoded or copied many times.
//!
//! The words are `encode`, `decode` or `copy`; how many members the store has, 1 to 16; how many bytes the key has, 0 for a
//! no-op; a text that is repeated for the value, and how often; and how many turns there are. The number is how many bytes
//! the frames of all the turns had together, or the values of all the copies.

ghost use Rattle.std.specs.Prelude.{◌≡◌, ◌≤◌, ◌&&◌, IsTrue, IfOk};
ghost use Rattle.op_base.specs.Message.{fits};

use crate::words::{number, small};
use anyhow::{Result, bail, ensure};
use frame_codec::{decode, encode};
use op_base::{Act, Key, Kind, MOST_MEMBERS, Message, ObjectId, Op, Tag, Update, Value};
use std::alloc::Global;

/// The greatest limit of messages a member.
const LIMIT: u32 = 1000000;

const EPOCH: u32 = 0;

/// So many texts, one behind the other.
fn repeated(alloc: Global, text: &str, count: u32) -> Result<Vec<u8>> {
    let mut bytes = Vec::new(alloc);
    for _ in 0..count {
        bytes.extend_from_slice(text.as_bytes())?;
    }
    Ok(bytes)
}

/// An add to a set, with a key of so many bytes.
fn add(alloc: Global, key: u32, value: &[u8]) -> Result<Op> {
    let object = ObjectId {
        kind: Kind::AwSet,
        key: Key::read(alloc, &repeated(alloc, "k", key)?)?,
    };
    let act = Act::Add(Value::read(alloc, value)?);
    let Ok(update) = Update::new(object, act) else {
        bail!("a set has an add");
    };
    Ok(Op::Update(update))
}

/// What the last member of a store sends, each of whose members has sent all that it may.
fn message(op: Op, n: u8) -> Message
    requires some { 1 ≤ n }
    requires few { n ≤ MOST_MEMBERS }
{
    let mut tag = Tag::zero(n);
    for x in 0..n {
        tag.set(x, LIMIT);
    }
    Message {
        origin: n - 1,
        tag,
        op,
    }
}

/// Encodes a message so often. The number of bytes of all the frames, modulo 2^64.
fn encode_often(alloc: Global, message: &Message, n: u8, count: u32) -> Result<u64>
    requires { IsTrue (fits n message.now) }
{
    let mut bytes = 0u64;
    for _ in 0..count {
        bytes = bytes.wrapping_add(encode(alloc, message, n, EPOCH)?.len() as u64);
    }
    Ok(bytes)
}

/// Decodes a message's frame so often, and tells that the last is equal to it. The number of bytes of all the frames,
/// modulo 2^64.
fn decode_often(alloc: Global, message: &Message, n: u8, count: u32) -> Result<u64>
    requires message { IsTrue (fits n message.now) }
    requires some { 1 ≤ n }
    requires few { n ≤ 16 }
{
    let frame = encode(alloc, message, n, EPOCH)?;
    let mut last = decode(alloc, &frame, n, EPOCH, LIMIT)?;
    let mut bytes = 0u64;
    for _ in 0..count {
        last = decode(alloc, &frame, n, EPOCH, LIMIT)?;
        bytes = bytes.wrapping_add(frame.len() as u64);
    }
    ensure!(last == *message, "another message");
    Ok(bytes)
}

/// How many bytes a message's value has, 0 where it has none.
fn value_len(message: &Message) -> u64 {
    match &message.op {
        Op::Update(update) => match update.act() {
            Act::Add(value) => value.as_slice().len() as u64,
            _ => 0,
        },
        Op::NoOp => 0,
    }
}

/// Copies a message so often. The number of bytes of all the values, modulo 2^64.
fn copy_often(alloc: Global, message: &Message, count: u32) -> Result<u64> {
    let mut bytes = 0u64;
    for _ in 0..count {
        bytes = bytes.wrapping_add(value_len(&message.copy(alloc)?));
    }
    Ok(bytes)
}

fn turns_of(alloc: Global, call: &str, message: &Message, count: u32) -> Result<u64> {
    let n = message.tag.members();
    ensure!(
        message.origin < n && message.tag.at(message.origin) > 0,
        "no message"
    );
    match call {
        "encode" => encode_often(alloc, message, n, count),
        "decode" => decode_often(alloc, message, n, count),
        "copy" => copy_often(alloc, message, count),
        _ => bail!("no call: {call}"),
    }
}

/// How many bytes the turns of the words had together.
pub fn measure(alloc: Global, words: &[String]) -> Result<u64> {
    let [call, members, key, text, times, count] = words else {
        bail!(
            "the words are a call, members, a key's length, a text, how often it is repeated, and turns"
        );
    };
    let n = small(members.as_str())?;
    ensure!(
        n >= 1 && n as usize <= MOST_MEMBERS,
        "no store has {n} members"
    );
    let op = match number(key.as_str())? {
        0 => Op::NoOp,
        key => {
            let value = repeated(alloc, text.as_str(), number(times.as_str())?)?;
            add(alloc, key, &value)?
        }
    };
    let count = number(count.as_str())?;
    turns_of(alloc, call.as_str(), &message(op, n), count)
}
