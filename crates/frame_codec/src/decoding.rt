//! The message that bytes spell.

ghost use Rattle.std.specs.Prelude.{◌≡◌, ◌≢◌, ◌≤◌, length, IfOk, IfErr, IsOk, MatchResult, Ok, Some, None};
ghost use Rattle.op_base.specs.declared.message.Message.{Message};
ghost use Rattle.frame_codec.specs.Grammar.{IsFrame};
ghost use Rattle.op_base.specs.InPlace.{IsInPlace};
ghost use Rattle.frame_codec.specs.Fault.{byte_at, code_byte, version_at, head_len, is_bad_epoch, frame_fault, Gives, Refuses};
ghost use Rattle.frame_codec.specs.Reading.{head_fault, IsWhy, Says};

use crate::fault::{DecodeFault, FrameFault};
use crate::fields::{is_bad_number, operation, timestamp};
use crate::version::Version;
use byteorder::{BigEndian, ByteOrder};
use op_base::Message;
use std::alloc::Global;

/// What stands in front of the timestamp.
#[derive(Drop)]
struct Head {
    version: Version,
    origin: u8,
    code: u8,
}

/// Whether the epoch, where there is one, is another.
fn is_bad_epoch(version: Version, bytes: &[u8], epoch: u32) -> bool
    requires { head_len version ≤ length bytes.now }
    ensures { result ≡ is_bad_epoch version epoch bytes.now }
{
    match version {
        Version::One => false,
        Version::Two => BigEndian::read_u32(&bytes[4..]) != epoch,
    }
}

/// What stands in front of a timestamp of n members.
fn read_head(bytes: &[u8], n: u8, epoch: u32) -> Result<Head, FrameFault>
    ensures fault { MatchResult result
        (λ _. head_fault (version_at bytes.now) n epoch bytes.now ≡ None)
        (λ fault. head_fault (version_at bytes.now) n epoch bytes.now ≡ Some fault) }
    ensures version { IfOk result (λ head. head.version ≡ version_at bytes.now) }
    ensures origin { IfOk result (λ head. head.origin ≡ byte_at bytes.now 1) }
    ensures code { IfOk result (λ head. head.code ≡ code_byte bytes.now) }
{
    let version = Version::at(bytes);
    if bytes.len() < version.head_len() + 4 * n as usize {
        return Err(FrameFault::Short);
    }
    let (first, origin, members, code) = (bytes[0], bytes[1], bytes[2], bytes[3]);
    if first != version.byte() || !version.is_read_in(epoch) {
        return Err(FrameFault::Version);
    }
    if is_bad_epoch(version, bytes, epoch) {
        return Err(FrameFault::Epoch);
    }
    if members != n {
        return Err(FrameFault::Members);
    }
    if origin >= n {
        return Err(FrameFault::Origin);
    }
    if code > version.last_code() {
        return Err(FrameFault::Code);
    }
    Ok(Head {
        version,
        origin,
        code,
    })
}

/// The message of the bytes.
fn message(
    alloc: Global,
    bytes: &[u8],
    n: u8,
    epoch: u32,
    limit: u32,
) -> Result<Message, DecodeFault>
    requires some { 1 ≤ n }
    requires few { n ≤ 16 }
    ensures fault { MatchResult result (λ _. frame_fault n epoch limit bytes.now ≡ None) (IsWhy (frame_fault n epoch limit bytes.now)) }
    ensures says { IfOk result (λ m. Says (version_at bytes.now) n bytes.now m) }
    ensures in_place { (m : Message) → Says (version_at bytes.now) n bytes.now m → IsInPlace m.op → IfErr result (λ fault. fault ≢ DecodeFault.NoMemory) }
{
    let head = read_head(bytes, n, epoch)?;
    let begin = head.version.head_len();
    let tag = timestamp(&bytes[begin..], n);
    if is_bad_number(&tag, head.origin, limit) {
        return Err(DecodeFault::Frame(FrameFault::Number));
    }
    let fields = &bytes[begin + 4 * n as usize..];
    let op = operation(alloc, head.version, head.code, fields)?;
    Ok(Message {
        origin: head.origin,
        tag,
        op,
    })
}

/// The message that bytes spell in a store of n members, in an epoch, where no entry of a timestamp is above the limit.
/// Frames of version 2 are read, and in epoch 0 those of version 1.
///
/// The fault is the first of the ten in their order that the bytes have. `NoMemory` comes only for bytes without a
/// fault, and only where the message has a value that doesn't stand in place: nothing but that value is allocated.
pub fn decode(
    alloc: Global,
    bytes: &[u8],
    n: u8,
    epoch: u32,
    limit: u32,
) -> Result<Message, DecodeFault>
    requires some { 1 ≤ n }
    requires few { n ≤ 16 }
    ensures found { IfOk result (λ m. IsFrame n epoch limit bytes.now m) }
    ensures only { (m : Message) → IsFrame n epoch limit bytes.now m → Gives m result }
    ensures refused { Refuses (frame_fault n epoch limit bytes.now) result }
    ensures in_place { (m : Message) → IsFrame n epoch limit bytes.now m → IsInPlace m.op → IsOk result }
{
    message(alloc, bytes, n, epoch, limit)
}
