//! Frames of each shape by worked vectors, bytes with each fault, and a frame that is cut: that the grammar and the faults of
//! the clauses are those that were meant. And what no clause says: that there is memory, and how faults are printed.

ghost use Rattle.std.specs.Prelude.{◌≤◌};

use frame_codec::{DecodeFault, FrameFault, decode, encode};
use op_base::{Act, ElementId, Message, ObjectId, Op, Tag, Update, Value};
use std::alloc::Global;
use std::test::Fail;

/// `add x` to `awset:s`, the message `0:1` of a store of two members whose sender had seen `1:258`, in version 1.
const OLD: [u8; 16] = *b"\x01\0\x02\x01\0\0\0\x01\0\0\x01\x02\x01s\x01x";

/// The same in version 2, in epoch 0.
const NEW: [u8; 22] = *b"\x02\0\x02\x01\0\0\0\0\0\0\0\x01\0\0\x01\x02\0\x01s\0\x01x";

/// `inc 5` to `counter:a`, the message `0:1` of a store of one member, in version 1.
const OLD_INC: [u8; 14] = *b"\x01\0\x01\x0f\0\0\0\x01\x01a\0\0\0\x05";

/// The same in version 2, in epoch 0.
const INC: [u8; 19] = *b"\x02\0\x01\x0f\0\0\0\0\0\0\0\x01\0\x01a\0\0\0\x05";

/// `ins x` at the head of `list:d`, a message like that one.
const AT_HEAD: [u8; 19] = *b"\x02\0\x01\x14\0\0\0\0\0\0\0\x01\0\x01d\0\x01x\0";

/// `ins x` behind element 7.15.2 of the same.
const BEHIND: [u8; 28] =
    *b"\x02\0\x01\x14\0\0\0\0\0\0\0\x01\0\x01d\0\x01x\x01\0\0\0\x07\x0F\0\0\0\x02";

/// `del` of that element.
const DELETED: [u8; 24] = *b"\x02\0\x01\x15\0\0\0\0\0\0\0\x01\0\x01d\0\0\0\x07\x0F\0\0\0\x02";

/// `clear` of the list.
const CLEARED: [u8; 15] = *b"\x02\0\x01\x16\0\0\0\0\0\0\0\x01\0\x01d";

/// The no-op `0:1` of a store of one member in epoch 65535.
const NOOP: [u8; 12] = *b"\x02\0\x01\0\0\0\xFF\xFF\0\0\0\x01";

const LIMIT: u32 = 10000;

/// Whether bytes of a store of so many members in an epoch are read as a message, and that is written as other bytes.
fn is_read_and_written(
    alloc: Global,
    bytes: &[u8],
    written: &[u8],
    n: u8,
    epoch: u32,
    wanted: &Message,
) -> Result<bool, Fail>
    requires some { 1 ≤ n }
    requires few { n ≤ 16 }
    requires epoch { epoch ≤ 65535 }
{
    let message = decode(alloc, bytes, n, epoch, LIMIT)?;
    let frame = encode(alloc, &message, n, epoch)?;
    Ok(message == *wanted && frame.as_slice() == written)
}

/// The update of an object by an act of its kind.
fn update(alloc: Global, object: &[u8], act: Act) -> Result<Op, Fail> {
    Ok(Op::Update(Update::new(ObjectId::read(alloc, object)?, act)?))
}

/// The message of the first two vectors.
fn added(alloc: Global) -> Result<Message, Fail> {
    let op = update(alloc, b"awset:s", Act::Add(Value::read(alloc, b"x")?))?;
    let mut tag = Tag::zero(2);
    tag.set(0, 1);
    tag.set(1, 258);
    Ok(Message { origin: 0, tag, op })
}

#[test]
fn frames_of_both_versions_are_read_and_the_second_is_written(rt: HostRuntime) -> Result<(), Fail> {
    let alloc = rt.alloc();
    let wanted = added(alloc)?;
    for bytes in [OLD.as_slice(), NEW.as_slice()] {
        assert!(rt; is_read_and_written(alloc, bytes, &NEW, 2, 0, &wanted)?);
    }
    Ok(())
}

/// The message `0:1` of a store of one member.
fn first(op: Op) -> Message {
    let mut tag = Tag::zero(1);
    tag.set(0, 1);
    Message { origin: 0, tag, op }
}

/// The element of the vectors.
const ELEMENT: ElementId = ElementId {
    epoch: 7,
    origin: 15,
    seq: 2,
};

/// What is done in the frames of one member.
#[derive(Clone, Copy)]
enum Done {
    Inc,
    Ins(Option<ElementId>),
    Del,
    Clear,
    NoOp,
}

/// The operation by which it is done.
fn operation(alloc: Global, done: Done) -> Result<Op, Fail> {
    match done {
        Done::Inc => update(alloc, b"counter:a", Act::Inc(5)),
        Done::Ins(place) => update(alloc, b"list:d", Act::Ins(Value::read(alloc, b"x")?, place)),
        Done::Del => update(alloc, b"list:d", Act::Del(ELEMENT)),
        Done::Clear => update(alloc, b"list:d", Act::Clear),
        Done::NoOp => Ok(Op::NoOp),
    }
}

/// Frames of one member in an epoch, as they are read and as they are written.
const FRAMES: [(&[u8], &[u8], u16, Done); 7] = [
    (&INC, &INC, 0, Done::Inc),
    (&OLD_INC, &INC, 0, Done::Inc),
    (&AT_HEAD, &AT_HEAD, 0, Done::Ins(None)),
    (&BEHIND, &BEHIND, 0, Done::Ins(Some(ELEMENT))),
    (&DELETED, &DELETED, 0, Done::Del),
    (&CLEARED, &CLEARED, 0, Done::Clear),
    (&NOOP, &NOOP, 65535, Done::NoOp),
];

#[test]
fn frames_of_each_shape_are_read_and_written(rt: HostRuntime) -> Result<(), Fail> {
    let alloc = rt.alloc();
    for (bytes, written, epoch, done) in FRAMES {
        let wanted = first(operation(alloc, done)?);
        let epoch = u32::from(epoch);
        assert!(rt; is_read_and_written(alloc, bytes, written, 1, epoch, &wanted)?);
    }
    Ok(())
}

/// The text of a list whose key has 32 bytes.
const LONGEST_LIST: &[u8] = b"list:kkkkkkkkkkkkkkkkkkkkkkkkkkkkkkkk";

/// The first message of a store of 16 members: a value of 4096 bytes, which takes memory, is put into that list behind an
/// element.
fn longest(alloc: Global) -> Result<Message, Fail> {
    let value = Value::read(alloc, &[b'v'; 4096])?;
    let op = update(alloc, LONGEST_LIST, Act::Ins(value, Some(ELEMENT)))?;
    let mut tag = Tag::zero(16);
    tag.set(0, 1);
    Ok(Message { origin: 0, tag, op })
}

/// Its frame.
fn longest_frame(alloc: Global) -> Result<Vec<u8>, Fail> {
    let mut bytes = b"\x02\0\x10\x14\0\0\0\0\0\0\0\x01".to_vec(alloc)?;
    bytes.extend_from_slice(&[0; 60])?;
    bytes.extend_from_slice(b"\0\x20kkkkkkkkkkkkkkkkkkkkkkkkkkkkkkkk\x10\0")?;
    bytes.extend_from_slice(&[b'v'; 4096])?;
    bytes.extend_from_slice(b"\x01\0\0\0\x07\x0F\0\0\0\x02")?;
    Ok(bytes)
}

/// It has as many bytes as `MUNSIKAP_MOST_FRAME` of `examples/embed/munsikap_peer.h` says.
#[test]
fn the_longest_frame_is_written_and_read(rt: HostRuntime) -> Result<(), Fail> {
    let alloc = rt.alloc();
    let bytes = longest_frame(alloc)?;
    let wanted = longest(alloc)?;
    assert!(rt; bytes.len() == 4214);
    assert!(rt; is_read_and_written(alloc, &bytes, &bytes, 16, 0, &wanted)?);
    Ok(())
}

/// 0 where bytes are a frame of a store of so many members, and else the fault's number.
fn fault_of(alloc: Global, bytes: &[u8], n: u8) -> u8
    requires some { 1 ≤ n }
    requires few { n ≤ 16 }
{
    match decode(alloc, bytes, n, 0, LIMIT) {
        Ok(_) => 0,
        Err(DecodeFault::Frame(fault)) => fault.number(),
        Err(DecodeFault::NoMemory) => 11,
    }
}

/// Bytes of a store of two members in epoch 0, each with the number of its fault.
const FAULTS: [(&[u8], u8); 10] = [
    (b"\x02\0\x02\0\0\0\0\0\0\0\0\x01\0\0\0", 1),
    (b"\x03\0\x02\x01\0\0\0\0\0\0\0\x01\0\0\0\0\0\x01s\0\x01x", 2),
    (
        b"\x02\0\x03\x01\0\0\0\x01\0\0\0\x01\0\0\0\0\0\x01s\0\x01x",
        10,
    ),
    (b"\x02\0\x03\x01\0\0\0\0\0\0\0\x01\0\0\0\0\0\x01s\0\x01x", 3),
    (
        b"\x02\x02\x02\x01\0\0\0\0\0\0\0\x01\0\0\0\0\0\x01s\0\x01x",
        4,
    ),
    (b"\x01\0\x02\x14\0\0\0\x01\0\0\0\0\x01s\x01x", 5),
    (
        b"\x02\0\x02\x01\0\0\0\0\0\0\0\x01\0\0\x27\x11\0\x01s\0\x01x",
        6,
    ),
    (b"\x02\0\x02\x01\0\0\0\0\0\0\0\x01\0\0\0\0\0\x01S\0\x01x", 7),
    (b"\x02\0\x02\x01\0\0\0\0\0\0\0\x01\0\0\0\0\0\x01s\0\x01 ", 8),
    (
        b"\x02\0\x02\x01\0\0\0\0\0\0\0\x01\0\0\0\0\0\x01s\0\x01x\0",
        9,
    ),
];

#[test]
fn each_fault_has_its_number(rt: HostRuntime) {
    for (bytes, wanted) in FAULTS {
        assert_eq!(rt; fault_of(rt.alloc(), bytes, 2), wanted);
    }
}

#[test]
fn no_proper_prefix_is_a_frame(rt: HostRuntime) {
    for len in 0..28 {
        let wanted = match len {
            0..=11 => 1,
            12..=14 => 7,
            _ => 8,
        };
        let found = fault_of(rt.alloc(), &BEHIND[..len], 1);
        assert_eq!(rt; found, wanted, "{len} bytes");
    }
}

const TOLD: [(DecodeFault, &str); 11] = [
    (
        DecodeFault::Frame(FrameFault::Short),
        "no frame: too few bytes",
    ),
    (
        DecodeFault::Frame(FrameFault::Version),
        "no frame: another version",
    ),
    (
        DecodeFault::Frame(FrameFault::Epoch),
        "no frame: another epoch",
    ),
    (
        DecodeFault::Frame(FrameFault::Members),
        "no frame: another number of members",
    ),
    (
        DecodeFault::Frame(FrameFault::Origin),
        "no frame: no such origin",
    ),
    (
        DecodeFault::Frame(FrameFault::Code),
        "no frame: no such operation",
    ),
    (
        DecodeFault::Frame(FrameFault::Number),
        "no frame: a number out of range",
    ),
    (DecodeFault::Frame(FrameFault::BadKey), "no frame: no key"),
    (
        DecodeFault::Frame(FrameFault::Argument),
        "no frame: no argument",
    ),
    (
        DecodeFault::Frame(FrameFault::Rest),
        "no frame: bytes behind the last field",
    ),
    (DecodeFault::NoMemory, "out of memory"),
];

/// Whether a fault is printed as a text.
fn is_told(alloc: Global, fault: DecodeFault, text: &str) -> Result<bool, Fail> {
    Ok(format!(in alloc; "{fault}")?.as_str() == text)
}

#[test]
fn faults_are_told(rt: HostRuntime) -> Result<(), Fail> {
    for (fault, text) in TOLD {
        assert!(rt; is_told(rt.alloc(), fault, text)?, "{text}");
    }
    Ok(())
}
