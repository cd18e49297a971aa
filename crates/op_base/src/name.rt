//! Names: the eight kinds, keys, values and objects.
//!
//! Their texts are this project's own profile. UTF-8 is tested by `simdutf8`.

ghost use Rattle.std.specs.Prelude.{◌≡◌, ◌≢◌, ◌≤◌, ◌+◌, ◌-◌, ◌*◌, ◌<◌, [], ◌∷◌, ◌++◌, length, take, drop, replicate, vec_len, vec_capacity, IfOk, IfErr, IfSome, OnOk, OnErr, IsOk, IsTrue, is_some, position, nat_le, not, Some, Ok};
ghost use Rattle.op_base.specs.declared.name.TheConstants.{VALUE_BYTES_IN_PLACE};
ghost use Rattle.std.specs.List.{list_all};
ghost use Rattle.std.specs.Prelude.{nat_eq, refl};
ghost use Rattle.std.specs.Str.{is_utf8};
ghost use Rattle.std.proofs.Common.{rules};
ghost use Rattle.std.specs.Hash as fed;
ghost use Rattle.std.specs.Cmp.Rules.{hashing};
ghost use Rattle.std.specs.Int.{from_be_bytes, w64};
ghost use Rattle.std.specs.Ordering.{nat_cmp, as_partial_cmp};
ghost use Rattle.std.specs.Cmp.{partial_equiv_from_equiv};
ghost use Rattle.std.specs.Cmp.Lexicographic.{pointwise, slice_cmp, nat_list_eq_equiv, nat_list_cmp_total, texts_ties, texts_po};
ghost use Rattle.op_base.specs.CopyRooms.{IsCopyRoomForValue};
ghost use Rattle.op_base.specs.Zeros.{HasZerosBehind};
ghost use Rattle.op_base.specs.ValueFields.{text_of, bytes_of, IsKept};
ghost use Rattle.op_base.specs.Name.{is_key, is_value, is_object, is_key_byte, is_value_byte, is_plain_byte, key_fault, value_fault, fault_of_bytes, object_fault, kind_word, kind_of, kind_part, key_part, is_colon, Refuses};

use crate::memory::NoMemory;
use crate::room::CopyRoom;
use std::alloc::{AllocError, Global};
use std::cmp::Ordering;
use std::error::Error;
use std::hash::{Hash, Hasher};
use std::marker::Model;
use std::{fmt, str};

/// A key has at most so many bytes.
pub const MOST_KEY_BYTES: usize = 32;

/// A value has at most so many bytes.
pub const MOST_VALUE_BYTES: usize = 4096;

/// A value of at most so many bytes stands in the value itself, a longer one in an allocation.
pub const VALUE_BYTES_IN_PLACE: usize = 24;

/// The type of an object. Objects of different kinds never meet.
#[derive(Clone, Copy, Debug, PartialEq, Eq, PartialOrd, Ord, Hash)]
pub enum Kind {
    /// A set in which an add wins over a concurrent remove.
    AwSet,
    /// A set in which a remove wins over a concurrent add.
    RwSet,
    /// A flag in which an enable wins over a concurrent disable.
    EwFlag,
    /// A flag in which a disable wins over a concurrent enable.
    DwFlag,
    /// A register that keeps each of several concurrent writes.
    MvReg,
    /// A counter.
    Counter,
    /// A counter that can be cleared.
    RCounter,
    /// A list, into which values are put behind others.
    List,
}

/// Why a text is no name.
#[derive(Clone, Copy, Debug, PartialEq, Eq)]
pub enum NameFault {
    /// There is no byte.
    Empty,
    /// There are more bytes than a name may have: 32 of a key, 4096 of a value.
    TooLong,
    /// The byte at this place, counted from 0, may not stand there. It is the first such byte.
    BadByte { at: usize },
    /// What stands before the first colon is no kind's word.
    NoType,
    /// The bytes aren't UTF-8.
    NotUtf8,
    /// The text is a name, and there is no memory for it.
    NoMemory,
}

impl fmt::Display for NameFault {
    fn fmt<W: fmt::Write>(&self, f: &mut fmt::Formatter<W>) -> fmt::Result {
        match self {
            NameFault::Empty => write!(f, "no byte"),
            NameFault::TooLong => write!(f, "too many bytes"),
            NameFault::BadByte { at } => write!(f, "a byte at place {at} that may not stand there"),
            NameFault::NoType => write!(f, "no kind before the first colon"),
            NameFault::NotUtf8 => write!(f, "no UTF-8"),
            NameFault::NoMemory => write!(f, "out of memory"),
        }
    }
}

impl Error for NameFault {}

impl From<NoMemory> for NameFault {
    ghost use Rattle.std.specs.Prelude.{◌≡◌};
    ghost use Rattle.op_base.specs.declared.name.NameFault.TheVariants as faults;

    ghost from_gives = { λ _ e. e ≡ faults.NoMemory };

    fn from(_error: NoMemory) -> NameFault {
        NameFault::NoMemory
    }
}

impl From<AllocError> for NameFault {
    ghost use Rattle.std.specs.Prelude.{◌≡◌};
    ghost use Rattle.op_base.specs.declared.name.NameFault.TheVariants as faults;

    ghost from_gives = { λ _ e. e ≡ faults.NoMemory };

    fn from(_error: AllocError) -> NameFault {
        NameFault::NoMemory
    }
}

/// A key: 1 to 32 bytes of `a-z`, `0-9`, `_`, `.` and `-`, which stand in the key itself, with zeros behind them, so
/// that keys are compared as four numbers. Contracts see the list of the bytes.
#[derive(Clone, Copy)]
pub struct Key {
    len: u8,
    bytes: [u8; MOST_KEY_BYTES],
}

impl Model for Key {
    ghost use Rattle.std.specs.Prelude.{List, ℕ};

    ghost Value = { List ℕ };

    ghost use Rattle.op_base.specs.KeyFields.{IsStored, text_of, stored, stored-text_of};

    ghost view = { text_of };

    ghost invariant = { IsStored };

    ghost inverse = { stored };

    ghost inverse_ok = { stored-text_of };
}

/// A value: 1 to 4096 bytes of UTF-8 with no byte at or below 0x20 and no 0x7F, so that a terminal prints it
/// without surprises. A short one stands in the value itself. Contracts see the list of its bytes.
#[derive(Drop)]
pub struct Value {
    stored: Stored,
}

/// The bytes of a value.
#[derive(Drop)]
enum Stored {
    /// At most `VALUE_BYTES_IN_PLACE`: a copy is one of numbers.
    Short(Short),
    /// More of them.
    Long(Vec<u8>),
}

/// A short text: so many bytes of an array, the first, with zeros behind them, so that short texts are compared as three
/// numbers.
#[derive(Clone, Copy)]
struct Short {
    len: u8,
    bytes: [u8; VALUE_BYTES_IN_PLACE],
}

/// A text of one byte, which stands where another is written.
const SHORTEST: Short = Short {
    len: 1,
    bytes: [
        33, 0, 0, 0, 0, 0, 0, 0, 0, 0, 0, 0, 0, 0, 0, 0, 0, 0, 0, 0, 0, 0, 0, 0,
    ],
};

impl Model for Value {
    ghost use Rattle.std.specs.Prelude.{List, ℕ};

    ghost Value = { List ℕ };

    ghost use Rattle.op_base.specs.ValueFields.{bytes_of, IsKept};

    ghost view = { λ v. bytes_of v.stored };

    ghost invariant = { λ v. IsKept v.stored };
}

/// The name of an object: its kind and its key. Its text is the kind's word, a colon and the key.
#[derive(Clone, Copy, Debug, PartialEq, Eq, PartialOrd, Ord, Hash)]
pub struct ObjectId {
    /// The type of the object.
    pub kind: Kind,
    /// What tells it from the other objects of its kind.
    pub key: Key,
}

impl Kind {
    /// The word that names the kind in texts.
    pub fn word(self) -> &'static str
        ensures { result.now ≡ kind_word self }
    {
        match self {
            Kind::AwSet => "awset",
            Kind::RwSet => "rwset",
            Kind::EwFlag => "ewflag",
            Kind::DwFlag => "dwflag",
            Kind::MvReg => "mvreg",
            Kind::Counter => "counter",
            Kind::RCounter => "rcounter",
            Kind::List => "list",
        }
    }

    /// The kind whose word this is, or `None` where it is no kind's.
    pub fn read(bytes: &[u8]) -> Option<Kind>
        ensures { result ≡ kind_of bytes.now }
    {
        match bytes {
            b"awset" => Some(Kind::AwSet),
            b"rwset" => Some(Kind::RwSet),
            b"ewflag" => Some(Kind::EwFlag),
            b"dwflag" => Some(Kind::DwFlag),
            b"mvreg" => Some(Kind::MvReg),
            b"counter" => Some(Kind::Counter),
            b"rcounter" => Some(Kind::RCounter),
            b"list" => Some(Kind::List),
            _ => None,
        }
    }
}

/// Each comparison is made, so that none is jumped over: the tests of several bytes are then one.
fn is_key_byte(b: u8) -> bool
    ensures { result ≡ is_key_byte b }
{
    let is_letter = (b >= b'a') & (b <= b'z');
    let is_digit = (b >= b'0') & (b <= b'9');
    is_letter | is_digit | (b == b'_') | (b == b'.') | (b == b'-')
}

fn is_value_byte(b: u8) -> bool
    ensures { result ≡ is_value_byte b }
{
    b > 0x20 && b != 0x7F
}

/// Whether a byte is of ASCII, and one that a value may have.
fn is_plain_byte(b: u8) -> bool
    ensures { result ≡ is_plain_byte b }
{
    (b > 0x20) & (b < 0x7F)
}

/// Whether a key may have each of the bytes. There is no early end, so that several bytes are tested at once.
fn are_key_bytes(bytes: &[u8]) -> bool
    ensures { result ≡ list_all is_key_byte bytes.now }
{
    let mut all = true;
    for b in bytes {
        all &= is_key_byte(*b);
    }
    all
}

fn bad_key_place(bytes: &[u8]) -> Option<usize>
    ensures { result ≡ position (λ b. not (is_key_byte b)) bytes.now }
{
    if are_key_bytes(bytes) {
        return None;
    }
    bytes.iter().position(|b| !is_key_byte(*b))
}

/// Whether a value may have each of the bytes. There is no early end, so that several bytes are tested at once.
fn are_value_bytes(bytes: &[u8]) -> bool
    ensures { result ≡ list_all is_value_byte bytes.now }
{
    let mut all = true;
    for b in bytes {
        all &= is_value_byte(*b);
    }
    all
}

/// Whether all bytes are of ASCII, and such as a value may have. Those of most values are, and then nothing else is to be
/// tested of them.
fn are_plain_bytes(bytes: &[u8]) -> bool
    ensures { result ≡ list_all is_plain_byte bytes.now }
{
    let mut all = true;
    for b in bytes {
        all &= is_plain_byte(*b);
    }
    all
}

fn bad_value_place(bytes: &[u8]) -> Option<usize>
    ensures { result ≡ position (λ b. not (is_value_byte b)) bytes.now }
{
    if are_value_bytes(bytes) {
        return None;
    }
    bytes.iter().position(|b| !is_value_byte(*b))
}

fn is_utf8(bytes: &[u8]) -> bool
    ensures { result ≡ is_utf8 bytes.now }
{
    simdutf8::is_utf8(bytes)
}

/// Why bytes are no key, where they are none.
fn key_fault(bytes: &[u8]) -> Option<NameFault>
    ensures { result ≡ key_fault bytes.now }
{
    if bytes.is_empty() {
        return Some(NameFault::Empty);
    }
    if bytes.len() > MOST_KEY_BYTES {
        return Some(NameFault::TooLong);
    }
    let at = bad_key_place(bytes)?;
    Some(NameFault::BadByte { at })
}

/// Why bytes are no value, where they are none.
fn value_fault(bytes: &[u8]) -> Option<NameFault>
    ensures { result ≡ value_fault bytes.now }
{
    if bytes.is_empty() {
        return Some(NameFault::Empty);
    }
    if bytes.len() > MOST_VALUE_BYTES {
        return Some(NameFault::TooLong);
    }
    if are_plain_bytes(bytes) {
        None
    } else {
        fault_beyond_ascii(bytes)
    }
}

/// Why bytes are no value by what bytes they are, where they aren't.
#[inline(never)]
fn fault_beyond_ascii(bytes: &[u8]) -> Option<NameFault>
    ensures { result ≡ fault_of_bytes bytes.now }
{
    if let Some(at) = bad_value_place(bytes) {
        return Some(NameFault::BadByte { at });
    }
    if is_utf8(bytes) {
        None
    } else {
        Some(NameFault::NotUtf8)
    }
}

fn colon_place(bytes: &[u8]) -> Option<usize>
    ensures { result ≡ position is_colon bytes.now }
{
    bytes.iter().position(|b| *b == b':')
}

/// What stands before the first colon and what stands after it; all and nothing where there is none.
fn parts(bytes: &[u8]) -> (&[u8], &[u8])
    ensures kind { result.0.now ≡ kind_part bytes.now }
    ensures key { result.1.now ≡ key_part bytes.now }
{
    match colon_place(bytes) {
        Some(at) => (&bytes[..at], &bytes[at + 1..]),
        None => (bytes, &[]),
    }
}

/// The number that eight bytes from a place on make, the first of them the highest.
#[inline(always)]
fn number_at(bytes: &[u8], at: usize) -> u64
    requires { at + 8 ≤ length bytes.now }
    ensures { result ≡ from_be_bytes w64 (take 8 (drop at bytes.now)) }
{
    u64::from_be_bytes([
        bytes[at],
        bytes[at + 1],
        bytes[at + 2],
        bytes[at + 3],
        bytes[at + 4],
        bytes[at + 5],
        bytes[at + 6],
        bytes[at + 7],
    ])
}

/// The order of the bytes of two arrays, each as long as so many numbers of eight bytes: that of the first of these in which
/// they differ.
#[inline(always)]
fn order_of(bytes: &[u8], others: &[u8], numbers: usize) -> Ordering
    requires bytes { length bytes.now ≡ 8 * numbers }
    requires others { length others.now ≡ 8 * numbers }
    ensures { result ≡ slice_cmp nat_cmp bytes.now others.now }
{
    for i in 0..numbers {
        let order = number_at(bytes, 8 * i).cmp(&number_at(others, 8 * i));
        if order.is_ne() {
            return order;
        }
    }
    Ordering::Equal
}

impl Key {
    /// Reads a key: all of the bytes. The refusals are `Empty`, `TooLong` (above 32 bytes) and `BadByte` with the
    /// first place of a byte that no key has, in this order. It takes no memory.
    pub fn read(_alloc: Global, bytes: &[u8]) -> Result<Key, NameFault>
        ensures key { IfOk result (λ key. key ≡ bytes.now) }
        ensures valid { OnOk result (IsTrue (is_key bytes.now)) }
        ensures refused { Refuses (key_fault bytes.now) result }
        ensures memory { IfErr result (λ fault. fault ≢ NameFault.NoMemory) }
    {
        match key_fault(bytes) {
            Some(fault) => Err(fault),
            None => Ok(Key::stored(bytes)),
        }
    }

    fn stored(text: &[u8]) -> Key
        requires { IsTrue (is_key text.now) }
        ensures { result ≡ text.now }
    {
        let mut bytes = [0; MOST_KEY_BYTES];
        bytes[..text.len()].copy_from_slice(text);
        Key {
            len: text.len() as u8,
            bytes,
        }
    }

    /// The bytes, 1 to 32 of them.
    pub fn as_slice(&self) -> &[u8]
        ensures bytes { result.now ≡ self.now }
        ensures valid { IsTrue (is_key self.now) }
    {
        &self.bytes[..self.len as usize]
    }

    /// The bytes, with zeros behind them up to 32.
    #[inline(always)]
    pub fn padded(&self) -> &[u8; MOST_KEY_BYTES]
        ensures { result.now ≡ self.now ++ replicate (32 - length self.now) 0 }
    {
        &self.bytes
    }

    /// The bytes, as text.
    pub fn as_str(&self) -> &str
        ensures { result.now ≡ self.now }
    {
        // All of them are ASCII.
        unsafe { str::from_utf8_unchecked(self.as_slice()) }
    }

    /// An equal key. It takes no memory.
    pub fn copy(&self, _alloc: Global) -> Result<Key, NoMemory>
        ensures { result ≡ Ok self.now }
    {
        Ok(*self)
    }
}

impl Value {
    /// Reads a value: all of the bytes. The refusals are `Empty`, `TooLong` (above 4096 bytes), `BadByte` with the
    /// first place of a byte that no value has, and `NotUtf8`, in this order; `NoMemory` comes after them, and only where the value doesn't stand in
    /// place.
    pub fn read(alloc: Global, bytes: &[u8]) -> Result<Value, NameFault>
        ensures value { IfOk result (λ value. value ≡ bytes.now) }
        ensures valid { OnOk result (IsTrue (is_value bytes.now)) }
        ensures refused { Refuses (value_fault bytes.now) result }
        ensures in_place { length bytes.now ≤ VALUE_BYTES_IN_PLACE → IfErr result (λ fault. fault ≢ NameFault.NoMemory) }
    {
        match value_fault(bytes) {
            Some(fault) => Err(fault),
            None => Ok(Value {
                stored: Stored::of(alloc, bytes)?,
            }),
        }
    }

    /// The bytes, 1 to 4096 of them.
    pub fn as_slice(&self) -> &[u8]
        ensures bytes { result.now ≡ self.now }
        ensures valid { IsTrue (is_value self.now) }
    {
        match &self.stored {
            Stored::Short(short) => short.as_slice(),
            Stored::Long(bytes) => bytes.as_slice(),
        }
    }

    /// Whether it stands in place: then a copy takes no memory.
    #[inline(always)]
    pub fn is_in_place(&self) -> bool
        ensures { result ≡ nat_le (length self.now) VALUE_BYTES_IN_PLACE }
    {
        matches!(self.stored, Stored::Short(_))
    }

    /// An equal value of one that stands in place.
    #[inline(always)]
    pub fn copied_in_place(&self) -> Value
        requires { length self.now ≤ VALUE_BYTES_IN_PLACE }
        ensures { result ≡ self.now }
    {
        match &self.stored {
            Stored::Short(short) => Value {
                stored: Stored::Short(*short),
            },
            Stored::Long(_) => unreachable!(),
        }
    }

    /// The bytes of one that stands in place, with zeros behind them. It is `None` exactly where it doesn't.
    #[inline(always)]
    pub fn padded(&self) -> Option<&[u8; VALUE_BYTES_IN_PLACE]>
        ensures bytes { IfSome result (λ bytes. bytes.now ≡ self.now ++ replicate (VALUE_BYTES_IN_PLACE - length self.now) 0) }
        ensures in_place { is_some result ≡ nat_le (length self.now) VALUE_BYTES_IN_PLACE }
    {
        match &self.stored {
            Stored::Short(short) => Some(&short.bytes),
            Stored::Long(_) => None,
        }
    }

    /// The bytes, as text.
    pub fn as_str(&self) -> &str
        ensures { result.now ≡ self.now }
    {
        // `read` asked whether they are UTF-8.
        unsafe { str::from_utf8_unchecked(self.as_slice()) }
    }

    /// An equal value. One that stands in place takes no memory; `NoMemory` leaves nothing behind.
    pub fn copy(&self, alloc: Global) -> Result<Value, NoMemory>
        ensures copy { IfOk result (λ copy. copy ≡ self.now) }
        ensures in_place { length self.now ≤ VALUE_BYTES_IN_PLACE → IsOk result }
    {
        Ok(self.copied(self.room(alloc)?))
    }

    /// Puts an equal value at the end of values that have room for it. One that stands in place takes no memory; `NoMemory`
    /// leaves the values as they were.
    #[inline(always)]
    pub fn push_copy(&self, alloc: Global, values: &mut Vec<Value>) -> Result<(), NoMemory>
        requires room { vec_len values.old < vec_capacity values.old }
        ensures pushed { OnOk result (values.new.items ≡ values.old.items ++ self.now ∷ []) }
        ensures stays { OnErr result (values.new.items ≡ values.old.items) }
        ensures len { OnOk result (vec_len values.new ≡ vec_len values.old + 1) }
        ensures capacity { vec_capacity values.new ≡ vec_capacity values.old }
        ensures in_place { length self.now ≤ VALUE_BYTES_IN_PLACE → IsOk result }
    {
        match &self.stored {
            Stored::Short(short) => {
                // It is written where it stands: a copy that is made and then moved would be waited for.
                values.push_reserved(Value {
                    stored: Stored::Short(SHORTEST),
                });
                let last = values.len() - 1;
                if let Stored::Short(place) = &mut values[last].stored {
                    *place = *short;
                }
            }
            Stored::Long(bytes) => {
                let copy = Vec::from_slice(alloc, bytes.as_slice())?;
                values.push_reserved(Value {
                    stored: Stored::Long(copy),
                });
            }
        }
        Ok(())
    }

    /// Takes what a copy of the value needs memory for: nothing, where it stands in place. `NoMemory` leaves nothing behind.
    pub fn room(&self, alloc: Global) -> Result<CopyRoom, NoMemory>
        ensures room { IfOk result (λ room. IsCopyRoomForValue room self.now) }
        ensures in_place { length self.now ≤ VALUE_BYTES_IN_PLACE → IsOk result }
    {
        match &self.stored {
            Stored::Short(_) => Ok(CopyRoom::none(alloc)),
            Stored::Long(bytes) => Ok(CopyRoom {
                bytes: Vec::from_slice(alloc, bytes.as_slice())?,
            }),
        }
    }

    /// An equal value, for which memory was taken.
    #[inline(always)]
    pub fn copied(&self, room: CopyRoom) -> Value
        requires { IsCopyRoomForValue room self.now }
        ensures { result ≡ self.now }
    {
        match &self.stored {
            Stored::Short(short) => Value {
                stored: Stored::Short(*short),
            },
            Stored::Long(_) => Value {
                stored: Stored::Long(room.bytes),
            },
        }
    }
}

impl Stored {
    /// The bytes of a text. `NoMemory` comes only where they don't stand in place.
    fn of(alloc: Global, text: &[u8]) -> Result<Stored, AllocError>
        ensures bytes { IfOk result (λ stored. bytes_of stored ≡ text.now) }
        ensures kept { IsTrue (is_value text.now) → IfOk result IsKept }
        ensures in_place { length text.now ≤ VALUE_BYTES_IN_PLACE → IsOk result }
    {
        if text.len() <= VALUE_BYTES_IN_PLACE {
            return Ok(Stored::Short(Short::of(text)));
        }
        Ok(Stored::Long(Vec::from_slice(alloc, text)?))
    }
}

impl Short {
    fn of(text: &[u8]) -> Short
        requires { length text.now ≤ VALUE_BYTES_IN_PLACE }
        ensures bytes { text_of result ≡ text.now }
        ensures padded { HasZerosBehind VALUE_BYTES_IN_PLACE result.len result.bytes }
    {
        let mut bytes = [0; VALUE_BYTES_IN_PLACE];
        bytes[..text.len()].copy_from_slice(text);
        Short {
            len: text.len() as u8,
            bytes,
        }
    }

    /// The bytes.
    fn as_slice(&self) -> &[u8]
        requires { self.now.len ≤ VALUE_BYTES_IN_PLACE }
        ensures { result.now ≡ text_of self.now }
    {
        &self.bytes[..self.len as usize]
    }

    /// How a text that a value may have stands to another.
    #[inline(always)]
    fn order_to(&self, other: &Short) -> Ordering
        requires kept { IsKept (Stored.Short self.now) }
        requires other { IsKept (Stored.Short other.now) }
        ensures { result ≡ slice_cmp nat_cmp (text_of self.now) (text_of other.now) }
    {
        order_of(&self.bytes, &other.bytes, VALUE_BYTES_IN_PLACE / 8)
    }
}

impl ObjectId {
    ghost use Rattle.op_base.specs.Object.{same_object};
    ghost use Rattle.op_base.specs.Reading.{object_of};

    /// Whether the other name is of the same object: of one kind, with one key.
    pub fn is_same(&self, other: &ObjectId) -> bool
        ensures { result ≡ same_object self.now other.now }
    {
        self == other
    }

    /// Reads an object's text: a kind's word, a colon and a key. The refusals are `NoType` and then the key's, with
    /// places counted in the key. It takes no memory.
    pub fn read(alloc: Global, bytes: &[u8]) -> Result<ObjectId, NameFault>
        ensures kind { IfOk result (λ object. Some object.kind ≡ kind_of (kind_part bytes.now)) }
        ensures key { IfOk result (λ object. object.key ≡ key_part bytes.now) }
        ensures valid { OnOk result (IsTrue (is_object bytes.now)) }
        ensures object { IfOk result (λ object. object_of bytes.now ≡ Some object) }
        ensures refused { Refuses (object_fault bytes.now) result }
        ensures none { IfErr result (λ fault. fault ≢ NameFault.NoMemory → object_of bytes.now ≡ None) }
        ensures memory { IfErr result (λ fault. fault ≢ NameFault.NoMemory) }
    {
        let (kind, key) = parts(bytes);
        let kind = Kind::read(kind).ok_or(NameFault::NoType)?;
        let key = Key::read(alloc, key)?;
        Ok(ObjectId { kind, key })
    }

    /// An equal name. It takes no memory.
    pub fn copy(&self, _alloc: Global) -> Result<ObjectId, NoMemory>
        ensures { result ≡ Ok self.now }
    {
        Ok(*self)
    }
}

impl fmt::Debug for Key {
    fn fmt<W: fmt::Write>(&self, f: &mut fmt::Formatter<W>) -> fmt::Result {
        f.debug_tuple("Key").field(&self.as_slice()).finish()
    }
}

impl fmt::Debug for Value {
    fn fmt<W: fmt::Write>(&self, f: &mut fmt::Formatter<W>) -> fmt::Result {
        f.debug_tuple("Value").field(&self.as_slice()).finish()
    }
}

impl Clone for Value {
    ghost is_clone = { λ value copy. copy ≡ value };

    fn clone(&self) -> Result<Value, AllocError> {
        match &self.stored {
            Stored::Short(short) => Ok(Value {
                stored: Stored::Short(*short),
            }),
            Stored::Long(bytes) => Ok(Value {
                stored: Stored::Long(Vec::from_slice(*bytes.allocator(), bytes.as_slice())?),
            }),
        }
    }
}

impl PartialEq for Key {
    ghost eq = { pointwise nat_eq };

    ghost laws = { partial_equiv_from_equiv nat_list_eq_equiv };

    fn eq(&self, other: &Key) -> bool {
        order_of(&self.bytes, &other.bytes, MOST_KEY_BYTES / 8).is_eq()
    }
}

impl Eq for Key {
    ghost laws = { nat_list_eq_equiv };
}

impl PartialOrd for Key {
    ghost partial_cmp = { as_partial_cmp (slice_cmp nat_cmp) };

    ghost laws = { texts_po };

    fn partial_cmp(&self, other: &Key) -> Option<Ordering> {
        Some(self.cmp(other))
    }
}

impl Ord for Key {
    ghost cmp = { slice_cmp nat_cmp };

    ghost total = { nat_list_cmp_total };

    ghost matches_partial_cmp = { λ x y. refl };

    ghost matches_eq = { texts_ties };

    fn cmp(&self, other: &Key) -> Ordering {
        order_of(&self.bytes, &other.bytes, MOST_KEY_BYTES / 8)
    }
}

impl Hash for Key {
    ghost hash_input = { fed.str };

    ghost respects_eq = { Prim.search (hashing, rules) };

    fn hash<H: Hasher>(&self, state: &mut H) {
        self.as_str().hash(state);
    }
}

impl PartialEq for Value {
    ghost eq = { pointwise nat_eq };

    ghost laws = { partial_equiv_from_equiv nat_list_eq_equiv };

    fn eq(&self, other: &Value) -> bool {
        match (&self.stored, &other.stored) {
            (Stored::Short(short), Stored::Short(other)) => short.order_to(other).is_eq(),
            _ => self.as_str() == other.as_str(),
        }
    }
}

impl Eq for Value {
    ghost laws = { nat_list_eq_equiv };
}

impl PartialOrd for Value {
    ghost partial_cmp = { as_partial_cmp (slice_cmp nat_cmp) };

    ghost laws = { texts_po };

    fn partial_cmp(&self, other: &Value) -> Option<Ordering> {
        Some(self.cmp(other))
    }
}

impl Ord for Value {
    ghost cmp = { slice_cmp nat_cmp };

    ghost total = { nat_list_cmp_total };

    ghost matches_partial_cmp = { λ x y. refl };

    ghost matches_eq = { texts_ties };

    fn cmp(&self, other: &Value) -> Ordering {
        match (&self.stored, &other.stored) {
            (Stored::Short(short), Stored::Short(other)) => short.order_to(other),
            _ => self.as_str().cmp(other.as_str()),
        }
    }
}
