//! Items with their ranks: numbers that tell most items apart without a look at their names.
//!
//! That the first bytes of a name are kept as a number beside it, so that most steps of a search compare two numbers, is a
//! textbook rule. A text that is so short that the rank has all of it, and a zero behind it, is told by its rank alone: no
//! other item has this rank.

ghost use Rattle.std.specs.Prelude.{◌≡◌, ℕ, List, ◌/◌, ◌%◌, ◌^◌, ◌≤◌, ◌<◌, nat_lt, IfOk, IsTrue, option_copied, slice_index, length, take, drop, ◌+◌, ◌++◌, ◌∷◌, []};
ghost use Rattle.std.specs.Option.{ForSome};
ghost use Rattle.std.specs.Ordering.{nat_cmp};
ghost use Rattle.op_base.specs.Name.{is_key, is_value};
ghost use Rattle.op_base.specs.Object.{kind_place};
ghost use Rattle.op_base.specs.Order.{item_cmp};
ghost use Rattle.byteorder.specs.Endian.{big_number};
ghost use Rattle.stable_state.specs.Ranks.{item_text, rank_of, rank_cmp, IsNamed};

use byteorder::{BigEndian, ByteOrder};
use op_base::{Cell, Item, Kind, MOST_KEY_BYTES, NoMemory, ObjectId, Value, item_order};
use std::alloc::Global;
use std::cmp::Ordering;
use std::marker::Model;

/// A rank has so many bytes of an item's text.
const RANK_BYTES: usize = 32;

/// A text that is put together has room for the place of a kind, the longest key, a byte 0, and as much of a value as a rank
/// can have.
const TEXT_BYTES: usize = MOST_KEY_BYTES + RANK_BYTES + 2;

/// The first 32 bytes of an item's text, as two numbers of 16 bytes each: the place of its kind, its key, a byte 0, and its
/// value. Items stand in the order of their ranks, as far as these differ. Behind a text that is shorter stand zeros. Neither
/// a key nor a value has a byte 0, so two items of one rank are one, where the text of either is shorter.
#[derive(Clone, Copy, Drop)]
pub struct Rank {
    first: u128,
    second: u128,
}

impl Rank {
    /// A number that differs for most ranks that differ. Nothing is told of it.
    #[inline(always)]
    pub fn mix(self) -> u64 {
        let first = upper(self.first) ^ lower(self.first).wrapping_mul(MIX);
        let second = upper(self.second) ^ lower(self.second).wrapping_mul(MIX);
        (first.wrapping_mul(MIX) ^ second).wrapping_mul(MIX)
    }
}

/// An odd number whose bits are spread evenly: the golden ratio's, as in Fibonacci hashing (Knuth).
const MIX: u64 = 0x9E37_79B9_7F4A_7C15;

/// An item with its rank. Contracts see the item.
#[derive(Drop)]
pub struct Ranked {
    rank: Rank,
    item: Item,
}

impl Model for Ranked {
    ghost use Rattle.op_base.specs.declared.outcome.Item.{Item as AnItem};

    ghost Value = { AnItem };

    ghost use Rattle.stable_state.specs.RankFields.{IsRanked};

    ghost view = { λ ranked. ranked.item };

    ghost invariant = { IsRanked };
}

/// An object and a value that are looked for among items, with the rank of their item.
#[derive(Clone, Copy)]
pub struct Sought<'a> {
    object: &'a ObjectId,
    value: Option<&'a Value>,
    rank: Rank,
    ghost ranked: { rank ≡ rank_of object.now (option_copied value) },
    ghost named: { IsNamed object.now (option_copied value) },
}

impl<'a> Sought<'a> {
    /// The item of an object and a value.
    pub fn new(object: &'a ObjectId, value: Option<&'a Value>) -> Sought<'a>
        ensures object { result.object.now ≡ object.now }
        ensures value { option_copied result.value ≡ option_copied value.entry }
    {
        Sought {
            object,
            value,
            rank: rank_of(object, value),
        }
    }

    /// The rank of the item.
    pub fn rank(&self) -> Rank
        ensures rank { result ≡ rank_of self.now.object.now (option_copied self.now.value) }
        ensures named { IsNamed self.now.object.now (option_copied self.now.value) }
    {
        self.rank
    }

    /// Whether the rank has the item's whole text, and a zero behind it: then it tells all.
    fn is_short(&self) -> bool
        ensures { result ≡ nat_lt (length (item_text self.now.object.now (option_copied self.now.value))) 32 }
    {
        let key_len = self.object.key.as_slice().len();
        let value_len = match self.value {
            Some(value) => value.as_slice().len(),
            None => 0,
        };
        key_len + value_len + 2 < RANK_BYTES
    }
}

impl Ranked {
    /// An item, with its rank.
    pub fn new(rank: Rank, item: Item) -> Ranked
        requires rank { rank ≡ rank_of item.object item.value }
        requires named { IsNamed item.object item.value }
        ensures { result ≡ item }
    {
        Ranked { rank, item }
    }

    /// Its rank.
    pub fn rank(&self) -> Rank {
        self.rank
    }

    /// The item.
    pub fn item(&self) -> &Item
        ensures { result.now ≡ self.now }
    {
        &self.item
    }

    /// How the item stands to what is looked for.
    #[inline(always)]
    pub fn order_to(&self, sought: &Sought<'_>) -> Ordering
        ensures { result ≡ item_cmp self.now.object self.now.value sought.now.object.now (option_copied sought.now.value) }
    {
        match rank_order(self.rank, sought.rank) {
            Ordering::Equal if sought.is_short() => Ordering::Equal,
            Ordering::Equal => self.name_order(sought),
            unequal => unequal,
        }
    }

    /// The same by whole names, which few steps of a search need.
    #[inline(never)]
    fn name_order(&self, sought: &Sought<'_>) -> Ordering
        ensures { result ≡ item_cmp self.now.object self.now.value sought.now.object.now (option_copied sought.now.value) }
    {
        item_order(
            &self.item.object,
            self.item.value.as_ref(),
            sought.object,
            sought.value,
        )
    }

    /// Gives the item another cell.
    pub fn set_cell(&mut self, cell: Cell)
        ensures { self.new ≡ record self.old { cell = cell } }
    {
        self.item.cell = cell;
    }

    /// An equal item. `NoMemory` leaves nothing behind.
    pub fn copy(&self, alloc: Global) -> Result<Ranked, NoMemory>
        ensures { IfOk result (λ copy. copy ≡ self.now) }
    {
        let value = match &self.item.value {
            Some(value) => Some(value.copy(alloc)?),
            None => None,
        };
        let item = Item {
            object: self.item.object,
            value,
            cell: self.item.cell,
        };
        Ok(Ranked {
            rank: self.rank,
            item,
        })
    }
}

/// How a rank stands to another.
#[inline(always)]
fn rank_order(rank: Rank, other: Rank) -> Ordering
    ensures { result ≡ rank_cmp rank other }
{
    match number_order(rank.first, other.first) {
        Ordering::Equal => number_order(rank.second, other.second),
        unequal => unequal,
    }
}

/// How a number stands to another, by the halves that a machine compares.
#[inline(always)]
fn number_order(number: u128, other: u128) -> Ordering
    ensures { result ≡ nat_cmp number other }
{
    match upper(number).cmp(&upper(other)) {
        Ordering::Equal => lower(number).cmp(&lower(other)),
        unequal => unequal,
    }
}

/// The upper half of a number.
#[inline(always)]
fn upper(number: u128) -> u64
    ensures { result ≡ number / 2 ^ 64 }
{
    (number >> 64) as u64
}

/// The lower half of a number.
#[inline(always)]
fn lower(number: u128) -> u64
    ensures { result ≡ number % 2 ^ 64 }
{
    (number % (1 << 64)) as u64
}

/// The rank of the item of an object and a value.
fn rank_of(object: &ObjectId, value: Option<&Value>) -> Rank
    ensures rank { result ≡ rank_of object.now (option_copied value.entry) }
    ensures named { IsNamed object.now (option_copied value.entry) }
{
    rank_in(&front_of(object, value))
}

/// The rank of the item whose text begins with these bytes.
fn rank_in(text: &[u8]) -> Rank
    requires { 32 ≤ length text.now }
    ensures first { result.first ≡ big_number 16 text.now }
    ensures second { result.second ≡ big_number 16 (drop 16 text.now) }
    ensures bytes { (i : ℕ) → slice_index text.now i < 256 }
{
    Rank {
        first: BigEndian::read_u128(text),
        second: BigEndian::read_u128(&text[RANK_BYTES / 2..]),
    }
}

/// The first bytes of the text of an item, 32 or more of them, and zeros behind a text that is shorter.
fn front_of(object: &ObjectId, value: Option<&Value>) -> [u8; TEXT_BYTES]
    ensures front { (i : ℕ) → i < 32 → slice_index result i ≡ slice_index (item_text object.now (option_copied value.entry)) i }
    ensures key { IsTrue (is_key object.now.key) }
    ensures value { ForSome (option_copied value.entry) (λ v. IsTrue (is_value v)) }
{
    let key = object.key.as_slice();
    let mut text = zeros();
    text[0] = place_of_kind(object.kind);
    text[1..1 + MOST_KEY_BYTES].copy_from_slice(object.key.padded());
    if let Some(value) = value {
        write_value(&mut text, key.len() + 2, value);
    }
    text
}

/// Writes a value into a text from a place on behind which zeros stand, as much of it as a rank can have. One that stands in place is
/// written with the zeros behind it: then as many bytes are moved whatever it is.
#[inline(always)]
fn write_value(text: &mut [u8; TEXT_BYTES], place: usize, value: &Value)
    requires { place ≤ 34 }
    ensures written { (front : List ℕ) → length front ≡ place → ((i : ℕ) → slice_index text.old i ≡ slice_index front i)
        → (i : ℕ) → i < 32 → slice_index text.new i ≡ slice_index (front ++ value.now) i }
    ensures value { IsTrue (is_value value.now) }
{
    let bytes = value.as_slice();
    match value.padded() {
        Some(padded) => write_at(text, place, padded),
        None => {
            let len = bytes.len().min(RANK_BYTES);
            write_at(text, place, &bytes[..len]);
        }
    }
}

/// A text of zeros.
fn zeros() -> [u8; TEXT_BYTES]
    ensures each { (i : ℕ) → slice_index result i ≡ 0 }
    ensures len { length result ≡ 66 }
{
    [0; TEXT_BYTES]
}

/// The place of a kind in their order.
fn place_of_kind(kind: Kind) -> u8
    ensures { result ≡ kind_place kind }
{
    kind as u8
}

/// Writes bytes into a text from a place on.
fn write_at(text: &mut [u8; TEXT_BYTES], place: usize, bytes: &[u8])
    requires { place + length bytes.now ≤ 66 }
    ensures { text.new ≡ take place text.old ++ bytes.now ++ drop (place + length bytes.now) text.old }
{
    text[place..place + bytes.len()].copy_from_slice(bytes);
}
