//! Operations: what is sent, as itself.
//!
//! That an operation is sent as itself, computed from no state, is the idea of Baquero, Almeida and Shoker
//! (arXiv 1710.04469). Which acts a kind has is said by the table of operations.

ghost use Rattle.std.specs.Prelude.{◌≡◌, IsTrue, Some, is_ok, IfOk, IfErr, IsOk, option_copied};
ghost use Rattle.op_base.specs.Operation.{verb_of, names_elements, act_code, has_act, is_place};

use crate::memory::NoMemory;
use crate::name::{Kind, ObjectId, Value};
use crate::room::CopyRoom;
use crate::tag::ElementId;
use crate::verb::Verb;
use std::alloc::Global;

/// What is done to an object.
#[derive(Debug, PartialEq, Eq, Drop)]
pub enum Act {
    /// Puts a value into a set.
    Add(Value),
    /// Takes a value out of a set.
    Rmv(Value),
    /// Undoes what happened before it.
    Clear,
    /// Sets a flag.
    Enable,
    /// Unsets a flag.
    Disable,
    /// Writes a register.
    Write(Value),
    /// Adds an amount to a counter.
    Inc(u32),
    /// Takes an amount from a counter.
    Dec(u32),
    /// Puts a value into a list: behind an element, or at the head.
    Ins(Value, Option<ElementId>),
    /// Takes an element out of a list.
    Del(ElementId),
}

/// An object and an act of its kind.
#[derive(Debug, PartialEq, Eq, Drop)]
pub struct Update {
    /// The object that is changed.
    pub object: ObjectId,
    /// What is done to it.
    pub act: Act,
    /// The act is one of the object's kind.
    pub ghost of_kind: { IsTrue (has_act object.kind act) },
}

/// What a message carries.
#[derive(Debug, PartialEq, Eq, Drop)]
pub enum Op {
    /// Nothing but the message's timestamp.
    NoOp,
    /// An object's update.
    Update(Update),
}

/// Whether a value can be put there: at the head, or behind an element.
fn is_place(place: Option<ElementId>) -> bool
    ensures { result ≡ is_place place }
{
    match place {
        None => true,
        Some(id) => id.is_element(),
    }
}

/// Whether what an act names, if it names one, can be an element of a list.
fn names_elements(act: &Act) -> bool
    ensures { result ≡ names_elements act.now }
{
    match act {
        Act::Ins(_, place) => is_place(*place),
        Act::Del(id) => id.is_element(),
        _ => true,
    }
}

/// The code of an act at a kind, 1 to 22. `None` exactly where the kind has no such act, or the act names what can't be an
/// element.
fn act_code(kind: Kind, act: &Act) -> Option<u8>
    ensures { result ≡ act_code kind act.now }
{
    let code = act.verb().code(kind)?;
    if names_elements(act) {
        Some(code)
    } else {
        None
    }
}

impl Act {
    ghost use Rattle.op_base.specs.InPlace.{IsActInPlace, value_in};
    ghost use Rattle.op_base.specs.CopyRooms.{IsCopyRoomForAct};

    /// What it does, without its argument.
    pub fn verb(&self) -> Verb
        ensures { result ≡ verb_of self.now }
    {
        match self {
            Act::Add(_) => Verb::Add,
            Act::Rmv(_) => Verb::Rmv,
            Act::Clear => Verb::Clear,
            Act::Enable => Verb::Enable,
            Act::Disable => Verb::Disable,
            Act::Write(_) => Verb::Write,
            Act::Inc(_) => Verb::Inc,
            Act::Dec(_) => Verb::Dec,
            Act::Ins(_, _) => Verb::Ins,
            Act::Del(_) => Verb::Del,
        }
    }

    /// The value that it carries, where it carries one.
    fn value(&self) -> Option<&Value>
        ensures { option_copied result ≡ value_in self.now }
    {
        match self {
            Act::Add(value) | Act::Rmv(value) | Act::Write(value) | Act::Ins(value, _) => {
                Some(value)
            }
            _ => None,
        }
    }

    /// Takes what a copy of the act needs memory for. `NoMemory` leaves nothing behind.
    fn room(&self, alloc: Global) -> Result<CopyRoom, NoMemory>
        ensures room { IfOk result (λ room. IsCopyRoomForAct room self.now) }
        ensures in_place { IsActInPlace self.now → IsOk result }
    {
        match self.value() {
            Some(value) => value.room(alloc),
            None => Ok(CopyRoom::none(alloc)),
        }
    }

    /// An equal act, for which memory was taken.
    fn copied(&self, room: CopyRoom) -> Act
        requires { IsCopyRoomForAct room self.now }
        ensures { result ≡ self.now }
    {
        match self {
            Act::Add(value) => Act::Add(value.copied(room)),
            Act::Rmv(value) => Act::Rmv(value.copied(room)),
            Act::Clear => Act::Clear,
            Act::Enable => Act::Enable,
            Act::Disable => Act::Disable,
            Act::Write(value) => Act::Write(value.copied(room)),
            Act::Inc(amount) => Act::Inc(*amount),
            Act::Dec(amount) => Act::Dec(*amount),
            Act::Ins(value, place) => Act::Ins(value.copied(room), *place),
            Act::Del(id) => Act::Del(*id),
        }
    }

    /// An equal act. One whose value, if it has one, stands in place takes no memory; `NoMemory` leaves nothing behind.
    pub fn copy(&self, alloc: Global) -> Result<Act, NoMemory>
        ensures copy { IfOk result (λ copy. copy ≡ self.now) }
        ensures in_place { IsActInPlace self.now → IsOk result }
    {
        Ok(self.copied(self.room(alloc)?))
    }
}

impl Update {
    ghost use Rattle.op_base.specs.InPlace.{IsActInPlace};
    ghost use Rattle.op_base.specs.CopyRooms.{IsCopyRoomForAct};
    ghost use Rattle.op_base.specs.Reading.{update_of};

    /// An update of an object. The pair comes back exactly where the object's kind has no such act.
    pub fn new(object: ObjectId, act: Act) -> Result<Update, (ObjectId, Act)>
        ensures exact { is_ok result ≡ has_act object.kind act }
        ensures object { IfOk result (λ update. update.object ≡ object) }
        ensures act { IfOk result (λ update. update.act ≡ act) }
        ensures update { IfOk result (λ update. update_of object act ≡ Some update) }
        ensures none { IfErr result (λ pair. update_of object act ≡ None) }
        ensures returned { IfErr result (λ pair. pair ≡ (object, act)) }
    {
        if act_code(object.kind, &act).is_some() {
            Ok(Update { object, act })
        } else {
            Err((object, act))
        }
    }

    /// The object that is changed.
    pub fn object(&self) -> &ObjectId
        ensures { result.now ≡ self.now.object }
    {
        &self.object
    }

    /// What is done to it.
    pub fn act(&self) -> &Act
        ensures { result.now ≡ self.now.act }
    {
        &self.act
    }

    /// An equal update. One whose value, if it has one, stands in place takes no memory; `NoMemory` leaves nothing behind.
    pub fn copy(&self, alloc: Global) -> Result<Update, NoMemory>
        ensures copy { IfOk result (λ copy. copy ≡ self.now) }
        ensures in_place { IsActInPlace self.now.act → IsOk result }
    {
        Ok(self.copied(self.room(alloc)?))
    }

    /// Takes what a copy of the update needs memory for. `NoMemory` leaves nothing behind.
    pub fn room(&self, alloc: Global) -> Result<CopyRoom, NoMemory>
        ensures room { IfOk result (λ room. IsCopyRoomForAct room self.now.act) }
        ensures in_place { IsActInPlace self.now.act → IsOk result }
    {
        self.act.room(alloc)
    }

    /// An equal update, for which memory was taken.
    pub fn copied(&self, room: CopyRoom) -> Update
        requires { IsCopyRoomForAct room self.now.act }
        ensures { result ≡ self.now }
    {
        Update {
            object: self.object,
            act: self.act.copied(room),
        }
    }
}

impl Op {
    ghost use Rattle.op_base.specs.Code.{op_code};
    ghost use Rattle.op_base.specs.InPlace.{IsInPlace};
    ghost use Rattle.op_base.specs.CopyRooms.{IsCopyRoomFor};

    /// The code of the operation, 0 to 22.
    pub fn code(&self) -> u8
        ensures { result ≡ op_code self.now }
    {
        match self {
            Op::NoOp => 0,
            Op::Update(update) => act_code(update.object.kind, &update.act).unwrap_or(0),
        }
    }

    /// An equal operation. One whose value, if it has one, stands in place takes no memory; `NoMemory` leaves nothing behind.
    pub fn copy(&self, alloc: Global) -> Result<Op, NoMemory>
        ensures copy { IfOk result (λ copy. copy ≡ self.now) }
        ensures in_place { IsInPlace self.now → IsOk result }
    {
        Ok(self.copied(self.room(alloc)?))
    }

    /// Takes what a copy of the operation needs memory for: nothing, where its value, if it has one, stands in place. `NoMemory`
    /// leaves nothing behind.
    pub fn room(&self, alloc: Global) -> Result<CopyRoom, NoMemory>
        ensures room { IfOk result (λ room. IsCopyRoomFor room self.now) }
        ensures in_place { IsInPlace self.now → IsOk result }
    {
        match self {
            Op::NoOp => Ok(CopyRoom::none(alloc)),
            Op::Update(update) => update.room(alloc),
        }
    }

    /// An equal operation, for which memory was taken.
    pub fn copied(&self, room: CopyRoom) -> Op
        requires { IsCopyRoomFor room self.now }
        ensures { result ≡ self.now }
    {
        match self {
            Op::NoOp => Op::NoOp,
            Op::Update(update) => Op::Update(update.copied(room)),
        }
    }
}
