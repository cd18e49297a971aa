//! A list of values, which contracts see as the list of what it holds, in order.
//!
//! It is std's `Vec` with its capacity out of sight: made from one and given back without memory.

ghost use Rattle.std.specs.Prelude.{◌≡◌, ◌++◌, ◌∷◌, [], List, length, OnOk, OnErr, IfOk, IsTrue, ◌↔◌, take};
ghost use Rattle.std.specs.Cmp.Lexicographic.{pointwise, lists_per, lists_equiv};

use crate::memory::NoMemory;
use crate::message::Message;
use crate::name::Value;
use crate::outcome::Step;
use crate::tag::{ElementId, MessageId};
use std::alloc::Global;
use std::marker::Model;

/// A list of `T`, in order.
#[derive(Debug, Drop)]
pub struct ListOf<T> {
    vec: Vec<T>,
}

impl<T> Model for ListOf<T> {
    ghost Value = { List T };

    ghost view = { λ l. l.vec.items };
}

impl<T> ListOf<T> {
    /// The empty list.
    pub fn new(alloc: Global) -> ListOf<T>
        ensures { result ≡ [] }
    {
        ListOf {
            vec: Vec::new(alloc),
        }
    }

    /// The empty list, with room for so many elements. The room saves time, and contracts don't see it. `NoMemory` leaves
    /// nothing behind.
    pub fn with_capacity(alloc: Global, capacity: usize) -> Result<ListOf<T>, NoMemory>
        ensures { IfOk result (λ list. list ≡ []) }
    {
        Ok(ListOf {
            vec: Vec::with_capacity(alloc, capacity)?,
        })
    }

    /// The list of a vector's elements.
    pub fn from_vec(vec: Vec<T>) -> ListOf<T>
        ensures { result ≡ vec.items }
    {
        ListOf { vec }
    }

    /// The vector of the list's elements.
    pub fn into_vec(self) -> Vec<T>
        ensures { result.items ≡ self }
    {
        self.vec
    }

    /// The elements, in order.
    pub fn as_slice(&self) -> &[T]
        ensures { result.now ≡ self.now }
    {
        self.vec.as_slice()
    }

    /// How many elements there are.
    pub fn len(&self) -> usize
        ensures { result ≡ length self.now }
    {
        self.vec.len()
    }

    /// Whether there is none.
    pub fn is_empty(&self) -> bool
        ensures { IsTrue result ↔ (self.now ≡ []) }
    {
        self.vec.is_empty()
    }

    /// Keeps the first `len` elements, or all where there are no more.
    pub fn truncate(&mut self, len: usize)
    where
        T: Drop,
        ensures { self.new ≡ take len self.old }
    {
        self.vec.truncate(len);
    }

    /// Puts an element at the end. On `NoMemory` the element is dropped.
    pub fn push(&mut self, element: T) -> Result<(), NoMemory>
    where
        T: Drop,
        ensures ok { OnOk result (self.new ≡ self.old ++ element ∷ []) }
        ensures err { OnErr result (self.new ≡ self.old) }
    {
        self.vec.push(element)?;
        Ok(())
    }

    /// Puts copies of the elements at the end. `NoMemory` leaves the list as it was.
    pub fn extend_from_slice(&mut self, elements: &[T]) -> Result<(), NoMemory>
    where
        T: Copy,
        ensures ok { OnOk result (self.new ≡ self.old ++ elements.now) }
        ensures err { OnErr result (self.new ≡ self.old) }
    {
        self.vec.extend_from_slice(elements)?;
        Ok(())
    }
}

/// Bytes that are printed.
pub type Text = ListOf<u8>;

/// Bytes that are read or sent.
pub type ByteList = ListOf<u8>;

/// Values, as an answer has them.
pub type ValueList = ListOf<Value>;

/// Messages, oldest first.
pub type MessageList = ListOf<Message>;

/// What became of early messages, in order.
pub type StepList = ListOf<Step>;

/// Ids of messages.
pub type IdList = ListOf<MessageId>;

/// Ids of elements of a list, in its order.
pub type ElementIdList = ListOf<ElementId>;

impl<T: PartialEq> PartialEq for ListOf<T> {
    ghost eq = { pointwise T.eq };

    ghost laws = { lists_per T.laws };

    fn eq(&self, other: &ListOf<T>) -> bool {
        self.vec == other.vec
    }
}

impl<T: Eq> Eq for ListOf<T> {
    ghost laws = { lists_equiv T.Eq.laws };
}
