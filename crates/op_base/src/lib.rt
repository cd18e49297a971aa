//! Names, operations, timestamps and the small lists that every other crate speaks of.
#![tactic(auto)]

mod laws;
mod list;
mod memory;
mod message;
mod name;
mod operation;
mod order;
mod outcome;
mod room;
mod tag;
mod validity;
mod verb;

pub use laws::{items_are_in_one_order, names_are_exactly_what_is_read};
pub use list::{ByteList, ElementIdList, IdList, ListOf, MessageList, StepList, Text, ValueList};
pub use memory::NoMemory;
pub use message::{Entry, Message};
pub use name::{
    Key, Kind, MOST_KEY_BYTES, MOST_VALUE_BYTES, NameFault, ObjectId, VALUE_BYTES_IN_PLACE, Value,
};
pub use operation::{Act, Op, Update};
pub use order::item_order;
pub use outcome::{Answer, Cell, Crook, Item, Step};
pub use room::CopyRoom;
pub use tag::{ElementId, MOST_MEMBERS, MessageId, Tag};
pub use validity::{operations_are_valid, updates_are_valid};
pub use verb::{Argument, Verb, operation_of};
