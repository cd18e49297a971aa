//! Laws over the definitions of this crate. Each is the contract of a function that does nothing.

ghost use Rattle.op_base.specs.Laws.{KeysAreExact, ValuesAreExact, ObjectsAreExact, ObjectsHaveTheirText};
ghost use Rattle.op_base.specs.Laws.{ItemsAreInOneOrder, ItemsAreTiedToThemselvesAlone};

/// What is accepted as a name is exactly what the definition of a name says: nothing that is one has a fault, and
/// nothing else is without. A kind's word, a colon and a key are read as the object of that kind with that key.
pub fn names_are_exactly_what_is_read()
    ensures keys { KeysAreExact }
    ensures values { ValuesAreExact }
    ensures objects { ObjectsAreExact }
    ensures texts { ObjectsHaveTheirText }
{}

/// The order of items is total: any two of them stand in one order, whichever way they are compared, and only an item
/// itself is tied to it.
pub fn items_are_in_one_order()
    ensures total { ItemsAreInOneOrder }
    ensures tied { ItemsAreTiedToThemselvesAlone }
{}
