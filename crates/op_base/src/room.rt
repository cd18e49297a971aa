//! Memory for a copy, taken before the copy is made.

ghost use Rattle.std.specs.Prelude.{◌≡◌, []};

use std::alloc::Global;

/// What a copy of an operation needs memory for, taken ahead: the bytes of its value, where that doesn't stand in place. So all
/// memory can be taken before anything changes, and the copy be made where it will stand.
#[derive(Drop)]
pub struct CopyRoom {
    /// A copy of the value's bytes, or none.
    pub(crate) bytes: Vec<u8>,
}

impl CopyRoom {
    /// Room for what takes no memory.
    pub(crate) fn none(alloc: Global) -> CopyRoom
        ensures { result.bytes.items ≡ [] }
    {
        CopyRoom {
            bytes: Vec::new(alloc),
        }
    }
}
