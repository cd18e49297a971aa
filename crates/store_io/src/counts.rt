//! A count of faults that no machine's number bounds, since contracts alone read it.
//!
//! A sink whose room is used up fails at every write, for as long as it is written to. With a
//! number of a fixed size it would have no answer left once its faults reach the largest: it can
//! take no byte, and a failure has to raise the count. So the count stands in a ghost field. The
//! two functions that make one are proved by hand, and no other code can make one.

ghost use Rattle.std.specs.Prelude.{◌≡◌, ◌+◌, ℕ};
ghost use Rattle.std.specs.Borrow.{ftrue};

use std::marker::{Model, Send, Sync};

/// How often something has failed. It takes no bytes. `seal` keeps other code from making one but by the two functions.
#[derive(Drop)]
pub struct FaultCount {
    seal: (),
    pub ghost faults: { ℕ },
}

impl Model for FaultCount {
    ghost also_owns = { λ _. ftrue };
}

// SAFETY: it owns nothing. A struct with `also_owns` isn't `Send` by itself.
unsafe impl Send for FaultCount {}

// SAFETY: it owns nothing that two threads could share.
unsafe impl Sync for FaultCount {}

impl FaultCount {
    /// No fault yet.
    pub fn none() -> FaultCount
        ensures { result.faults ≡ 0 }
    {
        FaultCount { seal: () }
    }

    /// The count after one fault more.
    pub fn one_more(&self) -> FaultCount
        ensures { result.faults ≡ self.now.faults + 1 }
    {
        FaultCount { seal: () }
    }
}
