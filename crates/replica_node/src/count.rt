//! A count of askings for room that no machine's number bounds, since contracts alone read it.
//!
//! A recorder can be asked for room for as long as it is used, and each asking has to raise the count. So the count stands in
//! a ghost field. The two functions that make one are proved by hand, and no other code can make one.

ghost use Rattle.std.specs.Prelude.{◌≡◌, ◌+◌, ℕ};
ghost use Rattle.std.specs.Borrow.{ftrue};

use std::fmt;
use std::marker::{Model, Send, Sync};

/// How often room was asked for. It takes no bytes. `seal` keeps other code from making one but by the two functions.
#[derive(Drop)]
pub struct AskCount {
    seal: (),
    pub ghost asked: { ℕ },
}

impl Model for AskCount {
    ghost also_owns = { λ _. ftrue };
}

// SAFETY: it owns nothing. A struct with `also_owns` isn't `Send` by itself.
unsafe impl Send for AskCount {}

// SAFETY: it owns nothing that two threads could share.
unsafe impl Sync for AskCount {}

impl AskCount {
    /// Room was not asked for yet.
    pub fn none() -> AskCount
        ensures { result.asked ≡ 0 }
    {
        AskCount { seal: () }
    }

    /// The count after one asking more.
    pub fn one_more(&self) -> AskCount
        ensures { result.asked ≡ self.now.asked + 1 }
    {
        AskCount { seal: () }
    }
}

impl fmt::Debug for AskCount {
    fn fmt<W: fmt::Write>(&self, f: &mut fmt::Formatter<W>) -> fmt::Result {
        f.write_str("AskCount")
    }
}
