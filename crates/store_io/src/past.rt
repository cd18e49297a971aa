//! What a keeper in memory held before. Contracts alone read it, so it stands in a ghost field and takes no memory. The two
//! functions that make one are proved by hand, and no other code can make one.

ghost use Rattle.std.specs.Prelude.{◌≡◌, ◌++◌, ℕ, List, [], ◌∷◌};
ghost use Rattle.std.specs.Borrow.{ftrue};
ghost use Rattle.std.specs.Coded.{coded_list, coded×, coded_ℕ};

use std::marker::Model;

/// Stages: bytes that were held, and how many of them were synced. It takes no bytes. `seal` keeps other code from making one
/// but by the two functions.
#[derive(Drop)]
pub struct Past {
    seal: (),
    pub ghost stages: { List (List ℕ × ℕ) } by { coded_list (coded× (coded_list coded_ℕ) coded_ℕ) },
}

impl Model for Past {
    ghost also_owns = { λ _. ftrue };
}

/// Bytes, how many of them are synced, and the stages before.
#[derive(Drop)]
pub struct Contents {
    pub past: Past,
    pub held: Vec<u8>,
    pub synced: usize,
}

impl Past {
    /// No stage yet.
    pub fn none() -> Past
        ensures { result.stages ≡ [] }
    {
        Past { seal: () }
    }

    /// The stages with what is held now.
    pub fn with(contents: &Contents) -> Past
        ensures { result.stages ≡ contents.now.past.stages ++ (contents.now.held.items, contents.now.synced) ∷ [] }
    {
        Past { seal: () }
    }
}
