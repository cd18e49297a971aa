//! A ticket lock round one value.
//!
//! A pass enters a turn, has the value to itself, and leaves the turn with an entry of a list or
//! with none. The value that a turn hands out fits what its pass then has seen, a list that begins
//! with what it had seen. Passes meet by `split`, `join` and `close`: on closing, what each joined
//! pass had seen is a front of the opener's list. `specs/Turns.antt` has the words of the contracts.
#![tactic(auto)]

mod laws;
mod lock;
mod rule;
mod tokens;
mod view;

pub use laws::{turns_of_numbers, worked_joins};
pub use lock::TurnLock;
pub use rule::Story;
pub use tokens::{Opener, Pass, Visit};
pub use view::TurnEntry;
