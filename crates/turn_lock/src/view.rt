//! What a seat of the lock's table knows. It is data of contracts and proofs: no value of it is
//! made, and its numbers have no end.

use std::collections::LinkedList;

/// One turn that recorded something: the number of the pass whose turn it was, and what it
/// recorded. No value of it is made.
pub struct TurnEntry<E> {
    pub by: u64,
    pub what: E,
}

/// E is what a turn records, and K what the lock was told when it was made.
pub struct View<E, K> {
    /// It is the opener's, from which passes are split.
    pub opens: bool,
    /// It is a pass's that was not joined.
    pub live: bool,
    /// How many passes are split and not joined, and how many were ever split.
    pub out: u64,
    pub splits: u64,
    /// The number of a pass.
    pub number: u64,
    pub about: K,
    /// What it has seen of the turns.
    pub seen: LinkedList<TurnEntry<E>>,
    /// What the passes that the opener joined had seen, the last one first.
    pub fronts: LinkedList<LinkedList<TurnEntry<E>>>,
    /// A pass's own turns, or those of the passes that the opener joined.
    pub own: LinkedList<TurnEntry<E>>,
    /// Whether it holds a ticket, and which.
    pub draws: bool,
    pub ticket: u64,
    /// Whether it has learnt by a load that its ticket is served.
    pub serves: bool,
}
