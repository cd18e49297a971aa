//! What a pass has seen of its mailbox. Contracts alone speak of these types: no value of them is made.

use std::collections::LinkedList;

/// An item, with the number of the pass that posted it.
pub struct Posted<T> {
    pub by: u64,
    pub item: T,
}

/// A line of a roll: a number, and the items that were posted under it, oldest first.
pub struct Line<T> {
    pub by: u64,
    pub items: LinkedList<T>,
}

/// What a pass has seen of its mailbox. Its numbers have no bound.
pub struct Seen<T> {
    /// The pass's number: 0 where it is the first pass, and of a fork how many passes were forked when it was, itself
    /// included.
    pub number: u64,
    /// How many passes were forked from it.
    pub forks: u64,
    /// The first items that were ever posted, oldest first.
    pub posted: LinkedList<Posted<T>>,
    /// So many items were taken, or more.
    pub taken: u64,
    /// What was posted under its own number, and under the number of each pass that was joined to it.
    pub roll: LinkedList<Line<T>>,
    /// At which places of the list stood what it took, and what each pass took that was joined to it.
    pub places: LinkedList<u64>,
}

/// What the mailbox's rule knows of a pass.
pub struct View<T> {
    pub seen: Seen<T>,
    /// What this pass had seen when another was joined to it the last time, and what that one had.
    pub mine: LinkedList<Posted<T>>,
    pub theirs: LinkedList<Posted<T>>,
}
