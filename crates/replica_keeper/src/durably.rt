//! What calls on a durable replica answer, and why one isn't started.

/// What a call on a durable replica answers.
#[derive(Debug, Drop, PartialEq, Eq)]
pub enum Durably<T> {
    /// The replica's own answer.
    Done(T),
    /// The keeper failed in this call. Nothing is handed out, and the replica is closed: it can be stopped, and what was kept be
    /// started again.
    KeeperFault,
    /// The replica was closed before.
    Closed,
}
