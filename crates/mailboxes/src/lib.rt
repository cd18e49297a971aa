//! Bounded mailboxes that threads share, each a queue of items, whose passes tell who posted what.
//!
//! The queue is that of `crossbeam_queue`, under a rule of this crate's: there is one list of the items that were ever
//! posted, each with the number of the pass that posted it, and the queue holds the items of that list from the number
//! that were taken on. Public clauses say of it what one pass has seen; passes meet by `fork` and `join` alone.
#![tactic(auto)]

mod laws;
mod mailbox;
mod rule;
mod seen;

pub use laws::worked_rolls;
pub use mailbox::{MailPass, Mailbox};
pub use seen::{Line, Posted, Seen};
