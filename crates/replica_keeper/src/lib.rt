//! Durable replicas: what a replica let out is never forgotten, wherever it is stopped.
//!
//! A message leaves only once its record is synced. A replica that is stopped at any moment opens again as a replica of a front
//! of its notes, which has everything that it let out. Records, and what is kept in one, are this project's own profile.
#![tactic(auto)]

mod calls;
mod durable;
mod durably;
mod keep_world;
mod keeping;
mod laws;
mod reading;
mod record;
mod replay;
mod start;
mod steady;

pub use durable::Durable;
pub use durably::Durably;
pub use keep_world::{DurableList, KeepWorld};
pub use laws::{a_front_of_bytes_is_read_as_a_front, what_was_sent_outlives_stops};
pub use start::StartFault;
