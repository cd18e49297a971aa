//! One replica: it sends operations of its own, receives those of others and delivers them in causal order, and answers
//! queries. It forgets timestamps and messages once they are stable, and answers as one that forgets nothing.
//!
//! That a replica keeps a partially ordered log beside a plain state, and moves into the state what is stable, is the idea
//! of Baquero, Almeida and Shoker (arXiv 1710.04469); the windows, no-ops and checks are this project's own profile. The
//! contracts speak of every history that a replica's fields stand for, in the words of `causal_model`.
#![tactic(auto)]

mod create_fault;
mod epochs;
mod numbers;
mod queries;
mod reach;
mod receiving;
mod replica;
mod sending;
mod settling;
mod step;

pub use causal_model::{Beat, Local, Receive, Refusal};
pub use create_fault::CreateFault;
pub use epochs::{EpochParts, EpochRoom};
pub use numbers::are_numbers;
pub use reach::reach_of;
pub use replica::Replica;
